//! A device and a source in memory that also show how many calls were made on them.
use layer_base::{Device, Failed, MemDevice, MemSource, Source};
use std::cell::Cell;
use std::rc::Rc;

/// A device in memory. The run takes it for good, so its count of calls is shared with who made it.
#[derive(Drop)]
pub(crate) struct CountedDevice {
    pub(crate) device: MemDevice,
    pub(crate) calls: Rc<Cell<u64>>,
}

impl Device for CountedDevice {
    ghost use Rattle.std.specs.Prelude.{Some};

    ghost held = { λ d. Some d.device.bytes };

    ghost faults = { λ d. d.device.faults };

    fn read_at(&mut self, at: u64, buf: &mut [u8]) -> Result<usize, Failed> {
        self.calls.set(self.calls.get().saturating_add(1));
        self.device.read_at(at, buf)
    }
}

/// A source in memory.
#[derive(Drop)]
pub(crate) struct CountedSource {
    pub(crate) source: MemSource,
    pub(crate) calls: u64,
}

impl Source for CountedSource {
    ghost use Rattle.std.specs.Prelude.{Some};

    ghost left = { λ s. Some s.source.bytes };

    ghost faults = { λ s. s.source.faults };

    fn read(&mut self, buf: &mut [u8]) -> Result<usize, Failed> {
        self.calls = self.calls.saturating_add(1);
        self.source.read(buf)
    }
}
