//! A device, shown as it is or as the container that it holds.
ghost use Rattle.std.specs.Prelude.{◌≡◌, ◌-◌, ◌^◌, ◌<◌, length, option_map, IsErr, IfOk, IfSome};
ghost use Rattle.layer_base.specs.Counts.{HasCause, next_count};
ghost use Rattle.layer_base.specs.Run.{IsWithin, IsTrueOf};
ghost use Rattle.layer_base.specs.Reading.{reach_of, ReachesTo};
ghost use Rattle.layer_base.specs.View.{physical};
ghost use Rattle.layer_base.specs.View.View.{File};

use layer_base::{Device, DeviceFailed, Kind, Layer, Reading, Run, Why, run_of_reading};
use lime_layer::lime_of;
use std::alloc::Global;

/// An image over one device. At first it is the bytes of the device: what stands at a place of the device stands at
/// that physical address, and every address from the device's end on is a hole. A container that is attached shows
/// its ranges instead.
#[derive(Drop)]
pub struct FileLayer<D: Device + Drop> {
    alloc: Global,
    device: D,
    reading: Reading,
    calls: u64,
}

impl<D: Device + Drop> FileLayer<D> {
    /// The image over a device. It takes no memory, and calls nothing.
    pub fn new(alloc: Global, device: D) -> FileLayer<D>
        ensures kind { ⟦<FileLayer<D> as Layer>⟧.kind result ≡ Kind.File }
        ensures view { ⟦<FileLayer<D> as Layer>⟧.view result ≡ option_map File (D.held device) }
        ensures faults { ⟦<FileLayer<D> as Layer>⟧.faults result ≡ D.faults device }
        ensures calls { ⟦<FileLayer<D> as Layer>⟧.calls result ≡ 0 }
    {
        FileLayer {
            alloc,
            device,
            reading: Reading::Raw,
            calls: 0,
        }
    }
}

impl<D: Device + Drop> Layer for FileLayer<D> {
    ghost use Rattle.file_layer.specs.Shown.{shown, kind_of};

    ghost view = { λ layer. shown layer.reading (D.held layer.device) };

    ghost kind = { λ layer. kind_of layer.reading };

    ghost faults = { λ layer. D.faults layer.device };

    ghost calls = { λ layer. layer.calls };

    fn kind(&self) -> Kind {
        match self.reading {
            Reading::Raw => Kind::File,
            Reading::Ranges(_) => Kind::Lime,
        }
    }

    fn attach(&mut self, format: Kind, _param: u64) -> Result<(), Why> {
        if let Reading::Ranges(_) = self.reading {
            return Err(Why::Taken);
        }
        match format {
            Kind::File => Err(Why::NotThis),
            Kind::Lime => {
                let segments = lime_of(self.alloc, &mut self.device)?;
                self.reading = Reading::Ranges(segments);
                Ok(())
            }
        }
    }

    fn run_at(&mut self, at: u64, buf: &mut [u8]) -> Result<Run, DeviceFailed>
        requires { 0 < length buf.old }
        ensures within { IfOk result (IsWithin at (length buf.old)) }
        ensures run { IfSome (⟦<Self as Layer>⟧.view self.old) (λ view. IfOk result (IsTrueOf (physical view) at buf.new)) }
        ensures same_view { ⟦<Self as Layer>⟧.view self.new ≡ ⟦<Self as Layer>⟧.view self.old }
        ensures same_kind { ⟦<Self as Layer>⟧.kind self.new ≡ ⟦<Self as Layer>⟧.kind self.old }
        ensures calls { ⟦<Self as Layer>⟧.calls self.new ≡ next_count (⟦<Self as Layer>⟧.calls self.old) }
        ensures cause { HasCause (⟦<Self as Layer>⟧.faults self.old) (⟦<Self as Layer>⟧.faults self.new) (IsErr result) }
        // How far a hole reaches.
        ensures reach { IfSome (⟦<Self as Layer>⟧.view self.old) (λ view. IfOk result (ReachesTo (reach_of view at))) }
        ensures raw_reach { ⟦<Self as Layer>⟧.kind self.old ≡ Kind.File → IfOk result (ReachesTo (2 ^ 64 - 1)) }
    {
        self.calls = self.calls.saturating_add(1);
        run_of_reading(&mut self.device, &self.reading, at, buf)
    }
}
