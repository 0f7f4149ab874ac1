//! Standard output as a sink.
use crate::calls::{count_fault, write_some};
use layer_base::{Sink, SinkFault};
use std::io;

/// Standard output. Nothing is kept back: a write is one system call.
#[derive(Drop)]
pub struct RealOutput<R: Print + Drop> {
    rt: R,
    faults: u64,
}

impl<R: Print + Drop> RealOutput<R> {
    /// The sink of what the runtime prints.
    pub fn new(rt: R) -> Self {
        RealOutput { rt, faults: 0 }
    }
}

impl<R: Print + Drop> Sink for RealOutput<R> {
    ghost use Rattle.std.specs.Prelude.{None};

    ghost written = { λ _. None };

    ghost faults = { λ sink. sink.faults };

    fn write(&mut self, piece: &[u8]) -> Result<usize, SinkFault> {
        let answer = write_some(&mut io::writer(&self.rt), piece);
        match count_fault(&mut self.faults, answer) {
            Ok(n) => Ok(n),
            Err(_) => Err(SinkFault::Failed),
        }
    }
}
