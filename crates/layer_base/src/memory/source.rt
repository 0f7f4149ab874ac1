//! A source in memory.
ghost use Rattle.std.specs.Prelude.{◌≡◌, ◌↔◌, ◌<◌, ◌≤◌, min, length, take, drop, Some, IsErr, IfOk, OnErr, OnOk, Contains};
ghost use Rattle.std.specs.Io.KnownBytes.{ReadConsumes};
ghost use Rattle.layer_base.specs.Counts.{HasCause, next_count};

use super::calls::count_call;
use super::copy::copy_front;
use crate::{Failed, Source};
use std::marker::Model;

/// A source of bytes in memory. It fails at calls that are known beforehand.
#[derive(Debug, Drop)]
pub struct MemSource {
    bytes: Vec<u8>,
    taken: usize,
    fails: Vec<u64>,
    cut: usize,
    calls: u64,
    faults: u64,
}

impl Model for MemSource {
    ghost use Rattle.std.specs.Prelude.{◌<◌, ◌≤◌, length, drop};
    ghost use Rattle.layer_base.specs.Memory.{Played};

    ghost Value = { Played };

    ghost view = { λ s. record { bytes = drop s.taken s.bytes.items; fails = s.fails.items; cut = s.cut; calls = s.calls; faults = s.faults } };

    ghost invariant = { λ s. (0 < s.cut) × (s.taken ≤ length s.bytes.items) };
}

impl MemSource {
    /// A source of these bytes. The calls whose numbers, from 0, stand in `fails` fail, and no others. Each other
    /// call gives as many bytes as are left, but no more than `cut`.
    pub fn new(bytes: Vec<u8>, fails: Vec<u64>, cut: usize) -> MemSource
        requires { 0 < cut }
        ensures { result ≡ record { bytes = bytes.items; fails = fails.items; cut = cut; calls = 0; faults = 0 } }
    {
        MemSource {
            bytes,
            taken: 0,
            fails,
            cut,
            calls: 0,
            faults: 0,
        }
    }
}

impl Source for MemSource {
    ghost left = { λ s. Some s.bytes };

    ghost faults = { λ s. s.faults };

    fn read(&mut self, buf: &mut [u8]) -> Result<usize, Failed>
        ensures within { IfOk result (λ n. n ≤ length buf.old) }
        ensures bytes { ReadConsumes (Some self.old.bytes) (Some self.new.bytes) result buf.new }
        ensures cause { HasCause self.old.faults self.new.faults (IsErr result) }
        // The calls that were named fail, and no others, and each other call gives all that it may.
        ensures planned { IsErr result ↔ Contains self.old.fails self.old.calls }
        ensures given { IfOk result (λ n. n ≡ min (min self.old.cut (length buf.old)) (length self.old.bytes)) }
        ensures ok { IfOk result (λ n. self.new ≡ record self.old { bytes = drop n self.old.bytes; calls = next_count self.old.calls }) }
        ensures err { OnErr result (self.new ≡ record self.old { calls = next_count self.old.calls; faults = next_count self.old.faults }) }
    {
        count_call(&self.fails, &mut self.calls, &mut self.faults)?;
        let n = copy_front(&self.bytes[self.taken..], self.cut, buf);
        self.taken += n;
        Ok(n)
    }
}
