//! A device in memory.
ghost use Rattle.std.specs.Prelude.{◌≡◌, ◌↔◌, ◌-◌, ◌^◌, ◌<◌, ◌≤◌, min, length, take, drop, Some, IsErr, IfOk, IfSome, OnErr, OnOk, Contains};
ghost use Rattle.layer_base.specs.Counts.{HasCause, next_count};

use super::calls::count_call;
use super::copy::copy_front;
use crate::{Device, Failed};
use std::marker::Model;

/// A device that holds its bytes in memory. It fails at calls that are known beforehand.
#[derive(Debug, Drop)]
pub struct MemDevice {
    bytes: Vec<u8>,
    fails: Vec<u64>,
    cut: usize,
    calls: u64,
    faults: u64,
}

impl Model for MemDevice {
    ghost use Rattle.std.specs.Prelude.{◌<◌};
    ghost use Rattle.layer_base.specs.Memory.{Played};

    ghost Value = { Played };

    ghost view = { λ d. record { bytes = d.bytes.items; fails = d.fails.items; cut = d.cut; calls = d.calls; faults = d.faults } };

    ghost invariant = { λ d. 0 < d.cut };
}

impl MemDevice {
    /// A device of these bytes. The calls whose numbers, from 0, stand in `fails` fail, and no others. Each other
    /// call gives as many bytes as there are, but no more than `cut`.
    pub fn new(bytes: Vec<u8>, fails: Vec<u64>, cut: usize) -> MemDevice
        requires { 0 < cut }
        ensures { result ≡ record { bytes = bytes.items; fails = fails.items; cut = cut; calls = 0; faults = 0 } }
    {
        MemDevice {
            bytes,
            fails,
            cut,
            calls: 0,
            faults: 0,
        }
    }
}

impl Device for MemDevice {
    ghost held = { λ d. Some d.bytes };

    ghost faults = { λ d. d.faults };

    fn read_at(&mut self, at: u64, buf: &mut [u8]) -> Result<usize, Failed>
        ensures within { IfOk result (λ n. n ≤ length buf.old) }
        ensures bytes { IfOk result (λ n. take n buf.new ≡ take n (drop at self.old.bytes)) }
        ensures end { IfOk result (λ n. n ≡ 0 → 0 < length buf.old → length self.old.bytes ≤ at) }
        ensures few { length self.old.bytes < 2 ^ 63 }
        ensures same { self.new.bytes ≡ self.old.bytes }
        ensures cause { HasCause self.old.faults self.new.faults (IsErr result) }
        // The calls that were named fail, and no others, and each other call gives all that it may.
        ensures planned { IsErr result ↔ Contains self.old.fails self.old.calls }
        ensures given { IfOk result (λ n. n ≡ min (min self.old.cut (length buf.old)) (length self.old.bytes - at)) }
        ensures ok { OnOk result (self.new ≡ record self.old { calls = next_count self.old.calls }) }
        ensures err { OnErr result (self.new ≡ record self.old { calls = next_count self.old.calls; faults = next_count self.old.faults }) }
    {
        count_call(&self.fails, &mut self.calls, &mut self.faults)?;
        if at >= self.bytes.len() as u64 {
            return Ok(0);
        }
        Ok(copy_front(&self.bytes[at as usize..], self.cut, buf))
    }
}
