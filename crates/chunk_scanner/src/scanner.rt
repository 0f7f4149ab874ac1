//! A scanner of a range of addresses.
ghost use Rattle.std.specs.Prelude.{◌≡◌, ◌<◌, ◌≤◌, length, vec_len, IsErr, IfOk, IfSome};
ghost use Rattle.layer_base.specs.AddressSpace.{AddressSpace};
ghost use Rattle.layer_base.specs.Counts.{HasCause};
ghost use Rattle.layer_base.specs.View.{physical};
ghost use Rattle.space_memory.specs.InSpace.{in_space};
ghost use Rattle.space_memory.specs.State.{IsSameMemory};
ghost use Rattle.chunk_scanner.specs.Hits.{hits};
ghost use Rattle.chunk_scanner.specs.State.{hits_left, pairs_left, KeepsTrue, GivesFirst, IsHitWithin};

use crate::position::Position;
use crate::scan::next;
use crate::wanted::Wanted;
use crate::window::Window;
use layer_base::{DeviceFailed, Layer, Space, Steps};
use needle_search::{Hit, Needles, Progress};
use space_memory::Memory;
use std::alloc::{AllocError, Global};
use std::marker::Model;
use std::sync::ledger::Ledger;

/// Gives the hits of needles in a range of addresses, which rise by address, then by needle number.
#[derive(Drop)]
pub struct Scanner {
    wanted: Wanted,
    position: Position,
    window: Window,
    progress: Progress,
}

impl Model for Scanner {
    ghost use Rattle.chunk_scanner.specs.State.{ScannerState};
    ghost use Rattle.chunk_scanner.specs.Position.{addresses_left};
    ghost use Rattle.chunk_scanner.specs.Scan.{IsScan};
    ghost use Rattle.chunk_scanner.specs.Window.{kept_bytes};

    ghost Value = { ScannerState };

    ghost view = { λ s. record { space = s.wanted.space; last = s.wanted.last; needles = s.wanted.needles; at = s.position.at; number = s.position.number; left = addresses_left s.wanted.last s.position; kept = kept_bytes s.window } };

    ghost invariant = { λ s. IsScan s.wanted s.position s.window s.progress };
}

// A buffer of so many bytes.
fn zeros(alloc: Global, count: usize) -> Result<Vec<u8>, AllocError>
    ensures { IfOk result (λ zeros. vec_len zeros ≡ count) }
{
    vec![in alloc; 0; count]
}

impl Scanner {
    /// A scanner of the addresses of a space from `first` to `last`, themselves included, which reads at most `chunk`
    /// bytes at a time and searches them before it reads on. It takes all its memory here.
    pub fn new(
        alloc: Global,
        space: Space,
        first: u64,
        last: u64,
        needles: Needles,
        chunk: usize,
    ) -> Result<Scanner, AllocError>
        requires order { first ≤ last }
        requires some { 1 ≤ length needles }
        requires least { 4096 ≤ chunk }
        requires most { chunk ≤ 16777216 }
        ensures hits { IfOk result (λ scanner. (memory : AddressSpace) → hits_left memory scanner ≡ hits (in_space memory space) first last needles) }
        ensures kept { IfOk result (λ scanner. (memory : AddressSpace) → KeepsTrue memory scanner) }
        ensures last { IfOk result (λ scanner. scanner.last ≡ last) }
        ensures needles { IfOk result (λ scanner. scanner.needles ≡ needles) }
    {
        let longest = needles.longest();
        let buf = zeros(alloc, longest + chunk)?;
        Ok(Scanner {
            wanted: Wanted {
                space,
                last,
                needles,
                longest,
                chunk,
            },
            position: Position {
                at: first,
                number: 0,
                done: false,
            },
            window: Window {
                buf,
                start: 0,
                end: 0,
            },
            progress: Progress::new(),
        })
    }

    /// Gives the next hit; None exactly where none is left. After a failure the hits left to give are as before. It takes
    /// no memory.
    pub fn next_hit<Y: Layer, L: Ledger>(
        &mut self,
        memory: &mut Memory<Y>,
        steps: &mut Steps<L>,
    ) -> Result<Option<Hit>, DeviceFailed>
        requires { IfSome memory.old.view (λ view. KeepsTrue (physical view) self.old) }
        ensures hits { IfSome memory.old.view (λ view. GivesFirst (hits_left (physical view) self.old) (hits_left (physical view) self.new) result) }
        ensures kept { IfSome memory.old.view (λ view. KeepsTrue (physical view) self.new) }
        ensures fewer { IfOk result (λ found. IfSome found (λ hit. pairs_left self.new < pairs_left self.old)) }
        ensures within { IfOk result (λ found. IfSome found (IsHitWithin self.old.last self.old.needles)) }
        ensures last { self.new.last ≡ self.old.last }
        ensures needles { self.new.needles ≡ self.old.needles }
        ensures memory { IsSameMemory memory.old memory.new }
        ensures cause { HasCause memory.old.faults memory.new.faults (IsErr result) }
    {
        next(
            &self.wanted,
            &mut self.position,
            &mut self.window,
            &mut self.progress,
            memory,
            steps,
        )
    }
}
