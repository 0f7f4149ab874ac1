//! A walk, turn by turn.
ghost use Rattle.std.specs.Prelude.{◌≡◌, ◌+◌, ◌<◌, ◌≤◌, IsErr, IsErrOf, IfOk, IfSome, IfNone, OnOk, OnErr, Ok};
ghost use Rattle.layer_base.specs.Counts.{HasCause};
ghost use Rattle.layer_base.specs.View.{physical};
ghost use Rattle.space_memory.specs.InSpace.{in_space};
ghost use Rattle.space_memory.specs.State.{IsSameMemory};
ghost use Rattle.list_walk.specs.State.{ring_walk, chain_walk};
ghost use Rattle.list_walk.specs.Turn.{turn, after, end_link, end_stop, end_at, base_of, offset_of};
ghost use Rattle.list_walk.specs.Objects.{GoesOn, HasOneLess, HasNewLink, IsFreeLink};
ghost use Rattle.list_walk.specs.declared.turn.Turn.TheVariants.{Stopped};

use crate::follow::word_behind;
use crate::{Shape, Turn};
use kernel_records::{Stop, WalkFault};
use layer_base::{DeviceFailed, Layer, Space, Steps};
use space_memory::Memory;
use std::alloc::{AllocError, Global};
use std::collections::BTreeSet;
use std::marker::Model;
use std::sync::ledger::Ledger;

/// Gives the objects of a ring or a chain one after another, no link twice.
#[derive(Drop)]
pub struct Walk {
    is_ring: bool,
    space: Space,
    start: u64,
    shape: Shape,
    given: BTreeSet<u64>,
    last: Option<u64>,
    stop: Option<Stop>,
}

impl Model for Walk {
    ghost use Rattle.list_walk.specs.Links.{AreLinks};
    ghost use Rattle.list_walk.specs.State.{WalkState};

    ghost Value = { WalkState };

    ghost view = { λ w. record { is_ring = w.is_ring; space = w.space; start = w.start; back = w.shape.back; next = w.shape.next; given = w.given.keys; last = w.last; stop = w.stop } };

    ghost invariant = { λ w. AreLinks w.given.keys };
}

impl Walk {
    /// A walk over a ring, whose first word stands `shape.next` bytes after the head's link at `head`. It takes no memory.
    pub fn ring(alloc: Global, space: Space, head: u64, shape: Shape) -> Walk
        ensures { result ≡ ring_walk space head shape.back shape.next }
    {
        Walk {
            is_ring: true,
            space,
            start: head,
            shape,
            given: BTreeSet::new(alloc),
            last: None,
            stop: None,
        }
    }

    /// A walk over a chain, whose first word stands at `place`. It takes no memory.
    pub fn chain(alloc: Global, space: Space, place: u64, shape: Shape) -> Walk
        ensures { result ≡ chain_walk space place shape.back shape.next }
    {
        Walk {
            is_ring: false,
            space,
            start: place,
            shape,
            given: BTreeSet::new(alloc),
            last: None,
            stop: None,
        }
    }

    // What the next word stands behind, and how far behind it.
    fn next_place(&self) -> (u64, u64)
        ensures base { result.0 ≡ base_of self.now }
        ensures offset { result.1 ≡ offset_of self.now }
    {
        match self.last {
            Some(link) => (link, self.shape.next),
            None if self.is_ring => (self.start, self.shape.next),
            None => (self.start, 0),
        }
    }

    // The link at which it ends, and the stop that says so.
    fn end(&self) -> (u64, Stop)
        ensures link { result.0 ≡ end_link self.now }
        ensures stop { result.1 ≡ end_stop self.now }
    {
        if self.is_ring {
            (self.start, Stop::Head)
        } else {
            (0, Stop::End)
        }
    }

    // Why the walk stops at a link, before its next word is read.
    fn end_at(&self, link: u64) -> Option<Stop>
        ensures stop { result ≡ end_at self.now link }
        ensures free { IfNone result (IsFreeLink self.now link) }
    {
        let (end, stop) = self.end();
        if link == end {
            return Some(stop);
        }
        if self.given.contains(&link) {
            return Some(Stop::Repeated { at: link });
        }
        if link < self.shape.back {
            return Some(Stop::Outside { at: link });
        }
        None
    }

    // The turn of a walk that hasn't stopped.
    fn turn<Y: Layer, L: Ledger>(
        &self,
        memory: &mut Memory<Y>,
        steps: &mut Steps<L>,
    ) -> Result<Turn, DeviceFailed>
        requires { self.now.stop ≡ None }
        ensures turn { IfSome memory.old.view (λ view. IfOk result (λ found. found ≡ turn (in_space (physical view) self.now.space) self.now)) }
        ensures link { IfOk result (HasNewLink self.now) }
        ensures most_steps { steps.new ≤ steps.old + 96 }
        ensures memory { IsSameMemory memory.old memory.new }
        ensures cause { HasCause memory.old.faults memory.new.faults (IsErr result) }
    {
        let (base, offset) = self.next_place();
        let link = match word_behind(memory, self.space, base, offset, steps)? {
            Ok(link) => link,
            Err(stop) => return Ok(Turn::Stopped(stop)),
        };
        if let Some(stop) = self.end_at(link) {
            return Ok(Turn::Stopped(stop));
        }
        match word_behind(memory, self.space, link, self.shape.next, steps)? {
            Ok(_) => Ok(Turn::Object {
                at: link - self.shape.back,
            }),
            Err(stop) => Ok(Turn::Stopped(stop)),
        }
    }

    // Keeps what a turn found. When out of memory, the walk stays as it was.
    fn keep(&mut self, turn: Turn) -> Result<(), AllocError>
        requires { HasNewLink self.old turn }
        ensures ok { OnOk result (self.new ≡ after self.old turn) }
        ensures fewer { OnOk result (HasOneLess self.old self.new turn) }
        ensures err { OnErr result (self.new ≡ self.old) }
    {
        match turn {
            Turn::Object { at } => {
                let link = at + self.shape.back;
                self.given.insert(link)?;
                self.last = Some(link);
            }
            Turn::Stopped(stop) => self.stop = Some(stop),
        }
        Ok(())
    }

    /// Gives the start of the next object, or the stop. A stopped walk answers the same stop again and takes no step. After
    /// a failure of the image or out of memory the walk is as it was, and the same call can be made again.
    pub fn advance<Y: Layer, L: Ledger>(
        &mut self,
        memory: &mut Memory<Y>,
        steps: &mut Steps<L>,
    ) -> Result<Turn, WalkFault>
        ensures turn { IfSome memory.old.view (λ view. IfOk result (λ found. found ≡ turn (in_space (physical view) self.old.space) self.old)) }
        ensures goes_on { IfSome memory.old.view (λ view. IfOk result (GoesOn (in_space (physical view) self.old.space) self.old self.new)) }
        ensures state { IfOk result (λ found. self.new ≡ after self.old found) }
        ensures link { IfOk result (HasNewLink self.old) }
        ensures fewer { IfOk result (HasOneLess self.old self.new) }
        ensures space { self.new.space ≡ self.old.space }
        ensures err { OnErr result (self.new ≡ self.old) }
        ensures still { IfSome self.old.stop (λ stop. result ≡ Ok (Stopped stop)) }
        ensures still_walk { IfSome self.old.stop (λ stop. self.new ≡ self.old) }
        ensures still_steps { IfSome self.old.stop (λ stop. steps.new ≡ steps.old) }
        ensures most_steps { steps.new ≤ steps.old + 96 }
        ensures memory { IsSameMemory memory.old memory.new }
        ensures cause { HasCause memory.old.faults memory.new.faults (IsErrOf result WalkFault.Device) }
    {
        if let Some(stop) = self.stop {
            return Ok(Turn::Stopped(stop));
        }
        let turn = self.turn(memory, steps)?;
        self.keep(turn)?;
        Ok(turn)
    }
}
