//! Lines that come one by one.
ghost use Rattle.std.specs.Prelude.{◌≡◌, ℕ, ◌<◌, List, IfNone, IfOk, IfSome, IsErrOf, OnErr};
ghost use Rattle.std.specs.Io.{StartsWith};
ghost use Rattle.layer_base.specs.AddressSpace.{AddressSpace};
ghost use Rattle.layer_base.specs.Counts.{HasCause};
ghost use Rattle.layer_base.specs.View.{physical};
ghost use Rattle.space_memory.specs.State.{IsSameMemory};
ghost use Rattle.walk_text.specs.Added.{AddsLine};

use kernel_records::{Stop, WalkFault};
use layer_base::{Layer, Steps};
use space_memory::Memory;
use std::sync::ledger::Ledger;

/// Lines that come one by one, and behind them the line of a stop.
pub trait Lines {
    /// The text that is still to come over a physical memory, the line of the stop included.
    ghost rest: { Self → AddressSpace → List ℕ };

    /// A bound on how many calls are still to come.
    ghost left: { Self → ℕ };

    /// Appends the next line with its newline, or an empty piece, and answers None; or answers the stop where no line is
    /// left, and appends nothing. After a failure what stood in the text still stands at its front.
    fn append_line<Y: Layer, L: Ledger>(
        &mut self,
        text: &mut Vec<u8>,
        memory: &mut Memory<Y>,
        steps: &mut Steps<L>,
    ) -> Result<Option<Stop>, WalkFault>
        ensures line { IfSome memory.old.view (λ view. AddsLine (rest self.old (physical view)) (rest self.new (physical view)) text.old.items text.new.items result) }
        ensures same { IfOk result (λ stop. IfSome stop (λ _. text.new.items ≡ text.old.items)) }
        ensures err { OnErr result (StartsWith text.new.items text.old.items) }
        ensures fewer { IfOk result (λ stop. IfNone stop (left self.new < left self.old)) }
        ensures memory { IsSameMemory memory.old memory.new }
        ensures cause { HasCause memory.old.faults memory.new.faults (IsErrOf result WalkFault.Device) };
}
