//! Rows of objects.
ghost use Rattle.std.specs.Prelude.{◌≡◌, ℕ, List, ◌++◌, IfSome, IsErrOf, OnOk, OnErr};
ghost use Rattle.std.specs.Io.{StartsWith};
ghost use Rattle.layer_base.specs.AddressSpace.{AddressSpace};
ghost use Rattle.layer_base.specs.Counts.{HasCause};
ghost use Rattle.layer_base.specs.View.{physical};
ghost use Rattle.space_memory.specs.State.{IsSameMemory};

use kernel_records::WalkFault;
use layer_base::{Layer, Steps};
use space_memory::Memory;
use std::sync::ledger::Ledger;

/// What is printed of an object of a walk.
pub trait ObjectRow {
    /// The row of the object at an address over a physical memory, with its newline.
    ghost row_text: { Self → AddressSpace → ℕ → List ℕ };

    /// Appends the row of the object at an address. After a failure what stood in the text still stands at its front.
    fn append_row<Y: Layer, L: Ledger>(
        &self,
        text: &mut Vec<u8>,
        at: u64,
        memory: &mut Memory<Y>,
        steps: &mut Steps<L>,
    ) -> Result<(), WalkFault>
        ensures ok { IfSome memory.old.view (λ view. OnOk result (text.new.items ≡ text.old.items ++ row_text self.now (physical view) at)) }
        ensures err { OnErr result (StartsWith text.new.items text.old.items) }
        ensures memory { IsSameMemory memory.old memory.new }
        ensures cause { HasCause memory.old.faults memory.new.faults (IsErrOf result WalkFault.Device) };
}
