//! What a search for the kernel finds.
ghost use Rattle.std.specs.Prelude.{◌≡◌};
ghost use Rattle.kernel_find.specs.declared.found.FindFault.TheVariants as faults;

use kernel_records::{Kernel, Need};
use layer_base::DeviceFailed;
use std::alloc::AllocError;

/// What a search for the kernel finds.
#[derive(Clone, Copy, Debug, PartialEq, Eq)]
pub enum Found {
    /// The kernel.
    Kernel(Kernel),
    /// The symbol file lacks this symbol, the first name that the search needs and the file lacks.
    NoSymbol { need: Need },
    /// The symbol file lacks this member, the first name that the search needs and the file lacks.
    NoMember { need: Need },
    /// The banner of the symbol file occurs nowhere in physical memory.
    NoBanner,
    /// No task in physical memory was accepted.
    NoTask,
}

/// Why a search for the kernel failed.
#[derive(Clone, Copy, Debug, PartialEq, Eq)]
pub enum FindFault {
    /// A call on the image's device failed.
    Device,
    /// Out of memory.
    Memory,
}

impl From<DeviceFailed> for FindFault {
    ghost from_gives = { λ _ fault. fault ≡ faults.Device };

    fn from(_: DeviceFailed) -> Self {
        FindFault::Device
    }
}

impl From<AllocError> for FindFault {
    ghost from_gives = { λ _ fault. fault ≡ faults.Memory };

    fn from(_: AllocError) -> Self {
        FindFault::Memory
    }
}
