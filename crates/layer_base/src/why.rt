//! Why a container is refused.
ghost use Rattle.std.specs.Prelude.{◌≡◌};
ghost use Rattle.layer_base.specs.declared.why.Why.TheVariants.{Device, Memory};

use crate::Failed;
use std::alloc::AllocError;

/// The rules of a container's headers, in the order in which they are tried.
#[derive(Clone, Copy, Debug, PartialEq, Eq)]
pub enum Rule {
    /// There are more headers than a container may have.
    Many,
    /// The header passes the end of the bytes.
    Cut,
    /// The header does not begin with the format's own number.
    Magic,
    /// The header is of another version of the format.
    Version,
    /// The range ends before it begins, or does not lie above the range before it.
    Order,
}

/// Why a layer is not read as a container.
#[derive(Clone, Copy, Debug, PartialEq, Eq)]
pub enum Why {
    /// The bytes are of another format.
    NotThis,
    /// The layer is read as a container already.
    Taken,
    /// The header at the place `at` breaks a rule.
    Bad { at: u64, rule: Rule },
    /// A call on the device failed.
    Device,
    /// Out of memory.
    Memory,
}

impl From<AllocError> for Why {
    ghost from_gives = { λ _ why. why ≡ Memory };

    fn from(_error: AllocError) -> Why {
        Why::Memory
    }
}

impl From<Failed> for Why {
    ghost from_gives = { λ _ why. why ≡ Device };

    fn from(_failed: Failed) -> Why {
        Why::Device
    }
}
