//! The kernel of an image.
ghost use Rattle.std.specs.Prelude.{◌≡◌};
ghost use Rattle.kernel_records.specs.Shift.{shifted, unshifted};

use layer_base::Levels;

/// Where the kernel of an image is.
#[derive(Clone, Copy, Debug, PartialEq, Eq)]
pub struct Kernel {
    /// The address of its first task.
    pub task: u64,
    /// How far its image stands from where it was linked to stand in physical memory.
    pub physical: u64,
    /// How far its addresses stand from those of its symbols, modulo 2^64.
    pub shift: u64,
    /// The root of its page tables.
    pub root: u64,
    /// How many levels they have.
    pub levels: Levels,
}

impl Kernel {
    /// The address in the kernel of what the symbol file has at an address: the shift is added modulo 2^64.
    pub fn shifted(self, address: u64) -> u64
        ensures { result ≡ shifted self address }
    {
        address.wrapping_add(self.shift)
    }

    /// The address in the symbol file of what the kernel has at an address: the shift is taken away modulo 2^64.
    pub fn unshifted(self, address: u64) -> u64
        ensures { result ≡ unshifted self address }
    {
        address.wrapping_sub(self.shift)
    }
}
