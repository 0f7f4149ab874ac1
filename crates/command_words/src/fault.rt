//! Why a line asks for nothing that can be done.
ghost use Rattle.std.specs.Prelude.{◌≡◌};
ghost use Rattle.command_words.specs.declared.fault.LineFault.TheVariants.{Memory};

use std::alloc::AllocError;

/// Why a line is no command. Of the causes that hold, the one that stands first in this list is the fault; of
/// `SpaceName`, `Number` and `Hex` it is that of the leftmost word.
#[derive(Clone, Copy, Debug, PartialEq, Eq)]
pub enum LineFault {
    /// The line has more than 4,096 bytes, its carriage return counted.
    TooLong,
    /// The first word is no command.
    Unknown,
    /// The command wants another number of words.
    Words { wanted: u32 },
    /// A word is no space of addresses.
    SpaceName,
    /// A word is no number below 2^64.
    Number,
    /// A word is no run of bytes in hexadecimal digits, or a `%` in a name has no two hexadecimal digits behind it.
    Hex,
    /// A length, the end of a range or the number of a path's names is outside its limits.
    Range,
    /// Out of memory.
    Memory,
}

impl From<AllocError> for LineFault {
    ghost from_gives = { λ _ fault. fault ≡ Memory };

    fn from(_error: AllocError) -> LineFault {
        LineFault::Memory
    }
}
