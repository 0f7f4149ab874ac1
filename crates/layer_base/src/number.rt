//! Numbers in memory.
ghost use Rattle.std.specs.Prelude.{◌≡◌};
ghost use Rattle.layer_base.specs.Number.{low_word};

/// A number of at most 128 bits, as its type has it: with a sign or without.
#[derive(Clone, Copy, Debug, PartialEq, Eq)]
pub enum Number {
    Unsigned(u128),
    Signed(i128),
}

const WORD_END: u128 = 1 << 64;

impl Number {
    /// The low 64 bits, those of two's complement where the number is signed. They are what counts where a number is used
    /// as an address, a word or a count.
    pub fn low_word(self) -> u64
        ensures { result ≡ low_word self }
    {
        match self {
            Number::Unsigned(number) => (number % WORD_END) as u64,
            Number::Signed(number) => (number.cast_unsigned() % WORD_END) as u64,
        }
    }
}
