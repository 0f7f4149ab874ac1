//! Numbers.
ghost use Rattle.std.specs.Prelude.{◌≡◌, ◌≤◌};
ghost use Rattle.command_words.specs.Number.{digits_of, with_digit, number_of};

use crate::LineFault;

// The value of one or more digits in a base.
fn digits_of(base: u32, word: &[u8]) -> Result<u64, LineFault>
    requires low { 2 ≤ base }
    requires high { base ≤ 36 }
    ensures { result ≡ digits_of base word.now }
{
    if word.is_empty() {
        return Err(LineFault::Number);
    }
    let mut value = 0u64;
    for byte in word {
        let Some(next) = with_digit(base, value, *byte) else {
            return Err(LineFault::Number);
        };
        value = next;
    }
    Ok(value)
}

// The value of digits, and of one more digit behind them.
fn with_digit(base: u32, value: u64, byte: u8) -> Option<u64>
    requires low { 2 ≤ base }
    requires high { base ≤ 36 }
    ensures { result ≡ with_digit base value byte }
{
    let digit = char::from(byte).to_digit(base)?;
    value
        .checked_mul(u64::from(base))?
        .checked_add(u64::from(digit))
}

// Reads a number: decimal digits, or `0x` and hexadecimal digits of either case.
pub(crate) fn number_of(word: &[u8]) -> Result<u64, LineFault>
    ensures { result ≡ number_of word.now }
{
    match word {
        [b'0', b'x', digits @ ..] => digits_of(16, digits),
        _ => digits_of(10, word),
    }
}
