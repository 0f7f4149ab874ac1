//! The words that ask for a made image.
ghost use Rattle.std.specs.Prelude.{◌≡◌, ◌≤◌, map, string_bytes, IfSome};
ghost use Rattle.program_words.specs.Made.{made_of};

use crate::number::number_within;

/// The number of the made image that the words ask for: `--make N`, with N in decimal digits and from 1 to 64. Other
/// words ask for none.
pub fn made_words(words: &[String]) -> Option<u64>
    ensures value { result ≡ made_of (map string_bytes words.now) }
    ensures least { IfSome result (λ number. 1 ≤ number) }
    ensures most { IfSome result (λ number. number ≤ 64) }
{
    match words {
        [option, number] if option.as_str() == "--make" => number_within(1, 64, number),
        _ => None,
    }
}
