//! Numbers and words of a line of a case file.
use anyhow::{Context, Result};

/// A number: decimal, or hexadecimal behind `0x`.
pub(crate) fn number_of(word: &str) -> Result<u64> {
    let parsed = match word.strip_prefix("0x") {
        Some(digits) => u64::from_str_radix(digits, 16),
        None => u64::from_str_radix(word, 10),
    };
    parsed.context(format_args!("no number: {word}"))
}

pub(crate) fn size_of(word: &str) -> Result<usize> {
    Ok(number_of(word)? as usize)
}

/// The first word of a text, and what follows the blank behind it.
pub(crate) fn first_word(text: &str) -> (&str, &str) {
    text.split_once(' ').unwrap_or((text, ""))
}
