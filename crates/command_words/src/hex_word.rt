//! Bytes that are written as hexadecimal digits.
ghost use Rattle.command_words.specs.Answer.{Gives};
ghost use Rattle.command_words.specs.Hex.{needle_of};

use crate::LineFault;
use hex::FromHexError;
use layer_base::Name;
use std::alloc::Global;

// Reads an even number of hexadecimal digits, at least two, as the bytes that they write.
pub(crate) fn needle_of(alloc: Global, word: &[u8]) -> Result<Name, LineFault>
    ensures { Gives result (needle_of word.now) }
{
    if word.is_empty() {
        return Err(LineFault::Hex);
    }
    match hex::decode(alloc, word) {
        Ok(bytes) => Ok(Name::from(bytes)),
        Err(FromHexError::OutOfMemory) => Err(LineFault::Memory),
        Err(_) => Err(LineFault::Hex),
    }
}
