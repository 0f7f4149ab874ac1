//! Names, and the words of a type and its path.
ghost use Rattle.std.specs.Prelude.{◌≡◌, ◌∷◌, map, MatchResult};
ghost use Rattle.command_words.specs.Answer.{Gives};
ghost use Rattle.command_words.specs.Name.{escaped, piece_of, name_of_pieces, name_of, names_of, type_of_parts, type_of};

use crate::split::pieces_of;
use crate::{LineFault, Names};
use layer_base::Name;
use std::alloc::Global;

// The byte of two hexadecimal digits.
fn escaped(high: u8, low: u8) -> Result<u8, LineFault>
    ensures { result ≡ escaped high low }
{
    match (char::from(high).to_digit(16), char::from(low).to_digit(16)) {
        (Some(high), Some(low)) => Ok((high * 16 + low) as u8),
        _ => Err(LineFault::Hex),
    }
}

// What stands behind a `%`: the byte of two hexadecimal digits, and the bytes behind them.
fn piece_of(piece: &[u8]) -> Result<(u8, &[u8]), LineFault>
    ensures { MatchResult result (λ p. piece_of piece.now ≡ Ok (p.0 ∷ p.1.now)) (λ fault. piece_of piece.now ≡ Err fault) }
{
    match piece {
        [high, low, plain @ ..] => Ok((escaped(*high, *low)?, plain)),
        _ => Err(LineFault::Hex),
    }
}

// Bytes, and what the pieces behind a `%` each stand for.
fn unescaped(alloc: Global, plain: &[u8], pieces: &[&[u8]]) -> Result<Name, LineFault>
    ensures { Gives result (name_of_pieces (plain.now ∷ map (λ piece. piece.now) pieces.now)) }
{
    let mut bytes = Vec::from_slice(alloc, plain)?;
    for piece in pieces {
        let (byte, rest) = piece_of(piece)?;
        bytes.extend_from_slice(&[byte])?;
        bytes.extend_from_slice(rest)?;
    }
    Ok(Name::from(bytes))
}

// Reads a name: `%` and two hexadecimal digits stand for one byte, every other byte for itself.
pub(crate) fn name_of(alloc: Global, word: &[u8]) -> Result<Name, LineFault>
    ensures { Gives result (name_of word.now) }
{
    let pieces = pieces_of(alloc, word, b'%')?;
    match pieces.as_slice() {
        [] => Ok(Name::new(alloc)),
        [plain, pieces @ ..] => unescaped(alloc, plain, pieces),
    }
}

// Reads names.
fn names_of(alloc: Global, parts: &[&[u8]]) -> Result<Names, LineFault>
    ensures { Gives result (names_of (map (λ part. part.now) parts.now)) }
{
    let mut names = Names::new(alloc);
    for part in parts {
        names.add(name_of(alloc, part)?)?;
    }
    Ok(names)
}

// Reads a type's name and the path behind it, separated by dots. The dots are looked for before escapes are read.
pub(crate) fn type_of(alloc: Global, word: &[u8]) -> Result<(Name, Names), LineFault>
    ensures { Gives result (type_of word.now) }
{
    let parts = pieces_of(alloc, word, b'.')?;
    match parts.as_slice() {
        [] => Ok((Name::new(alloc), Names::new(alloc))),
        [name, path @ ..] => Ok((name_of(alloc, name)?, names_of(alloc, path)?)),
    }
}
