//! The pieces of a word.
ghost use Rattle.std.specs.Prelude.{◌≡◌, ◌==◌, map, IfOk};
ghost use Rattle.std.specs.List.{slice_split};

use std::alloc::{AllocError, Global};

// The pieces of a word between the places of a byte, at least one.
pub(crate) fn pieces_of(alloc: Global, word: &[u8], byte: u8) -> Result<Vec<&[u8]>, AllocError>
    ensures { IfOk result (λ pieces. map (λ piece. piece.now) pieces.items ≡ slice_split (λ other. other == byte) word.now) }
{
    word.split(|other| *other == byte).collect(alloc)
}
