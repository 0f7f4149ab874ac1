//! Spaces, addresses and lengths.
ghost use Rattle.std.specs.Prelude.{◌≡◌, ◌≤◌, ◌+◌, ◌^◌, nat_le};
ghost use Rattle.command_words.specs.Answer.{Gives};
ghost use Rattle.command_words.specs.Place.{task_of, paged_of, root_of, space_of, address_of, ends_in_range, is_stretch};

use crate::name_word::name_of;
use crate::number::number_of;
use crate::{AddrWord, LineFault, SpaceWord};
use layer_base::Levels;
use std::alloc::Global;

// The space of a task, whose PID is behind `task:`.
fn task_of(pid: &[u8]) -> Result<SpaceWord, LineFault>
    ensures { result ≡ task_of pid.now }
{
    match number_of(pid) {
        Ok(pid) => Ok(SpaceWord::Task(pid)),
        Err(_) => Err(LineFault::SpaceName),
    }
}

fn paged_of(root: &[u8], levels: Levels) -> Result<SpaceWord, LineFault>
    ensures { result ≡ paged_of root.now levels }
{
    match number_of(root) {
        Ok(root) => Ok(SpaceWord::Root { root, levels }),
        Err(_) => Err(LineFault::SpaceName),
    }
}

// The space of a root, which is behind `root:` and has `:4` or `:5` at its end.
fn root_of(word: &[u8]) -> Result<SpaceWord, LineFault>
    ensures { result ≡ root_of word.now }
{
    if let Some(root) = word.strip_suffix(b":4") {
        return paged_of(root, Levels::Four);
    }
    if let Some(root) = word.strip_suffix(b":5") {
        return paged_of(root, Levels::Five);
    }
    Err(LineFault::SpaceName)
}

// Reads the word of a space.
pub(crate) fn space_of(word: &[u8]) -> Result<SpaceWord, LineFault>
    ensures { result ≡ space_of word.now }
{
    if word == b"phys".as_slice() {
        return Ok(SpaceWord::Phys);
    }
    if word == b"kernel".as_slice() {
        return Ok(SpaceWord::Kernel);
    }
    if let Some(pid) = word.strip_prefix(b"task:") {
        return task_of(pid);
    }
    if let Some(root) = word.strip_prefix(b"root:") {
        return root_of(root);
    }
    Err(LineFault::SpaceName)
}

// Reads an address: a number, or `@` and a name of at least one byte.
pub(crate) fn address_of(alloc: Global, word: &[u8]) -> Result<AddrWord, LineFault>
    ensures { Gives result (address_of word.now) }
{
    match word {
        [b'@'] => Err(LineFault::Number),
        [b'@', name @ ..] => Ok(AddrWord::Symbol(name_of(alloc, name)?)),
        _ => Ok(AddrWord::Number(number_of(word)?)),
    }
}

// Whether so many bytes from an address on, at least one, end at or below the last address.
fn ends_in_range(at: u64, len: u64) -> bool
    requires { 1 ≤ len }
    ensures { result ≡ nat_le (at + len) (2 ^ 64) }
{
    len - 1 <= u64::MAX - at
}

// Whether a length is from 1 to a limit and, where the address is a number, ends at or below the last address.
pub(crate) fn is_stretch(most: u64, at: &AddrWord, len: u64) -> bool
    ensures { result ≡ is_stretch most at.now len }
{
    if len < 1 || most < len {
        return false;
    }
    match at {
        AddrWord::Number(at) => ends_in_range(*at, len),
        AddrWord::Symbol(_) => true,
    }
}
