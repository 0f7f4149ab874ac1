//! What the words behind a command say.
ghost use Rattle.std.specs.Prelude.{map, ◌∷◌, [], ◌≡◌};
ghost use Rattle.command_words.specs.Answer.{Gives};
ghost use Rattle.command_words.specs.Name.{name_of};
ghost use Rattle.command_words.specs.Number.{number_of};
ghost use Rattle.command_words.specs.Command.{of_none, of_one, of_two, of_three, of_four, read_of, dump_of, show_of, translate_of, scan_of, command_of_verb};

use crate::hex_word::needle_of;
use crate::name_word::{name_of, type_of};
use crate::number::number_of;
use crate::place::{address_of, is_stretch, space_of};
use crate::verb::Verb;
use crate::{Command, LineFault};
use layer_base::Name;
use std::alloc::Global;

// The most bytes that one `read` prints: `most_read` of the definitions.
pub(crate) const MAX_READ: u64 = 1_048_576;

// The most bytes that one `dump` writes: `most_dump`.
pub(crate) const MAX_DUMP: u64 = 68_719_476_736;

// The most names of a path, behind that of its type: `most_path`.
pub(crate) const MAX_PATH: usize = 256;

// A command that no words follow.
fn alone(words: &[&[u8]], command: Command) -> Result<Command, LineFault>
    ensures { result ≡ of_none command (map (λ word. word.now) words.now) }
{
    match words {
        [] => Ok(command),
        _ => Err(LineFault::Words { wanted: 0 }),
    }
}

// One word, a number.
fn number_alone(words: &[&[u8]]) -> Result<u64, LineFault>
    ensures { result ≡ of_one number_of (map (λ word. word.now) words.now) }
{
    match words {
        [number] => number_of(number),
        _ => Err(LineFault::Words { wanted: 1 }),
    }
}

// One word, a name.
fn name_alone(alloc: Global, words: &[&[u8]]) -> Result<Name, LineFault>
    ensures { Gives result (of_one name_of (map (λ word. word.now) words.now)) }
{
    match words {
        [name] => name_of(alloc, name),
        _ => Err(LineFault::Words { wanted: 1 }),
    }
}

// `read SPACE ADDR LEN`.
fn read_of(alloc: Global, space: &[u8], at: &[u8], len: &[u8]) -> Result<Command, LineFault>
    ensures { Gives result (read_of space.now at.now len.now) }
{
    let space = space_of(space)?;
    let at = address_of(alloc, at)?;
    let len = number_of(len)?;
    if !is_stretch(MAX_READ, &at, len) {
        return Err(LineFault::Range);
    }
    Ok(Command::Read { space, at, len })
}

// `dump SPACE ADDR LEN`.
fn dump_of(alloc: Global, space: &[u8], at: &[u8], len: &[u8]) -> Result<Command, LineFault>
    ensures { Gives result (dump_of space.now at.now len.now) }
{
    let space = space_of(space)?;
    let at = address_of(alloc, at)?;
    let len = number_of(len)?;
    if !is_stretch(MAX_DUMP, &at, len) {
        return Err(LineFault::Range);
    }
    Ok(Command::Dump { space, at, len })
}

// `type SPACE ADDR TYPE`.
fn show_of(alloc: Global, space: &[u8], at: &[u8], name: &[u8]) -> Result<Command, LineFault>
    ensures { Gives result (show_of space.now at.now name.now) }
{
    let space = space_of(space)?;
    let at = address_of(alloc, at)?;
    let (name, path) = type_of(alloc, name)?;
    if MAX_PATH < path.items().len() {
        return Err(LineFault::Range);
    }
    Ok(Command::Show {
        space,
        at,
        name,
        path,
    })
}

// `translate SPACE ADDR`.
fn translate_of(alloc: Global, space: &[u8], at: &[u8]) -> Result<Command, LineFault>
    ensures { Gives result (translate_of space.now at.now) }
{
    let space = space_of(space)?;
    let at = address_of(alloc, at)?;
    Ok(Command::Translate { space, at })
}

// `scan SPACE ADDR LEN HEX`.
fn scan_of(
    alloc: Global,
    space: &[u8],
    at: &[u8],
    len: &[u8],
    needle: &[u8],
) -> Result<Command, LineFault>
    ensures { Gives result (scan_of space.now at.now len.now needle.now) }
{
    let space = space_of(space)?;
    let at = address_of(alloc, at)?;
    let len = number_of(len)?;
    let needle = needle_of(alloc, needle)?;
    if !is_stretch(u64::MAX, &at, len) {
        return Err(LineFault::Range);
    }
    Ok(Command::Scan {
        space,
        at,
        len,
        needle,
    })
}

// The words behind `read`.
fn read_words(alloc: Global, words: &[&[u8]]) -> Result<Command, LineFault>
    ensures { Gives result (of_three read_of (map (λ word. word.now) words.now)) }
{
    match words {
        [space, at, len] => read_of(alloc, space, at, len),
        _ => Err(LineFault::Words { wanted: 3 }),
    }
}

// The words behind `dump`.
fn dump_words(alloc: Global, words: &[&[u8]]) -> Result<Command, LineFault>
    ensures { Gives result (of_three dump_of (map (λ word. word.now) words.now)) }
{
    match words {
        [space, at, len] => dump_of(alloc, space, at, len),
        _ => Err(LineFault::Words { wanted: 3 }),
    }
}

// The words behind `type`.
fn show_words(alloc: Global, words: &[&[u8]]) -> Result<Command, LineFault>
    ensures { Gives result (of_three show_of (map (λ word. word.now) words.now)) }
{
    match words {
        [space, at, name] => show_of(alloc, space, at, name),
        _ => Err(LineFault::Words { wanted: 3 }),
    }
}

// The words behind `translate`.
fn translate_words(alloc: Global, words: &[&[u8]]) -> Result<Command, LineFault>
    ensures { Gives result (of_two translate_of (map (λ word. word.now) words.now)) }
{
    match words {
        [space, at] => translate_of(alloc, space, at),
        _ => Err(LineFault::Words { wanted: 2 }),
    }
}

// The words behind `scan`.
fn scan_words(alloc: Global, words: &[&[u8]]) -> Result<Command, LineFault>
    ensures { Gives result (of_four scan_of (map (λ word. word.now) words.now)) }
{
    match words {
        [space, at, len, needle] => scan_of(alloc, space, at, len, needle),
        _ => Err(LineFault::Words { wanted: 4 }),
    }
}

// What the words behind a command ask for.
pub(crate) fn command_of_verb(
    alloc: Global,
    verb: Verb,
    words: &[&[u8]],
) -> Result<Command, LineFault>
    ensures { Gives result (command_of_verb verb (map (λ word. word.now) words.now)) }
{
    match verb {
        Verb::Banners => alone(words, Command::Banners),
        Verb::Kernel => alone(words, Command::Kernel),
        Verb::Pslist => alone(words, Command::Pslist),
        Verb::Pstree => alone(words, Command::Pstree),
        Verb::Lsmod => alone(words, Command::Lsmod),
        Verb::CheckSyscall => alone(words, Command::CheckSyscall),
        Verb::Quit => alone(words, Command::Quit),
        Verb::Maps => Ok(Command::Maps {
            pid: number_alone(words)?,
        }),
        Verb::Lsof => Ok(Command::Lsof {
            pid: number_alone(words)?,
        }),
        Verb::Near => Ok(Command::Near {
            number: number_alone(words)?,
        }),
        Verb::Layout => Ok(Command::Layout {
            name: name_alone(alloc, words)?,
        }),
        Verb::Symbol => Ok(Command::Symbol {
            name: name_alone(alloc, words)?,
        }),
        Verb::Read => read_words(alloc, words),
        Verb::Dump => dump_words(alloc, words),
        Verb::Show => show_words(alloc, words),
        Verb::Translate => translate_words(alloc, words),
        Verb::Scan => scan_words(alloc, words),
    }
}
