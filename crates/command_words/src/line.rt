//! A line of a script.
ghost use Rattle.std.specs.Prelude.{◌≡◌, ◌==◌, map, filter, nat_lt, length, IfOk, slice_index};
ghost use Rattle.std.specs.List.{slice_split};
ghost use Rattle.command_words.specs.Answer.{Gives};
ghost use Rattle.command_words.specs.Limits.{KeepsLimits};
ghost use Rattle.command_words.specs.Line.{is_blank, trimmed, is_comment, words_of, command_of_words, command_of};

use crate::verb::verb_of;
use crate::words::command_of_verb;
use crate::{Command, LineFault};
use std::alloc::{AllocError, Global};

// The most bytes of a line, its carriage return counted: `most_line` of the definitions.
pub(crate) const MAX_LINE: usize = 4096;

fn trimmed(line: &[u8]) -> &[u8]
    ensures { result.now ≡ trimmed line.now }
{
    match line {
        [front @ .., b'\r'] => front,
        _ => line,
    }
}

fn words_of(alloc: Global, line: &[u8]) -> Result<Vec<&[u8]>, AllocError>
    ensures { IfOk result (λ words. map (λ word. word.now) words.items ≡ words_of line.now) }
{
    line.split(|byte| *byte == b' ' || *byte == b'\t')
        .filter(|word| !word.is_empty())
        .collect(alloc)
}

fn is_comment(word: &[u8]) -> bool
    ensures { result ≡ is_comment word.now }
{
    matches!(word, [b'#', ..])
}

fn command_of_words(alloc: Global, words: &[&[u8]]) -> Result<Command, LineFault>
    ensures { Gives result (command_of_words (map (λ word. word.now) words.now)) }
{
    let [first, rest @ ..] = words else {
        return Ok(Command::Nothing);
    };
    if is_comment(first) {
        return Ok(Command::Nothing);
    }
    let Some(verb) = verb_of(first) else {
        return Err(LineFault::Unknown);
    };
    command_of_verb(alloc, verb, rest)
}

/// Reads a line, which has no newline byte: returns its command, or its first fault in the order of `LineFault`. Any
/// line may be answered with `Memory`, which is out of memory.
///
/// One carriage return at the end is dropped. Words are separated by blanks and tabs. A line without words, or whose
/// first word begins with `#`, asks for nothing.
pub fn parse_line(alloc: Global, line: &[u8]) -> Result<Command, LineFault>
    ensures value { Gives result (command_of line.now) }
    ensures limits { IfOk result KeepsLimits }
{
    if line.len() > MAX_LINE {
        return Err(LineFault::TooLong);
    }
    let words = words_of(alloc, trimmed(line))?;
    command_of_words(alloc, &words)
}
