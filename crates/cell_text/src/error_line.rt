//! The lines that say why a command prints nothing else.
ghost use Rattle.std.specs.Prelude.{◌≡◌, ◌++◌, codes, decimal, OnOk, OnErr, IfOk};
ghost use Rattle.std.specs.Io.{StartsWith};
ghost use Rattle.kernel_records.specs.Meaning.{meaning};
ghost use Rattle.cell_text.specs.TextCell.{text_cell};
ghost use Rattle.cell_text.specs.ErrorLine.{missing_words, missing_text, no_symbol_text, no_task_text, no_space_text};

use crate::number::append_number;
use crate::text::append_text;
use kernel_records::{Meaning, Need, meaning_of, need_text};
use std::alloc::{AllocError, Global};

fn missing_words(need: Need) -> &'static [u8]
    ensures { result.now ≡ missing_words (meaning need) }
{
    match meaning_of(need) {
        Meaning::Symbol(_) => b"error: no symbol ",
        Meaning::RootSymbol => b"error: no symbol ",
        Meaning::Member { .. } => b"error: no member ",
    }
}

/// Appends the line of a name that a command needs and that is missing: `error: no symbol TEXT`, or `error: no member TEXT`
/// where it is a member of a type, with the text of `need_text`, and a newline. When out of memory, what stood in the text
/// still stands at its front.
#[tactic(auto, unfolding(crate::specs::ErrorLine::missing_text))]
pub fn append_missing(text: &mut Vec<u8>, need: Need) -> Result<(), AllocError>
    ensures ok { OnOk result (text.new.items ≡ text.old.items ++ missing_text need) }
    ensures err { OnErr result (StartsWith text.new.items text.old.items) }
{
    text.extend_from_slice(missing_words(need))?;
    text.extend_from_slice(need_text(need).as_bytes())?;
    text.push(b'\n')?;
    Ok(())
}

/// Returns the line of a name that is missing, as `append_missing` appends it.
pub fn missing_line(alloc: Global, need: Need) -> Result<Vec<u8>, AllocError>
    ensures { IfOk result (λ line. line.items ≡ missing_text need) }
{
    let mut text = Vec::new(alloc);
    append_missing(&mut text, need)?;
    Ok(text)
}

// Appends words, a name and a newline.
fn append_name_line(text: &mut Vec<u8>, words: &[u8], name: &[u8]) -> Result<(), AllocError>
    ensures ok { OnOk result (text.new.items ≡ text.old.items ++ (words.now ++ text_cell name.now ++ codes "\n")) }
    ensures err { OnErr result (StartsWith text.new.items text.old.items) }
{
    text.extend_from_slice(words)?;
    append_text(text, name)?;
    text.push(b'\n')?;
    Ok(())
}

/// Appends that a name has no symbol: `error: no symbol NAME` and a newline, with the name as `append_text` writes it. When
/// out of memory, what stood in the text still stands at its front.
#[tactic(auto, unfolding(crate::specs::ErrorLine::no_symbol_text))]
pub fn append_no_symbol(text: &mut Vec<u8>, name: &[u8]) -> Result<(), AllocError>
    ensures ok { OnOk result (text.new.items ≡ text.old.items ++ no_symbol_text name.now) }
    ensures err { OnErr result (StartsWith text.new.items text.old.items) }
{
    append_name_line(text, b"error: no symbol ", name)
}

// Appends words, a number in decimal and a newline.
fn append_number_line(text: &mut Vec<u8>, words: &[u8], number: u64) -> Result<(), AllocError>
    ensures ok { OnOk result (text.new.items ≡ text.old.items ++ (words.now ++ decimal number ++ codes "\n")) }
    ensures err { OnErr result (StartsWith text.new.items text.old.items) }
{
    text.extend_from_slice(words)?;
    append_number(text, number)?;
    text.push(b'\n')?;
    Ok(())
}

/// Appends that no task has a PID: `error: no task N` in decimal and a newline. When out of memory, what stood in the text
/// still stands at its front.
#[tactic(auto, unfolding(crate::specs::ErrorLine::no_task_text))]
pub fn append_no_task(text: &mut Vec<u8>, pid: u64) -> Result<(), AllocError>
    ensures ok { OnOk result (text.new.items ≡ text.old.items ++ no_task_text pid) }
    ensures err { OnErr result (StartsWith text.new.items text.old.items) }
{
    append_number_line(text, b"error: no task ", pid)
}

/// Appends that the task of a PID has no space: `error: no space N` in decimal and a newline. When out of memory, what stood
/// in the text still stands at its front.
#[tactic(auto, unfolding(crate::specs::ErrorLine::no_space_text))]
pub fn append_no_space(text: &mut Vec<u8>, pid: u64) -> Result<(), AllocError>
    ensures ok { OnOk result (text.new.items ≡ text.old.items ++ no_space_text pid) }
    ensures err { OnErr result (StartsWith text.new.items text.old.items) }
{
    append_number_line(text, b"error: no space ", pid)
}
