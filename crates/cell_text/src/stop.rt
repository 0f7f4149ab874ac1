//! The line that says why a walk ended.
ghost use Rattle.std.specs.Prelude.{◌≡◌, ◌++◌, OnOk, OnErr, IfOk};
ghost use Rattle.std.specs.Io.{StartsWith};
ghost use Rattle.hex_text.specs.DumpRow.{address_cell};
ghost use Rattle.cell_text.specs.StopLine.{stop_line};

use crate::number::append_number;
use hex_text::append_address;
use kernel_records::Stop;
use layer_base::Name;
use std::alloc::{AllocError, Global};

// Appends words and an address.
fn append_at(text: &mut Vec<u8>, words: &[u8], at: u64) -> Result<(), AllocError>
    ensures ok { OnOk result (text.new.items ≡ text.old.items ++ words.now ++ address_cell at) }
    ensures err { OnErr result (StartsWith text.new.items text.old.items) }
{
    text.extend_from_slice(words)?;
    append_address(text, at)
}

/// Appends why a walk ended, without a newline: `stop: head`, `stop: end`, `stop: repeated ADDRESS`,
/// `stop: unreadable ADDRESS`, `stop: outside ADDRESS` or `stop: limit N`. An address is `0x` and sixteen digits, N is
/// decimal. When out of memory, what stood in the text still stands at its front.
#[tactic(auto, unfolding(crate::specs::StopLine::stop_line))]
pub fn append_stop_line(text: &mut Vec<u8>, stop: Stop) -> Result<(), AllocError>
    ensures ok { OnOk result (text.new.items ≡ text.old.items ++ stop_line stop) }
    ensures err { OnErr result (StartsWith text.new.items text.old.items) }
{
    match stop {
        Stop::Head => Ok(text.extend_from_slice(b"stop: head")?),
        Stop::End => Ok(text.extend_from_slice(b"stop: end")?),
        Stop::Repeated { at } => append_at(text, b"stop: repeated ", at),
        Stop::Unreadable { at } => append_at(text, b"stop: unreadable ", at),
        Stop::Outside { at } => append_at(text, b"stop: outside ", at),
        Stop::Limit { n } => {
            text.extend_from_slice(b"stop: limit ")?;
            append_number(text, n)
        },
    }
}

/// Returns why a walk ended, as `append_stop_line` appends it.
pub fn stop_line(alloc: Global, stop: Stop) -> Result<Name, AllocError>
    ensures { IfOk result (λ line. line ≡ stop_line stop) }
{
    let mut text = Vec::new(alloc);
    append_stop_line(&mut text, stop)?;
    Ok(Name::from(text))
}
