//! Bytes as a text that shows in a terminal.
ghost use Rattle.std.specs.Prelude.{◌≡◌, ◌++◌, OnOk, OnErr, IfOk};
ghost use Rattle.std.specs.Io.{StartsWith};
ghost use Rattle.std.specs.List.{flat_map};
ghost use Rattle.cell_text.specs.TextCell.{is_plain, is_plain_in, text_byte, text_cell, quoted_cell};

use hex_text::append_hex;
use layer_base::Name;
use std::alloc::{AllocError, Global};

// Where bytes stand, which decides what a quote is among them.
#[derive(Clone, Copy)]
enum Quoting {
    Bare,
    Quoted,
}

fn is_plain(byte: u8) -> bool
    ensures { result ≡ is_plain byte }
{
    byte != b'\\' && matches!(byte, 0x20..=0x7e)
}

fn is_plain_in(quoting: Quoting, byte: u8) -> bool
    ensures { result ≡ is_plain_in quoting byte }
{
    match quoting {
        Quoting::Bare => is_plain(byte),
        Quoting::Quoted => byte != b'"' && is_plain(byte),
    }
}

fn append_byte(text: &mut Vec<u8>, quoting: Quoting, byte: u8) -> Result<(), AllocError>
    ensures ok { OnOk result (text.new.items ≡ text.old.items ++ text_byte quoting byte) }
    ensures err { OnErr result (StartsWith text.new.items text.old.items) }
{
    if is_plain_in(quoting, byte) {
        text.push(byte)?;
        Ok(())
    } else {
        text.extend_from_slice(b"\\x")?;
        append_hex(text, 2, u64::from(byte))
    }
}

fn append_bytes(text: &mut Vec<u8>, quoting: Quoting, bytes: &[u8]) -> Result<(), AllocError>
    ensures ok { OnOk result (text.new.items ≡ text.old.items ++ flat_map (text_byte quoting) bytes.now) }
    ensures err { OnErr result (StartsWith text.new.items text.old.items) }
{
    for byte in bytes {
        append_byte(text, quoting, *byte)?;
    }
    Ok(())
}

/// Appends bytes as a text: those from 0x20 to 0x7e other than a backslash as they are, and every other byte as `\x`
/// and two lower-case hexadecimal digits. When out of memory, what stood in the text still stands at its front.
#[tactic(auto, unfolding(crate::specs::TextCell::text_cell))]
pub fn append_text(text: &mut Vec<u8>, bytes: &[u8]) -> Result<(), AllocError>
    ensures ok { OnOk result (text.new.items ≡ text.old.items ++ text_cell bytes.now) }
    ensures err { OnErr result (StartsWith text.new.items text.old.items) }
{
    append_bytes(text, Quoting::Bare, bytes)
}

/// Appends bytes as a text between two `"`: as `append_text` does, but a `"` among them as `\x22`.
/// When out of memory, what stood in the text still stands at its front.
#[tactic(auto, unfolding(crate::specs::TextCell::quoted_cell))]
pub fn append_quoted(text: &mut Vec<u8>, bytes: &[u8]) -> Result<(), AllocError>
    ensures ok { OnOk result (text.new.items ≡ text.old.items ++ quoted_cell bytes.now) }
    ensures err { OnErr result (StartsWith text.new.items text.old.items) }
{
    text.push(b'"')?;
    append_bytes(text, Quoting::Quoted, bytes)?;
    text.push(b'"')?;
    Ok(())
}

/// Returns the text of bytes, as `append_text` appends it.
pub fn text_cell(alloc: Global, bytes: &[u8]) -> Result<Name, AllocError>
    ensures { IfOk result (λ cell. cell ≡ text_cell bytes.now) }
{
    let mut text = Vec::with_capacity(alloc, bytes.len())?;
    append_text(&mut text, bytes)?;
    Ok(Name::from(text))
}
