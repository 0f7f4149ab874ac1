//! The text of what was found.
ghost use Rattle.std.specs.Prelude.{◌≡◌, ◌++◌, IfOk, OnOk};
ghost use Rattle.hex_text.specs.DumpRow.{address_cell};
ghost use Rattle.kernel_find.specs.FoundText.{found_text, kernel_text, levels_cell};

use crate::Found;
use cell_text::missing_line;
use hex_text::append_address;
use kernel_records::Kernel;
use layer_base::Levels;
use std::alloc::{AllocError, Global};

fn levels_cell(levels: Levels) -> &'static [u8]
    ensures { result.now ≡ levels_cell levels }
{
    match levels {
        Levels::Four => b"4",
        Levels::Five => b"5",
    }
}

// Appends words and an address behind them.
fn append_named(text: &mut Vec<u8>, words: &[u8], address: u64) -> Result<(), AllocError>
    ensures { OnOk result (text.new.items ≡ text.old.items ++ words.now ++ address_cell address) }
{
    text.extend_from_slice(words)?;
    append_address(text, address)
}

// The line of a kernel.
fn kernel_line(alloc: Global, kernel: &Kernel) -> Result<Vec<u8>, AllocError>
    ensures { IfOk result (λ line. line.items ≡ kernel_text kernel.now) }
{
    let mut text = Vec::new(alloc);
    append_named(&mut text, b"task ", kernel.task)?;
    append_named(&mut text, b"\tphysical ", kernel.physical)?;
    append_named(&mut text, b"\tshift ", kernel.shift)?;
    append_named(&mut text, b"\troot ", kernel.root)?;
    text.extend_from_slice(b"\tlevels ")?;
    text.extend_from_slice(levels_cell(kernel.levels))?;
    text.push(b'\n')?;
    Ok(text)
}

/// The line that says what was found, with its newline: `task A`, `physical A`, `shift A`, `root A` and `levels L` with
/// tabs between them, addresses as `0x` and sixteen digits; or `error: no symbol TEXT`, `error: no member TEXT` with the
/// text of the need, `error: no banner` or `error: no task`.
#[tactic(auto, unfolding(crate::specs::FoundText::found_text))]
pub fn found_text(alloc: Global, found: &Found) -> Result<Vec<u8>, AllocError>
    ensures { IfOk result (λ text. text.items ≡ found_text found.now) }
{
    match found {
        Found::Kernel(kernel) => kernel_line(alloc, kernel),
        Found::NoSymbol { need } | Found::NoMember { need } => missing_line(alloc, *need),
        Found::NoBanner => Vec::from_slice(alloc, b"error: no banner\n"),
        Found::NoTask => Vec::from_slice(alloc, b"error: no task\n"),
    }
}
