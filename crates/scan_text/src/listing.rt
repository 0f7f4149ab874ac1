//! What is printed of hits.
ghost use Rattle.std.specs.Prelude.{◌≡◌, ◌++◌, IfSome, IsErrOf, OnOk, OnErr};
ghost use Rattle.std.specs.Io.{StartsWith};
ghost use Rattle.layer_base.specs.Counts.{HasCause};
ghost use Rattle.layer_base.specs.View.{physical};
ghost use Rattle.space_memory.specs.State.{IsSameMemory};
ghost use Rattle.scan_text.specs.Rows.{end_of, row_of};
ghost use Rattle.scan_text.specs.Scan.{address_row, count_row};

use crate::banner::{append_banner, read_present};
use cell_text::append_number;
use hex_text::append_address;
use kernel_records::WalkFault;
use layer_base::{Layer, Steps};
use space_memory::Memory;
use std::alloc::AllocError;
use std::sync::ledger::Ledger;

/// A list of hits, one on a line.
#[derive(Clone, Copy, Debug, PartialEq, Eq)]
pub(crate) enum Listing {
    /// The address of each, and behind them how many there are.
    Addresses,
    /// The physical address of each, and the banner that stands there.
    Banners,
}

fn append_address_row(text: &mut Vec<u8>, at: u64) -> Result<(), AllocError>
    ensures ok { OnOk result (text.new.items ≡ text.old.items ++ address_row at) }
    ensures err { OnErr result (StartsWith text.new.items text.old.items) }
{
    append_address(text, at)?;
    text.push(b'\n')?;
    Ok(())
}

fn append_banner_row<Y: Layer, L: Ledger>(
    text: &mut Vec<u8>,
    memory: &mut Memory<Y>,
    at: u64,
    steps: &mut Steps<L>,
) -> Result<(), WalkFault>
    ensures ok { IfSome memory.old.view (λ view. OnOk result (text.new.items ≡ text.old.items ++ row_of Listing.Banners (physical view) at)) }
    ensures err { OnErr result (StartsWith text.new.items text.old.items) }
    ensures memory { IsSameMemory memory.old memory.new }
    ensures cause { HasCause memory.old.faults memory.new.faults (IsErrOf result WalkFault.Device) }
{
    let mut bytes = [0; 512];
    let count = read_present(memory, at, &mut bytes, steps)?;
    append_banner(text, at, &bytes[..count])?;
    Ok(())
}

/// Appends the line of a hit at an address. After a failure what stood in the text still stands at its front.
pub(crate) fn append_row<Y: Layer, L: Ledger>(
    text: &mut Vec<u8>,
    listing: Listing,
    memory: &mut Memory<Y>,
    at: u64,
    steps: &mut Steps<L>,
) -> Result<(), WalkFault>
    ensures ok { IfSome memory.old.view (λ view. OnOk result (text.new.items ≡ text.old.items ++ row_of listing (physical view) at)) }
    ensures err { OnErr result (StartsWith text.new.items text.old.items) }
    ensures memory { IsSameMemory memory.old memory.new }
    ensures cause { HasCause memory.old.faults memory.new.faults (IsErrOf result WalkFault.Device) }
{
    match listing {
        Listing::Addresses => Ok(append_address_row(text, at)?),
        Listing::Banners => append_banner_row(text, memory, at, steps),
    }
}

fn append_count(text: &mut Vec<u8>, count: u64) -> Result<(), AllocError>
    ensures { OnOk result (text.new.items ≡ text.old.items ++ count_row count) }
{
    text.extend_from_slice(b"hits ")?;
    append_number(text, count)?;
    text.push(b'\n')?;
    Ok(())
}

/// Appends what follows the lines of so many hits.
pub(crate) fn append_end(text: &mut Vec<u8>, listing: Listing, count: u64) -> Result<(), AllocError>
    ensures { OnOk result (text.new.items ≡ text.old.items ++ end_of listing count) }
{
    match listing {
        Listing::Addresses => append_count(text, count),
        Listing::Banners => Ok(()),
    }
}
