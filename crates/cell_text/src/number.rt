//! Numbers in decimal.
ghost use Rattle.std.specs.Prelude.{◌≡◌, ◌++◌, OnOk, OnErr};
ghost use Rattle.std.specs.Io.{StartsWith};

use itoa::{Buffer, Integer};
use std::alloc::AllocError;

/// Appends a number in decimal, with `-` before a negative one. When out of memory, what stood in the
/// text still stands at its front.
pub fn append_number<I: Integer>(text: &mut Vec<u8>, number: I) -> Result<(), AllocError>
    ensures ok { OnOk result (text.new.items ≡ text.old.items ++ I.text number) }
    ensures err { OnErr result (StartsWith text.new.items text.old.items) }
{
    Ok(text.extend_from_slice(Buffer::new().format(number).as_bytes())?)
}
