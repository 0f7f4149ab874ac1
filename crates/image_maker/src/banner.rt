//! The banner of a made kernel.
ghost use Rattle.std.specs.Prelude.{◌≡◌, ◌≤◌, length, IfOk};
ghost use Rattle.image_maker.specs.Banner.{banner};

use itoa::Buffer;
use std::alloc::{AllocError, Global};

// The banner, with its newline.
#[tactic(auto, unfolding(crate::specs::Banner::banner))]
pub(crate) fn banner(alloc: Global, number: u64) -> Result<Vec<u8>, AllocError>
    ensures banner { IfOk result (λ text. text.items ≡ banner number) }
    ensures short { IfOk result (λ text. length text.items ≤ 256) }
{
    let mut buffer = Buffer::new();
    let mut text = Vec::from_slice(alloc, b"Linux version 6.0.0-made ")?;
    text.extend_from_slice(buffer.format(number).as_bytes())?;
    text.extend_from_slice(b"\n")?;
    Ok(text)
}
