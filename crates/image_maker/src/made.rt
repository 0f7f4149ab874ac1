//! Making an image.
ghost use Rattle.std.specs.Prelude.{◌≡◌, ◌≤◌, IfOk};
ghost use Rattle.image_maker.specs.Image.{made_image};
ghost use Rattle.image_maker.specs.Script.{made_script};
ghost use Rattle.image_maker.specs.Symbols.{made_symbols};

use crate::image::made_image;
use crate::script::made_script;
use crate::symbols::made_symbols;
use layer_base::Bytes;
use std::alloc::{AllocError, Global};

/// A made image, the symbol file of its kernel, and a script that shows what is in it.
#[derive(Debug, Drop)]
pub struct Made {
    pub image: Bytes,
    pub symbols: Bytes,
    pub script: Bytes,
}

/// Makes the image of a number. It is a LiME file of a machine with 48 tasks a number, whose kernel stands at an address and
/// at a shift that the number decides; it has five levels of page tables where the number is even, else four. The image of
/// 64 has about 102 million bytes.
pub fn make(alloc: Global, number: u64) -> Result<Made, AllocError>
    requires least { 1 ≤ number }
    requires most { number ≤ 64 }
    ensures image { IfOk result (λ made. made.image ≡ made_image number) }
    ensures symbols { IfOk result (λ made. made.symbols ≡ made_symbols number) }
    ensures script { IfOk result (λ made. made.script ≡ made_script) }
{
    Ok(Made {
        image: Bytes::from(made_image(alloc, number)?),
        symbols: Bytes::from(made_symbols(alloc, number)?),
        script: Bytes::of(alloc, made_script())?,
    })
}
