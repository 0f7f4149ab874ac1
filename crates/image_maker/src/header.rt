//! The header of a range of a LiME file.
ghost use Rattle.std.specs.Prelude.{◌≡◌};
ghost use Rattle.image_maker.specs.Header.{header};

use crate::row::{Content, write_rows};

const MAGIC: u32 = 0x4C69_4D45;

const VERSION: u32 = 1;

// The header of the range of a first and a last address.
#[tactic(auto, unfolding(crate::specs::Written::zeros))]
pub(crate) fn header(first: u64, last: u64) -> [u8; 32]
    ensures { result ≡ header first last }
{
    let mut header = [0; 32];
    write_rows(
        &mut header,
        0,
        &[
            (0, Content::Half(MAGIC)),
            (4, Content::Half(VERSION)),
            (8, Content::Word(first)),
            (16, Content::Word(last)),
        ],
    );
    header
}
