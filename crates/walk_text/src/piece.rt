//! Writing a text in large pieces.
ghost use Rattle.std.specs.Prelude.{◌<◌, vec_len, IsErrOf, OnOk};
ghost use Rattle.layer_base.specs.Counts.{HasCause};
ghost use Rattle.walk_text.specs.Front.{WritesPiece};

use layer_base::{Sink, SinkFault, write_whole};

// How many bytes of lines are kept before they are written.
const PIECE: usize = 65_536;

/// Writes a text and clears it where it has at least 65,536 bytes, and keeps it else, so that fewer are kept. After a refusal
/// a prefix of it was appended.
pub fn write_piece<O: Sink>(text: &mut Vec<u8>, out: &mut O) -> Result<(), SinkFault>
    ensures written { WritesPiece (O.written out.old) (O.written out.new) text.old.items text.new.items result }
    ensures few { OnOk result (vec_len text.new < 65536) }
    ensures cause { HasCause (O.faults out.old) (O.faults out.new) (IsErrOf result SinkFault.Failed) }
{
    if text.len() >= PIECE {
        write_whole(out, text)?;
        text.clear();
    }
    Ok(())
}
