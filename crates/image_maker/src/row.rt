//! Rows of a layout, and how they are written.
ghost use Rattle.std.specs.Prelude.{◌≡◌, ◌+◌, ◌≤◌, length};
ghost use Rattle.image_maker.specs.Rows.{content_bytes, content_size, pieces, AreWithin};
ghost use Rattle.image_maker.specs.Written.{written_at, written};

use byteorder::{ByteOrder, LittleEndian};

// What stands at an offset. Numbers are little-endian.
#[derive(Clone, Copy, Debug)]
pub(crate) enum Content<'a> {
    Word(u64),
    Half(u32),
    Text(&'a [u8]),
}

fn write_content(bytes: &mut [u8], offset: usize, content: Content<'_>)
    requires { offset + content_size content ≤ length bytes.old }
    ensures { bytes.new ≡ written_at offset (content_bytes content.entry) bytes.old }
{
    match content {
        Content::Word(number) => LittleEndian::write_u64(&mut bytes[offset..], number),
        Content::Half(number) => LittleEndian::write_u32(&mut bytes[offset..], number),
        Content::Text(text) => bytes[offset..offset + text.len()].copy_from_slice(text),
    }
}

// Writes rows, whose offsets are counted from one.
pub(crate) fn write_rows(bytes: &mut [u8], from: usize, rows: &[(usize, Content<'_>)])
    requires { AreWithin (length bytes.old) from rows.now }
    ensures { bytes.new ≡ written (pieces from rows.now) bytes.old }
{
    for row in rows {
        write_content(bytes, from + row.0, row.1);
    }
}
