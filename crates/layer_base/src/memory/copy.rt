//! Pieces of bytes in memory.
ghost use Rattle.std.specs.Prelude.{◌≡◌, min, length, take};

/// Copies the first bytes into the front of the buffer, as many as there are and there is room for, and at most `cut`.
pub(super) fn copy_front(bytes: &[u8], cut: usize, buf: &mut [u8]) -> usize
    ensures count { result ≡ min (min cut (length buf.old)) (length bytes.now) }
    ensures front { take result buf.new ≡ take result bytes.now }
{
    let n = cut.min(buf.len()).min(bytes.len());
    buf[..n].copy_from_slice(&bytes[..n]);
    n
}
