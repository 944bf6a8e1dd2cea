//! What a read of bytes in memory gives.

ghost use Rattle.std.specs.Prelude.{Some};
ghost use Rattle.fish_disk.specs.Content.{Gave};

/// Copies the bytes from a place on into the front of a buffer, as many as there are and fit, and
/// answers how many.
pub(crate) fn copy_from(bytes: &[u8], at: u64, buf: &mut [u8]) -> usize
    ensures { Gave (Some bytes.now) at result buf.new }
{
    if at >= bytes.len() as u64 {
        return 0;
    }
    let (_, rest) = bytes.split_at(at as usize);
    let count = rest.len().min(buf.len());
    buf[..count].copy_from_slice(&rest[..count]);
    count
}
