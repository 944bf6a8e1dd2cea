//! Bytes as they come from the disk.

ghost use Rattle.std.specs.Prelude.{◌≡◌, ◌≤◌, IfOk, length};
ghost use Rattle.byteorder.specs.Endian.{little_number};

use byteorder::{ByteOrder, LittleEndian};
use std::alloc::{AllocError, Global};

/// So many zero bytes.
pub(crate) fn zeros(alloc: Global, count: usize) -> Result<Vec<u8>, AllocError>
    ensures { IfOk result (λ bytes. length bytes.items ≡ count) }
{
    vec![in alloc; 0; count]
}

/// The number that up to eight bytes spell, as if zero bytes came after them.
pub(crate) fn number_in(bytes: &[u8]) -> u64
    requires { length bytes.now ≤ 8 }
    ensures { result ≡ little_number 8 bytes.now }
{
    if bytes.is_empty() {
        0
    } else {
        LittleEndian::read_uint(bytes, bytes.len())
    }
}
