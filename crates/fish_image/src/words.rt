//! The words in bytes, lowest byte first.

ghost use Rattle.std.specs.Prelude.{◌≡◌, IfOk, length};
ghost use Rattle.fish_image.specs.Stands.{words_in as all_words};

use byteorder::{ByteOrder, LittleEndian};
use std::alloc::{AllocError, Global};

/// All whole words of bytes.
pub fn words_in(alloc: Global, bytes: &[u8]) -> Result<Vec<u64>, AllocError>
    ensures { IfOk result (λ words. words.items ≡ all_words bytes.now) }
{
    let count = bytes.len() / 8;
    let mut words = no_words(alloc, count)?;
    LittleEndian::read_u64_into(&bytes[..8 * count], &mut words);
    Ok(words)
}

/// So many words.
fn no_words(alloc: Global, count: usize) -> Result<Vec<u64>, AllocError>
    ensures { IfOk result (λ words. length words.items ≡ count) }
{
    vec![in alloc; 0; count]
}
