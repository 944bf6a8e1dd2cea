//! The rows of a catalogue as words of a log's table, and definitions from such words.
//!
//! A row has 39 words: its two boundaries, its sizes, four words of its name and 32 of its text,
//! which have their bytes low byte first.

ghost use Rattle.std.specs.Prelude.{◌≡◌, ℕ, ◌+◌, ◌<◌, ◌≤◌, IfOk, length, slice_index};
ghost use Rattle.fish_catalog.specs.Listing.{listed_in};
ghost use Rattle.fish_catalog.specs.Rows.{IsRow};
ghost use Rattle.fish_catalog.specs.Words.{IsWritable, bound_word, name_size, row_word, text_size, was_active};
ghost use Rattle.fish_layout.specs.Bytes.{bytes_in, word_at};

use crate::listed::Listed;
use crate::row::CatRow;
use fish_value::Bytes;
use std::alloc::{AllocError, Global};

/// How many words a row has.
pub const ROW_WORDS: usize = 39;

/// The words of a row.
pub fn row_words(row: &CatRow) -> [u64; ROW_WORDS]
    requires { IsRow row.now }
    ensures words { (i : ℕ) → i < 39 → slice_index result i ≡ row_word row.now i }
    ensures writable { IsWritable row.now }
{
    read_texts(row);
    let mut words = [0; ROW_WORDS];
    for (position, word) in words.iter_mut().enumerate() {
        *word = word_of(row, position);
    }
    words
}

/// Reads a row's texts, which shows that they are bytes.
fn read_texts(row: &CatRow)
    requires { IsRow row.now }
    ensures { IsWritable row.now }
{
    let _name = row.name.as_bytes();
    let _text = row.def.as_bytes();
}

/// One word of a row.
fn word_of(row: &CatRow, position: usize) -> u64
    requires row { IsWritable row.now }
    requires position { position < 39 }
    ensures { result ≡ row_word row.now position }
{
    match position {
        0 => word_of_bound(row.from),
        1 => word_of_bound(row.to),
        2 => word_of_sizes(row),
        3..=6 => word_of_bytes(row.name.as_bytes(), position - 3),
        _ => word_of_bytes(row.def.as_bytes(), position - 7),
    }
}

/// The word of a boundary: one more than it, so that 0 is none.
fn word_of_bound(bound: Option<u32>) -> u64
    ensures { result ≡ bound_word bound }
{
    match bound {
        Some(number) => u64::from(number) + 1,
        None => 0,
    }
}

/// The word of a row's two lengths, and of whether it is active.
fn word_of_sizes(row: &CatRow) -> u64
    requires { IsWritable row.now }
    ensures { result ≡ row_word row.now 2 }
{
    let name = row.name.as_bytes().len() as u64;
    let text = row.def.as_bytes().len() as u64;
    name + text * 0x100 + u64::from(row.is_active()) * 0x1_0000
}

/// The word of eight bytes, with zero bytes past the end.
fn word_of_bytes(bytes: &[u8], position: usize) -> u64
    requires { position < 39 }
    ensures { result ≡ word_at bytes.now position }
{
    let first = 8 * position;
    u64::from_le_bytes([
        byte_at(bytes, first),
        byte_at(bytes, first + 1),
        byte_at(bytes, first + 2),
        byte_at(bytes, first + 3),
        byte_at(bytes, first + 4),
        byte_at(bytes, first + 5),
        byte_at(bytes, first + 6),
        byte_at(bytes, first + 7),
    ])
}

/// The byte at a position, or 0 past the end.
fn byte_at(bytes: &[u8], position: usize) -> u8
    ensures { result ≡ slice_index bytes.now position }
{
    bytes.get(position).copied().unwrap_or(0)
}

/// Whether a row was active as its words were made, by its third word.
pub fn active_in(word: u64) -> bool
    ensures { result ≡ was_active word }
{
    word / 0x1_0000 % 2 == 1
}

/// The definition with this id that the words of a row spell. Sizes past the room for a name or a
/// text are cut.
pub fn read_row(
    alloc: Global,
    id: u16,
    active: bool,
    words: &[u64; ROW_WORDS],
) -> Result<Listed, AllocError>
    ensures { IfOk result (λ l. l ≡ listed_in (slice_index words.now) id active) }
{
    let sizes = words[2];
    Ok(Listed {
        id,
        name: read_bytes(alloc, &words[3..7], name_size_in(sizes))?,
        def: read_bytes(alloc, &words[7..], text_size_in(sizes))?,
        active,
    })
}

/// The bytes of a row's name, by its third word.
fn name_size_in(word: u64) -> usize
    ensures { result ≡ name_size word }
{
    (word % 0x40) as usize
}

/// The bytes of a row's text, by its third word.
fn text_size_in(word: u64) -> usize
    ensures { result ≡ text_size word }
{
    (word / 0x100 % 0x100) as usize
}

/// So many bytes from the front of words, or all of them where they are fewer.
fn read_bytes(alloc: Global, words: &[u64], size: usize) -> Result<Bytes, AllocError>
    requires { length words.now ≤ 39 }
    ensures { IfOk result (λ b. b ≡ bytes_in words.now size) }
{
    let mut bytes = Vec::with_capacity(alloc, words.len() * 8)?;
    for word in words {
        bytes.extend_from_slice(&word.to_le_bytes())?;
    }
    bytes.truncate(size);
    Bytes::copy_of(alloc, bytes.as_slice())
}
