//! The words of an empty log: the tail, and the registry's words of the definitions with which the
//! log begins.

ghost use Rattle.std.specs.Prelude.{◌≡◌, ℕ, ◌+◌, ◌*◌, ◌<◌, ◌≤◌, All, IfOk, Some, length, replicate, slice_get};
ghost use Rattle.std.specs.Prelude.{slice_index};
ghost use Rattle.fish_catalog.specs.Clamps.{IsClamped};
ghost use Rattle.fish_catalog.specs.Rows.{IsCatalog, IsRow};
ghost use Rattle.fish_catalog.specs.Words.{IsWritable, row_word};
ghost use Rattle.fish_catalog.specs.declared.row.CatRow.{CatRow};
ghost use Rattle.fish_rule.specs.Parts.{FitsTable};
ghost use Rattle.fish_rule.specs.Registry.{row_at};
ghost use Rattle.fish_rule.specs.within.Start.{IsEmpty};
ghost use Rattle.fish_rule.specs.World.{heads_at, total};

use crate::area::{HEADS, OPENED, ROWS, VERSION, log_at};
use crate::seats::Start;
use crate::view::Key;
use crate::word::tail_word;
use fish_catalog::{CatRow, ROW_WORDS, row_words};
use std::alloc::{AllocError, Global};

/// The words of a log without an entry that begins so.
pub(crate) fn empty_words(alloc: Global, key: &Key, start: &Start) -> Result<Vec<u64>, AllocError>
    requires fits { FitsTable key.now }
    requires rows { key.now.rows.value ≡ start.now.catalog }
    requires clamped { All (IsClamped key.now.number) start.now.catalog }
    requires heads { key.now.heads.value ≡ start.now.heads }
    requires version { key.now.version ≤ 512 }
    ensures { IfOk result (λ words. IsEmpty key.now words.items) }
{
    let rows = start.catalog.rows();
    let mut words = zero_words(alloc, word_count(key))?;
    words[0] = tail_of(key);
    words[1] = key.number;
    words[VERSION as usize] = key.version;
    words[OPENED as usize] = rows.len() as u64;
    store_rows(&mut words, rows);
    store_heads(&mut words, start.heads.as_slice());
    Ok(words)
}

/// How many words the table of a key has.
fn word_count(key: &Key) -> usize
    requires { FitsTable key.now }
    ensures { result ≡ total key.now }
{
    (log_at(key) + (key.end - key.line) * 4) as usize
}

/// So many zero words.
fn zero_words(alloc: Global, count: usize) -> Result<Vec<u64>, AllocError>
    ensures { IfOk result (λ words. words.items ≡ replicate count 0) }
{
    vec![in alloc; 0u64; count]
}

/// The tail word at a key's number and line.
fn tail_of(key: &Key) -> u64
    requires { FitsTable key.now }
    ensures { result ≡ key.now.number * 68719476736 + key.now.line }
{
    tail_word(key.number, key.line)
}

/// Stores the heads in the places of their buckets.
fn store_heads(words: &mut [u64], heads: &[u64])
    requires room { heads_at + length heads.now ≤ length words.old }
    ensures heads { (b : ℕ) → b < length heads.now → slice_index words.new (heads_at + b) ≡ slice_index heads.now b }
    ensures before { (p : ℕ) → p < heads_at → slice_index words.new p ≡ slice_index words.old p }
    ensures behind { (p : ℕ) → heads_at + length heads.now ≤ p → slice_index words.new p ≡ slice_index words.old p }
{
    for (bucket, head) in heads.iter().enumerate() {
        words[HEADS as usize + bucket] = *head;
    }
}

/// Stores the words of rows in the places of their ids.
fn store_rows(words: &mut [u64], rows: &[CatRow])
    requires catalog { IsCatalog rows.now }
    requires room { heads_at ≤ length words.old }
    ensures rows { (id : ℕ) (row : CatRow) → slice_get rows.now id ≡ Some row → IsWritable row
        × ((i : ℕ) → i < 39 → slice_index words.new (row_at id i) ≡ row_word row i) }
    ensures before { (p : ℕ) → p < row_at 0 0 → slice_index words.new p ≡ slice_index words.old p }
    ensures behind { (p : ℕ) → row_at (length rows.now) 0 ≤ p → slice_index words.new p ≡ slice_index words.old p }
{
    for (id, row) in rows.iter().enumerate() {
        store_row(words, id, row);
    }
}

/// Stores the words of a row in the place of an id.
fn store_row(words: &mut [u64], id: usize, row: &CatRow)
    requires row { IsRow row.now }
    requires room { row_at id 39 ≤ length words.old }
    ensures writable { IsWritable row.now }
    ensures words { (i : ℕ) → i < 39 → slice_index words.new (row_at id i) ≡ row_word row.now i }
    ensures before { (p : ℕ) → p < row_at id 0 → slice_index words.new p ≡ slice_index words.old p }
    ensures behind { (p : ℕ) → row_at id 39 ≤ p → slice_index words.new p ≡ slice_index words.old p }
{
    let first = ROWS as usize + id * ROW_WORDS;
    words[first..first + ROW_WORDS].copy_from_slice(&row_words(row));
}
