//! A commit as the body of a slot.

ghost use Rattle.std.specs.Prelude.{◌≡◌, ◌↔◌, ◌++◌, ◌≤◌, All, IfOk, IsTrue, OnOk, length};
ghost use Rattle.std.specs.List.{flat_map};
ghost use Rattle.fish_catalog.specs.Limits.{newest_format};
ghost use Rattle.fish_catalog.specs.Rows.{IsCatalog};
ghost use Rattle.fish_image.specs.Commits.{HasBoundaries, HasTexts, IsBoundary, IsCommit, IsOfFormat, IsWithin};
ghost use Rattle.fish_image.specs.Reading.{IsBodyOf};
ghost use Rattle.fish_image.specs.Slot.{boundary_word, head_words, padded, row_bytes, slot_bytes};
ghost use Rattle.fish_image.specs.Slot.{word, zeros};

use fish_catalog::{CatRow, Commit, MAX_ACTIVE_AT_FIRST, MAX_ROWS, NEWEST_FORMAT, count_active};
use fish_value::Bytes;
use std::alloc::{AllocError, Global};

/// The letters `FISHST0` and the digit 0 as a word, lowest first.
const SIGN: u64 = 0x3030_5453_4853_4946;

/// What the digit counts for in that word.
pub(crate) const DIGIT: u64 = 0x100_0000_0000_0000;

/// The bytes of a slot's body.
pub(crate) const SLOT_BYTES: usize = fish_slots::SLOT_BYTES as usize;

/// The bytes of a row.
pub(crate) const ROW_BYTES: usize = 320;

/// The zero bytes after 256 rows.
const BEHIND: usize = 4_032;

/// From the name's first byte to the text's.
const NAME_BYTES: usize = 46;

/// From the text's first byte to the end of its row.
const TEXT_BYTES: usize = 256;

/// The body of a slot that tells a commit.
pub fn slot_body(alloc: Global, c: &Commit) -> Result<Bytes, AllocError>
    requires within { IsWithin c.now }
    requires format { IsOfFormat c.now }
    ensures body { IfOk result (IsBodyOf c.now) }
    ensures size { IfOk result (λ body. length body ≡ 86016) }
{
    let body = spell(alloc, c)?;
    Ok(body)
}

/// The same, part by part.
#[tactic(auto, unfolding(crate::specs::Slot::slot_bytes))]
fn spell(alloc: Global, c: &Commit) -> Result<Bytes, AllocError>
    requires within { IsWithin c.now }
    requires format { IsOfFormat c.now }
    ensures commit { OnOk result (IsCommit c.now) }
    ensures bytes { IfOk result (λ body. body ≡ slot_bytes c.now) }
{
    let mut body = Bytes::new(alloc);
    push_head(&mut body, c)?;
    push_rows(alloc, &mut body, c.rows.rows())?;
    let behind = ROW_BYTES * (MAX_ROWS - c.rows.rows().len()) + BEHIND;
    push_zeros(alloc, &mut body, behind)?;
    Ok(body)
}

/// Puts the first eight words after the others.
fn push_head(body: &mut Bytes, c: &Commit) -> Result<(), AllocError>
    requires { c.now.format ≤ newest_format }
    ensures { OnOk result (body.new ≡ body.old ++ flat_map word (head_words c.now)) }
{
    let rows = c.rows.rows().len() as u64;
    let words = [
        SIGN + u64::from(c.format) * DIGIT,
        u64::from(c.turn),
        u64::from(c.pages),
        u64::from(c.bucket_bits),
        u64::from(c.count),
        c.lines,
        rows,
        0,
    ];
    push_words(body, &words)
}

/// Puts words after the others, each lowest byte first.
#[tactic(auto, unfolding(crate::specs::Slot::word))]
fn push_words(body: &mut Bytes, words: &[u64]) -> Result<(), AllocError>
    ensures { OnOk result (body.new ≡ body.old ++ flat_map word words.now) }
{
    for n in words {
        body.append(&n.to_le_bytes())?;
    }
    Ok(())
}

/// Puts the rows of a catalogue after the others.
fn push_rows(alloc: Global, body: &mut Bytes, rows: &[CatRow]) -> Result<(), AllocError>
    requires { IsCatalog rows.now }
    ensures rows { OnOk result (body.new ≡ body.old ++ flat_map row_bytes rows.now) }
    ensures texts { OnOk result (All HasTexts rows.now) }
{
    for row in rows {
        push_row(alloc, body, row)?;
    }
    Ok(())
}

/// Puts a row after the others.
#[tactic(auto, unfolding(crate::specs::Slot::row_bytes))]
fn push_row(alloc: Global, body: &mut Bytes, row: &CatRow) -> Result<(), AllocError>
    requires name { length row.now.name ≤ 32 }
    requires text { length row.now.def ≤ 255 }
    ensures row { OnOk result (body.new ≡ body.old ++ row_bytes row.now) }
    ensures texts { OnOk result (HasTexts row.now) }
{
    push_words(body, &[word_of(row.from), word_of(row.to)])?;
    let (name, def) = (row.name.as_bytes(), row.def.as_bytes());
    body.append(&[name.len() as u8, def.len() as u8])?;
    push_padded(alloc, body, name, NAME_BYTES)?;
    push_padded(alloc, body, def, TEXT_BYTES)
}

/// A boundary as a word.
fn word_of(boundary: Option<u32>) -> u64
    ensures { result ≡ boundary_word boundary }
{
    match boundary {
        Some(number) => u64::from(number),
        None => u64::MAX,
    }
}

/// Puts bytes after the others, and zero bytes up to so many.
fn push_padded(alloc: Global, body: &mut Bytes, b: &[u8], size: usize) -> Result<(), AllocError>
    requires { length b.now ≤ size }
    ensures { OnOk result (body.new ≡ body.old ++ padded size b.now) }
{
    body.append(b)?;
    push_zeros(alloc, body, size - b.len())
}

/// Puts so many zero bytes after the others.
#[tactic(auto, unfolding(crate::specs::Slot::zeros))]
fn push_zeros(alloc: Global, body: &mut Bytes, count: usize) -> Result<(), AllocError>
    ensures { OnOk result (body.new ≡ body.old ++ zeros count) }
{
    let none = vec![in alloc; 0u8; count]?;
    body.append(none.as_slice())
}

/// Whether the numbers of a commit are within their limits.
pub fn is_within(c: &Commit) -> bool
    ensures { IsTrue result ↔ IsWithin c.now }
{
    c.turn < 3
        && 1 <= c.pages
        && c.pages <= 512
        && 4 <= c.bucket_bits
        && c.bucket_bits <= 16
        && c.count <= 268_435_439
        && c.lines <= 68_719_176_736
        && have_boundaries(c.rows.rows())
}

/// Whether the format of a commit is one that there is, and takes as many active rows.
pub fn has_format(c: &Commit) -> bool
    ensures { IsTrue result ↔ IsOfFormat c.now }
{
    1 <= c.format
        && c.format <= NEWEST_FORMAT
        && (c.format != 1 || count_active(c.rows.rows()) <= MAX_ACTIVE_AT_FIRST)
}

/// Whether the boundaries of rows are records' numbers.
fn have_boundaries(rows: &[CatRow]) -> bool
    ensures { IsTrue result ↔ All HasBoundaries rows.now }
{
    rows.iter()
        .all(|row| is_boundary(row.from) && is_boundary(row.to))
}

/// Whether a boundary is none or a record's number.
fn is_boundary(boundary: Option<u32>) -> bool
    ensures { IsTrue result ↔ IsBoundary boundary }
{
    match boundary {
        Some(number) => number < 0x1000_0000,
        None => true,
    }
}
