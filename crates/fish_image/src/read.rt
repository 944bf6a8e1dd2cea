//! The body of a slot as a commit.
//!
//! What can be decoded is decoded, and spelled again: the bytes tell a commit exactly where they are
//! those that it spells. So no rule of the format stands here a second time.

ghost use Rattle.std.specs.Prelude.{◌≡◌, ◌↔◌, ◌+◌, ◌*◌, ◌≤◌, ℕ, List, Option, Some, IfOk, IfSome, IsSome, IsTrue};
ghost use Rattle.std.specs.Prelude.{length, drop};
ghost use Rattle.fish_catalog.specs.declared.commit.Commit.{Commit};
ghost use Rattle.fish_catalog.specs.declared.row.CatRow.{CatRow};
ghost use Rattle.fish_image.specs.Commits.{IsBoundary};
ghost use Rattle.fish_image.specs.Slot.{boundary_word, number};
ghost use Rattle.fish_image.specs.Reading.{IsBodyOf};
ghost use Rattle.fish_image.specs.within.Reading.{AreRowsOf, IsRowOf};

use crate::slot::{DIGIT, ROW_BYTES, SLOT_BYTES, has_format, is_within, slot_body};
use byteorder::{ByteOrder, LittleEndian};
use fish_catalog::{CatRow, Catalog, Commit, MAX_ROWS};
use fish_value::Text;
use std::alloc::{AllocError, Global};

/// The commit that a slot's body tells, or none where its bytes tell none.
pub fn read_slot(alloc: Global, b: &[u8]) -> Result<Option<Commit>, AllocError>
    ensures found { IfOk result (λ o. IfSome o (λ c. IsBodyOf c b.now)) }
    ensures only { IfOk result (λ o. (c : Commit) → IsBodyOf c b.now → o ≡ Some c) }
{
    let Some(c) = read_commit(alloc, b)? else {
        return Ok(None);
    };
    match is_told(alloc, &c, b) {
        Ok(true) => Ok(Some(c)),
        Ok(false) => {
            drop(c);
            Ok(None)
        }
        Err(want) => {
            drop(c);
            Err(want)
        }
    }
}

/// Whether bytes are the body of a slot that tells this commit.
fn is_told(alloc: Global, c: &Commit, b: &[u8]) -> Result<bool, AllocError>
    ensures { IfOk result (λ told. IsTrue told ↔ IsBodyOf c.now b.now) }
{
    if !is_within(c) || !has_format(c) {
        return Ok(false);
    }
    let body = slot_body(alloc, c)?;
    Ok(body.as_bytes() == b)
}

/// The one candidate for the commit that a slot's body tells.
fn read_commit(alloc: Global, b: &[u8]) -> Result<Option<Commit>, AllocError>
    ensures { IfOk result (λ o. (c : Commit) → IsBodyOf c b.now → o ≡ Some c) }
{
    if b.len() != SLOT_BYTES {
        return Ok(None);
    }
    let count = word_at(b, 6);
    if count > MAX_ROWS as u64 {
        return Ok(None);
    }
    let Some(rows) = read_rows(alloc, &b[64..], count as u16)? else {
        return Ok(None);
    };
    let Some(rows) = Catalog::from_rows(alloc, rows)? else {
        return Ok(None);
    };
    Ok(Some(commit_of(b, rows)))
}

/// The commit with these rows, whose numbers are the words of a slot's head.
fn commit_of(b: &[u8], rows: Catalog) -> Commit
    requires { 64 ≤ length b.now }
    ensures { (c : Commit) → IsBodyOf c b.now → rows ≡ c.rows → result ≡ c }
{
    Commit {
        format: (word_at(b, 0) / DIGIT % 16) as u8,
        turn: (word_at(b, 1) % 0x100) as u8,
        pages: (word_at(b, 2) % 0x1_0000) as u16,
        bucket_bits: (word_at(b, 3) % 0x100) as u8,
        count: (word_at(b, 4) % 0x1_0000_0000) as u32,
        lines: word_at(b, 5),
        rows,
    }
}

/// The word at a position of bytes.
#[tactic(auto, unfolding(crate::specs::Slot::number))]
fn word_at(b: &[u8], position: usize) -> u64
    requires { 8 * position + 8 ≤ length b.now }
    ensures { result ≡ number (drop (8 * position) b.now) }
{
    LittleEndian::read_u64(&b[8 * position..])
}

/// So many rows from the front of bytes, or none where the bytes can be none.
fn read_rows(alloc: Global, b: &[u8], count: u16) -> Result<Option<Vec<CatRow>>, AllocError>
    requires { 320 * count ≤ length b.now }
    ensures some { IfOk result (λ o. (rows : List CatRow) (more : List ℕ) → AreRowsOf rows more b.now
        → length rows ≡ count → IsSome o) }
    ensures rows { IfOk result (λ o. IfSome o (λ found. (rows : List CatRow) (more : List ℕ) → AreRowsOf rows more b.now
        → length rows ≡ count → found.items ≡ rows)) }
{
    let mut rows = Vec::new(alloc);
    let mut rest = b;
    for id in 0..count {
        let (front, behind) = rest.split_at(ROW_BYTES);
        let Some(row) = read_row(alloc, id, front)? else {
            return Ok(None);
        };
        rows.push(row)?;
        rest = behind;
    }
    Ok(Some(rows))
}

/// The row with this id and these bytes, or none where the bytes can be none.
fn read_row(alloc: Global, id: u16, b: &[u8]) -> Result<Option<CatRow>, AllocError>
    requires { length b.now ≡ 320 }
    ensures { IfOk result (λ o. (row : CatRow) → IsRowOf id row b.now → o ≡ Some row) }
{
    let Some(name) = Text::from_bytes(alloc, &b[18..18 + usize::from(b[16])])? else {
        return Ok(None);
    };
    let Some(def) = Text::from_bytes(alloc, &b[64..64 + usize::from(b[17])])? else {
        return Ok(None);
    };
    Ok(Some(CatRow {
        id,
        name,
        def,
        from: boundary_of(word_at(b, 0)),
        to: boundary_of(word_at(b, 1)),
    }))
}

/// A word as a boundary.
fn boundary_of(word: u64) -> Option<u32>
    ensures { (o : Option ℕ) → IsBoundary o → word ≡ boundary_word o → result ≡ o }
{
    if word == u64::MAX {
        None
    } else {
        Some((word % 0x1_0000_0000) as u32)
    }
}
