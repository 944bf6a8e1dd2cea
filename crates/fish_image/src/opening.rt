//! What a checker begins with, and what it ends with.

ghost use Rattle.std.specs.Prelude.{◌≡◌, ◌↔◌, ◌≤◌, [], IfOk, IsTrue};
ghost use Rattle.fish_catalog.specs.Canonical.{IsCanonical};
ghost use Rattle.fish_catalog.specs.Rows.{IsCatalog};
ghost use Rattle.fish_catalog.specs.declared.commit.Commit.{Commit};
ghost use Rattle.fish_image.specs.Progress.{AreHeads, IsAt};
ghost use Rattle.fish_image.specs.Reached.{unread};
ghost use Rattle.fish_image.specs.Terms.{AreIndexRows, IsIndexRow};

use crate::progress::Progress;
use crate::terms::{IndexRow, Terms};
use fish_catalog::{CatRow, Checked, PageStarts, parse_canonical};
use fish_value::Numbers64;
use std::alloc::{AllocError, Global};

/// The definitions of rows, each with where its index begins and ends.
pub(crate) fn index_rows(alloc: Global, rows: &[CatRow]) -> Result<Vec<IndexRow>, AllocError>
    requires { IsCatalog rows.now }
    ensures { IfOk result (λ xs. AreIndexRows rows.now xs.items) }
{
    let mut xs = Vec::new(alloc);
    for row in rows {
        xs.push(index_row(alloc, row)?)?;
    }
    Ok(xs)
}

/// The definition of a row, with where its index begins and ends.
fn index_row(alloc: Global, row: &CatRow) -> Result<IndexRow, AllocError>
    requires { IsCanonical row.now.def }
    ensures { IfOk result (λ x. IsIndexRow row.now x) }
{
    let def = parse_canonical(alloc, row.def.as_bytes())?;
    Ok(IndexRow {
        def,
        from: row.from,
        to: row.to,
    })
}

/// Nothing was read.
pub(crate) fn first(alloc: Global, bits: u8) -> Result<Progress, AllocError>
    requires { bits ≤ 16 }
    ensures { IfOk result (λ at. (c : Commit) → c.bucket_bits ≡ bits → IsAt c unread at) }
{
    Ok(Progress {
        number: 0,
        line: 0,
        page: 0,
        heads: no_heads(alloc, 1 << bits)?,
        starts: Vec::new(alloc),
    })
}

/// So many buckets without a key entry.
fn no_heads(alloc: Global, buckets: usize) -> Result<Vec<u64>, AllocError>
    ensures { IfOk result (λ heads. AreHeads buckets [] heads.items) }
{
    vec![in alloc; 0; buckets]
}

/// Whether all entries were read, and they are all lines.
pub(crate) fn is_whole(terms: &Terms, at: &Progress) -> bool
    ensures { IsTrue result ↔ ((at.now.number ≡ terms.now.count) × (at.now.line ≡ terms.now.lines)) }
{
    at.number == terms.count && at.line == terms.lines
}

/// The heads and the page starts.
pub(crate) fn checked_of(alloc: Global, at: &Progress) -> Result<Checked, AllocError>
    ensures heads { IfOk result (λ checked. checked.heads ≡ at.now.heads.items) }
    ensures starts { IfOk result (λ checked. checked.starts ≡ at.now.starts.items) }
{
    let mut heads = Numbers64::new(alloc);
    for head in &at.heads {
        heads.push(*head)?;
    }
    let starts = starts_of(alloc, at)?;
    Ok(Checked { heads, starts })
}

/// The page starts.
fn starts_of(alloc: Global, at: &Progress) -> Result<PageStarts, AllocError>
    ensures { IfOk result (λ starts. starts ≡ at.now.starts.items) }
{
    let mut starts = PageStarts::new(alloc);
    for start in &at.starts {
        starts.push(*start)?;
    }
    Ok(starts)
}
