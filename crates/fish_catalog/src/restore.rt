//! Which rows that were kept elsewhere are those of a catalogue.

ghost use Rattle.std.specs.Prelude.{◌≡◌, ◌↔◌, All, IfOk, IsTrue, count_by};
ghost use Rattle.fish_catalog.specs.within.Restoring.{AreApart, HaveIds, IsOnlyName, IsListed};
ghost use Rattle.fish_catalog.specs.Rows.{IsCatalog, IsSpanInOrder, IsRow, is_active};

use crate::canonical::is_canonical;
use crate::catalog::{MAX_ACTIVE, MAX_ROWS};
use crate::row::{CatRow, is_name};
use std::alloc::{AllocError, Global};

/// Whether rows are those of a catalogue.
pub(crate) fn is_catalog(alloc: Global, rows: &[CatRow]) -> Result<bool, AllocError>
    ensures { IfOk result (λ yes. IsTrue yes ↔ IsCatalog rows.now) }
{
    if !are_listed(rows) {
        return Ok(false);
    }
    are_rows(alloc, rows)
}

/// Whether what holds of rows beside each other holds of them.
fn are_listed(rows: &[CatRow]) -> bool
    ensures { IsTrue result ↔ IsListed rows.now }
{
    rows.len() <= MAX_ROWS && have_ids(rows) && count_active(rows) <= MAX_ACTIVE && are_apart(rows)
}

/// Whether the ids of rows are 0, 1, 2 and so on.
fn have_ids(rows: &[CatRow]) -> bool
    ensures { IsTrue result ↔ HaveIds rows.now }
{
    for (position, row) in rows.iter().enumerate() {
        if usize::from(row.id) != position {
            return false;
        }
    }
    true
}

/// How many rows are active.
pub fn count_active(rows: &[CatRow]) -> usize
    ensures { result ≡ count_by is_active rows.now }
{
    rows.iter().filter(|row| row.is_active()).count()
}

/// Whether no two active rows have one name.
fn are_apart(rows: &[CatRow]) -> bool
    ensures { IsTrue result ↔ AreApart rows.now }
{
    for (position, row) in rows.iter().enumerate() {
        if row.is_active() && !is_alone(&rows[..position], row) {
            return false;
        }
    }
    true
}

/// Whether no active one of these rows has the name of this row.
fn is_alone(rows: &[CatRow], row: &CatRow) -> bool
    ensures { IsTrue result ↔ IsOnlyName rows.now row.now.name }
{
    for other in rows {
        if other.is_active() && other.name.is(&row.name) {
            return false;
        }
    }
    true
}

/// Whether each row by itself may be kept.
fn are_rows(alloc: Global, rows: &[CatRow]) -> Result<bool, AllocError>
    ensures { IfOk result (λ yes. IsTrue yes ↔ All IsRow rows.now) }
{
    for row in rows {
        if !is_row(alloc, row)? {
            return Ok(false);
        }
    }
    Ok(true)
}

/// Whether a row by itself may be kept.
fn is_row(alloc: Global, row: &CatRow) -> Result<bool, AllocError>
    ensures { IfOk result (λ yes. IsTrue yes ↔ IsRow row.now) }
{
    if !is_name(&row.name) || !are_in_order(row.from, row.to) {
        return Ok(false);
    }
    is_canonical(alloc, &row.def)
}

/// Whether an index that ends has begun, and not past its end.
fn are_in_order(from: Option<u32>, to: Option<u32>) -> bool
    ensures { IsTrue result ↔ IsSpanInOrder from to }
{
    match (from, to) {
        (_, None) => true,
        (None, Some(_)) => false,
        (Some(from), Some(to)) => from <= to,
    }
}
