//! The keys that a record has to have.
//!
//! A definition is evaluated where its index covers the record, and where a key entry is of it.

ghost use Rattle.std.specs.Prelude.{◌≡◌, ◌↔◌, ◌<◌, [], IfOk, IsTrue, Some, length, slice_get};
ghost use Rattle.fish_layout.specs.Body.{AreProperKeys};
ghost use Rattle.fish_layout.specs.declared.parts.KeyPart.{KeyPart as Key};
ghost use Rattle.fish_image.specs.Log.{AreSomeOf, values_under};
ghost use Rattle.fish_image.specs.within.Terms.{HasIndexValues, HasKeysFor, IndexCovers};

use crate::terms::IndexRow;
use fish_layout::KeyPart;
use fish_psf::{Parsed, values};
use fish_value::Value;
use std::alloc::{AllocError, Global};

/// Whether each key entry is of a definition, and the entries of each have values that it gives: each once and in
/// their order, and all of them where its index covers the record.
pub(crate) fn has_keys<R: Parsed>(
    alloc: Global,
    rows: &[IndexRow],
    number: u32,
    keys: &[KeyPart],
    rec: &R,
) -> Result<bool, AllocError>
    requires { AreProperKeys 0 keys.now }
    ensures { IfOk result (λ yes. IsTrue yes ↔ HasKeysFor rows.now number (R.fields rec.now) keys.now) }
{
    if !are_known(rows, keys) {
        return Ok(false);
    }
    for (id, row) in rows.iter().enumerate() {
        if !has_values(alloc, row, number, id, keys, rec)? {
            return Ok(false);
        }
    }
    Ok(true)
}

/// Whether each key entry is of a definition.
fn are_known(rows: &[IndexRow], keys: &[KeyPart]) -> bool
    ensures { IsTrue result ↔ ((j : _) (k : Key) → slice_get keys.now j ≡ Some k → k.id < length rows.now) }
{
    for key in keys {
        if usize::from(key.id) >= rows.len() {
            return false;
        }
    }
    true
}

/// Whether the key entries of a definition have values that it gives, and all of them where its index covers the
/// record.
#[tactic(auto, using(crate::proofs::RowValues::none_wanted))]
fn has_values<R: Parsed>(
    alloc: Global,
    row: &IndexRow,
    number: u32,
    id: usize,
    keys: &[KeyPart],
    rec: &R,
) -> Result<bool, AllocError>
    requires { AreProperKeys 0 keys.now }
    ensures { IfOk result (λ yes. IsTrue yes ↔ HasIndexValues row.now number (R.fields rec.now)
        (values_under id keys.now)) }
{
    let covered = covers(row, number);
    if !covered && has_none(keys, id) {
        // it needs no key entry, so what it gives isn't asked
        return Ok(true);
    }
    let given = values(alloc, &row.def, rec)?;
    let fits = if covered {
        are_all(keys, id, given.as_slice())
    } else {
        are_some(keys, id, given.as_slice())
    };
    drop(given);
    Ok(fits)
}

/// Whether no key entry is of the definition with this id. Entries after a greater id aren't looked at.
fn has_none(keys: &[KeyPart], id: usize) -> bool
    requires { AreProperKeys 0 keys.now }
    ensures { IsTrue result ↔ (values_under id keys.now ≡ []) }
{
    let mut rest = keys;
    while let [key, behind @ ..] = rest {
        let own = usize::from(key.id);
        if own == id {
            return false;
        }
        if own > id {
            return true;
        }
        rest = behind;
    }
    true
}

/// Whether the key entries of a definition have just these values.
#[tactic(auto, using(crate::proofs::KeyValues::all_own, crate::proofs::KeyValues::all_other, crate::proofs::KeyValues::all_end))]
fn are_all(keys: &[KeyPart], id: usize, given: &[Value]) -> bool
    ensures { IsTrue result ↔ (values_under id keys.now ≡ given.now) }
{
    let [key, behind @ ..] = keys else {
        return given.is_empty();
    };
    if usize::from(key.id) != id {
        return are_all(behind, id, given);
    }
    let [first, more @ ..] = given else {
        return false;
    };
    first.is(&key.value) && are_all(behind, id, more)
}

/// Whether the key entries of a definition have some of these values, in their order.
#[tactic(auto, using(crate::proofs::KeyValues::some_next, crate::proofs::KeyValues::some_skip))]
fn are_some(keys: &[KeyPart], id: usize, given: &[Value]) -> bool
    ensures { IsTrue result ↔ AreSomeOf (values_under id keys.now) given.now }
{
    let [key, behind @ ..] = keys else {
        return true;
    };
    if usize::from(key.id) != id {
        return are_some(behind, id, given);
    }
    let [first, more @ ..] = given else {
        return false;
    };
    if first.is(&key.value) {
        are_some(behind, id, more)
    } else {
        are_some(keys, id, more)
    }
}

/// Whether an index covers a record.
fn covers(row: &IndexRow, number: u32) -> bool
    ensures { IsTrue result ↔ IndexCovers row.now number }
{
    let Some(from) = row.from else {
        return false;
    };
    match row.to {
        Some(to) => from <= number && number < to,
        None => from <= number,
    }
}
