//! The rows of a version from the log's words: those of the start, and what each operation made of
//! them.

ghost use Rattle.std.specs.Prelude.{◌≡◌, ◌<◌, ◌≤◌, ℕ, suc, IfOk, OnOk, Some, length, map, slice_get, slice_index};
ghost use Rattle.fish_catalog.specs.Listing.{IsListing, ended_at, listed_of};
ghost use Rattle.fish_epoch.specs.Rows.{OnlyLearns};
ghost use Rattle.fish_epoch.specs.within.Rows.{HasRow, HasRowWords};
ghost use Rattle.fish_rule.specs.Passes.{IsPassOf, view};
ghost use Rattle.fish_rule.specs.Registry.{KnowsDefinitions, KnowsRow};

use fish_catalog::{Listed, ROW_WORDS, active_in, read_row};
use fish_layout::{ended_id, registers};
use fish_rule::{Log, Pass, first_version, load_opened, load_operation, load_row};
use std::alloc::{AllocError, Global};

/// The definitions of a version.
pub(crate) fn read_rows(
    alloc: Global,
    log: &Log,
    pass: &mut Pass,
    version: u16,
) -> Result<Vec<Listed>, AllocError>
    requires pass { IsPassOf log.now pass.old }
    requires from { log.now.key.version ≤ version }
    requires reached { version ≤ (view pass.old).learned.version }
    ensures pass { IsPassOf log.now pass.new }
    ensures reads { OnlyLearns (view pass.old) (view pass.new) }
    ensures rows { IfOk result (λ rows.
        KnowsDefinitions (view pass.new).about (view pass.new).learned version rows.items) }
{
    let mut rows = first_rows(alloc, log, pass)?;
    let version = u64::from(version);
    for before in first_version(log)..version {
        make(alloc, log, pass, before, &mut rows)?;
    }
    Ok(rows)
}

/// The definitions of the start.
fn first_rows(alloc: Global, log: &Log, pass: &mut Pass) -> Result<Vec<Listed>, AllocError>
    requires pass { IsPassOf log.now pass.old }
    ensures pass { IsPassOf log.now pass.new }
    ensures reads { OnlyLearns (view pass.old) (view pass.new) }
    ensures rows { IfOk result (λ rows. rows.items ≡ map listed_of (view pass.old).about.rows.value) }
{
    let count = load_opened(log, pass);
    let mut rows = Vec::new(alloc);
    for id in 0..count {
        rows.push(first_row(alloc, log, pass, id)?)?;
    }
    Ok(rows)
}

/// The definition of a row of the start.
fn first_row(alloc: Global, log: &Log, pass: &mut Pass, id: u64) -> Result<Listed, AllocError>
    requires pass { IsPassOf log.now pass.old }
    requires there { id < length (view pass.old).about.rows.value }
    ensures pass { IsPassOf log.now pass.new }
    ensures reads { OnlyLearns (view pass.old) (view pass.new) }
    ensures row { IfOk result (λ l. slice_get (map listed_of (view pass.old).about.rows.value) id ≡ Some l) }
{
    let words = read_words(log, pass, id);
    read_row(alloc, id as u16, active_in(words[2]), &words)
}

/// What the next operation makes of the definitions of a version.
fn make(
    alloc: Global,
    log: &Log,
    pass: &mut Pass,
    version: u64,
    rows: &mut Vec<Listed>,
) -> Result<(), AllocError>
    requires pass { IsPassOf log.now pass.old }
    requires first { log.now.key.version ≤ version }
    requires reached { version < (view pass.old).learned.version }
    requires rows { KnowsDefinitions (view pass.old).about (view pass.old).learned version rows.old.items }
    ensures pass { IsPassOf log.now pass.new }
    ensures reads { OnlyLearns (view pass.old) (view pass.new) }
    ensures rows { OnOk result (KnowsDefinitions (view pass.new).about (view pass.new).learned
        (suc version) rows.new.items) }
{
    let operation = load_operation(log, pass, version + 1);
    if registers(operation) {
        let row = registered_row(alloc, log, pass, rows.as_slice().len() as u64)?;
        rows.push(row)?;
    } else {
        end_row(rows.as_mut_slice(), ended_id(operation));
    }
    Ok(())
}

/// The definition of a row that was registered.
fn registered_row(alloc: Global, log: &Log, pass: &mut Pass, id: u64) -> Result<Listed, AllocError>
    requires pass { IsPassOf log.now pass.old }
    requires row { KnowsRow (view pass.old).about (view pass.old).learned id }
    ensures pass { IsPassOf log.now pass.new }
    ensures reads { OnlyLearns (view pass.old) (view pass.new) }
    ensures row { IfOk result (HasRow (view pass.new) id) }
{
    let words = read_words(log, pass, id);
    read_row(alloc, id as u16, true, &words)
}

/// Ends the definition with an id.
fn end_row(rows: &mut [Listed], id: u16)
    requires { IsListing rows.old }
    ensures { rows.new ≡ ended_at id rows.old }
{
    let position = usize::from(id);
    if position < rows.len() {
        let row = &mut rows[position];
        row.active = false;
    }
}

/// The words of a row, after its boundaries, which are left 0.
fn read_words(log: &Log, pass: &mut Pass, id: u64) -> [u64; ROW_WORDS]
    requires pass { IsPassOf log.now pass.old }
    requires row { KnowsRow (view pass.old).about (view pass.old).learned id }
    ensures pass { IsPassOf log.now pass.new }
    ensures reads { OnlyLearns (view pass.old) (view pass.new) }
    ensures words { HasRowWords (view pass.new) id 39 (slice_index result) }
{
    let mut words = [0; ROW_WORDS];
    for position in 2..ROW_WORDS {
        words[position] = load_row(log, pass, id, position as u64);
    }
    words
}
