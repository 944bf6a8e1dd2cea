//! The definitions with which a log begins: the words of their rows, and what a pass reads of them.

ghost use Rattle.std.specs.Prelude.{◌≡◌, ◌<◌, ◌≤◌, IfOk, length};
ghost use Rattle.fish_epoch.specs.Definitions.{IsUnread};
ghost use Rattle.fish_rule.specs.Passes.{IsPassOf, view};
ghost use Rattle.fish_rule.specs.Table.{first_view};

use crate::cause::Cause;
use crate::expecting::{expect, expect_text};
use crate::logs::{ONE_PAGE, name_of};
use crate::openings::{canonical, defined_log};
use fish_catalog::Catalog;
use fish_epoch::{Defs, enter, leave};
use fish_lang::print_def;
use fish_psf::ActiveDef;
use fish_rule::{Log, Pass, Start, load_opened, load_row, open_log};
use std::alloc::Global;
use std::process::Abort;
use std::test::Fail;

/// A place in the row of `kind`, which is `take type`, and its word.
const ROW: &[(u64, u64)] = &[
    // 4 bytes of a name, 9 of a text, and that the row is active
    (2, 0x1_0904),
    // kind
    (3, 0x646e_696b),
    (4, 0),
    // take typ, and e
    (7, 0x7079_7420_656b_6174),
    (8, 0x65),
];

/// A catalogue with one row, by its name and its source. Its id is 0.
pub(crate) fn one_row(alloc: Global, name: &str, source: &str) -> Result<Catalog, Cause>
    ensures { IfOk result (λ catalog. 0 < length catalog) }
{
    let name = name_of(alloc, name)?;
    let text = canonical(alloc, source)?;
    let mut catalog = Catalog::new(alloc);
    if catalog.add(&name, &text) == Ok(0) {
        Ok(catalog)
    } else {
        drop(catalog);
        Err(Cause("another id"))
    }
}

/// Asserts words of the row with id 0.
fn expect_row<R: Abort>(rt: &R, log: &Log, pass: &mut Pass)
    requires pass { IsPassOf log.now pass.old }
    requires row { 0 < length (view pass.old).about.rows.value }
{
    for &(place, want) in ROW {
        let found = first_row_word(log, pass, place);
        expect(rt, "a word", &found, &Some(want));
    }
}

/// A word of the row with id 0, or none where its place isn't after the boundaries.
fn first_row_word(log: &Log, pass: &mut Pass, place: u64) -> Option<u64>
    requires pass { IsPassOf log.now pass.old }
    requires row { 0 < length (view pass.old).about.rows.value }
    ensures pass { IsPassOf log.now pass.new }
    ensures row { 0 < length (view pass.new).about.rows.value }
{
    if place < 2 || place >= 39 {
        return None;
    }
    Some(load_row(log, pass, 0, place))
}

/// A log of one page with one definition, by its name and its source, and its control pass.
fn one_row_log(alloc: Global, name: &str, source: &str) -> Result<(Log, Pass), Cause>
    ensures pass { IfOk result (λ r. IsPassOf r.0 r.1) }
    ensures row { IfOk result (λ r. 0 < length (view r.1).about.rows.value) }
{
    let catalog = one_row(alloc, name, source)?;
    let start = Start::first(alloc, ONE_PAGE, catalog)?;
    let opened = open_log(alloc, ONE_PAGE, &start);
    drop(start);
    Ok(opened?)
}

#[test]
fn a_log_has_the_words_of_its_catalog(rt: HostRuntime) -> Result<(), Fail> {
    let (log, mut control) = one_row_log(rt.alloc(), "kind", "take type")?;
    let rows = load_opened(&log, &mut control);
    expect(&rt, "rows", &rows, &1);
    expect_row(&rt, &log, &mut control);
    drop((log, control));
    Ok(())
}

/// Definitions as their canonical texts, by id.
const TEXTS: &[&str] = &["take type", "bucket n by 10", "flag when a = 1"];

/// Asserts the id and the text of a definition.
fn expect_def<R: Abort>(rt: &R, alloc: Global, active: &ActiveDef, id: usize, want: &str) {
    expect(rt, "the id", &usize::from(active.id), &id);
    match print_def(alloc, &active.def) {
        Ok(text) => expect_text(rt, "the text", text.as_str(), want),
        Err(_) => expect_text(rt, "the text", "no memory", want),
    }
}

/// Asserts that definitions are those with these texts.
fn expect_defs<R: Abort>(rt: &R, alloc: Global, active: &[ActiveDef], texts: &[&str]) {
    expect(rt, "definitions", &active.len(), &texts.len());
    for (id, active) in active.iter().enumerate() {
        if id < texts.len() {
            expect_def(rt, alloc, active, id, texts[id]);
        }
    }
}

/// Asserts that the active definitions are those with these texts, at a version.
fn expect_active<R: Abort>(rt: &R, alloc: Global, defs: &Defs, version: u16, texts: &[&str]) {
    expect(rt, "the version", &defs.version(), &version);
    expect_defs(rt, alloc, defs.active(), texts);
}

/// Asserts which definitions a pass reads at version 0, and which a second time, when they are those
/// of this version already.
fn expect_read<R: Abort>(
    rt: &R,
    alloc: Global,
    log: &Log,
    control: &mut Pass,
    defs: &mut Defs,
) -> Result<(), Cause>
    requires pass { IsPassOf log.now control.old }
    requires first { view control.old ≡ first_view log.now.key }
    requires defs { IsUnread defs.old.known }
{
    expect_active(rt, alloc, defs, 0, &[]);
    let version = enter(log, control);
    defs.refresh(log, control, version)?;
    expect_active(rt, alloc, defs, 0, TEXTS);
    defs.refresh(log, control, version)?;
    expect_active(rt, alloc, defs, 0, TEXTS);
    leave(log, control);
    Ok(())
}

#[test]
fn the_definitions_of_version_0(rt: HostRuntime) -> Result<(), Fail> {
    let alloc = rt.alloc();
    let (log, mut control) = defined_log(alloc, TEXTS)?;
    let mut defs = Defs::new(alloc);
    let done = expect_read(&rt, alloc, &log, &mut control, &mut defs);
    drop((log, control, defs));
    Ok(done?)
}
