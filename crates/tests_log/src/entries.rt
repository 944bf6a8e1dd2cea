//! Entries as they are read back: by number while a log is open, and of the closed log.

ghost use Rattle.std.specs.Prelude.{◌≡◌, ◌<◌, [], IfOk};
ghost use Rattle.fish_psf.specs.Blanks.{IsBlankOf};
ghost use Rattle.fish_rule.specs.Passes.{IsPassOf, view};
ghost use Rattle.fish_rule.specs.LoadSteps.{IsAlone};
ghost use Rattle.fish_rule.specs.Table.{first_view};
ghost use Rattle.tests_log.specs.Lanes.{IsOutOf};

use crate::bodies::{object_of, store_lines};
use crate::cause::Cause;
use crate::expecting::expect;
use crate::lanes::{split_lane, store_as, take_back};
use crate::logs::{closed, empty_log};
use crate::openings::{TWO_PAGES, defined_log};
use fish_catalog::{Entries, Entry};
use fish_epoch::Defs;
use fish_psf::Steps;
use fish_rule::{Base, Log, Pass, base, lane};
use fish_value::{Form, Text};
use fish_walk::{Look, count_now, look, read_entry};
use std::alloc::Global;
use std::marker::Brand;
use std::process::Abort;
use std::sync::ledger::{Blank, Ledger};
use std::test::Fail;

/// The lines claimed one after the other, and what is found at each number. The fourth claim crosses
/// the end of a page.
const LINES: &[(u64, Look)] = &[
    (1, Look::Stored),
    (16_383, Look::Stored),
    (16_383, Look::Stored),
    (19, Look::Void),
    (2, Look::Stored),
];

/// What is found at a number, where a record there is the entry that is wanted.
fn found_at<L: Ledger>(
    alloc: Global,
    log: &Log,
    pass: &mut Pass,
    number: u32,
    want: &Entry,
    loads: &mut Steps<L>,
) -> Result<Look, Cause>
    requires { IsPassOf log.now pass.old }
    ensures { IsPassOf log.now pass.new }
{
    let count = count_now(log, pass);
    if number >= count || number < base(log).number || lane(pass) < 1 {
        return Err(Cause("no such number"));
    }
    let found = look(log, pass, number);
    if let Look::Stored = found {
        let entry = read_entry(alloc, log, pass, number, loads)?;
        let same = entry.is(want);
        drop(entry);
        if !same {
            return Err(Cause("another entry"));
        }
    }
    Ok(found)
}

/// The same with a counter of a blank.
fn found_with<L: Ledger>(
    alloc: Global,
    blank: Blank,
    log: &Log,
    pass: &mut Pass,
    number: u32,
    want: &Entry,
) -> Result<Look, Cause>
    requires blank { IsBlankOf L.name L.parts blank }
    requires pass { IsPassOf log.now pass.old }
    ensures { IsPassOf log.now pass.new }
{
    let mut loads = Steps::<L>::new(blank);
    found_at(alloc, log, pass, number, want, &mut loads)
}

/// What is found at a number, where a record there fills so many lines.
fn found_once(
    alloc: Global,
    log: &Log,
    pass: &mut Pass,
    number: u32,
    lines: u64,
) -> Result<Look, Cause>
    requires { IsPassOf log.now pass.old }
    ensures { IsPassOf log.now pass.new }
{
    let want = Entry::Stored {
        lane: 1,
        form: Form::Json,
        payload: object_of(alloc, lines)?,
    };
    let found = found_with::<Brand>(alloc, Blank::new(1), log, pass, number, &want);
    drop(want);
    found
}

/// Stores the records.
fn store_all(alloc: Global, log: &Log, pass: &mut Pass) -> Result<(), Cause>
    requires pass { IsPassOf log.now pass.old }
    requires rows { log.now.key.rows.value ≡ [] }
    ensures { IsPassOf log.now pass.new }
{
    for &(lines, _) in LINES {
        store_lines(alloc, log, pass, lines)?;
    }
    Ok(())
}

/// Stores records, and asserts what is found at each number.
fn expect_found<R: Abort>(rt: &R, alloc: Global, log: &Log, pass: &mut Pass) -> Result<(), Cause>
    requires pass { IsPassOf log.now pass.old }
    requires rows { log.now.key.rows.value ≡ [] }
{
    store_all(alloc, log, pass)?;
    for (number, &(lines, want)) in LINES.iter().enumerate() {
        let found = found_once(alloc, log, pass, number as u32, lines)?;
        expect(rt, "a number", &found, &want);
    }
    Ok(())
}

#[test]
fn entries_are_read_back(rt: HostRuntime) -> Result<(), Fail> {
    let first = Base { number: 0, line: 0 };
    let (log, mut pass) = empty_log(rt.alloc(), TWO_PAGES, first)?;
    let done = expect_found(&rt, rt.alloc(), &log, &mut pass);
    drop((log, pass));
    Ok(done?)
}

/// Two payloads that one pass stores in a row, each in its form.
const JSON: (Form, &str) = (Form::Json, "{\"type\":\"Push\"}");

const CSV: (Form, &str) = (Form::Csv, "Push,12");

/// The lane that stores them.
const LANE: u8 = 3;

/// A lane stores both payloads. Their numbers.
fn both_stored(alloc: Global, log: &Log, pass: &mut Pass) -> Result<(u32, u32), Cause>
    requires { IsOutOf log.now pass.old }
    ensures { IsOutOf log.now pass.new }
{
    let mut defs = Defs::new(alloc);
    let first = store_as(alloc, log, pass, &mut defs, JSON.0, JSON.1.as_bytes());
    let second = store_as(alloc, log, pass, &mut defs, CSV.0, CSV.1.as_bytes());
    drop(defs);
    match (first, second) {
        (Ok(first), Ok(second)) => Ok((first, second)),
        _ => Err(Cause("refused")),
    }
}

/// A lane that is given out stores both payloads, and is taken back. Their numbers.
fn both_by_lane(alloc: Global, log: &Log, control: &mut Pass) -> Result<(u32, u32), Cause>
    requires pass { IsPassOf log.now control.old }
    requires first { view control.old ≡ first_view log.now.key }
    ensures pass { IsPassOf log.now control.new }
    ensures alone { IfOk result (λ _. IsAlone (view control.new)) }
{
    let mut other = split_lane(log, control, LANE);
    match both_stored(alloc, log, &mut other) {
        Ok(numbers) => {
            take_back(log, control, other, LANE)?;
            Ok(numbers)
        }
        Err(fail) => {
            drop(other);
            Err(fail)
        }
    }
}

/// A log in which a lane stored both payloads, as it is closed, and their numbers.
fn closed_behind_both(alloc: Global) -> Result<(Entries, (u32, u32)), Cause> {
    let (log, mut control) = defined_log(alloc, &["take type", "take $1"])?;
    match both_by_lane(alloc, &log, &mut control) {
        Ok(numbers) => Ok((closed(alloc, log, control)?, numbers)),
        Err(fail) => {
            drop((log, control));
            Err(fail)
        }
    }
}

/// Whether the entry at a number is this one.
fn is_entry(entries: &Entries, number: u32, want: &Entry) -> bool {
    match entries.as_slice().get(number as usize) {
        Some(entry) => entry.is(want),
        None => false,
    }
}

/// Whether the entry at a number is of a lane, with this payload in its form.
pub(crate) fn has_entry(
    alloc: Global,
    entries: &Entries,
    number: u32,
    lane: u8,
    stored: (Form, &str),
) -> bool {
    let (form, payload) = stored;
    let Ok(payload) = Text::copy_of(alloc, payload) else {
        return false;
    };
    let want = Entry::Stored {
        lane,
        form,
        payload,
    };
    let same = is_entry(entries, number, &want);
    drop(want);
    same
}

/// Whether the numbers ascend, and whether each payload stands at its number.
fn compared(alloc: Global, entries: &Entries, numbers: (u32, u32)) -> [bool; 3] {
    let (first, second) = numbers;
    let json = has_entry(alloc, entries, first, LANE, JSON);
    let csv = has_entry(alloc, entries, second, LANE, CSV);
    [first < second, json, csv]
}

#[test]
fn what_was_ingested_stands_in_the_closed_log(rt: HostRuntime) -> Result<(), Fail> {
    let (entries, numbers) = closed_behind_both(rt.alloc())?;
    let found = compared(rt.alloc(), &entries, numbers);
    drop(entries);
    expect(&rt, "ascend, and the entries", &found, &[true; 3]);
    Ok(())
}
