//! How far the numbers are settled while a record is in flight, once it is published, and at the
//! log's end.

ghost use Rattle.std.specs.Prelude.{◌≡◌, [], IfOk};
ghost use Rattle.fish_rule.specs.Passes.{IsPassOf, view};
ghost use Rattle.tests_log.specs.Bodies.{IsPlainBody};

use crate::bodies::{claim_words, publish_words, store_lines};
use crate::cause::Cause;
use crate::expecting::expect;
use crate::logs::{ONE_PAGE, empty_log};
use crate::openings::{FIRST, TWO_PAGES};
use fish_layout::Body;
use fish_rule::{Log, Pass, lane, split_pass};
use fish_walk::{Settled, settle};
use std::alloc::Global;
use std::test::Fail;

/// What a pass settles.
fn settled_by(log: &Log, pass: &mut Pass) -> Result<Settled, Cause>
    requires { IsPassOf log.now pass.old }
    ensures { IsPassOf log.now pass.new }
{
    if lane(pass) < 1 {
        return Err(Cause("no lane"));
    }
    Ok(settle(log, pass))
}

/// Claims a line. The words of a record that is placed there.
fn words_of_line(alloc: Global, log: &Log, pass: &mut Pass) -> Result<Body, Cause>
    requires pass { IsPassOf log.now pass.old }
    requires rows { log.now.key.rows.value ≡ [] }
    ensures pass { IsPassOf log.now pass.new }
    ensures words { IfOk result (IsPlainBody (view pass.new)) }
{
    let (_, words) = claim_words(alloc, log, pass, 1)?;
    match words {
        Some(words) => Ok(words),
        None => Err(Cause("no place")),
    }
}

/// What a pass settles once it stored a record of one line.
fn settled_behind(alloc: Global, log: &Log, pass: &mut Pass) -> Result<Settled, Cause>
    requires pass { IsPassOf log.now pass.old }
    requires rows { log.now.key.rows.value ≡ [] }
    ensures { IsPassOf log.now pass.new }
{
    store_lines(alloc, log, pass, 1)?;
    settled_by(log, pass)
}

/// What one pass settles while another has a record of one line in flight, and what it settles
/// once that is published. In between it stores one itself.
fn settled_around(
    alloc: Global,
    log: &Log,
    other: &mut Pass,
    pass: &mut Pass,
) -> Result<(Settled, Settled), Cause>
    requires other { IsPassOf log.now other.old }
    requires pass { IsPassOf log.now pass.old }
    requires rows { log.now.key.rows.value ≡ [] }
    ensures other { IsPassOf log.now other.new }
    ensures pass { IsPassOf log.now pass.new }
{
    let words = words_of_line(alloc, log, other)?;
    let before = settled_behind(alloc, log, pass);
    publish_words(log, other, words.as_slice());
    drop(words);
    Ok((before?, settled_by(log, pass)?))
}

/// What two passes settle: the second at first, while the other has a record in flight and once that is
/// published, and then the other.
fn settled_by_two(
    alloc: Global,
    log: &Log,
    control: &mut Pass,
    second: &mut Pass,
) -> Result<[Settled; 4], Cause>
    requires pass { IsPassOf log.now control.old }
    requires second { IsPassOf log.now second.old }
    requires rows { log.now.key.rows.value ≡ [] }
{
    let first = settled_by(log, second)?;
    let (before, after) = settled_around(alloc, log, control, second)?;
    let other = settled_by(log, control)?;
    Ok([first, before, after, other])
}

const AROUND: [Settled; 4] = [
    Settled {
        settled: 0,
        count: 0,
    },
    Settled {
        settled: 0,
        count: 2,
    },
    Settled {
        settled: 2,
        count: 2,
    },
    Settled {
        settled: 2,
        count: 2,
    },
];

#[test]
fn stops_at_a_record_in_flight(rt: HostRuntime) -> Result<(), Fail> {
    let (log, mut control) = empty_log(rt.alloc(), ONE_PAGE, FIRST)?;
    let mut second = split_pass(&log, &mut control, 2);
    let found = settled_by_two(rt.alloc(), &log, &mut control, &mut second);
    drop((log, control, second));
    expect(&rt, "settled", &found?, &AROUND);
    Ok(())
}

/// The lines claimed one after the other in a log of two pages: three records, a void, two records,
/// and a claim past the log's end.
const TO_THE_END: &[u64] = &[1, 16_383, 16_383, 19, 2, 16_383, 16_383];

/// What a pass settles once it has claimed past the log's end, and another once it has too.
fn settled_at_the_end(
    alloc: Global,
    log: &Log,
    control: &mut Pass,
    second: &mut Pass,
) -> Result<[Settled; 2], Cause>
    requires pass { IsPassOf log.now control.old }
    requires second { IsPassOf log.now second.old }
    requires rows { log.now.key.rows.value ≡ [] }
{
    for &lines in TO_THE_END {
        store_lines(alloc, log, control, lines)?;
    }
    let one_mark = settled_by(log, control)?;
    store_lines(alloc, log, second, 1)?;
    Ok([one_mark, settled_by(log, second)?])
}

const AT_THE_END: [Settled; 2] = [
    Settled {
        settled: 6,
        count: 7,
    },
    Settled {
        settled: 6,
        count: 8,
    },
];

#[test]
fn stops_at_the_first_mark(rt: HostRuntime) -> Result<(), Fail> {
    let (log, mut control) = empty_log(rt.alloc(), TWO_PAGES, FIRST)?;
    let mut second = split_pass(&log, &mut control, 2);
    let found = settled_at_the_end(rt.alloc(), &log, &mut control, &mut second);
    drop((log, control, second));
    expect(&rt, "settled", &found?, &AT_THE_END);
    Ok(())
}
