//! Logs that begin at a base, after older records: two records of one bucket, the walk over them that
//! goes on at the head which the bucket had at the start, and the closed log.
//!
//! The one definition gives true for every payload here. A record of one entry and at most 8 bytes has 6
//! words, so it takes two lines, and its entry stands in word 1.

ghost use Rattle.std.specs.Prelude.{◌<◌, ◌≤◌, ◌*◌, All, IfOk};
ghost use Rattle.fish_catalog.specs.Clamps.{IsClamped};
ghost use Rattle.fish_rule.specs.Passes.{IsPassOf, view};
ghost use Rattle.fish_rule.specs.LoadSteps.{IsAlone};
ghost use Rattle.fish_rule.specs.Start.{CanOpen};
ghost use Rattle.tests_log.specs.Heads.{AreOlder};
ghost use Rattle.tests_log.specs.Lanes.{IsOutOf};

use crate::cause::Cause;
use crate::entries::has_entry;
use crate::expecting::expect;
use crate::lanes::store;
use crate::logs::{ONE_PAGE, left, listed};
use crate::nodes::{BUCKET, expect_nodes};
use crate::openings::defined;
use fish_catalog::{Catalog, Entries, PageStart};
use fish_chain::{Node, walk_rest};
use fish_epoch::{Defs, enter, leave};
use fish_ingest::IngestRefusal;
use fish_rule::{Base, Log, Pass, Remains, Start, base, open_log};
use fish_value::{Form, Numbers64};
use fish_walk::settle;
use std::alloc::{AllocError, Global};
use std::process::Abort;
use std::test::Fail;

/// The definition, and the version with which each log begins.
const SOURCES: &[&str] = &["flag when not z exists"];

const VERSION: u16 = 7;

/// The payloads, oldest first.
const PAYLOADS: [&str; 2] = ["{}", "{\"a\":1}"];

/// Where a log begins, the head that the bucket has there, and the nodes that a walk gives.
struct Case {
    base: Base,
    head: u64,
    nodes: &'static [Node],
}

const CASES: &[Case] = &[
    Case {
        base: Base {
            number: 7,
            line: 100,
        },
        head: 397,
        nodes: &[
            Node {
                number: 8,
                place: 409,
                id: 0,
                key: 0,
            },
            Node {
                number: 7,
                place: 401,
                id: 0,
                key: 0,
            },
        ],
    },
    Case {
        base: Base {
            number: 268_435_430,
            line: 300_000_000,
        },
        head: 1_199_999_997,
        nodes: &[
            Node {
                number: 268_435_431,
                place: 1_200_000_009,
                id: 0,
                key: 0,
            },
            Node {
                number: 268_435_430,
                place: 1_200_000_001,
                id: 0,
                key: 0,
            },
        ],
    },
];

/// Sixteen heads, of which the bucket's is this place, below the line.
fn heads_of(alloc: Global, head: u64, line: u64) -> Result<Numbers64, AllocError>
    requires { head < line * 4 }
    ensures { IfOk result (AreOlder line 16) }
{
    let mut heads = Numbers64::new(alloc);
    for bucket in 0..16_u32 {
        heads.push(head_of(bucket, head))?;
    }
    Ok(heads)
}

/// The head of a bucket: this place, or none.
fn head_of(bucket: u32, head: u64) -> u64
    ensures { result ≤ head }
{
    if bucket == BUCKET { head } else { 0 }
}

/// Stores the payloads. Their numbers.
fn stored(alloc: Global, log: &Log, pass: &mut Pass) -> Result<[u32; 2], IngestRefusal>
    requires { IsOutOf log.now pass.old }
    ensures out { IsOutOf log.now pass.new }
    ensures alone { IsAlone (view pass.old) → IsAlone (view pass.new) }
{
    let mut defs = Defs::new(alloc);
    let first = store(alloc, log, pass, &mut defs, PAYLOADS[0].as_bytes());
    let second = store(alloc, log, pass, &mut defs, PAYLOADS[1].as_bytes());
    drop(defs);
    Ok([first?, second?])
}

/// Asserts that the entries are those of lane 1 with the payloads.
fn expect_entries<R: Abort>(rt: &R, alloc: Global, entries: &Entries) {
    let [first, second] = PAYLOADS;
    let first = has_entry(alloc, entries, 0, 1, (Form::Json, first));
    let second = has_entry(alloc, entries, 1, 1, (Form::Json, second));
    expect(rt, "entries", &entries.len(), &2);
    expect(rt, "the same entries", &[first, second], &[true; 2]);
}

/// Asserts what else is left: the base, the line after two records of two lines, the heads, one page with
/// regions, and the version.
fn expect_left<R: Abort>(rt: &R, case: &Case, remains: &Remains) {
    let Base { number, line } = case.base;
    expect(rt, "the base", &remains.base, &number);
    expect(rt, "the line", &remains.lines, &line.saturating_add(4));
    expect(rt, "the version left", &remains.version, &VERSION);
    expect_heads(rt, case, remains.heads.as_slice());
    let starts = remains.starts.as_slice();
    expect(rt, "page starts", &starts.len(), &1);
    let start = PageStart { number, line };
    expect(rt, "the page start", &starts.first(), &Some(&start));
}

/// Asserts that the bucket's head is the newest entry's place, and that no other bucket has one.
fn expect_heads<R: Abort>(rt: &R, case: &Case, heads: &[u64]) {
    expect(rt, "heads", &heads.len(), &16);
    let newest = case.nodes.first().map(|node| node.place);
    expect(
        rt,
        "the head",
        &heads.get(BUCKET as usize).copied(),
        &newest,
    );
    let others = heads.iter().filter(|head| **head != 0).count();
    expect(rt, "buckets with a head", &others, &1);
}

/// The catalogue with the definition, for a log that begins at a number.
fn catalog_at(alloc: Global, number: u32) -> Result<Catalog, Cause>
    ensures { IfOk result (λ catalog. All (IsClamped number) catalog) }
{
    let (first, defs) = defined(alloc, ONE_PAGE, SOURCES)?;
    drop(defs);
    let Start { mut catalog, .. } = first;
    catalog.clamp(number);
    Ok(catalog)
}

/// The start of a case, with these heads.
fn start_with(alloc: Global, base: Base, heads: Numbers64) -> Result<Start, Cause>
    requires number { base.number ≤ 268435439 }
    requires line { base.line ≤ 68719176736 }
    requires heads { AreOlder base.line 16 heads }
    ensures { IfOk result (CanOpen ONE_PAGE) }
{
    match catalog_at(alloc, base.number) {
        Ok(catalog) => Ok(Start {
            base,
            heads,
            catalog,
            version: VERSION,
        }),
        Err(fail) => {
            drop(heads);
            Err(fail)
        }
    }
}

/// The log of a case, and its control pass.
fn opened(alloc: Global, case: &Case) -> Result<(Log, Pass), Cause>
    ensures out { IfOk result (λ r. IsOutOf r.0 r.1) }
    ensures alone { IfOk result (λ r. IsAlone (view r.1)) }
{
    let Base { number, line } = case.base;
    if number > 268_435_439 || line > 68_719_176_736 || case.head >= line * 4 {
        return Err(Cause("no base"));
    }
    let heads = heads_of(alloc, case.head, line)?;
    let start = start_with(alloc, case.base, heads)?;
    let opened = open_log(alloc, ONE_PAGE, &start);
    drop(start);
    Ok(opened?)
}

/// Asserts what a walk over all settled numbers gives, and where the chain goes on below the base.
fn expect_walk<R: Abort>(
    rt: &R,
    alloc: Global,
    log: &Log,
    pass: &mut Pass,
    case: &Case,
) -> Result<(), Cause>
    requires pass { IsPassOf log.now pass.old }
    requires alone { IsAlone (view pass.old) }
    ensures pass { IsPassOf log.now pass.new }
    ensures alone { IsAlone (view pass.new) }
{
    let to = settle(log, pass).settled;
    expect_nodes(rt, alloc, log, pass, (base(log).number, to), case.nodes)?;
    expect(rt, "the rest", &walk_rest(log, pass), &case.head);
    Ok(())
}

/// Asserts the version, the numbers and the walk of an open log.
fn expect_open<R: Abort>(
    rt: &R,
    alloc: Global,
    log: &Log,
    pass: &mut Pass,
    case: &Case,
) -> Result<(), Cause>
    requires out { IsOutOf log.now pass.old }
    requires alone { IsAlone (view pass.old) }
    ensures pass { IsPassOf log.now pass.new }
    ensures alone { IsAlone (view pass.new) }
{
    let version = enter(log, pass);
    leave(log, pass);
    expect(rt, "the version", &version, &VERSION);
    let first = case.base.number;
    let numbers = stored(alloc, log, pass);
    expect(
        rt,
        "numbers",
        &numbers,
        &Ok([first, first.saturating_add(1)]),
    );
    expect_walk(rt, alloc, log, pass, case)
}

/// Closes the log of a case, and asserts what is left of it.
fn expect_closed<R: Abort>(
    rt: &R,
    alloc: Global,
    log: Log,
    control: Pass,
    case: &Case,
) -> Result<(), Cause>
    requires pass { IsPassOf log control }
    requires alone { IsAlone (view control) }
{
    let remains = left(alloc, log, control)?;
    let entries = listed(alloc, &remains)?;
    expect_entries(rt, alloc, &entries);
    drop(entries);
    expect_left(rt, case, &remains);
    drop(remains);
    Ok(())
}

/// Asserts the open and the closed log of one case.
fn expect_case<R: Abort>(rt: &R, alloc: Global, case: &Case) -> Result<(), Cause> {
    let (log, mut control) = opened(alloc, case)?;
    match expect_open(rt, alloc, &log, &mut control, case) {
        Ok(()) => expect_closed(rt, alloc, log, control, case),
        Err(fail) => {
            drop((log, control));
            Err(fail)
        }
    }
}

#[test]
fn logs_behind_older_records(rt: HostRuntime) -> Result<(), Fail> {
    for case in CASES {
        expect_case(&rt, rt.alloc(), case)?;
    }
    Ok(())
}
