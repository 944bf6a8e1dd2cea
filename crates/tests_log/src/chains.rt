//! Two records in one bucket's chain: the one that is claimed first is linked last.
//!
//! Row 0 gives true for every payload here, row 9 gives false where `a` is false, and the others give
//! nothing. FNV-1a of the bytes 0 0 1, and of 9 0 0, leaves 4 by 16. A record has a header, three
//! words for each entry, a word of values, its payload, and zeros up to whole lines of four words: one
//! entry and `{}` take 2 lines, two and `{"a":false}` take 3.

ghost use Rattle.std.specs.Prelude.{◌≡◌, IfOk};
ghost use Rattle.fish_ingest.specs.Preparation.{AreDefs};
ghost use Rattle.fish_ingest.specs.Ingestion.{CanStart};
ghost use Rattle.fish_rule.specs.within.Keys.{AreActive};
ghost use Rattle.fish_rule.specs.Passes.{IsPassOf, view};
ghost use Rattle.fish_rule.specs.SeatSteps.{CanSplitPass};
ghost use Rattle.fish_rule.specs.Start.{CanOpen};
ghost use Rattle.tests_log.specs.Lanes.{IsOutOf};

use crate::cause::Cause;
use crate::flights::{claimed, publish_record};
use crate::lanes::{split_lane, store};
use crate::logs::ONE_PAGE;
use crate::nodes::expect_nodes;
use crate::openings::defined;
use fish_chain::Node;
use fish_epoch::Defs;
use fish_psf::ActiveDef;
use fish_rule::{Log, Pass, Start, open_log};
use std::alloc::Global;
use std::process::Abort;
use std::test::Fail;

/// The definitions, by id.
const SOURCES: &[&str] = &[
    "flag when not z exists",
    "take b1",
    "take b2",
    "take b3",
    "take b4",
    "take b5",
    "take b6",
    "take b7",
    "take b8",
    "take a",
];

/// The payloads of one entry and of two.
const ONE: &str = "{}";

const TWO: &str = "{\"a\":false}";

/// Two payloads, and the nodes of their records, newest first: how many of them the newer one has.
struct Case {
    older: &'static str,
    newer: &'static str,
    nodes: &'static [Node],
    newest: usize,
}

/// The only node of the older record.
const OLDEST: Node = Node {
    number: 0,
    place: 1,
    id: 0,
    key: 0,
};

/// The second node of the older record.
const SECOND: Node = Node {
    number: 0,
    place: 4,
    id: 9,
    key: 1,
};

const CASES: &[Case] = &[
    Case {
        older: ONE,
        newer: ONE,
        nodes: &[
            Node {
                number: 1,
                place: 9,
                id: 0,
                key: 0,
            },
            OLDEST,
        ],
        newest: 1,
    },
    Case {
        older: TWO,
        newer: ONE,
        nodes: &[
            Node {
                number: 1,
                place: 13,
                id: 0,
                key: 0,
            },
            SECOND,
            OLDEST,
        ],
        newest: 1,
    },
    Case {
        older: ONE,
        newer: TWO,
        nodes: &[
            Node {
                number: 1,
                place: 12,
                id: 9,
                key: 1,
            },
            Node {
                number: 1,
                place: 9,
                id: 0,
                key: 0,
            },
            OLDEST,
        ],
        newest: 2,
    },
    Case {
        older: TWO,
        newer: TWO,
        nodes: &[
            Node {
                number: 1,
                place: 16,
                id: 9,
                key: 1,
            },
            Node {
                number: 1,
                place: 13,
                id: 0,
                key: 0,
            },
            SECOND,
            OLDEST,
        ],
        newest: 2,
    },
];

/// Another lane stores a payload. Whether it got number 1.
fn stores_second(alloc: Global, log: &Log, other: Pass, payload: &str) -> bool
    requires { IsOutOf log.now other }
{
    let mut other = other;
    let mut defs = Defs::new(alloc);
    let number = store(alloc, log, &mut other, &mut defs, payload.as_bytes());
    drop((other, defs));
    number == Ok(1)
}

/// The control pass claims the first of two records, and links it below the second.
fn link_older_last(
    alloc: Global,
    log: &Log,
    control: &mut Pass,
    defs: &[ActiveDef],
    case: &Case,
) -> Result<(), Cause>
    requires pass { IsPassOf log.now control.old }
    requires can { CanSplitPass (view control.old) 2 }
    requires out { CanStart (view control.old) }
    requires active { AreActive log.now.key.rows.value defs.now }
    requires defs { AreDefs defs.now }
    ensures { IsPassOf log.now control.new }
{
    let other = split_lane(log, control, 2);
    let first = claimed(alloc, log, control, defs, case.older.as_bytes())?;
    let second = stores_second(alloc, log, other, case.newer);
    publish_record(log, control, first);
    if second {
        Ok(())
    } else {
        Err(Cause("not the second"))
    }
}

/// Asserts what walks over both records and over each give.
fn expect_walks<R: Abort>(
    rt: &R,
    alloc: Global,
    log: &Log,
    pass: &mut Pass,
    case: &Case,
) -> Result<(), Cause>
    requires { IsPassOf log.now pass.old }
{
    let both = case.nodes;
    let (newer, older) = both.split_at(case.newest.min(both.len()));
    expect_nodes(rt, alloc, log, pass, (0, 2), both)?;
    expect_nodes(rt, alloc, log, pass, (1, 2), newer)?;
    expect_nodes(rt, alloc, log, pass, (0, 1), older)
}

/// Asserts the chain of one case in a log of its own.
fn expect_case<R: Abort>(
    rt: &R,
    alloc: Global,
    start: &Start,
    defs: &[ActiveDef],
    case: &Case,
) -> Result<(), Cause>
    requires can { CanOpen ONE_PAGE start.now }
    requires active { AreActive start.now.catalog defs.now }
    requires defs { AreDefs defs.now }
{
    let (log, mut control) = open_log(alloc, ONE_PAGE, start)?;
    let linked = link_older_last(alloc, &log, &mut control, defs, case);
    let done = match linked {
        Ok(()) => expect_walks(rt, alloc, &log, &mut control, case),
        Err(fail) => Err(fail),
    };
    drop((log, control));
    done
}

/// Asserts the chains of all cases.
fn expect_cases<R: Abort>(
    rt: &R,
    alloc: Global,
    start: &Start,
    defs: &[ActiveDef],
) -> Result<(), Cause>
    requires can { CanOpen ONE_PAGE start.now }
    requires active { AreActive start.now.catalog defs.now }
    requires defs { AreDefs defs.now }
{
    for case in CASES {
        expect_case(rt, alloc, start, defs, case)?;
    }
    Ok(())
}

#[test]
fn chains(rt: HostRuntime) -> Result<(), Fail> {
    let (start, defs) = defined(rt.alloc(), ONE_PAGE, SOURCES)?;
    let done = expect_cases(&rt, rt.alloc(), &start, defs.as_slice());
    drop((start, defs));
    Ok(done?)
}
