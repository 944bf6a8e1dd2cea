//! A store that was committed, dropped and opened again: what its lanes find on both sides of the table's base.

ghost use Rattle.std.specs.Prelude.{◌≤◌, IfOk, OnOk, length};
ghost use Rattle.tests_lanes.specs.Blocks.{IsHeld};

use crate::expecting::expect_text;
use crate::running::{Open, defined, opened_again, run_table, told_lanes};
use crate::scripts::{Plain, Script};
use std::alloc::Global;
use std::process::Abort;
use std::test::Fail;
use std::thread::Threads;
use tests_log::Cause;

/// What is stored and committed before: three records, of which the first and the last are of the kind.
const BEFORE: &[Script] = &[&[
    Plain::Lines("{\"kind\":\"k1\"}\n{\"kind\":\"k2\"}\n{\"kind\":\"k1\"}\n"),
    Plain::Checkpoint,
]];

/// The first lane stores a fourth record and scans, and so does the second one.
const BOTH: &[Script] = &[
    &[
        Plain::Lines("{\"kind\":\"k1\",\"n\":4}\n"),
        Plain::Scan("kind", "k1"),
    ],
    &[Plain::Scan("kind", "k1"), Plain::Scan("kind", "k2")],
];

/// What they tell. The second lane stays before its scan until the first one has ended.
const BOTH_TOLD: &str = "lane 1\n\
ingested lines stored 1 refused 0\n\
scan kind = \"k1\" in 0..4 found 3 open none\n\
3 19 {\"kind\":\"k1\",\"n\":4}\n\
2 13 {\"kind\":\"k1\"}\n\
0 13 {\"kind\":\"k1\"}\n\
lane 2\n\
scan kind = \"k1\" in 0..4 found 3 open none\n\
3 19 {\"kind\":\"k1\",\"n\":4}\n\
2 13 {\"kind\":\"k1\"}\n\
0 13 {\"kind\":\"k1\"}\n\
scan kind = \"k2\" in 0..4 found 1 open none\n\
1 13 {\"kind\":\"k2\"}\n";

/// Both lanes store a record, in either order. The second one then scans, and stores another one.
const BETWEEN: &[Script] = &[
    &[Plain::Lines("{\"kind\":\"k1\"}\n")],
    &[
        Plain::Lines("{\"kind\":\"k1\"}\n"),
        Plain::Scan("kind", "k1"),
        Plain::Lines("{\"kind\":\"k1\",\"n\":6}\n"),
        Plain::Scan("kind", "k1"),
    ],
];

/// What they tell.
const BETWEEN_TOLD: &str = "lane 1\n\
ingested lines stored 1 refused 0\n\
lane 2\n\
ingested lines stored 1 refused 0\n\
scan kind = \"k1\" in 0..5 found 4 open none\n\
4 13 {\"kind\":\"k1\"}\n\
3 13 {\"kind\":\"k1\"}\n\
2 13 {\"kind\":\"k1\"}\n\
0 13 {\"kind\":\"k1\"}\n\
ingested lines stored 1 refused 0\n\
scan kind = \"k1\" in 0..6 found 5 open none\n\
5 19 {\"kind\":\"k1\",\"n\":6}\n\
4 13 {\"kind\":\"k1\"}\n\
3 13 {\"kind\":\"k1\"}\n\
2 13 {\"kind\":\"k1\"}\n\
0 13 {\"kind\":\"k1\"}\n";

/// Runs the block that commits.
fn commit<R: Threads + Sync>(rt: &R, alloc: Global, held: &mut Open) -> Result<(), Cause>
    requires { IsHeld held.old.disk held.old.store }
    ensures { OnOk result (IsHeld held.new.disk held.new.store) }
{
    let block = run_table(rt, alloc, held, BEFORE)?;
    drop(block);
    Ok(())
}

/// A store that was opened again after it.
fn committed<R: Threads + Sync>(rt: &R, alloc: Global) -> Result<Open, Cause>
    ensures { IfOk result (λ o. IsHeld o.disk o.store) }
{
    let mut held = defined(rt, alloc)?;
    match commit(rt, alloc, &mut held) {
        Ok(()) => opened_again(alloc, held),
        Err(fail) => {
            drop(held);
            Err(fail)
        }
    }
}

/// What the lanes of a block over it tell.
fn told_over<R: Threads + Sync>(rt: &R, alloc: Global, scripts: &[Script]) -> Result<String, Cause>
    requires some { 1 ≤ length scripts.now }
    requires few { length scripts.now ≤ 16 }
{
    let mut held = committed(rt, alloc)?;
    let ran = run_table(rt, alloc, &mut held, scripts);
    drop(held);
    match ran {
        Ok(block) => {
            let told = told_lanes(alloc, &block);
            drop(block);
            told
        }
        Err(fail) => Err(fail),
    }
}

/// Asserts it.
fn expect_over<R: Threads + Sync + Abort>(
    rt: &R,
    alloc: Global,
    scripts: &[Script],
    want: &str,
) -> Result<(), Cause>
    requires some { 1 ≤ length scripts.now }
    requires few { length scripts.now ≤ 16 }
{
    let found = told_over(rt, alloc, scripts)?;
    expect_text(rt, "behind an opening", found.as_str(), want);
    Ok(())
}

#[test]
fn scans_find_records_on_both_sides_of_the_base(rt: HostRuntime) -> Result<(), Fail> {
    Ok(expect_over(&rt, rt.alloc(), BOTH, BOTH_TOLD)?)
}

#[test]
fn a_lane_that_stayed_keeps_its_order(rt: HostRuntime) -> Result<(), Fail> {
    Ok(expect_over(&rt, rt.alloc(), BETWEEN, BETWEEN_TOLD)?)
}
