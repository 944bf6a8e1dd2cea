//! Definitions that the first lane of a block registers and ends, beside the other lanes.

ghost use Rattle.std.specs.Prelude.{OnOk};
ghost use Rattle.tests_lanes.specs.Blocks.{IsHeld};

use crate::expecting::{expect, expect_text};
use crate::running::{Block, Open, opened, ran_over, run_table, told, told_lanes};
use crate::scripts::{Plain, Script};
use fish_lanes::Lane;
use fish_report::Item;
use std::alloc::Global;
use std::process::Abort;
use std::test::Fail;
use std::thread::Threads;
use tests_log::Cause;

/// One lane, so that each index begins and ends at once.
const ALONE: &[Script] = &[&[
    Plain::Register("t", "take type"),
    Plain::Lines("{\"type\":\"a\"}\n{\"type\":\"b\"}\n{\"type\":\"a\"}\n"),
    Plain::Register("t", "take kind"),
    Plain::Explain("t", 0, 3),
    Plain::Scan("t", "a"),
    Plain::Deregister("t"),
    Plain::Deregister("t"),
    Plain::Scan("t", "a"),
    Plain::Register("t", "take kind"),
]];

/// What it tells, and what it leaves in the log. After its end a name still means the newest definition that had it.
const ALONE_TOLD: &str = "lane 1\n\
registered t id 0 from 0\n\
ingested lines stored 3 refused 0\n\
refused register t name active\n\
explain t = \"\" in 0..3: index 0..3 by 0\n\
scan t = \"a\" in 0..3 found 2 open none\n\
2 12 {\"type\":\"a\"}\n\
0 12 {\"type\":\"a\"}\n\
deregistered t id 0 to 3\n\
refused deregister t unknown name\n\
scan t = \"a\" in 0..3 found 2 open none\n\
2 12 {\"type\":\"a\"}\n\
0 12 {\"type\":\"a\"}\n\
registered t id 1 from 3\n\
1 {\"type\":\"a\"}\n\
1 {\"type\":\"b\"}\n\
1 {\"type\":\"a\"}\n";

#[test]
fn a_lane_alone_tells_of_its_definitions(rt: HostRuntime) -> Result<(), Fail> {
    let left = ran_over(&rt, rt.alloc(), opened(rt.alloc())?, ALONE)?;
    let found = told(rt.alloc(), &left);
    drop(left);
    expect_text(&rt, "a block", found?.as_str(), ALONE_TOLD);
    Ok(())
}

/// The first lane registers a definition while the second one stores records.
const BESIDE: &[Script] = &[
    &[
        Plain::Checkpoint,
        Plain::Register("t", "take kind"),
        Plain::Checkpoint,
    ],
    &[Plain::Records(0, 300, 2)],
];

/// Whether an item tells that a definition was registered, and where its index begins.
fn told_begun(item: &Item) -> (bool, Option<u32>) {
    match item {
        Item::Registered { from, .. } => (true, Some(*from)),
        Item::Rolling { .. } => (true, None),
        Item::Bound { from, .. } => (false, Some(*from)),
        _ => (false, None),
    }
}

/// How many definitions a lane's items register, and how many boundaries they tell that lie within so many numbers.
fn begun_in(lane: &Lane, numbers: u32) -> (usize, usize) {
    let (mut begun, mut bound) = (0_usize, 0_usize);
    for item in lane.items.as_slice() {
        let (is, from) = told_begun(item);
        if is {
            begun = begun.saturating_add(1);
        }
        if matches!(from, Some(from) if from <= numbers) {
            bound = bound.saturating_add(1);
        }
    }
    (begun, bound)
}

/// The same with the boundary that was found after the block.
fn begun_by(block: &Block) -> (usize, usize) {
    let Some(lane) = block.lanes.as_slice().first() else {
        return (0, 0);
    };
    let (begun, bound) = begun_in(lane, block.end.to);
    match block.end.bound {
        Some(last) if last.from <= block.end.to => (begun, bound.saturating_add(1)),
        _ => (begun, bound),
    }
}

/// What follows it: none waits.
const BEHIND: &[Script] = &[&[Plain::Register("t", "take lane"), Plain::Deregister("t")]];

const BEHIND_TOLD: &str = "lane 1\n\
refused register t name active\n\
deregistered t id 0 to 300\n";

/// Asserts that the first lane's items or the block's end tell one boundary.
fn expect_beside<R: Threads + Sync + Abort>(
    rt: &R,
    alloc: Global,
    held: &mut Open,
) -> Result<(), Cause>
    requires { IsHeld held.old.disk held.old.store }
    ensures { OnOk result (IsHeld held.new.disk held.new.store) }
{
    let block = run_table(rt, alloc, held, BESIDE)?;
    let (found, to) = (begun_by(&block), block.end.to);
    drop(block);
    expect(rt, "definitions, and boundaries", &found, &(1, 1));
    expect(rt, "the end", &to, &300);
    Ok(())
}

/// Asserts what the registry is after it.
fn expect_behind<R: Threads + Sync + Abort>(
    rt: &R,
    alloc: Global,
    held: &mut Open,
) -> Result<(), Cause>
    requires { IsHeld held.old.disk held.old.store }
{
    expect_beside(rt, alloc, held)?;
    let block = run_table(rt, alloc, held, BEHIND)?;
    let found = told_lanes(alloc, &block);
    drop(block);
    expect_text(rt, "behind it", found?.as_str(), BEHIND_TOLD);
    Ok(())
}

#[test]
fn a_block_ends_with_each_boundary_found(rt: HostRuntime) -> Result<(), Fail> {
    let mut held = opened(rt.alloc())?;
    let done = expect_behind(&rt, rt.alloc(), &mut held);
    drop(held);
    Ok(done?)
}
