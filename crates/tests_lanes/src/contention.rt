//! Eight lanes that store and scan at once, the first of which registers definitions, ends them and commits meanwhile,
//! run after run: each scan is a plain filter of the log that is closed after it, whatever the lanes' order was.

use crate::blocks::{right_scans, stored_in_order};
use crate::expecting::expect;
use crate::running::{Left, ran};
use crate::scripts::{Plain, Script};
use fish_lanes::Lane;
use std::alloc::Global;
use std::process::Abort;
use std::test::Fail;
use std::thread::Threads;
use tests_log::Cause;

/// How often the block is run, each time over a new store.
const ROUNDS: usize = 3;

/// What the first lane does: another name for the definition, an end of each, and commits.
const REGISTERING: Script = &[
    Plain::Records(0, 100, 2),
    Plain::Register("sort", "take kind"),
    Plain::Scan("sort", "k1"),
    Plain::Checkpoint,
    Plain::Records(100, 100, 2),
    Plain::Deregister("kind"),
    Plain::Scan("kind", "k1"),
    Plain::Checkpoint,
    Plain::Records(200, 100, 2),
    Plain::Deregister("sort"),
    Plain::Scan("sort", "k1"),
];

/// What each other lane does.
const STORING: Script = &[
    Plain::Records(0, 300, 2),
    Plain::Scan("kind", "k1"),
    Plain::Records(300, 300, 2),
    Plain::Scan("kind", "k1"),
];

/// The lanes of a block.
const LANES: &[Script] = &[
    REGISTERING,
    STORING,
    STORING,
    STORING,
    STORING,
    STORING,
    STORING,
    STORING,
];

/// How many records a lane stores, and how often it scans.
fn work_of(lane: &Lane) -> (usize, usize) {
    if lane.number == 1 { (300, 3) } else { (600, 2) }
}

/// Asserts that each lane's records are in order, and that each of its scans is a plain filter of the log.
fn expect_lanes<R: Abort>(rt: &R, alloc: Global, left: &Left) -> Result<(), Cause> {
    expect(rt, "entries", &left.entries.len(), &4_500);
    for lane in left.block.lanes.as_slice() {
        let stored = stored_in_order(alloc, &left.entries, lane.number, 2)?;
        let found = (stored, right_scans(&left.entries, lane));
        expect(rt, "records and scans", &found, &work_of(lane));
    }
    Ok(())
}

/// Runs the block once.
fn expect_round<R: Threads + Sync + Abort>(rt: &R, alloc: Global) -> Result<(), Cause> {
    let left = ran(rt, alloc, LANES)?;
    let done = expect_lanes(rt, alloc, &left);
    drop(left);
    done
}

#[test]
fn eight_lanes_scan_what_eight_lanes_store(rt: HostRuntime) -> Result<(), Fail> {
    for _ in 0..ROUNDS {
        expect_round(&rt, rt.alloc())?;
    }
    Ok(())
}
