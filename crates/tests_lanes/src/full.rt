//! Lanes that find the log full: what they hand back, and that they answer every statement once it was full before.

ghost use Rattle.std.specs.Prelude.{OnOk};
ghost use Rattle.tests_lanes.specs.Blocks.{IsHeld};

use crate::expecting::expect;
use crate::running::{Block, Open, defined, run_table};
use crate::scripts::{Plain, Script};
use std::alloc::Global;
use std::process::Abort;
use std::test::Fail;
use std::thread::Threads;
use tests_log::Cause;

/// Each lane has more to store than a page holds, and a statement more.
const FULL: &[Script] = &[
    &[Plain::Records(0, 500, 450), Plain::Scan("kind", "k1")],
    &[Plain::Records(0, 500, 450), Plain::Records(500, 1, 2)],
];

/// Asserts how many items each lane has, and how many statements it keeps and hands back.
fn expect_counts<R: Abort>(rt: &R, block: &Block, want: (usize, usize, usize)) {
    for lane in block.lanes.as_slice() {
        let found = (lane.items.len(), lane.works.len(), lane.left.len());
        expect(rt, "items, statements and those left", &found, &want);
    }
}

/// Runs a block and asserts the same of it.
fn run_counted<R: Threads + Sync + Abort>(
    rt: &R,
    alloc: Global,
    held: &mut Open,
    want: (usize, usize, usize),
) -> Result<(), Cause>
    requires { IsHeld held.old.disk held.old.store }
    ensures { OnOk result (IsHeld held.new.disk held.new.store) }
{
    let block = run_table(rt, alloc, held, FULL)?;
    expect_counts(rt, &block, want);
    drop(block);
    Ok(())
}

/// Runs it twice, over a log with room, and over one that is full.
fn run_twice<R: Threads + Sync + Abort>(rt: &R, alloc: Global, held: &mut Open) -> Result<(), Cause>
    requires { IsHeld held.old.disk held.old.store }
{
    run_counted(rt, alloc, held, (1, 1, 1))?;
    run_counted(rt, alloc, held, (2, 2, 0))
}

#[test]
fn a_full_log_leaves_what_was_not_begun(rt: HostRuntime) -> Result<(), Fail> {
    let mut held = defined(&rt, rt.alloc())?;
    let done = run_twice(&rt, rt.alloc(), &mut held);
    drop(held);
    Ok(done?)
}
