//! Walks down the longest chain of a log.

ghost use Rattle.std.specs.Prelude.{◌≡◌, ◌<◌};
ghost use Rattle.bench.specs.Opening.{IsControl};
ghost use Rattle.fish_ingest.specs.Preparation.{AreDefs};
ghost use Rattle.fish_psf.specs.Blanks.{IsBlankOf};
ghost use Rattle.fish_rule.specs.within.Keys.{AreActive};
ghost use Rattle.fish_chain.specs.Walks.{IsWalking};
ghost use Rattle.fish_rule.specs.Passes.{IsPassOf, view, walk_of};

use crate::lanes::report;
use crate::opening::Opened;
use crate::stores::{RECORDS, StoreLane, lane_of, store_all};
use crate::workload::{Workload, open_for};
use fish_chain::{walk_next, walk_start};
use fish_psf::{ActiveDef, Steps};
use fish_rule::{Log, Pass, buckets, lane};
use fish_walk::settle;
use std::alloc::AllocError;
use std::io::Eprint;
use std::marker::Brand;
use std::sync::ledger::{Blank, Ledger};
use std::time::{Clock, Instant};

/// A walk down a whole chain.
#[derive(Clone, Copy)]
pub struct Walked {
    /// How many entries it gave.
    pub nodes: u64,
    /// How long it took.
    pub nanoseconds: u128,
}

/// One lane stores all records of a workload, and then walks down the longest chain.
pub fn measure_walk<R: Clock + AllocGlobal + Eprint>(
    rt: &R,
    workload: Workload,
) -> Result<(), AllocError> {
    let Opened { log, control, defs } = open_for(rt.alloc(), workload)?;
    let walked = store_and_walk(rt, &log, control, defs.as_slice(), workload);
    drop(log);
    drop(defs);
    let Walked { nodes, nanoseconds } = walked?;
    report(rt, "walk", 1, nanoseconds, nodes, "nodes");
    Ok(())
}

/// The same in a log that was opened.
fn store_and_walk<R: Clock + AllocGlobal>(
    rt: &R,
    log: &Log,
    control: Pass,
    defs: &[ActiveDef],
    workload: Workload,
) -> Result<Walked, AllocError>
    requires pass { IsPassOf log.now control }
    requires control { IsControl 1 (view control) }
    requires active { AreActive log.now.key.rows.value defs.now }
    requires defs { AreDefs defs.now }
{
    let StoreLane {
        mut pass,
        mut records,
        stored: _,
    } = lane_of(rt.alloc(), log, control, defs, workload, RECORDS)?;
    store_all(log, &mut pass, &mut records);
    drop(records);
    let walked = walk_longest::<R, Brand>(rt, log, &mut pass, Blank::new(1));
    drop(pass);
    Ok(walked)
}

/// The longest of the log's first 16 chains.
fn walk_longest<R: Clock, L: Ledger>(rt: &R, log: &Log, pass: &mut Pass, blank: Blank) -> Walked
    requires blank { IsBlankOf L.name L.parts blank }
    requires pass { IsPassOf log.now pass.old }
    ensures { IsPassOf log.now pass.new }
{
    let mut steps = Steps::<L>::new(blank);
    let mut longest = Walked {
        nodes: 0,
        nanoseconds: 0,
    };
    for bucket in 0..16 {
        if let Some(walked) = walk_chain(rt, log, pass, bucket, &mut steps) {
            if longest.nodes < walked.nodes {
                longest = walked;
            }
        }
    }
    longest
}

/// A walk down the chain of a bucket, over all settled records.
pub fn walk_chain<R: Clock, L: Ledger>(
    rt: &R,
    log: &Log,
    pass: &mut Pass,
    bucket: u32,
    steps: &mut Steps<L>,
) -> Option<Walked>
    requires { IsPassOf log.now pass.old }
    ensures { IsPassOf log.now pass.new }
{
    if lane(pass) < 1 || u64::from(bucket) >= buckets(log) {
        return None;
    }
    let settled = settle(log, pass).settled;
    let Ok(start) = Instant::now(rt) else {
        return None;
    };
    walk_start(log, pass, bucket, 0, settled, steps);
    let nodes = count_nodes(log, pass, steps);
    let Ok(took) = start.elapsed(rt) else {
        return None;
    };
    Some(Walked {
        nodes,
        nanoseconds: took.as_nanos(),
    })
}

/// How many entries the walk that was begun gives.
fn count_nodes<L: Ledger>(log: &Log, pass: &mut Pass, steps: &mut Steps<L>) -> u64
    requires pass { IsPassOf log.now pass.old }
    requires walking { IsWalking (view pass.old) (walk_of pass.old) }
    ensures { IsPassOf log.now pass.new }
{
    for nodes in 0..u64::MAX {
        if walk_next(log, pass, steps).is_none() {
            return nodes;
        }
    }
    u64::MAX
}
