//! The key entries that a walk down the chain of a bucket gives.

ghost use Rattle.std.specs.Prelude.{◌≡◌, ◌<◌, ◌≤◌, OnOk};
ghost use Rattle.fish_chain.specs.Walks.{IsWalking};
ghost use Rattle.fish_psf.specs.Blanks.{IsBlankOf};
ghost use Rattle.fish_rule.specs.ChainSteps.{CanLoadHead};
ghost use Rattle.fish_rule.specs.Passes.{IsPassOf, view, walk_of};
ghost use Rattle.fish_rule.specs.LoadSteps.{IsAlone};
ghost use Rattle.tests_log.specs.Walks.{HasWalked};

use crate::cause::Cause;
use crate::expecting::expect;
use fish_chain::{Node, walk_next, walk_start};
use fish_psf::Steps;
use fish_rule::{Log, Pass, buckets, lane};
use fish_walk::settle;
use std::alloc::{AllocError, Global};
use std::marker::Brand;
use std::process::Abort;
use std::sync::ledger::{Blank, Ledger};

/// The bucket of true under id 0 among sixteen: FNV-1a of the bytes 0 0 1 leaves 4.
pub(crate) const BUCKET: u32 = 4;

/// Gives all nodes of a walk that was begun, after others.
fn push_all<L: Ledger>(
    log: &Log,
    pass: &mut Pass,
    loads: &mut Steps<L>,
    nodes: &mut Vec<Node>,
) -> Result<(), AllocError>
    requires pass { IsPassOf log.now pass.old }
    requires walking { IsWalking (view pass.old) (walk_of pass.old) }
    ensures pass { IsPassOf log.now pass.new }
    ensures alone { IsAlone (view pass.old) → IsAlone (view pass.new) }
    ensures walked { OnOk result (HasWalked (view pass.new) (walk_of pass.new) (walk_of pass.old).from) }
{
    while let Some(node) = walk_next(log, pass, loads) {
        nodes.push(node)?;
    }
    Ok(())
}

/// All nodes of a walk that was begun.
fn all_nodes<L: Ledger>(
    alloc: Global,
    log: &Log,
    pass: &mut Pass,
    loads: &mut Steps<L>,
) -> Result<Vec<Node>, AllocError>
    requires pass { IsPassOf log.now pass.old }
    requires walking { IsWalking (view pass.old) (walk_of pass.old) }
    ensures pass { IsPassOf log.now pass.new }
    ensures alone { IsAlone (view pass.old) → IsAlone (view pass.new) }
    ensures walked { OnOk result (HasWalked (view pass.new) (walk_of pass.new) (walk_of pass.old).from) }
{
    let mut nodes = Vec::new(alloc);
    match push_all(log, pass, loads, &mut nodes) {
        Ok(()) => Ok(nodes),
        Err(error) => {
            drop(nodes);
            Err(error)
        }
    }
}

/// Those of the records with numbers from the first on and below the second, newest first, with a
/// counter of a blank.
fn walked<L: Ledger>(
    alloc: Global,
    blank: Blank,
    log: &Log,
    pass: &mut Pass,
    bucket: u32,
    range: (u32, u32),
) -> Result<Vec<Node>, AllocError>
    requires blank { IsBlankOf L.name L.parts blank }
    requires pass { IsPassOf log.now pass.old }
    requires head { CanLoadHead (view pass.old) bucket }
    requires settled { range.1 ≤ (view pass.old).learned.settled }
    ensures pass { IsPassOf log.now pass.new }
    ensures alone { IsAlone (view pass.old) → IsAlone (view pass.new) }
    ensures walked { OnOk result (HasWalked (view pass.new) (walk_of pass.new) range.0) }
{
    let (from, to) = range;
    let mut loads = Steps::<L>::new(blank);
    walk_start(log, pass, bucket, from, to, &mut loads);
    all_nodes(alloc, log, pass, &mut loads)
}

/// The same with a counter of its own, where the numbers are settled.
pub(crate) fn nodes_of(
    alloc: Global,
    log: &Log,
    pass: &mut Pass,
    bucket: u32,
    range: (u32, u32),
) -> Result<Vec<Node>, Cause>
    requires pass { IsPassOf log.now pass.old }
    ensures pass { IsPassOf log.now pass.new }
    ensures alone { IsAlone (view pass.old) → IsAlone (view pass.new) }
    ensures walked { OnOk result (HasWalked (view pass.new) (walk_of pass.new) range.0) }
{
    if lane(pass) < 1 || u64::from(bucket) >= buckets(log) {
        return Err(Cause("no lane, or no bucket"));
    }
    if range.1 > settle(log, pass).settled {
        return Err(Cause("not settled"));
    }
    Ok(walked::<Brand>(alloc, Blank::new(1), log, pass, bucket, range)?)
}

/// Asserts what a walk down the chain of that bucket gives.
pub(crate) fn expect_nodes<R: Abort>(
    rt: &R,
    alloc: Global,
    log: &Log,
    pass: &mut Pass,
    range: (u32, u32),
    want: &[Node],
) -> Result<(), Cause>
    requires pass { IsPassOf log.now pass.old }
    ensures pass { IsPassOf log.now pass.new }
    ensures alone { IsAlone (view pass.old) → IsAlone (view pass.new) }
    ensures walked { OnOk result (HasWalked (view pass.new) (walk_of pass.new) range.0) }
{
    let nodes = nodes_of(alloc, log, pass, BUCKET, range)?;
    expect(rt, "nodes", &nodes.as_slice(), &want);
    Ok(())
}
