//! The statements of a lane after the first, done by its pass.

ghost use Rattle.std.specs.Prelude.{◌≡◌, ◌&&◌, not, is_some, All, IfErr, IfOk};
ghost use Rattle.fish_epoch.specs.Definitions.{IsDefsOf};
ghost use Rattle.fish_ingest.specs.Ingestion.{CanStart};
ghost use Rattle.fish_lanes.specs.Running.{IsShared};
ghost use Rattle.fish_lanes.specs.within.Works.{AdvancesWorks};
ghost use Rattle.fish_lanes.specs.within.Advancing.{HasNextItem};
ghost use Rattle.fish_lanes.specs.within.Causes.{fault_of_stop, or_stop};
ghost use Rattle.fish_lanes.specs.within.Doing.{IsItem, IsStopped};
ghost use Rattle.fish_lanes.specs.within.Pasts.{anywhere};
ghost use Rattle.fish_lanes.specs.within.Running.{CanBegin};
ghost use Rattle.fish_rule.specs.Passes.{IsPassOf, view};

use crate::gate::{Gate, Point};
use crate::ingesting::ingest_file;
use crate::scanning::{explain_range, scan_range};
use crate::work::{LaneFault, Work};
use fish_epoch::Defs;
use fish_report::{Item, Items};
use fish_rule::{Log, Pass, is_shut, lane};
use std::alloc::{AllocError, Global};

/// Why a statement has no item.
#[derive(Clone, Copy)]
pub(crate) enum Stop {
    /// Memory ran out.
    Memory,
    /// It is a scan of records that are older than the table. Nothing of it was done.
    Older,
}

/// What a statement answered, where its lane stops since memory ran out.
pub(crate) fn or_stop(item: Result<Item, AllocError>) -> Result<Item, Stop>
    ensures { result ≡ or_stop item }
{
    match item {
        Ok(item) => Ok(item),
        Err(_) => Err(Stop::Memory),
    }
}

/// Does the statements of a lane that have no item yet, in order, up to the first fault, to the first scan of records
/// that are older than the table, before which the lane stays, or until its pass finds the log full, unless it was so
/// at the start.
pub(crate) fn run_works<G: Gate>(
    alloc: Global,
    log: &Log,
    pass: &mut Pass,
    defs: &mut Defs,
    works: &[Work],
    items: &mut Items,
    gate: &G,
) -> LaneFault
    requires can { CanBegin log.now pass.old }
    requires defs { IsDefsOf (view pass.old) defs.old }
    requires shared { All IsShared works.now }
    ensures can { CanBegin log.now pass.new }
    ensures advances { AdvancesWorks (view pass.old) (view pass.new) works.now items.old items.new result }
{
    let full = is_full(pass);
    for next in items.len()..works.len() {
        if finds_full(pass, full) {
            return LaneFault::None;
        }
        match run_next(alloc, log, pass, defs, &works[next], items, gate) {
            Ok(()) => {}
            Err(stop) => return fault_at(stop),
        }
    }
    LaneFault::None
}

/// The fault with which a lane stops at a statement without an item: none where it stays before it.
fn fault_at(stop: Stop) -> LaneFault
    ensures { result ≡ fault_of_stop stop }
{
    match stop {
        Stop::Memory => LaneFault::Memory,
        Stop::Older => LaneFault::None,
    }
}

/// Whether the pass found the log full since it began its statements, where it is told whether it was so then.
pub(crate) fn finds_full(pass: &Pass, full: bool) -> bool
    ensures { result ≡ (not full && is_some (view pass.now).shut) }
{
    !full && is_full(pass)
}

/// Whether the pass found the log full.
pub(crate) fn is_full(pass: &Pass) -> bool
    ensures { result ≡ is_some (view pass.now).shut }
{
    is_shut(pass).is_some()
}

/// Does the next statement, and keeps its item.
fn run_next<G: Gate>(
    alloc: Global,
    log: &Log,
    pass: &mut Pass,
    defs: &mut Defs,
    work: &Work,
    items: &mut Items,
    gate: &G,
) -> Result<(), Stop>
    requires pass { IsPassOf log.now pass.old }
    requires start { CanStart (view pass.old) }
    requires defs { IsDefsOf (view pass.old) defs.old }
    requires shared { IsShared work.now }
    ensures pass { IsPassOf log.now pass.new }
    ensures defs { IsDefsOf (view pass.new) defs.new }
    ensures next { HasNextItem (view pass.old) (view pass.new) work.now items.old items.new result }
{
    let position = position_of(items);
    gate.reach(lane(pass), Point::Before(position));
    let item = match run_work(alloc, log, pass, defs, work, gate) {
        Ok(item) => item,
        Err(stop) => return Err(stop),
    };
    match items.push(item) {
        Ok(()) => {}
        Err(_) => return Err(Stop::Memory),
    }
    gate.reach(lane(pass), Point::After(position));
    Ok(())
}

/// How many statements have an item, as a gate is told it.
pub(crate) fn position_of(items: &Items) -> u32 {
    items.len().min(u32::MAX as usize) as u32
}

/// Does one statement that any lane may have, by the table alone.
pub(crate) fn run_work<G: Gate>(
    alloc: Global,
    log: &Log,
    pass: &mut Pass,
    defs: &mut Defs,
    work: &Work,
    gate: &G,
) -> Result<Item, Stop>
    requires pass { IsPassOf log.now pass.old }
    requires start { CanStart (view pass.old) }
    requires defs { IsDefsOf (view pass.old) defs.old }
    requires shared { IsShared work.now }
    ensures pass { IsPassOf log.now pass.new }
    ensures defs { IsDefsOf (view pass.new) defs.new }
    ensures item { IfOk result (IsItem anywhere (view pass.old) (view pass.new) work.now) }
    ensures part { IfErr result (IsStopped (view pass.old) (view pass.new) work.now) }
{
    match work {
        Work::Register { .. } | Work::Deregister { .. } | Work::Checkpoint => unreachable!(),
        Work::Ingest {
            form,
            begin,
            name,
            file,
        } => or_stop(ingest_file(
            alloc,
            log,
            pass,
            defs,
            *form,
            *begin,
            name,
            file.as_bytes(),
            gate,
        )),
        Work::Scan { ask } => scan_range(alloc, log, pass, defs, ask),
        Work::Explain { ask } => or_stop(explain_range(alloc, log, pass, defs, ask)),
    }
}
