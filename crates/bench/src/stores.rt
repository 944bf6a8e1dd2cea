//! Records that were made before are stored, with their key entries, by one lane or by more at once.

ghost use Rattle.std.specs.Prelude.{◌≡◌, ◌≤◌, All, IfOk, None};
ghost use Rattle.bench.specs.Opening.{IsControl, IsOpened, IsReady};
ghost use Rattle.bench.specs.Stores.{IsEntered, IsStorable, IsStoreLane};
ghost use Rattle.fish_ingest.specs.Preparation.{AreDefs};
ghost use Rattle.fish_rule.specs.within.Keys.{AreActive};
ghost use Rattle.fish_rule.specs.Passes.{IsPassOf, view};

use crate::lanes::{Lane, LaneCount, time_lanes};
use crate::opening::{Opened, passes_of};
use crate::records::records_of;
use crate::workload::{Workload, open_for};
use fish_claim::{Claimed, claim, publish};
use fish_epoch::{enter, leave};
use fish_ingest::{Prepared, write_record};
use fish_psf::ActiveDef;
use fish_rule::{Log, Pass, is_shut, lane};
use std::alloc::{AllocError, Global};
use std::io::Eprint;
use std::marker::Brand;
use std::sync::ledger::Blank;
use std::thread::Threads;
use std::time::Clock;

/// How many records are stored, by all lanes.
pub const RECORDS: u64 = 200_000;

/// A lane with the records that it is to store.
#[derive(Drop)]
pub struct StoreLane {
    pub pass: Pass,
    pub records: Vec<Prepared>,
    /// How many were placed.
    pub stored: u64,
}

impl Lane<Log> for StoreLane {
    ghost use Rattle.bench.specs.Stores.{IsStoreLane};

    ghost can_run = { IsStoreLane };

    fn run(&mut self, log: &Log) {
        self.stored = store_all(log, &mut self.pass, &mut self.records);
    }

    fn done(&self) -> u64 {
        self.stored
    }
}

/// Opens a log for a workload, makes all records, and stores them in so many lanes.
pub fn measure_stores<R: Threads + Sync + Clock + AllocGlobal + Eprint>(
    rt: &R,
    workload: Workload,
    lanes: LaneCount,
) -> Result<(), AllocError> {
    let alloc = rt.alloc();
    let Opened { log, control, defs } = open_for(alloc, workload)?;
    let measured = store_in(rt, &log, control, defs.as_slice(), workload, lanes);
    drop(log);
    drop(defs);
    measured
}

/// The same in a log that was opened.
fn store_in<R: Threads + Sync + Clock + AllocGlobal + Eprint>(
    rt: &R,
    log: &Log,
    control: Pass,
    defs: &[ActiveDef],
    workload: Workload,
    lanes: LaneCount,
) -> Result<(), AllocError>
    requires pass { IsPassOf log.now control }
    requires control { IsControl 1 (view control) }
    requires active { AreActive log.now.key.rows.value defs.now }
    requires defs { AreDefs defs.now }
{
    let alloc = rt.alloc();
    let passes = passes_of(alloc, log, control, lanes)?;
    let share = RECORDS / u64::from(lanes.number());
    let mut lanes = lanes_of(alloc, log, passes, defs, workload, share)?;
    time_lanes(rt, workload.name(), "records", log, lanes.as_mut_slice());
    drop(lanes);
    Ok(())
}

/// A lane for each pass, with so many records.
fn lanes_of(
    alloc: Global,
    log: &Log,
    passes: Vec<Pass>,
    defs: &[ActiveDef],
    workload: Workload,
    share: u64,
) -> Result<Vec<StoreLane>, AllocError>
    requires passes { All (IsReady log.now) passes.items }
    requires active { AreActive log.now.key.rows.value defs.now }
    requires defs { AreDefs defs.now }
    ensures { IfOk result (λ lanes. All (IsStoreLane log.now) lanes.items) }
{
    let mut passes = passes;
    let mut lanes = Vec::new(alloc);
    while let Some(pass) = passes.pop() {
        lanes.push(lane_of(alloc, log, pass, defs, workload, share)?)?;
    }
    Ok(lanes)
}

/// A lane with so many records.
pub fn lane_of(
    alloc: Global,
    log: &Log,
    pass: Pass,
    defs: &[ActiveDef],
    workload: Workload,
    count: u64,
) -> Result<StoreLane, AllocError>
    requires pass { IsReady log.now pass }
    requires active { AreActive log.now.key.rows.value defs.now }
    requires defs { AreDefs defs.now }
    ensures { IfOk result (IsStoreLane log.now) }
{
    let number = lane(&pass);
    if number < 1 || number > 16 {
        drop(pass);
        return Err(AllocError);
    }
    match records_of::<Brand>(alloc, Blank::new(1), defs, workload, number, count) {
        Ok(records) => Ok(StoreLane {
            pass,
            records,
            stored: 0,
        }),
        Err(error) => {
            drop(pass);
            Err(error)
        }
    }
}

/// Enters, stores the records, the last one first, and leaves. How many were placed: none where the
/// registry has gone past the version that they were prepared for.
pub fn store_all(log: &Log, pass: &mut Pass, records: &mut Vec<Prepared>) -> u64
    requires pass { IsReady log.now pass.old }
    requires records { All (IsStorable log.now (view pass.old).lane) records.old.items }
    ensures { IsPassOf log.now pass.new }
{
    let version = enter(log, pass);
    let stored = if version == 0 {
        store_each(log, pass, records)
    } else {
        0
    };
    leave(log, pass);
    stored
}

/// Stores records, the last one first. How many were placed.
fn store_each(log: &Log, pass: &mut Pass, records: &mut Vec<Prepared>) -> u64
    requires pass { IsPassOf log.now pass.old }
    requires entered { IsEntered (view pass.old) }
    requires records { All (IsStorable log.now (view pass.old).lane) records.old.items }
    ensures pass { IsPassOf log.now pass.new }
    ensures entered { IsEntered (view pass.new) }
{
    let mut stored = 0u64;
    while let Some(prepared) = records.pop() {
        if store_one(log, pass, prepared) {
            stored = stored.saturating_add(1);
        }
    }
    stored
}

/// Stores one record, with its key entries. Whether it was placed.
fn store_one(log: &Log, pass: &mut Pass, prepared: Prepared) -> bool
    requires pass { IsPassOf log.now pass.old }
    requires entered { IsEntered (view pass.old) }
    requires prepared { IsStorable log.now (view pass.old).lane prepared }
    ensures pass { IsPassOf log.now pass.new }
    ensures entered { IsEntered (view pass.new) }
    ensures lane { (view pass.new).lane ≡ (view pass.old).lane }
{
    if is_shut(pass).is_some() {
        drop(prepared);
        return false;
    }
    place_one(log, pass, prepared)
}

/// The same with a pass that isn't shut.
fn place_one(log: &Log, pass: &mut Pass, prepared: Prepared) -> bool
    requires pass { IsPassOf log.now pass.old }
    requires entered { IsEntered (view pass.old) }
    requires unshut { (view pass.old).shut ≡ None }
    requires prepared { IsStorable log.now (view pass.old).lane prepared }
    ensures pass { IsPassOf log.now pass.new }
    ensures entered { IsEntered (view pass.new) }
    ensures lane { (view pass.new).lane ≡ (view pass.old).lane }
{
    match claim(log, pass, prepared.lines()) {
        Claimed::Placed { .. } => {
            write_record(log, pass, prepared);
            publish(log, pass);
            true
        }
        Claimed::Void { .. } => {
            drop(prepared);
            false
        }
        Claimed::Overflow { .. } => {
            drop(prepared);
            false
        }
    }
}
