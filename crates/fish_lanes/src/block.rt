//! A block: its lanes run at once, each by a pass of its own.

ghost use Rattle.std.specs.Prelude.{◌<◌, ◌∷◌, ℕ, length};
ghost use Rattle.std.specs.Thread.{IsSync};
ghost use Rattle.fish_lanes.specs.Between.{IsBetweenBlocks};
ghost use Rattle.fish_lanes.specs.Blocks.{AreLanes};
ghost use Rattle.fish_lanes.specs.Controlling.{CanControl};
ghost use Rattle.fish_lanes.specs.Leaving.{ItemsHold, LeavesLanes, LeavesStore};
ghost use Rattle.fish_lanes.specs.within.Advancing.{HasGone};
ghost use Rattle.fish_lanes.specs.within.Blocks.{AreGone, AreReady, CanGive, IsFirstLane};
ghost use Rattle.fish_lanes.specs.within.Course.{HasFoundEnd};
ghost use Rattle.fish_lanes.specs.within.Parts.{CanRunStore, RunsFirst, RunsLanes, store_of};
ghost use Rattle.fish_lanes.specs.within.Running.{IsLaneReady};
ghost use Rattle.fish_rule.specs.LoadSteps.{IsAlone};
ghost use Rattle.fish_rule.specs.Passes.{view};
ghost use Rattle.fish_store.specs.Points.{Behind};
ghost use Rattle.fish_store.specs.Sound.{RowsGoOn};

use crate::control::run_control;
use crate::finishing::finish_others;
use crate::gate::Gate;
use crate::handing::hand_back;
use crate::lane::{Lane, LanePass};
use crate::registering::find_last;
use crate::seats::{give_all, take_all};
use crate::statements::{is_full, run_works};
use crate::work::LaneFault;
use fish_disk::Disk;
use fish_epoch::Defs;
use fish_registry::Registrar;
use fish_rule::{Log, Pass};
use fish_store::{Store, StoreFile};
use fish_walk::settle;
use std::alloc::Global;
use std::thread::{Threads, for_each_mut, join_mut};

/// Where the index of a definition begins.
#[derive(Clone, Copy, Debug, PartialEq, Eq)]
pub struct Boundary {
    /// The definition.
    pub id: u16,
    /// The first number that the index holds.
    pub from: u32,
}

/// What follows a block.
#[derive(Clone, Copy, Debug, PartialEq, Eq)]
pub struct BlockEnd {
    /// How many numbers the log has.
    pub to: u32,
    /// The boundary that was found once the lanes had ended.
    pub bound: Option<Boundary>,
}

/// Goes on with the statements of a lane by its own pass, which reads the definitions anew.
fn run_seated<G: Gate>(alloc: Global, log: &Log, lane: &mut Lane, gate: &G)
    requires ready { IsLaneReady log.now lane.old }
    ensures gone { HasGone log.now lane.old lane.new }
{
    let Some(LanePass { mut pass }) = lane.seat.take() else {
        unreachable!()
    };
    let mut defs = Defs::new(alloc);
    lane.fault = run_works(
        alloc,
        log,
        &mut pass,
        &mut defs,
        lane.works.as_slice(),
        &mut lane.items,
        gate,
    );
    drop(defs);
    lane.seat = Some(LanePass { pass });
}

/// Does the statements of lanes at once, by their own passes, each up to its first scan of older records.
fn run_others<R: Threads + Sync, G: Gate + Sync>(
    rt: &R,
    alloc: Global,
    log: &Log,
    lanes: &mut [Lane],
    gate: &G,
)
    requires ready { AreReady log.now lanes.old }
    requires some { 0 < length lanes.old }
    ensures gone { AreGone log.now lanes.old lanes.new }
{
    let threads = lanes.len();
    for_each_mut(
        rt,
        lanes,
        threads,
        &|_, lane| { run_seated(alloc, log, lane, gate) },
    );
}

/// Does the statements of the first lane by the control pass.
fn run_first<D: Disk, G: Gate>(
    alloc: Global,
    log: &Log,
    control: &mut Pass,
    registrar: &mut Registrar,
    file: &mut StoreFile,
    disk: &mut D,
    lane: &mut Lane,
    gate: &G,
)
    requires run { CanRunStore D.images disk.old (store_of file.old log.now control.old registrar.old) }
    requires first { IsFirstLane (view control.old) registrar.old lane.old }
    ensures did { RunsFirst D.Disk disk.old (store_of file.old log.now control.old registrar.old) lane.old disk.new
        (store_of file.new log.now control.new registrar.new) lane.new }
{
    let fault = run_control(
        alloc,
        log,
        control,
        registrar,
        file,
        disk,
        lane.works.as_slice(),
        &mut lane.items,
        gate,
    );
    lane.fault = hand_back(&mut lane.works, &mut lane.left, &lane.items, fault);
}

/// Does the statements of all lanes at once: those of the first by the control pass, and those of every other one up to
/// its first scan of older records.
fn run_all<R: Threads + Sync, D: Disk + Send, G: Gate + Sync>(
    rt: &R,
    alloc: Global,
    log: &Log,
    control: &mut Pass,
    registrar: &mut Registrar,
    file: &mut StoreFile,
    disk: &mut D,
    first: &mut Lane,
    others: &mut [Lane],
    gate: &G,
)
    requires run { CanRunStore D.images disk.old (store_of file.old log.now control.old registrar.old) }
    requires first { IsFirstLane (view control.old) registrar.old first.old }
    requires ready { AreReady log.now others.old }
    ensures did { RunsFirst D.Disk disk.old (store_of file.old log.now control.old registrar.old) first.old disk.new
        (store_of file.new log.now control.new registrar.new) first.new }
    ensures gone { AreGone log.now others.old others.new }
{
    if others.is_empty() {
        run_first(alloc, log, control, registrar, file, disk, first, gate);
        return;
    }
    join_mut(
        rt,
        &mut || run_first(alloc, log, control, registrar, file, disk, first, gate),
        &mut ||
            requires sync { IsSync R.row }
            requires ready { AreReady log.now others.now }
            requires some { 0 < length others.now }
            ensures { AreGone log.entry.now others.entry.now others.exit.now }
        { run_others(rt, alloc, log, others, gate) },
    );
}

/// Gives the other lanes their passes, does the statements of all, and takes the passes back.
fn run_by_passes<R: Threads + Sync, D: Disk + Send, G: Gate + Sync>(
    rt: &R,
    alloc: Global,
    log: &Log,
    control: &mut Pass,
    registrar: &mut Registrar,
    file: &mut StoreFile,
    disk: &mut D,
    first: &mut Lane,
    others: &mut [Lane],
    gate: &G,
)
    requires run { CanRunStore D.images disk.old (store_of file.old log.now control.old registrar.old) }
    requires first { IsFirstLane (view control.old) registrar.old first.old }
    requires others { CanGive (view control.old) others.old }
    ensures did { RunsLanes D.Disk disk.old (store_of file.old log.now control.old registrar.old) first.old others.old
        disk.new (store_of file.new log.now control.new registrar.new) first.new others.new }
{
    let full = is_full(control);
    give_all(log, control, others);
    run_all(
        rt, alloc, log, control, registrar, file, disk, first, others, gate,
    );
    finish_others(alloc, log, file, disk, others, full, gate);
    take_all(log, control, others);
}

/// Stores the boundary that waited for the lanes, if one did, and finds where the log ends.
fn end_block(log: &Log, control: &mut Pass, registrar: &mut Registrar) -> BlockEnd
    requires can { CanControl log.now control.old registrar.old }
    requires alone { IsAlone (view control.old) }
    ensures can { CanControl log.now control.new registrar.new }
    ensures grows { RowsGoOn (view control.old) registrar.old.catalog registrar.new.catalog }
    ensures ended { HasFoundEnd (view control.old) (view control.new) registrar.old registrar.new result }
{
    let bound = find_last(log, control, registrar);
    let to = settle(log, control).settled;
    BlockEnd { to, bound }
}

/// Does the statements of all lanes, each by a pass of its own, and finds where the log then ends.
fn run_lanes<R: Threads + Sync, D: Disk + Send, G: Gate + Sync>(
    rt: &R,
    alloc: Global,
    log: &Log,
    control: &mut Pass,
    registrar: &mut Registrar,
    file: &mut StoreFile,
    disk: &mut D,
    first: &mut Lane,
    others: &mut [Lane],
    gate: &G,
) -> BlockEnd
    requires between { (from : ℕ)
        × IsBetweenBlocks D.images disk.old (store_of file.old log.now control.old registrar.old) from }
    requires lanes { AreLanes (first.old ∷ others.old) }
    ensures store { LeavesStore D.Disk disk.old (store_of file.old log.now control.old registrar.old) disk.new
        (store_of file.new log.now control.new registrar.new) (first.new ∷ others.new) result }
    ensures lanes { LeavesLanes (Behind D.Disk disk.old (store_of file.old log.now control.old registrar.old) disk.new)
        (D.faults disk.old) (D.faults disk.new) (view control.old) (view control.new) (first.old ∷ others.old)
        (first.new ∷ others.new) }
    ensures items { ItemsHold (Behind D.Disk disk.old (store_of file.old log.now control.old registrar.old) disk.new)
        (view control.old) (view control.new) registrar.old registrar.new (first.old ∷ others.old)
        (first.new ∷ others.new) result }
{
    run_by_passes(
        rt, alloc, log, control, registrar, file, disk, first, others, gate,
    );
    end_block(log, control, registrar)
}

/// Runs a block over an open store: does the statements of its lanes at once, those of the first by the control pass
/// and those of every other one by a pass of its own, on a thread of its own. How far the log then reaches, and where
/// the index of the registration begins that waited until the lanes had ended.
///
/// The first lane alone has the store's file while the others run: it commits beside them, and reads what is older than
/// the table. Another lane stays before its first scan of older records; once all have ended or stay so, what is left
/// of their statements is done, one lane after the other, with the file.
///
/// The store has to be between two blocks, as one is that was opened, or left by a block whose first lane met no fault.
/// There are 1 to 16 lanes, numbered from 1 on and without items, and the first alone may register definitions, end
/// them or commit.
///
/// A lane stops after the statement in which its pass finds the log full, unless it was so before the block, and hands
/// back the statements that it hasn't begun. Without memory for that it stops at a fault, and keeps them.
///
/// Afterwards each lane has an item for each statement that it keeps, or a fault and fewer of them. After whatever
/// stood before the table, as the disk tells it, these items are true of each whole log that the control pass may leave
/// later: the lane's records between the old end and the new one are those that the items say are stored, in order, and
/// scans, plans, checkpoints and refusals are so. The definitions are those that the items of the first lane tell.
/// Numbers stay, and the statements too, but for those that are handed back. The store goes on: at each moment since, a
/// crash left a part of the log that has the last commit's entries.
///
/// The gate is told where each lane is: before each statement and after it, and after each claim of a record.
/// Nothing that is promised depends on how long it holds a lane.
pub fn run_block<R: Threads + Sync, D: Disk + Send, G: Gate + Sync>(
    rt: &R,
    alloc: Global,
    store: &mut Store,
    disk: &mut D,
    lanes: &mut [Lane],
    gate: &G,
) -> BlockEnd
    requires between { (from : ℕ) × IsBetweenBlocks D.images disk.old store.old from }
    requires lanes { AreLanes lanes.old }
    ensures store { LeavesStore D.Disk disk.old store.old disk.new store.new lanes.new result }
    ensures lanes { LeavesLanes (Behind D.Disk disk.old store.old disk.new)
        (D.faults disk.old) (D.faults disk.new) (view store.old.pass) (view store.new.pass) lanes.old lanes.new }
    ensures items { ItemsHold (Behind D.Disk disk.old store.old disk.new)
        (view store.old.pass) (view store.new.pass) store.old.registrar store.new.registrar lanes.old lanes.new result }
{
    let (first, others) = lanes.split_at_mut(1);
    run_lanes(
        rt,
        alloc,
        &store.log,
        &mut store.pass,
        &mut store.registrar,
        &mut store.file,
        disk,
        &mut first[0],
        others,
        gate,
    )
}
