//! Statements that any lane may have, with the store's file at hand for scans of records that are older than the table;
//! and what is left of those of the lanes after the first, once all have ended or stay.

ghost use Rattle.std.specs.Prelude.{All, IfErr, IfOk};
ghost use Rattle.fish_ingest.specs.Ingestion.{CanStart};
ghost use Rattle.fish_lanes.specs.Blocks.{EachLane, EachLanePair};
ghost use Rattle.fish_lanes.specs.Outcome.{Stops};
ghost use Rattle.fish_lanes.specs.Running.{IsShared};
ghost use Rattle.fish_lanes.specs.within.Works.{FinishesWorks};
ghost use Rattle.fish_lanes.specs.within.Advancing.{HasFinished, IsShortFault};
ghost use Rattle.fish_lanes.specs.within.Blocks.{AreReady};
ghost use Rattle.fish_lanes.specs.within.Doing.{IsItem, IsPart};
ghost use Rattle.fish_lanes.specs.within.Parts.{OnlyReadsFile, StopsBy};
ghost use Rattle.fish_lanes.specs.within.Pasts.{IsHere, WasHere};
ghost use Rattle.fish_lanes.specs.within.Running.{CanBegin, HasDefs, IsLaneReady};
ghost use Rattle.fish_rule.specs.Passes.{view};
ghost use Rattle.fish_scan.specs.Colder.{IsBelow};

use crate::gate::{Gate, Point};
use crate::handing::hand_back;
use crate::lane::{Lane, LanePass};
use crate::scanning::scan_older;
use crate::statements::{finds_full, position_of, run_work};
use crate::work::{LaneFault, Work};
use fish_disk::Disk;
use fish_epoch::Defs;
use fish_report::{Item, Items};
use fish_rule::{Log, Pass, lane};
use fish_store::StoreFile;
use std::alloc::Global;

/// Does what is left of the statements of a lane, with the store's file for its scans of older records, unless its pass
/// has found the log full; then it hands back what is left.
fn finish_lane<D: Disk, G: Gate>(
    alloc: Global,
    log: &Log,
    file: &mut StoreFile,
    disk: &mut D,
    lane: &mut Lane,
    full: bool,
    gate: &G,
)
    requires ready { IsLaneReady log.now lane.old }
    requires below { IsBelow log.now.key file.old.cold }
    ensures reads { OnlyReadsFile D.Disk log.now.key disk.old file.old disk.new file.new }
    ensures finished { HasFinished (WasHere (D.content disk.old) log.now.key file.old.cold (D.content disk.new)) full
        log.now lane.old lane.new }
    ensures stops { IsShortFault lane.old.fault → Stops (WasHere (D.content disk.old) log.now.key file.old.cold
        (D.content disk.new)) (D.faults disk.old) (D.faults disk.new) lane.new.fault }
{
    let LaneFault::None = lane.fault else {
        return;
    };
    let Some(LanePass { mut pass }) = lane.seat.take() else {
        unreachable!()
    };
    let fault = finish_works(
        alloc,
        log,
        &mut pass,
        file,
        disk,
        lane.works.as_slice(),
        &mut lane.items,
        full,
        gate,
    );
    lane.seat = Some(LanePass { pass });
    lane.fault = hand_back(&mut lane.works, &mut lane.left, &lane.items, fault);
}

/// The same of each lane, one after the other.
pub(crate) fn finish_others<D: Disk, G: Gate>(
    alloc: Global,
    log: &Log,
    file: &mut StoreFile,
    disk: &mut D,
    lanes: &mut [Lane],
    full: bool,
    gate: &G,
)
    requires ready { AreReady log.now lanes.old }
    requires below { IsBelow log.now.key file.old.cold }
    requires memory { EachLane (λ i x. IsShortFault x.fault) lanes.old }
    ensures reads { OnlyReadsFile D.Disk log.now.key disk.old file.old disk.new file.new }
    ensures finished { EachLanePair
        (λ i x y. HasFinished (WasHere (D.content disk.old) log.now.key file.old.cold (D.content disk.new)) full log.now
        x y) lanes.old lanes.new }
    ensures stops { EachLane (λ i x. Stops (WasHere (D.content disk.old) log.now.key file.old.cold (D.content disk.new))
        (D.faults disk.old) (D.faults disk.new) x.fault) lanes.new }
{
    for i in 0..lanes.len() {
        finish_lane(alloc, log, file, disk, &mut lanes[i], full, gate);
    }
}

/// Does the statements of a lane that have no item yet, in order, up to the first fault, or until its pass has found
/// the log full, unless it was so when the block began.
fn finish_works<D: Disk, G: Gate>(
    alloc: Global,
    log: &Log,
    pass: &mut Pass,
    file: &mut StoreFile,
    disk: &mut D,
    works: &[Work],
    items: &mut Items,
    full: bool,
    gate: &G,
) -> LaneFault
    requires pass { CanBegin log.now pass.old }
    requires below { IsBelow log.now.key file.old.cold }
    requires shared { All IsShared works.now }
    ensures pass { CanBegin log.now pass.new }
    ensures reads { OnlyReadsFile D.Disk log.now.key disk.old file.old disk.new file.new }
    ensures finishes { FinishesWorks (WasHere (D.content disk.old) log.now.key file.old.cold (D.content disk.new)) full
        (view pass.old) (view pass.new) works.now items.old items.new result }
    ensures stops { Stops (WasHere (D.content disk.old) log.now.key file.old.cold (D.content disk.new))
        (D.faults disk.old) (D.faults disk.new) result }
{
    let mut defs = Defs::new(alloc);
    for next in items.len()..works.len() {
        if finds_full(pass, full) {
            return LaneFault::None;
        }
        let position = position_of(items);
        gate.reach(lane(pass), Point::Before(position));
        let item = match run_shared(alloc, log, pass, file, disk, &mut defs, &works[next], gate) {
            Ok(item) => item,
            Err(fault) => return fault,
        };
        match items.push(item) {
            Ok(()) => {}
            Err(_) => return LaneFault::Memory,
        }
        gate.reach(lane(pass), Point::After(position));
    }
    LaneFault::None
}

/// Does one statement that any lane may have.
pub(crate) fn run_shared<D: Disk, G: Gate>(
    alloc: Global,
    log: &Log,
    pass: &mut Pass,
    file: &mut StoreFile,
    disk: &mut D,
    defs: &mut Defs,
    work: &Work,
    gate: &G,
) -> Result<Item, LaneFault>
    requires has { HasDefs log.now pass.old defs.old }
    requires start { CanStart (view pass.old) }
    requires below { IsBelow log.now.key file.old.cold }
    requires shared { IsShared work.now }
    ensures has { HasDefs log.now pass.new defs.new }
    ensures reads { OnlyReadsFile D.Disk log.now.key disk.old file.old disk.new file.new }
    ensures item { IfOk result (IsItem (IsHere (D.content disk.new) log.now.key file.old.cold) (view pass.old)
        (view pass.new) work.now) }
    ensures stops { IfErr result (λ e. IsPart (view pass.old) (view pass.new) work.now
        × StopsBy (IsHere (D.content disk.new) log.now.key file.old.cold) (D.faults disk.old) (D.faults disk.new) e) }
{
    match work {
        Work::Scan { ask } => scan_older(alloc, log, pass, file, disk, defs, ask),
        _ => match run_work(alloc, log, pass, defs, work, gate) {
            Ok(item) => Ok(item),
            // none but a scan waits for the file
            Err(_) => Err(LaneFault::Memory),
        },
    }
}
