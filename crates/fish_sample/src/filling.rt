//! The blocks of a sample: the definitions are registered, four lanes store the records at once, and each value is
//! scanned.

ghost use Rattle.std.specs.Prelude.{◌≡◌, ◌∷◌, [], IfOk, OnOk};
ghost use Rattle.fish_lanes.specs.Between.{IsBetweenBlocks};
ghost use Rattle.fish_sample.specs.within.Blocks.{HasCounted, HasDefined, HasFilled, HasStored};
ghost use Rattle.fish_sample.specs.within.Blocks.{IsAlwaysShown, IsSampleStore};
ghost use Rattle.fish_sample.specs.within.Works.{AreShareLanes, HasPushed, IsDefiningLane, IsScanningLane};

use crate::asking::{defining_lane, scanning_lane};
use crate::items::{are_registered, are_scanned, are_stored, stored_by};
use crate::running::run_lanes;
use crate::share::share_lane;
use crate::summary::summary_of;
use fish_disk::Disk;
use fish_lanes::Lane;
use fish_store::Store;
use fish_value::Text;
use std::alloc::{AllocError, Global};
use std::thread::Threads;

/// Fills a store that was just made with the records below a number, and answers the summary.
pub(crate) fn fill<R: Threads + Sync, D: Disk + Send>(
    rt: &R,
    alloc: Global,
    number: u32,
    store: &mut Store,
    disk: &mut D,
) -> Result<Text, AllocError>
    requires content { IsAlwaysShown D.content }
    requires new { IsSampleStore D.Disk disk.old store.old }
    ensures { IfOk result (HasFilled D.Disk number disk.old store.old disk.new store.new) }
{
    let defined = register(rt, alloc, store, 0, disk)?;
    let stored = store_shares(rt, alloc, number, store, defined, disk)?;
    count_values(rt, alloc, number, store, stored, disk)
}

/// Registers the definitions.
fn register<R: Threads + Sync, D: Disk + Send>(
    rt: &R,
    alloc: Global,
    store: &mut Store,
    from: u32,
    disk: &mut D,
) -> Result<u32, AllocError>
    requires content { IsAlwaysShown D.content }
    requires between { IsBetweenBlocks D.images disk.old store.old from }
    ensures { IfOk result (HasDefined D.Disk disk.old store.old from disk.new store.new) }
{
    let lane = defining_lane(alloc)?;
    let mut lanes = [lane];
    let ran = run_defining(rt, alloc, store, from, disk, &mut lanes);
    drop(lanes);
    ran
}

/// Runs the lane that registers them.
fn run_defining<R: Threads + Sync, D: Disk + Send>(
    rt: &R,
    alloc: Global,
    store: &mut Store,
    from: u32,
    disk: &mut D,
    lanes: &mut [Lane],
) -> Result<u32, AllocError>
    requires content { IsAlwaysShown D.content }
    requires between { IsBetweenBlocks D.images disk.old store.old from }
    requires lane { (x : Lane) × (lanes.old ≡ x ∷ []) × IsDefiningLane x }
    ensures { IfOk result (HasDefined D.Disk disk.old store.old from disk.new store.new) }
{
    let to = run_lanes(rt, alloc, store, from, disk, lanes)?;
    if !are_registered(lanes[0].items.as_slice()) {
        return Err(AllocError);
    }
    Ok(to)
}

/// Stores the records below a number, each by its lane.
fn store_shares<R: Threads + Sync, D: Disk + Send>(
    rt: &R,
    alloc: Global,
    number: u32,
    store: &mut Store,
    from: u32,
    disk: &mut D,
) -> Result<u32, AllocError>
    requires content { IsAlwaysShown D.content }
    requires between { IsBetweenBlocks D.images disk.old store.old from }
    ensures { IfOk result (HasStored D.Disk number disk.old store.old from disk.new store.new) }
{
    let mut lanes = Vec::new(alloc);
    let ran = match push_shares(alloc, number, &mut lanes) {
        Ok(()) => run_shares(rt, alloc, number, store, from, disk, lanes.as_mut_slice()),
        Err(want) => Err(want),
    };
    drop(lanes);
    ran
}

/// The lanes that store them.
fn push_shares(alloc: Global, number: u32, lanes: &mut Vec<Lane>) -> Result<(), AllocError>
    requires { lanes.old.items ≡ [] }
    ensures { OnOk result (AreShareLanes number 4 lanes.new.items) }
{
    push_share(alloc, number, 1, lanes)?;
    push_share(alloc, number, 2, lanes)?;
    push_share(alloc, number, 3, lanes)?;
    push_share(alloc, number, 4, lanes)
}

/// Puts the lane with a number after the others.
fn push_share(alloc: Global, number: u32, lane: u8, lanes: &mut Vec<Lane>) -> Result<(), AllocError>
    ensures { OnOk result (HasPushed number lane lanes.old.items lanes.new.items) }
{
    let made = share_lane(alloc, number, lane)?;
    lanes.push(made)?;
    Ok(())
}

/// Runs the lanes that store the records, and looks at what they say.
fn run_shares<R: Threads + Sync, D: Disk + Send>(
    rt: &R,
    alloc: Global,
    number: u32,
    store: &mut Store,
    from: u32,
    disk: &mut D,
    lanes: &mut [Lane],
) -> Result<u32, AllocError>
    requires content { IsAlwaysShown D.content }
    requires between { IsBetweenBlocks D.images disk.old store.old from }
    requires lanes { AreShareLanes number 4 lanes.old }
    ensures { IfOk result (HasStored D.Disk number disk.old store.old from disk.new store.new) }
{
    let to = run_lanes(rt, alloc, store, from, disk, lanes)?;
    if !are_stored(lanes) || stored_by(lanes) != number {
        return Err(AllocError);
    }
    Ok(to)
}

/// Scans each value, and answers the summary.
fn count_values<R: Threads + Sync, D: Disk + Send>(
    rt: &R,
    alloc: Global,
    number: u32,
    store: &mut Store,
    from: u32,
    disk: &mut D,
) -> Result<Text, AllocError>
    requires content { IsAlwaysShown D.content }
    requires between { IsBetweenBlocks D.images disk.old store.old from }
    ensures { IfOk result (HasCounted D.Disk number disk.old store.old from disk.new store.new) }
{
    let lane = scanning_lane(alloc)?;
    let mut lanes = [lane];
    let text = run_scanning(rt, alloc, number, store, from, disk, &mut lanes);
    drop(lanes);
    text
}

/// Runs the lane that scans them.
fn run_scanning<R: Threads + Sync, D: Disk + Send>(
    rt: &R,
    alloc: Global,
    number: u32,
    store: &mut Store,
    from: u32,
    disk: &mut D,
    lanes: &mut [Lane],
) -> Result<Text, AllocError>
    requires content { IsAlwaysShown D.content }
    requires between { IsBetweenBlocks D.images disk.old store.old from }
    requires lane { (x : Lane) × (lanes.old ≡ x ∷ []) × IsScanningLane x }
    ensures { IfOk result (HasCounted D.Disk number disk.old store.old from disk.new store.new) }
{
    run_lanes(rt, alloc, store, from, disk, lanes)?;
    let items = lanes[0].items.as_slice();
    if !are_scanned(items) {
        return Err(AllocError);
    }
    summary_of(alloc, number, items)
}
