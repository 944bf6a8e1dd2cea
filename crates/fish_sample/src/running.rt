//! One block of a sample's lanes.

ghost use Rattle.std.specs.Prelude.{IfOk};
ghost use Rattle.fish_lanes.specs.Between.{IsBetweenBlocks};
ghost use Rattle.fish_lanes.specs.Blocks.{AreLanes};
ghost use Rattle.fish_sample.specs.within.Blocks.{HasRunBlock, IsAlwaysShown};

use crate::items::are_whole;
use fish_disk::Disk;
use fish_lanes::{Lane, OpenGate, run_block};
use fish_store::Store;
use std::alloc::{AllocError, Global};
use std::thread::Threads;

/// Runs lanes over a store of so many entries, none of which may stop. How many it has then.
pub(crate) fn run_lanes<R: Threads + Sync, D: Disk + Send>(
    rt: &R,
    alloc: Global,
    store: &mut Store,
    from: u32,
    disk: &mut D,
    lanes: &mut [Lane],
) -> Result<u32, AllocError>
    requires content { IsAlwaysShown D.content }
    requires between { IsBetweenBlocks D.images disk.old store.old from }
    requires lanes { AreLanes lanes.old }
    ensures { IfOk result (λ to. HasRunBlock D.Disk disk.old store.old from lanes.old disk.new store.new to lanes.new) }
{
    let end = run_block(rt, alloc, store, disk, lanes, &OpenGate);
    if end.bound.is_some() || !are_whole(lanes) {
        return Err(AllocError);
    }
    Ok(end.to)
}
