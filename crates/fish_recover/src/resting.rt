//! A store that was found is brought to rest: the slot that counts alone is open, and lines have a place after it.
//!
//! Whatever a crash leaves of these steps has the commit that was found.

ghost use Rattle.std.specs.Prelude.{◌≡◌, ◌≤◌, ◌*◌, ◌+◌, ℕ, List, IfErr, OnOk, length};
ghost use Rattle.fish_outside.specs.Causes.{HasCause};
ghost use Rattle.fish_disk.specs.Crash.{LeavesOnly};
ghost use Rattle.fish_slots.specs.Commits.{HasCommit, SlotRests};
ghost use Rattle.fish_slots.specs.Offsets.{lines_at};
ghost use Rattle.fish_slots.specs.Slots.{line_count};
ghost use Rattle.fish_recover.specs.Choosing.{HasOpenCause};
ghost use Rattle.fish_recover.specs.within.Opening.{IsOutside};
ghost use Rattle.fish_recover.specs.within.Resting.{AreAtRest, AreLong, AreStored};

use crate::bytes::zeros;
use crate::refusal::OpenRefusal;
use fish_disk::{Disk, write_synced};
use fish_layout::LINES_AT;
use fish_outside::Failed;
use fish_slots::begin;
use std::alloc::Global;

/// Closes the other gate where both are open, and makes the file as long as all before the lines.
pub(crate) fn rest_store<D: Disk>(
    alloc: Global,
    disk: &mut D,
    slot: u8,
    both: bool,
) -> Result<(), OpenRefusal>
    requires slot { slot ≤ 1 }
    requires synced { (c : List ℕ) → D.images disk.old c → D.content disk.old ≡ Some c }
    requires stored { (b w : List ℕ) × AreStored (D.images disk.old) slot both b w }
    ensures rests { OnOk result ((b w : List ℕ) → AreStored (D.images disk.old) slot both b w
        → AreAtRest (D.images disk.new) slot b w × AreLong (D.images disk.new) b) }
    ensures crash { (b w : List ℕ) → AreStored (D.images disk.old) slot both b w
        → LeavesOnly D.images D.since D.moment disk.old disk.new (HasCommit b w) }
    ensures calls { D.moment disk.new ≤ D.moment disk.old + 5 }
    ensures before { (i : List ℕ) → D.images disk.new i → (o : List ℕ) × D.images disk.old o }
    ensures refused { IfErr result IsOutside }

    ensures cause { HasOpenCause (D.faults disk.old) (D.faults disk.new) result }
{
    close_other(disk, slot, both)?;
    fill(alloc, disk, slot)
}

/// Closes the gate of the other slot, if it is open. At most two calls of the disk.
fn close_other<D: Disk>(disk: &mut D, slot: u8, both: bool) -> Result<(), Failed>
    requires slot { slot ≤ 1 }
    requires synced { (c : List ℕ) → D.images disk.old c → D.content disk.old ≡ Some c }
    requires stored { (b w : List ℕ) × AreStored (D.images disk.old) slot both b w }
    ensures rests { OnOk result ((b w : List ℕ) → AreStored (D.images disk.old) slot both b w
        → AreAtRest (D.images disk.new) slot b w) }
    ensures synced { OnOk result ((c : List ℕ) → D.images disk.new c → D.content disk.new ≡ Some c) }
    ensures crash { (b w : List ℕ) → AreStored (D.images disk.old) slot both b w
        → LeavesOnly D.images D.since D.moment disk.old disk.new (HasCommit b w) }
    ensures calls { D.moment disk.new ≤ D.moment disk.old + 2 }
    ensures before { (i : List ℕ) → D.images disk.new i → (o : List ℕ) × D.images disk.old o }
    ensures cause { HasCause (D.faults disk.old) (D.faults disk.new) result }
{
    if both { begin(disk, 1 - slot) } else { Ok(()) }
}

/// Puts zero bytes after the end of a file that is shorter than all before the lines. At most three calls of the disk.
fn fill<D: Disk>(alloc: Global, disk: &mut D, slot: u8) -> Result<(), OpenRefusal>
    requires slot { slot ≤ 1 }
    requires synced { (c : List ℕ) → D.images disk.old c → D.content disk.old ≡ Some c }
    ensures rests { OnOk result ((b w : List ℕ) → AreAtRest (D.images disk.old) slot b w
        → AreAtRest (D.images disk.new) slot b w × AreLong (D.images disk.new) b) }
    ensures crash { (b w : List ℕ) → AreAtRest (D.images disk.old) slot b w
        → LeavesOnly D.images D.since D.moment disk.old disk.new (SlotRests slot b w) }
    ensures calls { D.moment disk.new ≤ D.moment disk.old + 3 }
    ensures before { (i : List ℕ) → D.images disk.new i → (o : List ℕ) × D.images disk.old o }
    ensures refused { IfErr result IsOutside }
    ensures cause { HasOpenCause (D.faults disk.old) (D.faults disk.new) result }
{
    let size = disk.length()?;
    if size >= LINES_AT {
        return Ok(());
    }
    let rest = zeros(alloc, (LINES_AT - size) as usize)?;
    write_synced(disk, size, rest.as_slice())?;
    Ok(())
}
