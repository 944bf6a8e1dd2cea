//! The steps of a commit. Each is at most three calls of the disk, and takes no memory.
//!
//! After a step that failed, the store is opened again before anything else is claimed.

ghost use Rattle.std.specs.Prelude.{◌≡◌, ◌≤◌, ◌+◌, ◌↔◌, ℕ, List, [], ◌∷◌, Some, length, IfOk, IfSome, IsTrue, OnOk};
ghost use Rattle.fish_outside.specs.Causes.{HasCause};
ghost use Rattle.fish_disk.specs.Content.{StillReads, WrittenThrough};
ghost use Rattle.fish_disk.specs.Crash.{LeavesOnly, TornFrom};
ghost use Rattle.fish_slots.specs.Offsets.{body_at, body_bytes, gate_at};
ghost use Rattle.fish_slots.specs.Slots.{GatesAreSynced, IsOpen, SameSlot, body_in_slot};

use crate::offsets::{body_offset, gate_offset};
use fish_disk::{Disk, write_synced};
use fish_outside::Failed;

/// The byte that opens a gate.
const OPEN: u8 = 1;

/// The byte that closes one.
const CLOSED: u8 = 0;

/// Which gates are open.
#[derive(Clone, Copy, Debug, PartialEq, Eq)]
pub struct Gates {
    /// Whether that of slot 0 is.
    pub first: bool,
    /// Whether that of slot 1 is.
    pub second: bool,
}

/// Brings everything to the disk, and tells which gates are open. Three calls of the disk.
pub fn best<D: Disk>(disk: &mut D) -> Result<Gates, Failed>
    ensures first { IfOk result (λ gates.
        IfSome (D.content disk.new) (λ c. IsTrue gates.first ↔ IsOpen 0 c)) }
    ensures second { IfOk result (λ gates.
        IfSome (D.content disk.new) (λ c. IsTrue gates.second ↔ IsOpen 1 c)) }
    ensures synced { OnOk result
        ((c : List ℕ) → D.images disk.new c → D.content disk.new ≡ Some c) }
    ensures content { StillReads (D.content disk.old) (D.content disk.new) }
    ensures crash { LeavesOnly D.images D.since D.moment disk.old disk.new (D.images disk.old) }
    ensures three { D.moment disk.new ≤ D.moment disk.old + 3 }

    ensures cause { HasCause (D.faults disk.old) (D.faults disk.new) result }
{
    disk.sync()?;
    read_gates(disk)
}

fn read_gates<D: Disk>(disk: &mut D) -> Result<Gates, Failed>
    ensures first { IfOk result (λ gates.
        IfSome (D.content disk.new) (λ c. IsTrue gates.first ↔ IsOpen 0 c)) }
    ensures second { IfOk result (λ gates.
        IfSome (D.content disk.new) (λ c. IsTrue gates.second ↔ IsOpen 1 c)) }
    ensures content { StillReads (D.content disk.old) (D.content disk.new) }
    ensures crash { LeavesOnly D.images D.since D.moment disk.old disk.new (D.images disk.old) }
    ensures two { D.moment disk.new ≤ D.moment disk.old + 2 }
    ensures cause { HasCause (D.faults disk.old) (D.faults disk.new) result }
{
    let first = is_open(disk, 0)?;
    let second = is_open(disk, 1)?;
    Ok(Gates { first, second })
}

/// A gate past the file's end is closed.
fn is_open<D: Disk>(disk: &mut D, slot: u8) -> Result<bool, Failed>
    ensures gate { IfOk result (λ opened.
        IfSome (D.content disk.new) (λ c. IsTrue opened ↔ IsOpen slot c)) }
    ensures content { StillReads (D.content disk.old) (D.content disk.new) }
    ensures crash { LeavesOnly D.images D.since D.moment disk.old disk.new (D.images disk.old) }
    ensures one { D.moment disk.new ≤ D.moment disk.old + 1 }
    ensures cause { HasCause (D.faults disk.old) (D.faults disk.new) result }
{
    let mut gate = [CLOSED];
    let count = disk.read(gate_offset(slot), &mut gate)?;
    Ok(count == 1 && gate[0] == OPEN)
}

/// Closes the gate of the older slot of a store both of whose gates are open. Two calls of the disk.
pub fn begin<D: Disk>(disk: &mut D, slot: u8) -> Result<(), Failed>
    requires slot { slot ≤ 1 }
    requires within { IfSome (D.content disk.old) (λ c. gate_at slot ≤ length c) }
    requires gates { GatesAreSynced (D.images disk.old) (D.images disk.old) }
    requires opened { (c : List ℕ) → D.images disk.old c → IsOpen slot c }
    ensures closed { OnOk result ((c : List ℕ) → D.images disk.new c → IsOpen slot c → ⊥) }
    ensures done { OnOk result (WrittenThrough (D.content disk.old) (D.content disk.new)
        (D.images disk.new) (gate_at slot) (0 ∷ [])) }
    ensures crash { LeavesOnly D.images D.since D.moment disk.old disk.new
        (TornFrom (D.images disk.old) (gate_at slot) 1) }
    ensures gates { GatesAreSynced (D.since disk.new (D.moment disk.old)) (D.images disk.old) }
    ensures two { D.moment disk.new ≤ D.moment disk.old + 2 }

    ensures cause { HasCause (D.faults disk.old) (D.faults disk.new) result }
{
    close_old(disk, slot)
}

/// Puts a body into a slot whose gate is closed, and syncs. Two calls of the disk.
pub fn seal<D: Disk>(disk: &mut D, slot: u8, body: &[u8]) -> Result<(), Failed>
    requires slot { slot ≤ 1 }
    requires size { length body.now ≡ body_bytes }
    requires within { IfSome (D.content disk.old) (λ c. body_at slot ≤ length c) }
    requires gates { GatesAreSynced (D.images disk.old) (D.images disk.old) }
    requires closed { (c : List ℕ) → D.images disk.old c → IsOpen slot c → ⊥ }
    ensures sealed { OnOk result ((c : List ℕ) → D.images disk.new c → body_in_slot slot c ≡ body.now) }
    ensures done { OnOk result (WrittenThrough (D.content disk.old) (D.content disk.new)
        (D.images disk.new) (body_at slot) body.now) }
    ensures crash { LeavesOnly D.images D.since D.moment disk.old disk.new
        (TornFrom (D.images disk.old) (body_at slot) body_bytes) }
    ensures gates { GatesAreSynced (D.since disk.new (D.moment disk.old)) (D.images disk.old) }
    ensures two { D.moment disk.new ≤ D.moment disk.old + 2 }

    ensures cause { HasCause (D.faults disk.old) (D.faults disk.new) result }
{
    write_synced(disk, body_offset(slot), body)
}

/// Opens the gate of a slot whose body and lines are synced. Two calls of the disk.
pub fn open_gate<D: Disk>(disk: &mut D, slot: u8) -> Result<(), Failed>
    requires slot { slot ≤ 1 }
    requires within { IfSome (D.content disk.old) (λ c. gate_at slot ≤ length c) }
    requires gates { GatesAreSynced (D.images disk.old) (D.images disk.old) }
    // Every image has the same body there, and the lines that it counts: they are synced.
    requires sealed { (c d : List ℕ) → D.images disk.old c → D.images disk.old d → SameSlot slot c d }
    ensures opened { OnOk result ((c : List ℕ) → D.images disk.new c → IsOpen slot c) }
    ensures done { OnOk result (WrittenThrough (D.content disk.old) (D.content disk.new)
        (D.images disk.new) (gate_at slot) (1 ∷ [])) }
    ensures crash { LeavesOnly D.images D.since D.moment disk.old disk.new
        (TornFrom (D.images disk.old) (gate_at slot) 1) }
    ensures gates { GatesAreSynced (D.since disk.new (D.moment disk.old)) (D.images disk.old) }
    ensures two { D.moment disk.new ≤ D.moment disk.old + 2 }

    ensures cause { HasCause (D.faults disk.old) (D.faults disk.new) result }
{
    write_synced(disk, gate_offset(slot), &[OPEN])
}

/// Closes the gate of a slot that is open in every image. To close one that is closed could tear it
/// open. Two calls of the disk.
pub fn close_old<D: Disk>(disk: &mut D, slot: u8) -> Result<(), Failed>
    requires slot { slot ≤ 1 }
    requires within { IfSome (D.content disk.old) (λ c. gate_at slot ≤ length c) }
    requires gates { GatesAreSynced (D.images disk.old) (D.images disk.old) }
    requires opened { (c : List ℕ) → D.images disk.old c → IsOpen slot c }
    ensures closed { OnOk result ((c : List ℕ) → D.images disk.new c → IsOpen slot c → ⊥) }
    ensures done { OnOk result (WrittenThrough (D.content disk.old) (D.content disk.new)
        (D.images disk.new) (gate_at slot) (0 ∷ [])) }
    ensures crash { LeavesOnly D.images D.since D.moment disk.old disk.new
        (TornFrom (D.images disk.old) (gate_at slot) 1) }
    ensures gates { GatesAreSynced (D.since disk.new (D.moment disk.old)) (D.images disk.old) }
    ensures two { D.moment disk.new ≤ D.moment disk.old + 2 }

    ensures cause { HasCause (D.faults disk.old) (D.faults disk.new) result }
{
    write_synced(disk, gate_offset(slot), &[CLOSED])
}
