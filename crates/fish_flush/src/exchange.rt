//! One commit takes the place of another, over bytes alone.

ghost use Rattle.std.specs.Prelude.{◌≡◌, ◌≤◌, ◌+◌, ◌++◌, ℕ, List, length, IfSome, OnOk};
ghost use Rattle.fish_outside.specs.Causes.{HasCause};
ghost use Rattle.fish_disk.specs.Crash.{LeavesOnly};
ghost use Rattle.fish_slots.specs.Commits.{SlotRests};
ghost use Rattle.fish_slots.specs.Offsets.{body_bytes, gate_at};
ghost use Rattle.fish_slots.specs.Slots.{GatesAreSynced};
ghost use Rattle.fish_flush.specs.Going.{ComesFrom};
ghost use Rattle.fish_flush.specs.within.Writing.{AreSealed, EitherCommit, GrowsBy};

use fish_disk::Disk;
use fish_outside::Failed;
use fish_slots::{close_old, open_gate, seal};

/// Puts a commit into the slot that is closed, once its lines are written after those of the last commit, and lets it
/// take the place of the last. The lines are not yet synced. Six calls of the disk.
pub(crate) fn put_body<D: Disk>(disk: &mut D, slot: u8, body: &[u8]) -> Result<(), Failed>
    requires slot { slot ≤ 1 }
    requires size { length body.now ≡ body_bytes }
    requires rests { (line : ℕ) × (b w more : List ℕ) × GrowsBy D.content D.images disk.old slot line b w body.now
        more }
    ensures done { OnOk result ((line : ℕ) (b w more : List ℕ) → GrowsBy D.content D.images disk.old slot line b w
        body.now more → (c : List ℕ) → D.images disk.new c → SlotRests slot body.now (w ++ more) c) }
    ensures crash { (line : ℕ) (b w more : List ℕ) → GrowsBy D.content D.images disk.old slot line b w body.now more
        → LeavesOnly D.images D.since D.moment disk.old disk.new
        (EitherCommit b w body.now (w ++ more)) }
    ensures was { ComesFrom (D.images disk.old) (D.images disk.new) }
    ensures longer { (n : ℕ) → ((c : List ℕ) → D.images disk.old c → n ≤ length c)
        → (c : List ℕ) → D.images disk.new c → n ≤ length c }
    ensures gates { GatesAreSynced (D.images disk.new) (D.images disk.new) }
    ensures six { D.moment disk.new ≤ D.moment disk.old + 6 }
    ensures cause { HasCause (D.faults disk.old) (D.faults disk.new) result }
{
    seal(disk, slot, body)?;
    take_over(disk, slot)
}

/// The same once the body is sealed.
fn take_over<D: Disk>(disk: &mut D, slot: u8) -> Result<(), Failed>
    requires slot { slot ≤ 1 }
    requires within { IfSome (D.content disk.old) (λ c. gate_at 1 ≤ length c) }
    requires sealed { (b w d v : List ℕ) × AreSealed (D.images disk.old) slot b w d v }
    ensures done { OnOk result ((b w d v : List ℕ) → AreSealed (D.images disk.old) slot b w d v
        → (c : List ℕ) → D.images disk.new c → SlotRests slot d v c) }
    ensures crash { (b w d v : List ℕ) → AreSealed (D.images disk.old) slot b w d v
        → LeavesOnly D.images D.since D.moment disk.old disk.new (EitherCommit b w d v) }
    ensures was { ComesFrom (D.images disk.old) (D.images disk.new) }
    ensures longer { (n : ℕ) → ((c : List ℕ) → D.images disk.old c → n ≤ length c)
        → (c : List ℕ) → D.images disk.new c → n ≤ length c }
    ensures gates { GatesAreSynced (D.images disk.new) (D.images disk.new) }
    ensures four { D.moment disk.new ≤ D.moment disk.old + 4 }
    ensures cause { HasCause (D.faults disk.old) (D.faults disk.new) result }
{
    open_gate(disk, slot)?;
    close_old(disk, 1 - slot)
}
