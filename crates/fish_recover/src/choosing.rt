//! Which slot of a store counts, and the commit that it tells.

ghost use Rattle.std.specs.Prelude.{◌≡◌, ◌≤◌, ◌+◌, ◌↔◌, ℕ, List, Some, IfErr, IfOk, IfSome, IsTrue, OnOk};
ghost use Rattle.fish_outside.specs.Causes.{HasCause};
ghost use Rattle.fish_disk.specs.Content.{StillReads};
ghost use Rattle.fish_disk.specs.Crash.{LeavesOnly};
ghost use Rattle.fish_image.specs.Reading.{IsBodyOf};
ghost use Rattle.fish_slots.specs.Commits.{next_turn, turn_of};
ghost use Rattle.fish_slots.specs.Slots.{IsOpen, body_in_slot};
ghost use Rattle.fish_recover.specs.Choosing.{HasOpenCause, IsSlotRead};
ghost use Rattle.fish_recover.specs.within.Choosing.{IsBodyCause, IsChosen, IsNewer, IsSlotCause};

use crate::bytes::{number_in, zeros};
use crate::refusal::OpenRefusal;
use fish_catalog::Commit;
use fish_disk::Disk;
use fish_image::read_slot;
use fish_outside::Failed;
use fish_slots::{BODIES_AT, Gates, SLOT_BYTES, best};
use std::alloc::Global;

/// The slot of a store that counts.
#[derive(Drop)]
pub(crate) struct Chosen {
    /// Which one.
    pub slot: u8,
    /// Whether the other slot's gate is open too.
    pub both: bool,
    /// What it tells.
    pub commit: Commit,
}

/// The slot that counts. It syncs first, and writes nothing.
pub(crate) fn find_slot<D: Disk>(alloc: Global, disk: &mut D) -> Result<Chosen, OpenRefusal>
    ensures found { IfOk result (λ s. IfSome (D.content disk.new) (λ c. IsChosen c s.slot s.both s.commit)) }
    ensures read { IfOk result (λ s. IsSlotRead s.slot s.commit) }
    ensures refused { IfErr result (λ e. IfSome (D.content disk.new) (λ c. IsSlotCause c e)) }
    ensures synced { OnOk result ((c : List ℕ) → D.images disk.new c → D.content disk.new ≡ Some c) }
    ensures content { StillReads (D.content disk.old) (D.content disk.new) }
    ensures crash { LeavesOnly D.images D.since D.moment disk.old disk.new (D.images disk.old) }
    ensures calls { D.moment disk.new ≤ D.moment disk.old + 6 }

    ensures cause { HasOpenCause (D.faults disk.old) (D.faults disk.new) result }
{
    let gates = best(disk)?;
    match newer(disk, gates) {
        Ok(slot) => read_chosen(alloc, disk, gates, slot),
        Err(refusal) => Err(refusal),
    }
}

/// Which of the open slots counts: of two the one whose turn is the one after the other's.
fn newer<D: Disk>(disk: &mut D, gates: Gates) -> Result<u8, OpenRefusal>
    requires first { IfSome (D.content disk.old) (λ c. IsTrue gates.first ↔ IsOpen 0 c) }
    requires second { IfSome (D.content disk.old) (λ c. IsTrue gates.second ↔ IsOpen 1 c) }
    ensures slot { IfOk result (λ slot. slot ≤ 1) }
    ensures counts { IfOk result (λ slot. IfSome (D.content disk.new) (IsNewer slot)) }
    ensures refused { IfErr result (λ e. IfSome (D.content disk.new) (λ c. IsSlotCause c e)) }
    ensures content { StillReads (D.content disk.old) (D.content disk.new) }
    ensures crash { LeavesOnly D.images D.since D.moment disk.old disk.new (D.images disk.old) }
    ensures calls { D.moment disk.new ≤ D.moment disk.old + 2 }
    ensures cause { HasOpenCause (D.faults disk.old) (D.faults disk.new) result }
{
    if gates.first && gates.second {
        newer_of_both(disk)
    } else if gates.first {
        Ok(0)
    } else if gates.second {
        Ok(1)
    } else {
        Err(OpenRefusal::NotAStore)
    }
}

/// The same where both are open.
fn newer_of_both<D: Disk>(disk: &mut D) -> Result<u8, OpenRefusal>
    requires first { IfSome (D.content disk.old) (IsOpen 0) }
    requires second { IfSome (D.content disk.old) (IsOpen 1) }
    ensures slot { IfOk result (λ slot. slot ≤ 1) }
    ensures counts { IfOk result (λ slot. IfSome (D.content disk.new) (IsNewer slot)) }
    ensures refused { IfErr result (λ e. IfSome (D.content disk.new) (λ c. IsSlotCause c e)) }
    ensures content { StillReads (D.content disk.old) (D.content disk.new) }
    ensures crash { LeavesOnly D.images D.since D.moment disk.old disk.new (D.images disk.old) }
    ensures calls { D.moment disk.new ≤ D.moment disk.old + 2 }
    ensures cause { HasOpenCause (D.faults disk.old) (D.faults disk.new) result }
{
    let first = turn_at(disk, 0)?;
    let second = turn_at(disk, 1)?;
    if follows(second, first) {
        Ok(1)
    } else if follows(first, second) {
        Ok(0)
    } else {
        Err(OpenRefusal::Damaged { number: 0 })
    }
}

/// Whether a turn is the one after another.
#[tactic(auto, unfolding(fish_slots::specs::Commits::next_turn))]
fn follows(turn: u64, other: u64) -> bool
    ensures { IsTrue result ↔ (turn ≡ next_turn other) }
{
    turn == (other % 3 + 1) % 3
}

/// The turn that a slot's body says. One call of the disk.
fn turn_at<D: Disk>(disk: &mut D, slot: u8) -> Result<u64, Failed>
    requires { slot ≤ 1 }
    ensures turn { IfOk result (λ turn. IfSome (D.content disk.new) (λ c. turn ≡ turn_of (body_in_slot slot c))) }
    ensures content { StillReads (D.content disk.old) (D.content disk.new) }
    ensures crash { LeavesOnly D.images D.since D.moment disk.old disk.new (D.images disk.old) }
    ensures calls { D.moment disk.new ≤ D.moment disk.old + 1 }
    ensures cause { HasCause (D.faults disk.old) (D.faults disk.new) result }
{
    let mut word = [0u8; 8];
    let count = disk.read(BODIES_AT + SLOT_BYTES * slot as u64 + 8, &mut word)?;
    Ok(number_in(&word[..count]))
}

/// The slot that counts, with what its body tells.
fn read_chosen<D: Disk>(
    alloc: Global,
    disk: &mut D,
    gates: Gates,
    slot: u8,
) -> Result<Chosen, OpenRefusal>
    requires slot { slot ≤ 1 }
    requires first { IfSome (D.content disk.old) (λ c. IsTrue gates.first ↔ IsOpen 0 c) }
    requires second { IfSome (D.content disk.old) (λ c. IsTrue gates.second ↔ IsOpen 1 c) }
    requires counts { IfSome (D.content disk.old) (IsNewer slot) }
    ensures found { IfOk result (λ s. IfSome (D.content disk.new) (λ c. IsChosen c s.slot s.both s.commit)) }
    ensures read { IfOk result (λ s. IsSlotRead s.slot s.commit) }
    ensures refused { IfErr result (λ e. IfSome (D.content disk.new) (λ c. IsSlotCause c e)) }
    ensures content { StillReads (D.content disk.old) (D.content disk.new) }
    ensures crash { LeavesOnly D.images D.since D.moment disk.old disk.new (D.images disk.old) }
    ensures calls { D.moment disk.new ≤ D.moment disk.old + 1 }
    ensures cause { HasOpenCause (D.faults disk.old) (D.faults disk.new) result }
{
    let both = are_both(gates);
    match read_commit(alloc, disk, slot) {
        Ok(commit) => Ok(Chosen { slot, both, commit }),
        Err(refusal) => Err(refusal),
    }
}

/// Whether both gates are open.
fn are_both(gates: Gates) -> bool
    ensures { IsTrue result ↔ (IsTrue gates.first × IsTrue gates.second) }
{
    gates.first && gates.second
}

/// The commit that a slot's body tells. One call of the disk.
fn read_commit<D: Disk>(alloc: Global, disk: &mut D, slot: u8) -> Result<Commit, OpenRefusal>
    requires { slot ≤ 1 }
    ensures body { IfOk result (λ commit. IfSome (D.content disk.new) (λ c. IsBodyOf commit (body_in_slot slot c))) }
    ensures read { IfOk result (λ commit. (b : List ℕ) × IsBodyOf commit b) }
    ensures refused { IfErr result (λ e. IfSome (D.content disk.new) (λ c. IsBodyCause (body_in_slot slot c) e)) }
    ensures content { StillReads (D.content disk.old) (D.content disk.new) }
    ensures crash { LeavesOnly D.images D.since D.moment disk.old disk.new (D.images disk.old) }
    ensures calls { D.moment disk.new ≤ D.moment disk.old + 1 }
    ensures cause { HasOpenCause (D.faults disk.old) (D.faults disk.new) result }
{
    let mut body = zeros(alloc, SLOT_BYTES as usize)?;
    let count = disk.read(BODIES_AT + SLOT_BYTES * slot as u64, &mut body)?;
    match read_slot(alloc, &body[..count])? {
        Some(commit) => Ok(commit),
        None => Err(OpenRefusal::Damaged { number: 0 }),
    }
}
