//! What a store holds, by the slot that counts.

ghost use Rattle.std.specs.Prelude.{◌≡◌, ◌≤◌, ◌+◌, ◌↔◌, ℕ, List, Some, IfErr, IfOk, IfSome, IsTrue, OnOk};
ghost use Rattle.fish_disk.specs.Content.{StillReads};
ghost use Rattle.fish_disk.specs.Crash.{LeavesOnly};
ghost use Rattle.fish_recover.specs.Choosing.{HasOpenCause, IsSlotRead};
ghost use Rattle.fish_recover.specs.within.Choosing.{IsChosen};
ghost use Rattle.fish_recover.specs.Opening.{IsImageFound, IsOpenCause, IsOtherShape, IsFoundRead, pages_of};

use crate::choosing::{Chosen, find_slot};
use crate::lines::check_lines;
use crate::refusal::{Asked, OpenRefusal};
use fish_catalog::{Checked, Commit};
use fish_disk::Disk;
use fish_rule::Shape;
use std::alloc::Global;

/// What a store holds.
#[derive(Drop)]
pub struct Found {
    /// The slot that counts.
    pub slot: u8,
    /// Whether the other slot's gate is open too.
    pub both: bool,
    /// What it tells.
    pub commit: Commit,
    /// What was found in its lines.
    pub checked: Checked,
}

/// What a disk holds. It syncs first, writes nothing, and reads the lines a page at a time.
pub fn find_store<D: Disk>(alloc: Global, asked: Asked, disk: &mut D) -> Result<Found, OpenRefusal>
    ensures found { IfOk result (λ f. IfSome (D.content disk.new) (λ c. IsImageFound c asked f)) }
    ensures read { IfOk result IsFoundRead }
    ensures synced { OnOk result ((c : List ℕ) → D.images disk.new c → D.content disk.new ≡ Some c) }
    ensures content { StillReads (D.content disk.old) (D.content disk.new) }
    ensures crash { LeavesOnly D.images D.since D.moment disk.old disk.new (D.images disk.old) }
    ensures calls { IfOk result (λ f. D.moment disk.new ≤ D.moment disk.old + pages_of f.commit.lines + 6) }

    ensures refused { IfErr result (λ e. IfSome (D.content disk.new) (λ c. IsOpenCause c asked e)) }
    ensures cause { HasOpenCause (D.faults disk.old) (D.faults disk.new) result }
{
    match find_slot(alloc, disk) {
        Ok(chosen) => hold(alloc, asked, disk, chosen),
        Err(refusal) => Err(refusal),
    }
}

/// Holds a store to the shape that is asked for, and its lines to the commit that its slot tells.
fn hold<D: Disk>(
    alloc: Global,
    asked: Asked,
    disk: &mut D,
    chosen: Chosen,
) -> Result<Found, OpenRefusal>
    requires chosen { IfSome (D.content disk.old) (λ c. IsChosen c chosen.slot chosen.both chosen.commit) }
    requires read { IsSlotRead chosen.slot chosen.commit }
    requires synced { (c : List ℕ) → D.images disk.old c → D.content disk.old ≡ Some c }
    ensures found { IfOk result (λ f. IfSome (D.content disk.new) (λ c. IsImageFound c asked f)) }
    ensures read { IfOk result IsFoundRead }
    ensures synced { OnOk result ((c : List ℕ) → D.images disk.new c → D.content disk.new ≡ Some c) }
    ensures content { StillReads (D.content disk.old) (D.content disk.new) }
    ensures crash { LeavesOnly D.images D.since D.moment disk.old disk.new (D.images disk.old) }
    ensures calls { IfOk result (λ f. D.moment disk.new ≤ D.moment disk.old + pages_of f.commit.lines) }
    ensures refused { IfErr result (λ e. IfSome (D.content disk.new) (λ c. IsOpenCause c asked e)) }
    ensures cause { HasOpenCause (D.faults disk.old) (D.faults disk.new) result }
{
    let Chosen { slot, both, commit } = chosen;
    if differs(asked, &commit) {
        let kept = Shape {
            pages: commit.pages,
            bucket_bits: commit.bucket_bits,
        };
        drop(commit);
        return Err(OpenRefusal::ShapeDiffers { kept, asked });
    }
    match check_lines(alloc, disk, &commit) {
        Ok(checked) => Ok(Found {
            slot,
            both,
            commit,
            checked,
        }),
        Err(refusal) => {
            drop(commit);
            Err(refusal)
        }
    }
}

/// Whether a number that is asked for is another than the one that is kept.
fn differs(asked: Asked, commit: &Commit) -> bool
    ensures { IsTrue result ↔ IsOtherShape asked commit.now }
{
    if let Some(pages) = asked.pages {
        if pages != commit.pages {
            return true;
        }
    }
    match asked.bucket_bits {
        Some(bits) => bits != commit.bucket_bits,
        None => false,
    }
}
