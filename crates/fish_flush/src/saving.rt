//! A checkpoint: the log up to its settled number is committed, while other passes go on.

ghost use Rattle.std.specs.Prelude.{◌≡◌, ◌≤◌, ◌+◌, ◌-◌, true, false, ℕ, List, IfOk, IsErrOf, OnOk};
ghost use Rattle.fish_catalog.specs.declared.commit.Commit.{Commit};
ghost use Rattle.fish_catalog.specs.declared.entry.Entry.{Entry};
ghost use Rattle.fish_catalog.specs.declared.row.CatRow.{CatRow};
ghost use Rattle.fish_outside.specs.Causes.{HasCause};
ghost use Rattle.fish_rule.specs.Logs.{Extends};
ghost use Rattle.fish_rule.specs.Passes.{IsPassOf, view};
ghost use Rattle.fish_flush.specs.Carrying.{CarriesLog, HasCommitted, HasSettled, LeavesEither, ReadsLog};
ghost use Rattle.fish_flush.specs.within.Carrying.{IsSaved, MaySave};
ghost use Rattle.fish_flush.specs.within.Carrying.{flusher_after};
ghost use Rattle.fish_flush.specs.Causes.{HasFlushCause};
ghost use Rattle.fish_flush.specs.Rows.{HoldsRows};
ghost use Rattle.fish_flush.specs.Writing.{pages_between};
ghost use Rattle.fish_slots.specs.Slots.{GatesAreSynced};

use crate::drafting::{Draft, draft_commit};
use crate::exchange::put_body;
use crate::flusher::Flusher;
use crate::pages::write_settled;
use crate::refusal::FlushRefusal;
use fish_catalog::Catalog;
use fish_disk::Disk;
use fish_outside::Failed;
use fish_rule::{Log, Pass};
use fish_walk::settle;
use std::alloc::Global;

/// Commits the log up to the settled number that a `settle` of this call answers, and answers that number.
/// All memory is taken before the first call of the disk.
pub fn checkpoint<D: Disk>(
    alloc: Global,
    log: &Log,
    pass: &mut Pass,
    flusher: &mut Flusher,
    catalog: &Catalog,
    disk: &mut D,
) -> Result<u32, FlushRefusal>
    requires pass { IsPassOf log.now pass.old }
    requires live { flusher.old.shut ≡ false }
    requires rows { HoldsRows (view pass.old) catalog.now }
    requires carries { (c : Commit) × (old : List Entry)
        × CarriesLog (D.images disk.old) flusher.old (view pass.old) log.now.shape catalog.now c old }
    ensures pass { IsPassOf log.now pass.new }
    ensures reads { ReadsLog (view pass.old) (view pass.new) }
    ensures settled { IfOk result (HasSettled (view pass.old) (view pass.new)) }
    ensures committed { IfOk result (HasCommitted (D.images disk.old) (D.images disk.new) flusher.old flusher.new
        (view pass.old) (view pass.new) log.now.shape catalog.now) }
    ensures crash { (c : Commit) (old : List Entry)
        → (h : CarriesLog (D.images disk.old) flusher.old (view pass.old) log.now.shape catalog.now c old)
        → LeavesEither D.images D.since D.moment disk.old disk.new (view pass.new) catalog.now c old h.rest.lines }
    ensures gates { GatesAreSynced (D.images disk.new) (D.images disk.new) }
    ensures calls { D.moment disk.new ≤ D.moment disk.old + pages_between flusher.old.line log.now.key.end + 6 }

    ensures cause { HasFlushCause (D.faults disk.old) (D.faults disk.new) result }
    ensures shut { IsErrOf result FlushRefusal.DiskFault → flusher.new ≡ record flusher.old { shut = true } }
    ensures memory { IsErrOf result FlushRefusal.OutOfMemory → (disk.new ≡ disk.old) × (flusher.new ≡ flusher.old) }
{
    let to = settle(log, pass).settled;
    let draft = draft_commit(alloc, log, pass, flusher, catalog, to)?;
    save(log, pass, flusher, draft, disk)
}

/// Commits a draft, and keeps what is left of it. It takes no memory.
fn save<D: Disk>(
    log: &Log,
    pass: &mut Pass,
    flusher: &mut Flusher,
    draft: Draft,
    disk: &mut D,
) -> Result<u32, FlushRefusal>
    requires pass { IsPassOf log.now pass.old }
    requires may { (rows : List CatRow) × (c : Commit) × (old : List Entry)
        × MaySave (D.images disk.old) (view pass.old) log.now.key.end log.now.shape flusher.old draft rows c old }
    ensures pass { IsPassOf log.now pass.new }
    ensures extends { Extends (view pass.old) (view pass.new) }
    ensures count { IfOk result (λ n. n ≡ draft.count) }
    ensures kept { OnOk result ((flusher.new.count ≡ draft.count) × (flusher.new.shut ≡ flusher.old.shut)) }
    ensures saved { OnOk result (IsSaved (D.images disk.old) (D.images disk.new) (view pass.old) (view pass.new)
        log.now.key.end log.now.shape flusher.old draft flusher.new) }
    ensures crash { (rows : List CatRow) (c : Commit) (old : List Entry)
        → (may : MaySave (D.images disk.old) (view pass.old) log.now.key.end log.now.shape flusher.old draft rows c old)
        → LeavesEither D.images D.since D.moment disk.old disk.new (view pass.new) rows c old may.rest.lines }
    ensures gates { GatesAreSynced (D.images disk.new) (D.images disk.new) }
    ensures calls { D.moment disk.new ≤ D.moment disk.old + pages_between flusher.old.line log.now.key.end + 6 }
    ensures cause { HasFlushCause (D.faults disk.old) (D.faults disk.new) result }
    ensures shut { IsErrOf result FlushRefusal.DiskFault → flusher.new ≡ record flusher.old { shut = true } }
    ensures memory { ¬ IsErrOf result FlushRefusal.OutOfMemory }
{
    let mut draft = draft;
    match write_draft(log, pass, flusher, &mut draft, disk) {
        Ok(()) => {
            flusher.keep(draft);
            Ok(flusher.count)
        }
        Err(_) => {
            drop(draft);
            flusher.shut = true;
            Err(FlushRefusal::DiskFault)
        }
    }
}

/// Writes the lines of a draft, and then its body into the slot that is closed, which takes the place of the other.
fn write_draft<D: Disk>(
    log: &Log,
    pass: &mut Pass,
    flusher: &Flusher,
    draft: &mut Draft,
    disk: &mut D,
) -> Result<(), Failed>
    requires pass { IsPassOf log.now pass.old }
    requires may { (rows : List CatRow) × (c : Commit) × (old : List Entry)
        × MaySave (D.images disk.old) (view pass.old) log.now.key.end log.now.shape flusher.now draft.old rows c old }
    ensures pass { IsPassOf log.now pass.new }
    ensures extends { Extends (view pass.old) (view pass.new) }
    ensures kept { draft.new ≡ record draft.old { batch = draft.new.batch } }
    ensures saved { OnOk result (IsSaved (D.images disk.old) (D.images disk.new) (view pass.old) (view pass.new)
        log.now.key.end log.now.shape flusher.now draft.old (flusher_after flusher.now draft.new)) }
    ensures crash { (rows : List CatRow) (c : Commit) (old : List Entry)
        → (may : MaySave (D.images disk.old) (view pass.old) log.now.key.end log.now.shape flusher.now draft.old rows c
        old) → LeavesEither D.images D.since D.moment disk.old disk.new (view pass.new) rows c old may.rest.lines }
    ensures gates { GatesAreSynced (D.images disk.new) (D.images disk.new) }
    ensures calls { D.moment disk.new ≤ D.moment disk.old + pages_between flusher.now.line log.now.key.end + 6 }
    ensures cause { HasCause (D.faults disk.old) (D.faults disk.new) result }
{
    let to = draft.count;
    write_settled(log, pass, flusher.count, to, &mut draft.batch, disk)?;
    put_body(disk, 1 - flusher.slot, draft.body.as_bytes())
}
