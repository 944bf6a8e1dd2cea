//! What makes a log last: it is committed, and where its table is full a new one is begun after it.

ghost use Rattle.std.specs.Prelude.{◌≡◌, ◌≤◌, ℕ, IfErr, IfOk, IsErrOf, OnOk};
ghost use Rattle.fish_outside.specs.Causes.{Rose};
ghost use Rattle.fish_run.specs.within.Commits.{Commits};
ghost use Rattle.fish_run.specs.within.Faults.{IsCommitFault};
ghost use Rattle.fish_run.specs.within.Rolls.{RollsOn, StopsRoll};
ghost use Rattle.fish_run.specs.within.Runs.{CanGoOn, IsAllKept};
ghost use Rattle.fish_store.specs.Points.{point_at};
ghost use Rattle.fish_store.specs.Sound.{MayGoOn};

use crate::fault::RunFault;
use fish_disk::Disk;
use fish_store::Store;
use std::alloc::Global;

/// A store after a part of a run that a fault stopped.
#[derive(Drop)]
pub(crate) struct Stopped {
    /// The store, unless memory ran out for its table.
    pub store: Option<Store>,
    /// Why.
    pub why: RunFault,
}

/// Commits all of the log.
pub(crate) fn commit<D: Disk>(
    alloc: Global,
    store: &mut Store,
    disk: &mut D,
) -> Result<(), RunFault>
    requires go { (from : ℕ) × CanGoOn D.images disk.old store.old from }
    ensures commits { Commits D.Disk disk.old store.old disk.new store.new result }
    ensures all { OnOk result (IsAllKept D.images disk.new store.new) }
    ensures again { OnOk result (MayGoOn D.images (point_at disk.new store.new)) }

    ensures named { IfErr result IsCommitFault }
    ensures fault { IsErrOf result RunFault.Disk → Rose (D.faults disk.old) (D.faults disk.new) }
{
    store
        .file
        .checkpoint(alloc, &store.log, &mut store.pass, &store.registrar, disk)?;
    Ok(())
}

/// Commits all of a log of so many entries, and begins a new table after it.
pub(crate) fn roll_on<D: Disk>(
    alloc: Global,
    store: Store,
    from: u32,
    disk: &mut D,
) -> Result<Store, Stopped>
    requires go { CanGoOn D.images disk.old store from }
    ensures rolled { IfOk result (RollsOn D.Disk disk.old store from disk.new) }
    ensures stopped { IfErr result (StopsRoll D.Disk disk.old store from disk.new) }
    ensures rises { D.faults disk.old ≤ D.faults disk.new }
    ensures disk { IfErr result (λ s. s.why ≡ RunFault.Disk → Rose (D.faults disk.old) (D.faults disk.new)) }
{
    let mut store = store;
    match commit(alloc, &mut store, disk) {
        Ok(()) => match store.roll(alloc, disk) {
            Ok(next) => Ok(next),
            Err(_) => Err(Stopped {
                store: None,
                why: RunFault::Memory,
            }),
        },
        Err(why) => Err(Stopped {
            store: Some(store),
            why,
        }),
    }
}
