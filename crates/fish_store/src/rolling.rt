//! A roll: where the log is committed, another table takes the place of its table.

ghost use Rattle.std.specs.Prelude.{◌≡◌, IfOk};
ghost use Rattle.fish_rule.specs.LoadSteps.{IsAlone};
ghost use Rattle.fish_rule.specs.Passes.{IsPassOf, view};
ghost use Rattle.fish_store.specs.Rolling.{HasRolled, MayRoll};
ghost use Rattle.fish_store.specs.within.Rolling.{IsClosedWith};

use crate::file::StoreFile;
use crate::store::Store;
use fish_disk::Disk;
use fish_recover::begin_table;
use fish_rule::{Log, Pass, close_log, shape};
use std::alloc::{AllocError, Global};

impl Store {
    /// Closes the table, all of which is committed, and begins another one after it: of the same shape, at the same
    /// version, with the rows cut to the log's length. No call of the disk is made, which stands there for the contract
    /// alone. The old table's memory goes before the new one's is taken.
    ///
    /// # Errors
    ///
    /// Memory ran out. Then the log is open no more; what the disk has stays as it is.
    pub fn roll<D: Disk>(self, alloc: Global, disk: &D) -> Result<Store, AllocError>
        requires may { MayRoll D.images disk.now self }
        ensures rolled { IfOk result (HasRolled D.Disk disk.now self) }
    {
        let Store {
            log,
            pass,
            registrar,
            file,
        } = self;
        let StoreFile { flusher, cold } = file;
        drop(cold);
        let rows = registrar.into_catalog();
        let shape = shape(&log);
        match close(alloc, log, pass) {
            Ok(version) => {
                let opened = begin_table(alloc, flusher, shape, rows, version, false)?;
                Ok(Store::of_opened(opened))
            }
            Err(want) => {
                drop(rows);
                drop(flusher);
                Err(want)
            }
        }
    }
}

/// Closes a log, whose memory goes, and answers the version of its definitions.
fn close(alloc: Global, log: Log, pass: Pass) -> Result<u16, AllocError>
    requires pass { IsPassOf log pass }
    requires alone { IsAlone (view pass) }
    ensures { IfOk result (IsClosedWith (view pass)) }
{
    match close_log(alloc, log, pass) {
        Ok(remains) => {
            let version = remains.version;
            drop(remains);
            Ok(version)
        }
        Err(want) => {
            drop(want);
            Err(AllocError)
        }
    }
}
