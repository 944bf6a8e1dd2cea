//! What the control pass keeps of a store's file: of the last commit, and of the pages below the table.

ghost use Rattle.std.specs.Prelude.{◌≡◌, ◌≤◌, ℕ, [], ◌∷◌, true, IfErr, IfOk, IsErrOf};
ghost use Rattle.fish_cold.specs.Carries.{CarriesTable};
ghost use Rattle.fish_epoch.specs.Definitions.{IsDefsOf};
ghost use Rattle.fish_flush.specs.Carrying.{HasSettled, ReadsLog};
ghost use Rattle.fish_flush.specs.Causes.{HasFlushCause};
ghost use Rattle.fish_flush.specs.Rows.{HoldsRows};
ghost use Rattle.fish_rule.specs.Passes.{IsPassOf, view};
ghost use Rattle.fish_rule.specs.Views.{Among};
ghost use Rattle.fish_scan.specs.Across.{IsAnswerWith, IsRefusedWith, IsUndamagedScan};
ghost use Rattle.fish_scan.specs.Colder.{IsBelow, IsScanFault};
ghost use Rattle.fish_scan.specs.Scans.{IsExplained, OnlyScans};
ghost use Rattle.fish_store.specs.CommitRows.{LeavesRows, by_checkpoint};
ghost use Rattle.fish_store.specs.Ending.{IsCommitOf};
ghost use Rattle.fish_store.specs.Points.{point_of};
ghost use Rattle.fish_store.specs.Sound.{GoesOnHere, MayGoOn, ReadsPages};

use fish_cold::Cold;
use fish_disk::Disk;
use fish_epoch::Defs;
use fish_flush::{FlushRefusal, Flusher, checkpoint};
use fish_psf::Steps;
use fish_registry::Registrar;
use fish_rule::{Log, Pass};
use fish_scan::{Answer, Ask, ScanRefusal, scan_with};
use std::alloc::Global;
use std::sync::ledger::Ledger;

/// What is kept of a store's file while its log is open.
#[derive(Drop)]
pub struct StoreFile {
    /// Of the last commit, from which the next one goes on.
    pub flusher: Flusher,
    /// Of the pages below the table, as they were read.
    pub cold: Cold,
}

impl StoreFile {
    /// Commits the log up to the settled number that a `settle` of this call answers, and answers that number, as
    /// [`checkpoint`] does.
    pub fn checkpoint<D: Disk>(
        &mut self,
        alloc: Global,
        log: &Log,
        pass: &mut Pass,
        registrar: &Registrar,
        disk: &mut D,
    ) -> Result<u32, FlushRefusal>
        requires pass { IsPassOf log.now pass.old }
        requires rows { HoldsRows (view pass.old) registrar.now.catalog }
        requires may { MayGoOn D.images (point_of disk.old self.old log.now pass.old registrar.now) }
        ensures pass { IsPassOf log.now pass.new }
        ensures reads { ReadsLog (view pass.old) (view pass.new) }
        ensures settled { IfOk result (HasSettled (view pass.old) (view pass.new)) }
        ensures cold { self.new.cold ≡ self.old.cold }
        ensures commit { IfOk result (IsCommitOf (D.images disk.new) log.now.shape registrar.now.catalog
            self.new.flusher (view pass.new)) }
        ensures again { (IsErrOf result FlushRefusal.DiskFault → ⊥)
            → MayGoOn D.images (point_of disk.new self.new log.now pass.new registrar.now) }
        ensures goes { GoesOnHere D.Disk (point_of disk.old self.old log.now pass.old registrar.now)
            (point_of disk.new self.new log.now pass.new registrar.now) }
        ensures rows { LeavesRows D.Disk disk.old disk.new (by_checkpoint result registrar.now.catalog)
            (registrar.now.catalog ∷ []) }

        ensures cause { HasFlushCause (D.faults disk.old) (D.faults disk.new) result }
        ensures shut { IsErrOf result FlushRefusal.DiskFault → self.new.flusher ≡ record self.old.flusher
            { shut = true } }
        ensures memory { IsErrOf result FlushRefusal.OutOfMemory → (disk.new ≡ disk.old) × (self.new ≡ self.old) }
    {
        checkpoint(
            alloc,
            log,
            pass,
            &mut self.flusher,
            registrar.catalog(),
            disk,
        )
    }

    /// [`scan_with`], over the pages that are kept.
    pub fn scan<D: Disk, P: Ledger, L: Ledger>(
        &mut self,
        alloc: Global,
        log: &Log,
        pass: &mut Pass,
        defs: &mut Defs,
        ask: &Ask,
        disk: &mut D,
        parses: &mut Steps<P>,
        loads: &mut Steps<L>,
    ) -> Result<Answer, ScanRefusal>
        requires pass { IsPassOf log.now pass.old }
        requires defs { IsDefsOf (view pass.old) defs.old }
        requires base { IsBelow log.now.key self.old.cold }
        ensures pass { IsPassOf log.now pass.new }
        ensures only { OnlyScans (view pass.old) (view pass.new) }
        ensures defs { IsDefsOf (view pass.new) defs.new }
        ensures base { IsBelow log.now.key self.new.cold }
        ensures flusher { self.new.flusher ≡ self.old.flusher }
        ensures reads { ReadsPages D.Disk log.now.key self.old.cold self.new.cold disk.old disk.new }
        ensures explained { IfOk result (λ a. IsExplained (view pass.old) (view pass.new) defs.new.known ask.now a.from
            a.to a.opens a.plan) }
        ensures opened { IfOk result (λ a. (n : ℕ) → Among n a.opens → (view pass.new).about.number ≤ n) }
        ensures answer { IfOk result (λ answer. (h : CarriesTable (D.content disk.new) log.now.key self.old.cold)
            → IsAnswerWith h (view pass.old) (view pass.new) defs.new.known ask.now answer parses.old parses.new
            loads.old loads.new) }

        ensures refused { IfErr result (IsRefusedWith (view pass.old) (view pass.new) defs.new.known ask.now) }
        ensures fault { IsScanFault (D.faults disk.old) (D.faults disk.new) result }
        ensures whole { (h : CarriesTable (D.content disk.new) log.now.key self.old.cold) → IfErr result
            IsUndamagedScan }
    {
        scan_with(
            alloc,
            log,
            pass,
            defs,
            ask,
            &mut self.cold,
            disk,
            parses,
            loads,
        )
    }
}
