//! Scans, and how they would be answered, as items.

ghost use Rattle.std.specs.Prelude.{◌≡◌, IfErr, IfOk};
ghost use Rattle.fish_epoch.specs.Definitions.{IsDefsOf};
ghost use Rattle.fish_lanes.specs.Doing.{explained_item, scanned_item};
ghost use Rattle.fish_lanes.specs.Loading.{LoadsInTable};
ghost use Rattle.fish_lanes.specs.declared.work.Work.TheVariants as work;
ghost use Rattle.fish_lanes.specs.within.Causes.{fault_of};
ghost use Rattle.fish_lanes.specs.within.Doing.{IsFit, IsRefusedItem, cause_of};
ghost use Rattle.fish_lanes.specs.within.Older.{ScansOlder};
ghost use Rattle.fish_lanes.specs.within.Parts.{OnlyReadsFile, StopsBy};
ghost use Rattle.fish_lanes.specs.within.Pasts.{IsHere, anywhere};
ghost use Rattle.fish_lanes.specs.within.Running.{HasDefs};
ghost use Rattle.fish_psf.specs.Blanks.{IsBlankOf};
ghost use Rattle.fish_report.specs.declared.item.Item.TheVariants as item;
ghost use Rattle.fish_rule.specs.Passes.{IsPassOf, view};
ghost use Rattle.fish_scan.specs.Colder.{IsBelow};
ghost use Rattle.fish_scan.specs.Scans.{IsAnswer, IsRefused, OnlyScans};

use crate::statements::{Stop, or_stop};
use crate::work::{LaneFault, or_memory};
use fish_disk::Disk;
use fish_epoch::Defs;
use fish_psf::Steps;
use fish_report::{Item, ScanCause};
use fish_rule::{Log, Pass};
use fish_scan::{Answer, Ask, Explained, ScanRefusal, explain, scan};
use fish_store::StoreFile;
use fish_value::{Text, Value};
use std::alloc::{AllocError, Global};
use std::marker::Brand;
use std::sync::ledger::{Blank, Ledger};

/// Finds the records of the table on which a definition has a value.
pub(crate) fn scan_range(
    alloc: Global,
    log: &Log,
    pass: &mut Pass,
    defs: &mut Defs,
    ask: &Ask,
) -> Result<Item, Stop>
    requires pass { IsPassOf log.now pass.old }
    requires defs { IsDefsOf (view pass.old) defs.old }
    ensures pass { IsPassOf log.now pass.new }
    ensures only { OnlyScans (view pass.old) (view pass.new) }
    ensures defs { IsDefsOf (view pass.new) defs.new }
    ensures fits { IfOk result (IsFit anywhere (view pass.old) (view pass.new) (work.Scan ask.now)) }
{
    let (parses, loads) = (Blank::new(1), Blank::new(1));
    match scan_with::<Brand, Brand>(alloc, parses, loads, log, pass, defs, ask) {
        Ok(answer) => or_stop(scanned(alloc, ask, answer, defs.version())),
        Err(ScanRefusal::ColdRange { .. }) => Err(Stop::Older),
        Err(refusal) => or_stop(refused(alloc, ask, refusal, defs.version())),
    }
}

/// Finds the records on which a definition has a value, those below the table in the store's file.
pub(crate) fn scan_older<D: Disk>(
    alloc: Global,
    log: &Log,
    pass: &mut Pass,
    file: &mut StoreFile,
    disk: &mut D,
    defs: &mut Defs,
    ask: &Ask,
) -> Result<Item, LaneFault>
    requires has { HasDefs log.now pass.old defs.old }
    requires base { IsBelow log.now.key file.old.cold }
    ensures has { HasDefs log.now pass.new defs.new }
    ensures only { OnlyScans (view pass.old) (view pass.new) }
    ensures reads { OnlyReadsFile D.Disk log.now.key disk.old file.old disk.new file.new }
    ensures fits { IfOk result (IsFit (IsHere (D.content disk.new) log.now.key file.old.cold) (view pass.old)
        (view pass.new) (work.Scan ask.now)) }

    ensures stops { IfErr result (StopsBy (IsHere (D.content disk.new) log.now.key file.old.cold) (D.faults disk.old)
        (D.faults disk.new)) }
{
    let (parses, loads) = (Blank::new(1), Blank::new(1));
    match older_with::<Brand, Brand, D>(alloc, parses, loads, log, pass, file, disk, defs, ask) {
        Ok(answer) => or_memory(scanned(alloc, ask, answer, defs.version())),
        Err(refusal) => match fault_of(refusal) {
            Some(fault) => Err(fault),
            None => or_memory(refused(alloc, ask, refusal, defs.version())),
        },
    }
}

/// The fault of a lane whose scan met one of the store's file.
fn fault_of(refusal: ScanRefusal) -> Option<LaneFault>
    ensures { result ≡ fault_of refusal }
{
    match refusal {
        ScanRefusal::DiskFault => Some(LaneFault::Disk),
        ScanRefusal::Damaged { number } => Some(LaneFault::Damaged { number }),
        ScanRefusal::UnknownName { .. }
        | ScanRefusal::EmptyRange { .. }
        | ScanRefusal::NotCovered { .. }
        | ScanRefusal::ColdRange { .. }
        | ScanRefusal::OutOfMemory => None,
    }
}

/// Says how the records would be found.
pub(crate) fn explain_range(
    alloc: Global,
    log: &Log,
    pass: &mut Pass,
    defs: &mut Defs,
    ask: &Ask,
) -> Result<Item, AllocError>
    requires pass { IsPassOf log.now pass.old }
    requires defs { IsDefsOf (view pass.old) defs.old }
    ensures pass { IsPassOf log.now pass.new }
    ensures only { OnlyScans (view pass.old) (view pass.new) }
    ensures defs { IsDefsOf (view pass.new) defs.new }
    ensures fits { IfOk result (IsFit anywhere (view pass.old) (view pass.new) (work.Explain ask.now)) }
{
    match explain(alloc, log, pass, defs, ask) {
        Ok(explained) => planned(alloc, ask, explained, defs.version()),
        Err(refusal) => unplanned(alloc, ask, refusal, defs.version()),
    }
}

/// The item of an answer.
fn scanned(alloc: Global, ask: &Ask, answer: Answer, version: u16) -> Result<Item, AllocError>
    ensures { IfOk result (λ x. x ≡ scanned_item ask.now answer version) }
{
    let (name, value) = match asked(alloc, ask) {
        Ok(asked) => asked,
        Err(error) => {
            drop(answer);
            return Err(error);
        }
    };
    let Answer {
        from,
        to,
        opens,
        rows,
        plan,
    } = answer;
    drop(plan);
    Ok(Item::Scanned {
        name,
        value,
        from,
        to,
        opens,
        rows,
        version,
    })
}

/// The item of a plan.
fn planned(alloc: Global, ask: &Ask, explained: Explained, version: u16) -> Result<Item, AllocError>
    ensures { IfOk result (λ x. x ≡ explained_item ask.now explained version) }
{
    let (name, value) = match asked(alloc, ask) {
        Ok(asked) => asked,
        Err(error) => {
            drop(explained);
            return Err(error);
        }
    };
    let Explained { from, to, plan } = explained;
    Ok(Item::Explained {
        name,
        value,
        from,
        to,
        plan,
        version,
    })
}

/// Copies of the name and of the value that are asked for.
fn asked(alloc: Global, ask: &Ask) -> Result<(Text, Value), AllocError>
    ensures { IfOk result (λ asked. (asked.0 ≡ ask.now.name) × (asked.1 ≡ ask.now.value)) }
{
    let name = ask.name.again(alloc)?;
    let value = ask.value.again(alloc)?;
    Ok((name, value))
}

/// The item of a scan that was refused for a cause that an item tells; else memory ran out.
fn refused(alloc: Global, ask: &Ask, refusal: ScanRefusal, version: u16) -> Result<Item, AllocError>
    ensures { IfOk result (IsRefusedItem ask.now.name version refusal item.ScanRefused) }
{
    let Some(cause) = cause_of(refusal) else {
        return Err(AllocError);
    };
    let name = ask.name.again(alloc)?;
    Ok(Item::ScanRefused {
        name,
        version,
        cause,
    })
}

/// The same of a plan.
fn unplanned(
    alloc: Global,
    ask: &Ask,
    refusal: ScanRefusal,
    version: u16,
) -> Result<Item, AllocError>
    ensures { IfOk result (IsRefusedItem ask.now.name version refusal item.ExplainRefused) }
{
    let Some(cause) = cause_of(refusal) else {
        return Err(AllocError);
    };
    let name = ask.name.again(alloc)?;
    Ok(Item::ExplainRefused {
        name,
        version,
        cause,
    })
}

/// Why a scan was refused, as an item tells it; none where memory ran out, where the range begins below the table, and
/// for a fault of the file.
fn cause_of(refusal: ScanRefusal) -> Option<ScanCause>
    ensures { result ≡ cause_of refusal }
{
    match refusal {
        ScanRefusal::UnknownName { .. } => Some(ScanCause::UnknownName),
        ScanRefusal::EmptyRange { from, to } => Some(ScanCause::EmptyRange { from, to }),
        ScanRefusal::NotCovered { from, to } => Some(ScanCause::NotCovered { from, to }),
        ScanRefusal::ColdRange { .. }
        | ScanRefusal::DiskFault
        | ScanRefusal::Damaged { .. }
        | ScanRefusal::OutOfMemory => None,
    }
}

/// Scans, with counters of parses and loads that begin with two blanks, and that nobody reads.
fn scan_with<P: Ledger, L: Ledger>(
    alloc: Global,
    parses: Blank,
    loads: Blank,
    log: &Log,
    pass: &mut Pass,
    defs: &mut Defs,
    ask: &Ask,
) -> Result<Answer, ScanRefusal>
    requires parses { IsBlankOf P.name P.parts parses }
    requires loads { IsBlankOf L.name L.parts loads }
    requires has { HasDefs log.now pass.old defs.old }
    ensures has { HasDefs log.now pass.new defs.new }
    ensures only { OnlyScans (view pass.old) (view pass.new) }
    ensures answer { IfOk result (IsAnswer (view pass.old) (view pass.new) defs.new.known ask.now) }
    ensures loads { IfOk result (LoadsInTable (view pass.old) (view pass.new) ask.now.value) }
    ensures refused { IfErr result (IsRefused (view pass.old) (view pass.new) defs.new.known ask.now) }
{
    let mut parses = Steps::<P>::new(parses);
    let mut loads = Steps::<L>::new(loads);
    scan(alloc, log, pass, defs, ask, &mut parses, &mut loads)
}

/// The same on both sides of the table's base.
fn older_with<P: Ledger, L: Ledger, D: Disk>(
    alloc: Global,
    parses: Blank,
    loads: Blank,
    log: &Log,
    pass: &mut Pass,
    file: &mut StoreFile,
    disk: &mut D,
    defs: &mut Defs,
    ask: &Ask,
) -> Result<Answer, ScanRefusal>
    requires parses { IsBlankOf P.name P.parts parses }
    requires loads { IsBlankOf L.name L.parts loads }
    requires has { HasDefs log.now pass.old defs.old }
    requires base { IsBelow log.now.key file.old.cold }
    ensures has { HasDefs log.now pass.new defs.new }
    ensures only { OnlyScans (view pass.old) (view pass.new) }
    ensures reads { OnlyReadsFile D.Disk log.now.key disk.old file.old disk.new file.new }
    ensures scans { ScansOlder (D.content disk.new) log.now.key file.old.cold (D.faults disk.old) (D.faults disk.new)
        (view pass.old) (view pass.new) defs.new.known ask.now result }
{
    let mut parses = Steps::<P>::new(parses);
    let mut loads = Steps::<L>::new(loads);
    file.scan(alloc, log, pass, defs, ask, disk, &mut parses, &mut loads)
}
