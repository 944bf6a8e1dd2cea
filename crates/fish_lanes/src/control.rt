//! The statements of the first lane, done by the control pass: it may register definitions and end them, commits the
//! log, and reads older records from the store's file.

ghost use Rattle.std.specs.Prelude.{◌≡◌, [], All};
ghost use Rattle.fish_epoch.specs.Definitions.{IsDefsOf};
ghost use Rattle.fish_flush.specs.Carrying.{ReadsLog};
ghost use Rattle.fish_lanes.specs.Registering.{IsAcceptable, KnowsRegistry, registry_of};
ghost use Rattle.fish_lanes.specs.declared.work.Work.TheVariants as work;
ghost use Rattle.fish_lanes.specs.within.Parts.{CanRunStore, RunsStatement, RunsWorks, store_of};
ghost use Rattle.fish_rule.specs.Passes.{view};

use crate::finishing::run_shared;
use crate::gate::{Gate, Point};
use crate::registering::{deregister, find_boundary, register};
use crate::statements::{finds_full, is_full};
use crate::work::{LaneFault, Work, or_memory};
use fish_disk::Disk;
use fish_epoch::Defs;
use fish_flush::FlushRefusal;
use fish_registry::Registrar;
use fish_report::{Item, Items};
use fish_rule::{Log, Pass, lane};
use fish_store::StoreFile;
use std::alloc::Global;

/// Does statements in order, up to the first fault or until the pass has found the log full, unless it was so at the
/// start, with definitions that are read anew. Before each it looks whether the index of the registration that waits
/// begins.
pub(crate) fn run_control<D: Disk, G: Gate>(
    alloc: Global,
    log: &Log,
    pass: &mut Pass,
    registrar: &mut Registrar,
    file: &mut StoreFile,
    disk: &mut D,
    works: &[Work],
    items: &mut Items,
    gate: &G,
) -> LaneFault
    requires run { CanRunStore D.images disk.old (store_of file.old log.now pass.old registrar.old) }
    requires known { KnowsRegistry (view pass.old) (registry_of (view pass.old) registrar.old) }
    requires acceptable { All IsAcceptable works.now }
    requires empty { items.old ≡ [] }
    ensures ran { RunsWorks D.Disk disk.old (store_of file.old log.now pass.old registrar.old) disk.new
        (store_of file.new log.now pass.new registrar.new) works.now items.new result }
{
    let mut defs = Defs::new(alloc);
    let full = is_full(pass);
    let mut position: u32 = 0;
    for work in works {
        if finds_full(pass, full) {
            return LaneFault::None;
        }
        gate.reach(lane(pass), Point::Before(position));
        if find_boundary(log, pass, registrar, items).is_err() {
            return LaneFault::Memory;
        }
        let item = match run_statement(
            alloc, log, pass, registrar, file, disk, &mut defs, work, gate,
        ) {
            Ok(item) => item,
            Err(fault) => return fault,
        };
        match items.push(item) {
            Ok(()) => {}
            Err(_) => return LaneFault::Memory,
        }
        gate.reach(lane(pass), Point::After(position));
        position = position.saturating_add(1);
    }
    LaneFault::None
}

/// Does one statement.
fn run_statement<D: Disk, G: Gate>(
    alloc: Global,
    log: &Log,
    pass: &mut Pass,
    registrar: &mut Registrar,
    file: &mut StoreFile,
    disk: &mut D,
    defs: &mut Defs,
    work: &Work,
    gate: &G,
) -> Result<Item, LaneFault>
    requires run { CanRunStore D.images disk.old (store_of file.old log.now pass.old registrar.old) }
    requires defs { IsDefsOf (view pass.old) defs.old }
    requires acceptable { IsAcceptable work.now }
    ensures defs { IsDefsOf (view pass.new) defs.new }
    ensures ran { RunsStatement D.Disk disk.old (store_of file.old log.now pass.old registrar.old) disk.new
        (store_of file.new log.now pass.new registrar.new) work.now result }
{
    match work {
        Work::Register { name, def } => {
            or_memory(register(alloc, log, pass, registrar, defs, name, def))
        }
        Work::Deregister { name } => {
            or_memory(deregister(alloc, log, pass, registrar, defs, name))
        }
        Work::Checkpoint => commit(alloc, log, pass, registrar, file, disk),
        _ => run_shared(alloc, log, pass, file, disk, defs, work, gate),
    }
}

/// Commits the log, up to the number below which all is stored.
fn commit<D: Disk>(
    alloc: Global,
    log: &Log,
    pass: &mut Pass,
    registrar: &Registrar,
    file: &mut StoreFile,
    disk: &mut D,
) -> Result<Item, LaneFault>
    requires run { CanRunStore D.images disk.old (store_of file.old log.now pass.old registrar.now) }
    ensures reads { ReadsLog (view pass.old) (view pass.new) }
    ensures ran { RunsStatement D.Disk disk.old (store_of file.old log.now pass.old registrar.now) disk.new
        (store_of file.new log.now pass.new registrar.now) work.Checkpoint result }
{
    match file.checkpoint(alloc, log, pass, registrar, disk) {
        Ok(count) => Ok(Item::Checkpointed { count }),
        Err(FlushRefusal::DiskFault) => Err(LaneFault::Disk),
        Err(FlushRefusal::OutOfMemory) => Err(LaneFault::Memory),
    }
}
