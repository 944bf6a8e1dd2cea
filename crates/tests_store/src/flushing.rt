//! A log of one definition, its control pass, and the store that this writes.

ghost use Rattle.std.specs.Prelude.{◌≡◌, IfOk, IfSome, OnOk, length};
ghost use Rattle.fish_ingest.specs.Ingestion.{CanIngest};
ghost use Rattle.fish_ingest.specs.Passing.{OnlyIngests};
ghost use Rattle.fish_rule.specs.Passes.{view};
ghost use Rattle.fish_rule.specs.Start.{IsShape};
ghost use Rattle.fish_rule.specs.Table.{first_view};
ghost use Rattle.tests_store.specs.Flushing.{IsEmptyLog, IsFlushing};

use crate::bodies::row;
use crate::passes::Control;
use fish_catalog::Catalog;
use fish_disk::Disk;
use fish_epoch::Defs;
use fish_flush::{FlushRefusal, Flusher, checkpoint, create};
use fish_ingest::{IngestRefusal, ingest};
use fish_rule::{Log, Pass, Shape, Start, open_log};
use fish_value::Form;
use std::alloc::{AllocError, Global};

/// A log of one page.
pub(crate) const SHAPE: Shape = Shape {
    pages: 1,
    bucket_bits: 4,
};

/// The definition `kind`, which is `take type` from a number on, or none if it should be refused.
pub(crate) fn definitions(alloc: Global, from: u32) -> Result<Catalog, AllocError> {
    let mut rows = Vec::new(alloc);
    rows.push(row(alloc, 0, ("kind", "take type"), Some(from))?)?;
    match Catalog::from_rows(alloc, rows)? {
        Some(catalog) => Ok(catalog),
        None => Ok(Catalog::new(alloc)),
    }
}

/// An empty log of a shape with that definition, what it begins with, and its control pass.
pub(crate) fn opened(alloc: Global, shape: Shape) -> Result<(Start, Log, Pass), AllocError>
    requires { IsShape shape }
    ensures { IfOk result (λ r. IsEmptyLog shape r.0 r.1 r.2) }
{
    let catalog = definitions(alloc, 0)?;
    let start = Start::first(alloc, shape, catalog)?;
    match open_log(alloc, shape, &start) {
        Ok((log, pass)) => Ok((start, log, pass)),
        Err(error) => {
            drop(start);
            Err(error)
        }
    }
}

/// Makes the store of an empty log.
pub(crate) fn made<D: Disk>(
    alloc: Global,
    shape: Shape,
    start: Start,
    log: &Log,
    pass: Pass,
    disk: &mut D,
) -> Result<Control, FlushRefusal>
    requires shape { IsShape shape }
    requires opened { IsEmptyLog shape start log.now pass }
    requires empty { IfSome (D.content disk.old) (λ c. length c ≡ 0) }
    ensures made { IfOk result (IsFlushing (D.images disk.new) log.now) }
    ensures first { IfOk result (λ control. view control.pass ≡ first_view log.now.key) }
{
    match create(alloc, shape, disk) {
        Ok(flusher) => Ok(Control {
            pass,
            start,
            defs: Defs::new(alloc),
            flusher,
        }),
        Err(refusal) => {
            drop((start, pass));
            Err(refusal)
        }
    }
}

/// Stores a payload. Its number, or why it was not stored.
pub(crate) fn store(
    alloc: Global,
    log: &Log,
    pass: &mut Pass,
    defs: &mut Defs,
    payload: &[u8],
) -> Result<u32, IngestRefusal>
    requires { CanIngest log.now pass.old defs.old }
    ensures ready { CanIngest log.now pass.new defs.new }
    ensures on { OnlyIngests (view pass.old) (view pass.new) }
{
    ingest(alloc, log, pass, defs, Form::Json, payload)
}

/// Commits what is settled. How much.
pub(crate) fn commit<D: Disk>(
    alloc: Global,
    log: &Log,
    control: &mut Control,
    disk: &mut D,
) -> Result<u32, FlushRefusal>
    requires { IsFlushing (D.images disk.old) log.now control.old }
    ensures { OnOk result (IsFlushing (D.images disk.new) log.now control.new) }
{
    let Control {
        pass,
        start,
        defs: _,
        flusher,
    } = control;
    checkpoint(alloc, log, pass, flusher, &start.catalog, disk)
}
