//! A checkpoint of events to a new file: a log is filled first, and what is timed is the call of `checkpoint` alone.

ghost use Rattle.std.specs.Prelude.{◌≡◌, IfSome, length};
ghost use Rattle.bench.specs.Checkpoints.{CanCheckpoint, IsFresh};
ghost use Rattle.fish_rule.specs.Start.{CanOpen};

use crate::definitions::{Definitions, OVER_EVENTS, definitions_of};
use crate::ingests::{SHAPE, ingest_all};
use crate::lanes::report;
use fish_catalog::Catalog;
use fish_disk::{Disk, FileDisk};
use fish_epoch::Defs;
use fish_flush::{Flusher, checkpoint, create};
use fish_layout::LINES_AT;
use fish_rule::{Log, Pass, Start, open_log};
use fish_value::Text;
use std::alloc::AllocError;
use std::time::{CpuClock, Instant};

/// Makes a store at a path where no file is, fills a log with the payloads, and times its checkpoint.
pub fn measure_checkpoint(
    rt: &HostRuntime,
    payloads: &[Text],
    path: &str,
) -> Result<(), AllocError> {
    let alloc = rt.alloc();
    let mut disk = FileDisk::at(*rt, Text::copy_of(alloc, path)?);
    let Definitions { catalog, defs } = definitions_of(alloc, OVER_EVENTS)?;
    drop(defs);
    let start = Start::first(alloc, SHAPE, catalog)?;
    let measured = measure_in(rt, payloads, &start, &mut disk);
    drop((start, disk));
    measured
}

/// The same in a log that begins so.
fn measure_in<D: Disk>(
    rt: &HostRuntime,
    payloads: &[Text],
    start: &Start,
    disk: &mut D,
) -> Result<(), AllocError>
    requires can { CanOpen SHAPE start.now }
    requires number { start.now.base.number ≡ 0 }
    requires line { start.now.base.line ≡ 0 }
    requires empty { IfSome (D.content disk.old) (λ c. length c ≡ 0) }
{
    let (log, pass) = open_log(rt.alloc(), SHAPE, start)?;
    let measured = fill(rt, payloads, &log, pass, &start.catalog, disk);
    drop(log);
    measured
}

/// Makes the store of an empty log, and stores the payloads.
fn fill<D: Disk>(
    rt: &HostRuntime,
    payloads: &[Text],
    log: &Log,
    pass: Pass,
    catalog: &Catalog,
    disk: &mut D,
) -> Result<(), AllocError>
    requires fresh { IsFresh SHAPE catalog.now log.now pass }
    requires empty { IfSome (D.content disk.old) (λ c. length c ≡ 0) }
{
    let alloc = rt.alloc();
    let mut pass = pass;
    let Ok(mut flusher) = create(alloc, SHAPE, disk) else {
        drop(pass);
        return Err(AllocError);
    };
    let mut defs = Defs::new(alloc);
    ingest_all(alloc, log, &mut pass, &mut defs, payloads);
    time(rt, log, &mut pass, &mut flusher, catalog, disk);
    drop((pass, flusher, defs));
    Ok(())
}

/// Times the checkpoint, by the clock and by the processor.
fn time<D: Disk>(
    rt: &HostRuntime,
    log: &Log,
    pass: &mut Pass,
    flusher: &mut Flusher,
    catalog: &Catalog,
    disk: &mut D,
)
    requires { CanCheckpoint (D.images disk.old) log.now pass.old flusher.old catalog.now }
{
    let (Ok(start), Ok(used)) = (Instant::now(rt), rt.thread_cpu_time()) else {
        return;
    };
    let done = checkpoint(rt.alloc(), log, pass, flusher, catalog, disk);
    let (Ok(took), Ok(using)) = (start.elapsed(rt), rt.thread_cpu_time()) else {
        return;
    };
    let bytes = match (done, disk.length()) {
        (Ok(_), Ok(length)) => length.saturating_sub(LINES_AT),
        _ => 0,
    };
    let used = using.saturating_sub(used);
    report(rt, "checkpoint", 1, took.as_nanos(), bytes, "bytes");
    report(rt, "checkpoint_cpu", 1, used.as_nanos(), bytes, "bytes");
}
