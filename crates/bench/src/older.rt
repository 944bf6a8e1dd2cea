//! A store that is opened again: the opening, beside the reading of its payloads alone, and scans of its records, which
//! all are in the file.

ghost use Rattle.std.specs.Prelude.{IfOk, IsTrue};
ghost use Rattle.fish_rule.specs.Passes.{IsPassOf};
ghost use Rattle.fish_scan.specs.Colder.{IsBelow};

use crate::counted::Counted;
use crate::lanes::report;
use crate::older_scans::{Scan, time_older};
use crate::parses::read_once;
use crate::selections::{bytes_of, time_select};
use fish_cold::Cold;
use fish_disk::{Disk, FileDisk};
use fish_recover::{Asked, Opened, open_store};
use fish_rule::{Log, Pass, base};
use fish_scan::How;
use fish_value::Text;
use std::alloc::AllocError;
use std::time::Instant;

/// A store of any shape is opened.
const ANY: Asked = Asked {
    pages: None,
    bucket_bits: None,
};

/// Types of events, about one in a hundred and one in two, and the words of their lines.
const TYPES: &[(&str, Words)] = &[
    (
        "ReleaseEvent",
        Words {
            full: "older",
            select: "select",
            reads: "reads",
            row: "row",
        },
    ),
    (
        "PushEvent",
        Words {
            full: "older_half",
            select: "select_half",
            reads: "reads_half",
            row: "row_half",
        },
    ),
];

/// What the lines of a type begin with.
#[derive(Clone, Copy)]
struct Words {
    /// A scan of all records number by number.
    full: &'static str,
    /// The selection of the same from the payloads in memory.
    select: &'static str,
    /// How often that scan read the file.
    reads: &'static str,
    /// A scan of the newest records by the index.
    row: &'static str,
}

/// Opens the store at a path, which holds the payloads, and scans it.
pub fn measure_older(rt: &HostRuntime, payloads: &[Text], path: &str) -> Result<(), AllocError> {
    let path = Text::copy_of(rt.alloc(), path)?;
    let mut disk = Counted::of(FileDisk::at(*rt, path));
    let measured = open_and_scan(rt, payloads, &mut disk);
    drop(disk);
    measured
}

/// The same of the store on a disk.
fn open_and_scan<D: Disk>(
    rt: &HostRuntime,
    payloads: &[Text],
    disk: &mut Counted<D>,
) -> Result<(), AllocError> {
    let Opened {
        log,
        pass,
        flusher,
        catalog,
        cold,
        ..
    } = time_opening(rt, bytes_of(payloads), disk)?;
    drop((flusher, catalog));
    let mut pass = pass;
    let mut cold = cold;
    time_reading(rt, payloads);
    let measured = scan_opened(rt, payloads, &log, &mut pass, &mut cold, disk);
    drop((cold, pass, log));
    measured
}

/// Times the opening of a store of so many bytes of payloads.
fn time_opening<D: Disk>(rt: &HostRuntime, bytes: u64, disk: &mut D) -> Result<Opened, AllocError>
    ensures { IfOk result (λ o. IsPassOf o.log o.pass) }
{
    let Ok(start) = Instant::now(rt) else {
        return Err(AllocError);
    };
    let Ok(opened) = open_store(rt.alloc(), ANY, disk) else {
        return Err(AllocError);
    };
    if let Ok(took) = start.elapsed(rt) {
        report(rt, "open", 1, took.as_nanos(), bytes, "bytes");
    }
    Ok(opened)
}

/// Times the reading of the payloads alone, by one reader.
fn time_reading(rt: &HostRuntime, payloads: &[Text]) {
    let Ok(start) = Instant::now(rt) else {
        return;
    };
    let bytes = read_once(rt.alloc(), payloads);
    if let Ok(took) = start.elapsed(rt) {
        report(rt, "payloads", 1, took.as_nanos(), bytes, "bytes");
    }
}

/// Scans a store that was opened, if its file has just the records below the base of its table.
fn scan_opened<D: Disk>(
    rt: &HostRuntime,
    payloads: &[Text],
    log: &Log,
    pass: &mut Pass,
    cold: &mut Cold,
    disk: &mut Counted<D>,
) -> Result<(), AllocError>
    requires { IsPassOf log.now pass.old }
{
    if !lies_below(log, cold) {
        return Err(AllocError);
    }
    for &(kind, words) in TYPES {
        scan_all(rt, payloads, log, pass, cold, disk, kind, words)?;
    }
    for &(kind, words) in TYPES {
        scan_newest(rt, log, pass, cold, disk, kind, words)?;
    }
    Ok(())
}

/// Whether older records are those below the base of a log.
fn lies_below(log: &Log, cold: &Cold) -> bool
    ensures { IsTrue result → IsBelow log.now.key cold.now }
{
    let (older, above) = (cold.base(), base(log));
    older.number == above.number && older.line == above.line
}

/// Times a scan of all records number by number, and the selection of the same from the payloads in memory. They give
/// as many rows, or something is wrong.
fn scan_all<D: Disk>(
    rt: &HostRuntime,
    payloads: &[Text],
    log: &Log,
    pass: &mut Pass,
    cold: &mut Cold,
    disk: &mut Counted<D>,
    kind: &str,
    words: Words,
) -> Result<(), AllocError>
    requires pass { IsPassOf log.now pass.old }
    requires below { IsBelow log.now.key cold.old }
    ensures pass { IsPassOf log.now pass.new }
    ensures below { IsBelow log.now.key cold.new }
{
    let before = disk.reads();
    let scan = Scan {
        kind,
        from: 0,
        how: How::Full,
    };
    let scanned = time_older(rt, log, pass, cold, disk, scan)?;
    let reads = disk.reads().saturating_sub(before);
    let selected = time_select(rt, kind, payloads)?;
    if scanned.rows != selected.rows {
        return Err(AllocError);
    }
    let bytes = bytes_of(payloads);
    report(rt, words.full, 1, scanned.nanoseconds, bytes, "bytes");
    report(rt, words.select, 1, selected.nanoseconds, bytes, "bytes");
    report(rt, words.reads, 1, scanned.nanoseconds, reads, "reads");
    Ok(())
}

/// Times a scan of the newest eighth of the records by the index, once another one has read their pages. Where the file
/// is read though these pages ought to be held, no row counts.
fn scan_newest<D: Disk>(
    rt: &HostRuntime,
    log: &Log,
    pass: &mut Pass,
    cold: &mut Cold,
    disk: &mut Counted<D>,
    kind: &str,
    words: Words,
) -> Result<(), AllocError>
    requires pass { IsPassOf log.now pass.old }
    requires below { IsBelow log.now.key cold.old }
    ensures pass { IsPassOf log.now pass.new }
    ensures below { IsBelow log.now.key cold.new }
{
    let count = base(log).number;
    let scan = Scan {
        kind,
        from: count - count / 8,
        how: How::Index,
    };
    time_older(rt, log, pass, cold, disk, scan)?;
    let before = disk.reads();
    let timed = time_older(rt, log, pass, cold, disk, scan)?;
    let rows = if disk.reads() == before {
        timed.rows
    } else {
        0
    };
    report(rt, words.row, 1, timed.nanoseconds, rows, "rows");
    Ok(())
}
