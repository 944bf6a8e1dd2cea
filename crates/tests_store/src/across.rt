//! Scans across the base of a log: three older records in the file, and a fourth in the table.

ghost use Rattle.std.specs.Prelude.{◌≡◌, ◌<◌, ◌≤◌, All, IfOk};
ghost use Rattle.fish_catalog.specs.Clamps.{IsClamped};
ghost use Rattle.fish_epoch.specs.Definitions.{IsDefsOf};
ghost use Rattle.fish_psf.specs.Blanks.{IsBlankOf};
ghost use Rattle.fish_rule.specs.Passes.{IsPassOf, view};
ghost use Rattle.fish_scan.specs.Colder.{IsBelow};
ghost use Rattle.tests_store.specs.Flushing.{IsOutOf};
ghost use Rattle.tests_store.specs.Heads.{AreOlder};

use crate::flushing::store;
use crate::images::catalog;
use crate::older::file;
use crate::told::{expect_all, numbers};
use fish_catalog::{Catalog, PageStart, PageStarts};
use fish_cold::Cold;
use fish_disk::{Disk, MemoryDisk};
use fish_epoch::Defs;
use fish_ingest::IngestRefusal;
use fish_plan::Piece;
use fish_psf::Steps;
use fish_rule::{Base, Log, Pass, Shape, Start, base, open_log};
use fish_scan::{Answer, Ask, How, ScanRefusal, scan_with};
use fish_value::{Numbers64, Text, Value};
use std::alloc::{AllocError, Global};
use std::fmt::Write;
use std::marker::Brand;
use std::sync::ledger::{Blank, Ledger};
use std::test::Fail;

/// How the log is read, from which number on, and up to which.
pub(crate) type Question = (How, Option<u32>, Option<u32>);

/// What is asked, and how many words of the log the file has.
type Case = (Question, usize);

/// The records whose `type` is `Push`, and the plan. The last line of the file is missing in the last three.
const CASES: &[(Case, &str)] = &[
    (
        ((How::Auto, None, None), 24),
        "3 2 0 in 0..4 index 0..4 by 0",
    ),
    (
        ((How::Index, None, None), 24),
        "3 2 0 in 0..4 index 0..4 by 0",
    ),
    (((How::Full, None, None), 24), "3 2 0 in 0..4 full 0..4"),
    (
        ((How::Auto, Some(1), None), 24),
        "3 2 in 1..4 index 1..4 by 0",
    ),
    (((How::Full, Some(1), Some(3)), 24), "2 in 1..3 full 1..3"),
    (
        ((How::Auto, None, Some(2)), 24),
        "0 in 0..2 index 0..2 by 0",
    ),
    (((How::Full, Some(3), None), 20), "3 in 3..4 full 3..4"),
    (((How::Full, None, None), 20), "damaged at 2"),
    (((How::Auto, None, None), 20), "damaged at 3"),
];

/// A log of one page, of sixteen buckets.
const SHAPE: Shape = Shape {
    pages: 1,
    bucket_bits: 4,
};

/// The heads of the buckets of `Push` and `Pull`.
fn head_of(bucket: u32) -> u64
    ensures { result ≤ 17 }
{
    match bucket {
        5 => 17,
        6 => 9,
        _ => 0,
    }
}

/// The heads with which a log begins at a line.
fn heads_of(alloc: Global, line: u64) -> Result<Numbers64, AllocError>
    requires { 6 ≤ line }
    ensures { IfOk result (AreOlder line 16) }
{
    let mut heads = Numbers64::new(alloc);
    for bucket in 0..16_u32 {
        heads.push(head_of(bucket))?;
    }
    Ok(heads)
}

/// The definitions, with boundaries that are at most the base.
fn clamped(alloc: Global) -> Result<Catalog, AllocError>
    ensures { IfOk result (λ catalog. All (IsClamped 3) catalog) }
{
    let mut rows = catalog(alloc, None)?;
    rows.clamp(3);
    Ok(rows)
}

/// A log that begins after three records of two lines each.
fn opened(alloc: Global) -> Result<(Log, Pass), AllocError>
    ensures { IfOk result (λ r. IsOutOf r.0 r.1) }
{
    opened_at(alloc, Base { number: 3, line: 6 }, clamped(alloc)?)
}

/// A log that begins at a base, with these definitions.
pub(crate) fn opened_at(
    alloc: Global,
    base: Base,
    catalog: Catalog,
) -> Result<(Log, Pass), AllocError>
    requires number { base.number ≤ 300 }
    requires least { 6 ≤ base.line }
    requires most { base.line ≤ 9830400 }
    requires rows { All (IsClamped base.number) catalog }
    ensures { IfOk result (λ r. IsOutOf r.0 r.1) }
{
    match heads_of(alloc, base.line) {
        Ok(heads) => {
            let start = Start {
                base,
                heads,
                catalog,
                version: 0,
            };
            let log = open_log(alloc, SHAPE, &start);
            drop(start);
            log
        }
        Err(error) => {
            drop(catalog);
            Err(error)
        }
    }
}

/// The start of one page.
fn one_start(alloc: Global) -> Result<PageStarts, AllocError> {
    let mut starts = PageStarts::new(alloc);
    starts.push(PageStart { number: 0, line: 0 })?;
    Ok(starts)
}

/// Nothing read of what is below the log, whose pages have these starts.
pub(crate) fn nothing_read(alloc: Global, log: &Log, starts: PageStarts) -> Result<Cold, AllocError>
    ensures { IfOk result (IsBelow log.now.key) }
{
    let base = base(log);
    if base.line > 1 << 30 {
        drop(starts);
        return Err(AllocError);
    }
    Cold::new(alloc, base, starts)
}

/// The fourth record, and the definitions that were read for it.
fn stored(alloc: Global, log: &Log, pass: &mut Pass) -> Result<Defs, IngestRefusal>
    requires { IsOutOf log.now pass.old }
    ensures pass { IsPassOf log.now pass.new }
    ensures defs { IfOk result (IsDefsOf (view pass.new)) }
{
    let mut defs = Defs::new(alloc);
    match store(alloc, log, pass, &mut defs, b"{\"type\":\"Push\"}") {
        Ok(_) => Ok(defs),
        Err(refusal) => {
            drop(defs);
            Err(refusal)
        }
    }
}

/// What is asked.
pub(crate) fn ask_of(alloc: Global, question: &Question) -> Result<Ask, AllocError> {
    let name = Text::copy_of(alloc, "kind")?;
    let value = Value::Text(Text::copy_of(alloc, "Push")?);
    Ok(Ask {
        name,
        value,
        from: question.1,
        to: question.2,
        how: question.0,
    })
}

/// The answer, with counters of two blanks.
fn scanned<P: Ledger, L: Ledger, D: Disk>(
    alloc: Global,
    parses: Blank,
    loads: Blank,
    log: &Log,
    pass: &mut Pass,
    defs: &mut Defs,
    ask: &Ask,
    cold: &mut Cold,
    disk: &mut D,
) -> Result<Answer, ScanRefusal>
    requires parses { IsBlankOf P.name P.parts parses }
    requires loads { IsBlankOf L.name L.parts loads }
    requires pass { IsPassOf log.now pass.old }
    requires defs { IsDefsOf (view pass.old) defs.old }
    requires base { IsBelow log.now.key cold.old }
{
    let mut parses = Steps::<P>::new(parses);
    let mut loads = Steps::<L>::new(loads);
    scan_with(
        alloc,
        log,
        pass,
        defs,
        ask,
        cold,
        disk,
        &mut parses,
        &mut loads,
    )
}

/// A piece of a plan, after other text.
pub(crate) fn put_piece(told: &mut String, piece: &Piece) -> Result<(), AllocError> {
    match piece {
        Piece::Index { id, from, to } => write!(told, " index {from}..{to} by {id}"),
        Piece::Full { from, to } => write!(told, " full {from}..{to}"),
    }
}

fn put_answer(told: &mut String, answer: &Answer) -> Result<(), AllocError> {
    for row in answer.rows.as_slice() {
        write!(told, "{} ", row.number)?;
    }
    write!(told, "in {}..{}", answer.from, answer.to)?;
    for piece in answer.plan.pieces() {
        put_piece(told, piece)?;
    }
    Ok(())
}

/// What was read, or why nothing was.
fn answer_told(alloc: Global, answer: Result<Answer, ScanRefusal>) -> Result<String, AllocError> {
    match answer {
        Ok(answer) => {
            let told = read_told(alloc, &answer);
            drop(answer);
            told
        }
        Err(refusal) => format!(in alloc; "{refusal}"),
    }
}

fn read_told(alloc: Global, answer: &Answer) -> Result<String, AllocError> {
    let mut told = String::new(alloc);
    put_answer(&mut told, answer)?;
    Ok(told)
}

/// Asks, with what is read, and drops the question.
pub(crate) fn asked_told<D: Disk>(
    alloc: Global,
    question: &Question,
    log: &Log,
    pass: &mut Pass,
    defs: &mut Defs,
    cold: &mut Cold,
    disk: &mut D,
) -> Result<String, AllocError>
    requires pass { IsPassOf log.now pass.old }
    requires defs { IsDefsOf (view pass.old) defs.old }
    requires base { IsBelow log.now.key cold.old }
{
    let ask = ask_of(alloc, question)?;
    let answer = scanned::<Brand, Brand, D>(
        alloc,
        Blank::new(1),
        Blank::new(1),
        log,
        pass,
        defs,
        &ask,
        cold,
        disk,
    );
    drop(ask);
    answer_told(alloc, answer)
}

/// Stores the fourth record, asks, and drops what was read for it.
fn stored_told(
    alloc: Global,
    question: &Question,
    log: &Log,
    pass: &mut Pass,
    cold: &mut Cold,
    disk: &mut MemoryDisk,
) -> Result<String, AllocError>
    requires out { IsOutOf log.now pass.old }
    requires base { IsBelow log.now.key cold.old }
{
    match stored(alloc, log, pass) {
        Ok(mut defs) => {
            let told = asked_told(alloc, question, log, pass, &mut defs, cold, disk);
            drop(defs);
            told
        }
        Err(refusal) => format!(in alloc; "{refusal}"),
    }
}

/// Does so with nothing read yet of what is below the log.
fn cold_told(
    alloc: Global,
    question: &Question,
    log: &Log,
    pass: &mut Pass,
    disk: &mut MemoryDisk,
) -> Result<String, AllocError>
    requires { IsOutOf log.now pass.old }
{
    let mut cold = nothing_read(alloc, log, one_start(alloc)?)?;
    let told = stored_told(alloc, question, log, pass, &mut cold, disk);
    drop(cold);
    told
}

/// Does so with a log of its own.
fn log_told(
    alloc: Global,
    question: &Question,
    disk: &mut MemoryDisk,
) -> Result<String, AllocError> {
    let (log, mut pass) = opened(alloc)?;
    let told = cold_told(alloc, question, &log, &mut pass, disk);
    drop(pass);
    drop(log);
    told
}

fn case_told(alloc: Global, case: &Case) -> Result<String, AllocError> {
    let bytes = file(alloc, &(0, 0, case.1, 99))?;
    let mut disk = MemoryDisk::new(alloc, bytes, numbers(alloc, &[])?);
    let told = log_told(alloc, &case.0, &mut disk);
    drop(disk);
    told
}

#[test]
fn scans_across_the_base(rt: HostRuntime) -> Result<(), Fail> {
    expect_all(&rt, rt.alloc(), CASES, case_told)?;
    Ok(())
}
