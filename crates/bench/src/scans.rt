//! Scans by an index: rows that it gives, and entries of other values that it passes.

ghost use Rattle.std.specs.Prelude.{◌≡◌, ◌<◌, IfOk};
ghost use Rattle.bench.specs.Opening.{IsControl};
ghost use Rattle.fish_epoch.specs.Definitions.{IsDefsOf};
ghost use Rattle.fish_psf.specs.Blanks.{IsBlankOf};
ghost use Rattle.fish_rule.specs.Passes.{IsPassOf, view};
ghost use Rattle.fish_rule.specs.Start.{IsShape};

use crate::definitions::{Sources, definitions_of};
use crate::ingests::ingest_all;
use crate::lanes::report;
use crate::opening::{Opened, open};
use crate::walks::{Walked, walk_chain};
use fish_epoch::Defs;
use fish_layout::{bucket_of, key_hash};
use fish_psf::Steps;
use fish_rule::{Log, Pass, Shape, buckets};
use fish_scan::{Answer, Ask, How, ScanRefusal, scan};
use fish_value::{Text, Texts, Value};
use std::alloc::{AllocError, Global};
use std::io::Eprint;
use std::marker::Brand;
use std::sync::ledger::{Blank, Ledger};
use std::time::{Clock, Instant};

/// How many records a log of short payloads has.
const RECORDS: u64 = 400_000;

/// The value of the first of them, or of all.
const FIRST: u64 = 100_000;

/// A log of few buckets, in which they have room.
const FEW: Shape = Shape {
    pages: 64,
    bucket_bits: 4,
};

/// The one definition over them.
const SHORT: Sources = &[("a", "take a")];

/// Which values short payloads have.
#[derive(Clone, Copy)]
enum Values {
    /// One.
    Same,
    /// Each its own.
    Own,
}

impl Values {
    /// What the lines of a walk and of a scan begin with.
    fn words(self) -> (&'static str, &'static str) {
        match self {
            Values::Same => ("walked", "passed"),
            Values::Own => ("walked_spread", "passed_spread"),
        }
    }
}

/// A log of one lane in which payloads are stored, and its pass.
#[derive(Drop)]
pub struct Filled {
    pub log: Log,
    pub control: Pass,
}

/// What a scan or a selection gave.
#[derive(Clone, Copy)]
pub struct Timed {
    /// How many rows.
    pub rows: u64,
    /// How long it took.
    pub nanoseconds: u128,
}

/// All measurements, once each.
pub fn measure_scans<R: Clock + AllocGlobal + Eprint>(rt: &R) -> Result<(), AllocError> {
    measure_index(rt, Values::Same)?;
    measure_index(rt, Values::Own)
}

/// A log of short payloads: rows of the value of the first one, and entries passed by a value that none has. With one
/// value the entries that are passed lie side by side, and else about sixteen records apart.
fn measure_index<R: Clock + AllocGlobal + Eprint>(
    rt: &R,
    values: Values,
) -> Result<(), AllocError> {
    let alloc = rt.alloc();
    let payloads = short_payloads(alloc, values)?;
    let Filled { log, mut control } = fill_log(alloc, FEW, SHORT, payloads.as_slice())?;
    drop(payloads);
    let measured = time_index(rt, &log, &mut control, values);
    drop((log, control));
    measured
}

/// Short payloads.
fn short_payloads(alloc: Global, values: Values) -> Result<Texts, AllocError> {
    let mut texts = Texts::new(alloc);
    for position in 0..RECORDS {
        let value = match values {
            Values::Same => FIRST,
            Values::Own => FIRST + position,
        };
        let payload = format!(in alloc; "{{\"a\":{value}}}")?;
        texts.push(Text::from_string(payload))?;
    }
    Ok(texts)
}

/// A log of a shape with definitions, in which all payloads are stored.
pub fn fill_log(
    alloc: Global,
    shape: Shape,
    sources: Sources,
    payloads: &[Text],
) -> Result<Filled, AllocError>
    requires { IsShape shape }
    ensures { IfOk result (λ f. IsPassOf f.log f.control) }
{
    let definitions = definitions_of(alloc, sources)?;
    let Opened { log, control, defs } = open(alloc, shape, definitions)?;
    drop(defs);
    let mut control = control;
    ingest_anew(alloc, &log, &mut control, payloads);
    Ok(Filled { log, control })
}

/// Ingests payloads by the control pass of a new log.
fn ingest_anew(alloc: Global, log: &Log, control: &mut Pass, payloads: &[Text])
    requires pass { IsPassOf log.now control.old }
    requires control { IsControl 1 (view control.old) }
    ensures { IsPassOf log.now control.new }
{
    let mut defs = Defs::new(alloc);
    ingest_all(alloc, log, control, &mut defs, payloads);
    drop(defs);
}

/// Times a scan by the index for a value that no record has, and one for the value of the first record, where all have
/// it. The chain of their bucket is walked before, and then all records are settled.
fn time_index<R: Clock + AllocGlobal + Eprint>(
    rt: &R,
    log: &Log,
    control: &mut Pass,
    values: Values,
) -> Result<(), AllocError>
    requires { IsPassOf log.now control.old }
{
    let (walk, pass) = values.words();
    let walked = walk_first(rt, log, control)?;
    report(rt, walk, 1, walked.nanoseconds, walked.nodes, "nodes");
    let other = Value::Int(other_number(buckets(log)));
    let passed = time_scan(rt, log, control, "a", other, How::Index)?;
    report(rt, pass, 1, passed.nanoseconds, walked.nodes, "entries");
    match values {
        Values::Same => time_given(rt, log, control),
        Values::Own => Ok(()),
    }
}

/// Times a scan by the index for the value that all records have.
fn time_given<R: Clock + AllocGlobal + Eprint>(
    rt: &R,
    log: &Log,
    control: &mut Pass,
) -> Result<(), AllocError>
    requires { IsPassOf log.now control.old }
{
    let first = Value::Int(FIRST as i64);
    let given = time_scan(rt, log, control, "a", first, How::Index)?;
    report(rt, "given", 1, given.nanoseconds, given.rows, "rows");
    Ok(())
}

/// Walks down the chain of the bucket of the first record's value.
fn walk_first<R: Clock>(rt: &R, log: &Log, control: &mut Pass) -> Result<Walked, AllocError>
    requires { IsPassOf log.now control.old }
    ensures { IsPassOf log.now control.new }
{
    let first = Value::Int(FIRST as i64);
    let walked = walk_bucket(rt, log, control, &first);
    drop(first);
    match walked {
        Some(walked) => Ok(walked),
        None => Err(AllocError),
    }
}

/// Walks down the chain of the bucket in which the entries of a value are, of the definition with id 0.
fn walk_bucket<R: Clock>(rt: &R, log: &Log, control: &mut Pass, value: &Value) -> Option<Walked>
    requires { IsPassOf log.now control.old }
    ensures { IsPassOf log.now control.new }
{
    let bucket = bucket_of(key_hash(0, value), buckets(log)) as u32;
    walk_counted::<R, Brand>(rt, log, control, bucket, Blank::new(1))
}

/// The same with a counter of a blank.
fn walk_counted<R: Clock, L: Ledger>(
    rt: &R,
    log: &Log,
    control: &mut Pass,
    bucket: u32,
    blank: Blank,
) -> Option<Walked>
    requires blank { IsBlankOf L.name L.parts blank }
    requires pass { IsPassOf log.now control.old }
    ensures { IsPassOf log.now control.new }
{
    let mut steps = Steps::<L>::new(blank);
    walk_chain(rt, log, control, bucket, &mut steps)
}

/// The least number that no record has, whose entries would be in the bucket of the first record's value.
fn other_number(count: u64) -> i64
    requires { 0 < count }
{
    let bucket = bucket_of_number(FIRST as i64, count);
    for number in 0..FIRST as i64 {
        if bucket_of_number(number, count) == bucket {
            return number;
        }
    }
    -1
}

/// The bucket of a number, by the definition with id 0.
fn bucket_of_number(number: i64, count: u64) -> u64
    requires { 0 < count }
{
    let value = Value::Int(number);
    let bucket = bucket_of(key_hash(0, &value), count);
    drop(value);
    bucket
}

/// Times a scan of the whole log.
pub fn time_scan<R: Clock + AllocGlobal>(
    rt: &R,
    log: &Log,
    control: &mut Pass,
    name: &str,
    value: Value,
    how: How,
) -> Result<Timed, AllocError>
    requires { IsPassOf log.now control.old }
    ensures { IsPassOf log.now control.new }
{
    let alloc = rt.alloc();
    let ask = Ask {
        name: Text::copy_of(alloc, name)?,
        value,
        from: None,
        to: None,
        how,
    };
    let timed = time_asked(rt, log, control, &ask);
    drop(ask);
    match timed {
        Some(timed) => Ok(timed),
        None => Err(AllocError),
    }
}

/// The same of what is asked.
fn time_asked<R: Clock + AllocGlobal>(
    rt: &R,
    log: &Log,
    control: &mut Pass,
    ask: &Ask,
) -> Option<Timed>
    requires { IsPassOf log.now control.old }
    ensures { IsPassOf log.now control.new }
{
    let mut defs = Defs::new(rt.alloc());
    let Ok(start) = Instant::now(rt) else {
        drop(defs);
        return None;
    };
    let answer = scanned::<Brand, Brand>(
        rt.alloc(),
        Blank::new(1),
        Blank::new(1),
        log,
        control,
        &mut defs,
        ask,
    );
    let took = start.elapsed(rt);
    drop(defs);
    let rows = rows_in(answer)?;
    match took {
        Ok(took) => Some(Timed {
            rows,
            nanoseconds: took.as_nanos(),
        }),
        Err(_) => None,
    }
}

/// What a scan answers, with counters of two blanks.
fn scanned<P: Ledger, L: Ledger>(
    alloc: Global,
    parses: Blank,
    loads: Blank,
    log: &Log,
    control: &mut Pass,
    defs: &mut Defs,
    ask: &Ask,
) -> Result<Answer, ScanRefusal>
    requires parses { IsBlankOf P.name P.parts parses }
    requires loads { IsBlankOf L.name L.parts loads }
    requires pass { IsPassOf log.now control.old }
    requires defs { IsDefsOf (view control.old) defs.old }
    ensures { IsPassOf log.now control.new }
{
    let mut parses = Steps::<P>::new(parses);
    let mut loads = Steps::<L>::new(loads);
    scan(alloc, log, control, defs, ask, &mut parses, &mut loads)
}

/// How many rows an answer has, if there is one.
pub fn rows_in(answer: Result<Answer, ScanRefusal>) -> Option<u64> {
    match answer {
        Ok(answer) => {
            let rows = answer.rows.len() as u64;
            drop(answer);
            Some(rows)
        }
        Err(_) => None,
    }
}
