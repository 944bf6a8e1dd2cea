//! Scans number by number, beside the selection of the same records in memory.

ghost use Rattle.std.specs.Prelude.{◌≡◌, ◌<◌};
ghost use Rattle.fish_psf.specs.Blanks.{IsBlankOf};
ghost use Rattle.fish_rule.specs.Passes.{IsPassOf};

use crate::definitions::Sources;
use crate::ingests::SHAPE;
use crate::lanes::report;
use crate::scans::{Filled, Timed, fill_log, time_scan};
use fish_lang::{Def, parse_def};
use fish_psf::{Steps, gives};
use fish_read::RecordReader;
use fish_rule::{Log, Pass};
use fish_scan::How;
use fish_value::{Form, Row, Rows, Text, Value};
use fish_walk::settle;
use std::alloc::{AllocError, Global};
use std::io::Eprint;
use std::marker::Brand;
use std::sync::ledger::{Blank, Ledger};
use std::time::{Clock, Instant};

/// The one definition over events.
const EVENTS: Sources = &[("type", "take type")];

/// Types of events, about one in a hundred and one in two, and the words of the lines for each.
const TYPES: &[(&str, &str, &str)] = &[
    ("ReleaseEvent", "full", "select"),
    ("PushEvent", "full_half", "select_half"),
];

/// A log of the payloads: scans that read all of them, and selections from the payloads in memory.
pub fn measure_full<R: Clock + AllocGlobal + Eprint>(
    rt: &R,
    payloads: &[Text],
) -> Result<(), AllocError> {
    let Filled { log, mut control } = fill_log(rt.alloc(), SHAPE, EVENTS, payloads)?;
    let measured = time_full(rt, &log, &mut control, payloads);
    drop((log, control));
    measured
}

/// Times both for each type. They give as many rows, or something is wrong.
fn time_full<R: Clock + AllocGlobal + Eprint>(
    rt: &R,
    log: &Log,
    control: &mut Pass,
    payloads: &[Text],
) -> Result<(), AllocError>
    requires { IsPassOf log.now control.old }
{
    let bytes = bytes_of(payloads);
    settle(log, control);
    for &(kind, full, select) in TYPES {
        let (scanned, selected) = time_type(rt, log, control, payloads, kind)?;
        report(rt, full, 1, scanned.nanoseconds, bytes, "bytes");
        report(rt, select, 1, selected.nanoseconds, bytes, "bytes");
    }
    Ok(())
}

/// Times both for a type.
fn time_type<R: Clock + AllocGlobal>(
    rt: &R,
    log: &Log,
    control: &mut Pass,
    payloads: &[Text],
    kind: &str,
) -> Result<(Timed, Timed), AllocError>
    requires { IsPassOf log.now control.old }
    ensures { IsPassOf log.now control.new }
{
    let value = Value::Text(Text::copy_of(rt.alloc(), kind)?);
    let scanned = time_scan(rt, log, control, "type", value, How::Full)?;
    let selected = time_select(rt, kind, payloads)?;
    if scanned.rows != selected.rows {
        return Err(AllocError);
    }
    Ok((scanned, selected))
}

/// How many bytes payloads have.
pub fn bytes_of(payloads: &[Text]) -> u64 {
    let mut bytes = 0u64;
    for payload in payloads {
        bytes = bytes.saturating_add(payload.as_bytes().len() as u64);
    }
    bytes
}

/// Times the selection of a type of events.
pub fn time_select<R: Clock + AllocGlobal>(
    rt: &R,
    kind: &str,
    payloads: &[Text],
) -> Result<Timed, AllocError> {
    let def = taken_type(rt.alloc())?;
    let timed = time_taken(rt, &def, kind, payloads);
    drop(def);
    timed
}

/// The same by a definition.
fn time_taken<R: Clock + AllocGlobal>(
    rt: &R,
    def: &Def,
    kind: &str,
    payloads: &[Text],
) -> Result<Timed, AllocError> {
    let value = Value::Text(Text::copy_of(rt.alloc(), kind)?);
    let timed = time_rows(rt, def, &value, payloads);
    drop(value);
    match timed {
        Some(timed) => Ok(timed),
        None => Err(AllocError),
    }
}

/// The same of a value.
fn time_rows<R: Clock + AllocGlobal>(
    rt: &R,
    def: &Def,
    value: &Value,
    payloads: &[Text],
) -> Option<Timed> {
    let Ok(start) = Instant::now(rt) else {
        return None;
    };
    let rows = select_all::<Brand>(rt.alloc(), Blank::new(1), def, value, payloads);
    let took = start.elapsed(rt);
    let rows = count_of(rows)?;
    match took {
        Ok(took) => Some(Timed {
            rows,
            nanoseconds: took.as_nanos(),
        }),
        Err(_) => None,
    }
}

/// How many rows there are, if memory didn't run out.
fn count_of(rows: Result<Rows, AllocError>) -> Option<u64> {
    match rows {
        Ok(rows) => {
            let count = rows.len() as u64;
            drop(rows);
            Some(count)
        }
        Err(_) => None,
    }
}

/// The definition over events.
fn taken_type(alloc: Global) -> Result<Def, AllocError> {
    match parse_def(alloc, b"take type") {
        Ok(def) => Ok(def),
        Err(_) => Err(AllocError),
    }
}

/// The payloads for which a definition gives a value, as `select` finds them: each is read once, by one reader. The
/// counter is of a blank.
fn select_all<P: Ledger>(
    alloc: Global,
    blank: Blank,
    def: &Def,
    value: &Value,
    payloads: &[Text],
) -> Result<Rows, AllocError>
    requires blank { IsBlankOf P.name P.parts blank }
{
    let mut steps = Steps::<P>::new(blank);
    let mut reader = RecordReader::new(alloc);
    let mut rows = Rows::new(alloc);
    let done = add_selected(
        alloc,
        &mut reader,
        def,
        value,
        payloads,
        &mut rows,
        &mut steps,
    );
    drop(reader);
    match done {
        Ok(()) => Ok(rows),
        Err(error) => {
            drop(rows);
            Err(error)
        }
    }
}

/// Puts them after the rows.
fn add_selected<P: Ledger>(
    alloc: Global,
    reader: &mut RecordReader,
    def: &Def,
    value: &Value,
    payloads: &[Text],
    rows: &mut Rows,
    steps: &mut Steps<P>,
) -> Result<(), AllocError> {
    let mut number = 0u32;
    for payload in payloads {
        if has_value(alloc, reader, def, value, payload, steps)? {
            push_row(alloc, rows, number, payload)?;
        }
        number = number.saturating_add(1);
    }
    Ok(())
}

/// Whether a definition gives a value for a payload.
fn has_value<P: Ledger>(
    alloc: Global,
    reader: &mut RecordReader,
    def: &Def,
    value: &Value,
    payload: &Text,
    steps: &mut Steps<P>,
) -> Result<bool, AllocError> {
    match reader.read(alloc, Form::Json, payload.as_bytes(), steps) {
        Ok(row) => {
            let has = gives(alloc, def, &row, value);
            drop(row);
            has
        }
        Err(_) => Ok(false),
    }
}

/// Puts a payload after the rows.
fn push_row(alloc: Global, rows: &mut Rows, number: u32, payload: &Text) -> Result<(), AllocError> {
    let payload = payload.again(alloc)?;
    rows.push(Row { number, payload })
}
