//! Lanes as tables tell them: what each is to do, and the records that a lane makes for itself.

ghost use Rattle.std.specs.Prelude.{◌≡◌, ◌≤◌, [], All, IfOk, OnOk, length};
ghost use Rattle.fish_lanes.specs.Blocks.{AreLanes};
ghost use Rattle.fish_lanes.specs.Running.{IsShared};
ghost use Rattle.tests_lanes.specs.Blocks.{IsAllowed, IsMade};

use fish_lanes::{Lane, Work, Works};
use fish_lines::Begin;
use fish_scan::How;
use fish_value::{Bytes, Form, Text};
use std::alloc::{AllocError, Global};
use std::fmt::Write;
use tests_log::{Cause, Question, Wanted, ask_of, name_of, parsed};

/// A statement of a table.
#[derive(Clone, Copy)]
pub(crate) enum Plain {
    /// Register a definition of a name and a source. The first lane alone may.
    Register(&'static str, &'static str),
    /// End the definition with a name. The first lane alone may.
    Deregister(&'static str),
    /// Store the lines of a file, whose name is `lines`.
    Lines(&'static str),
    /// Store the rows of a file after its header, whose name is `rows`.
    Rows(&'static str),
    /// Store records of the lane: the place of the first, how many, and how many words each has.
    Records(usize, usize, usize),
    /// Find the records on which the definition of a name has a value.
    Scan(&'static str, &'static str),
    /// Tell how they would be found by the index alone from a number on, below another.
    Explain(&'static str, u32, u32),
    /// Commit what is stored. The first lane alone may.
    Checkpoint,
}

/// What a lane is to do.
pub(crate) type Script = &'static [Plain];

/// Writes the record of a lane at a place. All records with as many words are equally long.
fn write_record(
    text: &mut String,
    lane: u8,
    position: usize,
    words: usize,
) -> Result<(), AllocError> {
    let (kind, position) = (position % 3, 10_000 + position % 10_000);
    write!(
        text,
        "{{\"kind\":\"k{kind}\",\"lane\":{lane},\"place\":{position},\"text\":\""
    )?;
    for _ in 0..words {
        text.push_str(" word")?;
    }
    text.push_str("\"}")
}

/// That record.
pub(crate) fn record_of(
    alloc: Global,
    lane: u8,
    position: usize,
    words: usize,
) -> Result<Text, AllocError> {
    let mut text = String::new(alloc);
    match write_record(&mut text, lane, position, words) {
        Ok(()) => Ok(Text::from_string(text)),
        Err(error) => {
            drop(text);
            Err(error)
        }
    }
}

/// Puts records of a lane after a file, a line each.
fn push_records(
    file: &mut Bytes,
    alloc: Global,
    lane: u8,
    first: usize,
    count: usize,
    words: usize,
) -> Result<(), AllocError> {
    for i in 0..count {
        let record = record_of(alloc, lane, first.wrapping_add(i), words)?;
        let pushed = file.append(record.as_bytes());
        drop(record);
        pushed?;
        file.append(b"\n")?;
    }
    Ok(())
}

/// The statement that stores a file.
fn ingest_of(alloc: Global, form: Form, name: &str, file: Bytes) -> Result<Work, AllocError>
    ensures { IfOk result IsShared }
{
    match Text::copy_of(alloc, name) {
        Ok(name) => Ok(Work::Ingest {
            form,
            begin: Begin::Start {
                header: form == Form::Csv,
            },
            name,
            file,
        }),
        Err(error) => {
            drop(file);
            Err(error)
        }
    }
}

/// The statement that stores records of a lane.
fn records_of(
    alloc: Global,
    lane: u8,
    first: usize,
    count: usize,
    words: usize,
) -> Result<Work, AllocError>
    ensures { IfOk result IsShared }
{
    let mut file = Bytes::new(alloc);
    match push_records(&mut file, alloc, lane, first, count, words) {
        Ok(()) => ingest_of(alloc, Form::Json, "records", file),
        Err(error) => {
            drop(file);
            Err(error)
        }
    }
}

/// The statement that registers a definition.
fn register_of(alloc: Global, lane: u8, name: &str, source: &str) -> Result<Work, Cause>
    ensures { IfOk result (IsAllowed lane) }
{
    if lane > 1 {
        return Err(Cause("another lane registers"));
    }
    let name = name_of(alloc, name)?;
    let (def, text) = parsed(alloc, source)?;
    drop(text);
    Ok(Work::Register { name, def })
}

/// The statement that ends the definition with a name.
fn deregister_of(alloc: Global, lane: u8, name: &str) -> Result<Work, Cause>
    ensures { IfOk result (IsAllowed lane) }
{
    if lane > 1 {
        return Err(Cause("another lane ends one"));
    }
    Ok(Work::Deregister {
        name: Text::copy_of(alloc, name)?,
    })
}

/// The statement that commits what is stored.
fn checkpoint_of(lane: u8) -> Result<Work, Cause>
    ensures { IfOk result (IsAllowed lane) }
{
    if lane > 1 {
        return Err(Cause("another lane commits"));
    }
    Ok(Work::Checkpoint)
}

/// A statement of a table that any lane may have.
fn shared_of(alloc: Global, lane: u8, plain: Plain) -> Result<Work, Cause>
    ensures { IfOk result IsShared }
{
    match plain {
        Plain::Register(..) | Plain::Deregister(..) | Plain::Checkpoint => {
            Err(Cause("the first lane's"))
        }
        Plain::Lines(file) => {
            let file = Bytes::copy_of(alloc, file.as_bytes())?;
            Ok(ingest_of(alloc, Form::Json, "lines", file)?)
        }
        Plain::Rows(file) => {
            let file = Bytes::copy_of(alloc, file.as_bytes())?;
            Ok(ingest_of(alloc, Form::Csv, "rows", file)?)
        }
        Plain::Records(first, count, words) => Ok(records_of(alloc, lane, first, count, words)?),
        Plain::Scan(name, value) => Ok(Work::Scan {
            ask: ask_of(
                alloc,
                Question {
                    name,
                    value: Wanted::Text(value),
                    from: None,
                    to: None,
                    how: How::Auto,
                },
            )?,
        }),
        Plain::Explain(name, from, to) => Ok(Work::Explain {
            ask: ask_of(
                alloc,
                Question {
                    name,
                    value: Wanted::Text(""),
                    from: Some(from),
                    to: Some(to),
                    how: How::Index,
                },
            )?,
        }),
    }
}

/// A statement of a table as one of a lane.
fn work_of(alloc: Global, lane: u8, plain: Plain) -> Result<Work, Cause>
    ensures { IfOk result (IsAllowed lane) }
{
    match plain {
        Plain::Register(name, source) => register_of(alloc, lane, name, source),
        Plain::Deregister(name) => deregister_of(alloc, lane, name),
        Plain::Checkpoint => checkpoint_of(lane),
        _ => shared_of(alloc, lane, plain),
    }
}

/// Puts the statements of a table after others.
fn push_works(alloc: Global, lane: u8, plains: &[Plain], works: &mut Works) -> Result<(), Cause>
    requires { All (IsAllowed lane) works.old }
    ensures { OnOk result (All (IsAllowed lane) works.new) }
{
    for plain in plains {
        let work = work_of(alloc, lane, *plain)?;
        works.push(work)?;
    }
    Ok(())
}

/// The lane with a number and with the statements of a table.
fn lane_of(alloc: Global, number: u8, plains: &[Plain]) -> Result<Lane, Cause>
    ensures { IfOk result (IsMade number) }
{
    let mut lane = Lane::new(alloc, number);
    match push_works(alloc, number, plains, &mut lane.works) {
        Ok(()) => Ok(lane),
        Err(fail) => {
            drop(lane);
            Err(fail)
        }
    }
}

/// Makes the lanes of a block, with numbers from 1 on.
pub(crate) fn push_lanes(
    alloc: Global,
    scripts: &[Script],
    lanes: &mut Vec<Lane>,
) -> Result<(), Cause>
    requires some { 1 ≤ length scripts.now }
    requires few { length scripts.now ≤ 16 }
    requires none { lanes.old.items ≡ [] }
    ensures { OnOk result (AreLanes lanes.new.items) }
{
    for (i, script) in scripts.iter().enumerate() {
        let lane = lane_of(alloc, i as u8 + 1, *script)?;
        lanes.push(lane)?;
    }
    Ok(())
}
