//! The readers over a tape against the tree of `serde_json`: of the same payloads they tell the same.
//! The payloads are made from a seed, so that a failure comes again.

ghost use Rattle.std.specs.Prelude.{◌≡◌, ◌<◌};
ghost use Rattle.fish_psf.specs.Blanks.{IsBlankOf};

use crate::expecting::expect;
use crate::json_payloads::{Seeded, change_byte, nested, object};
use crate::told::{field_at, items_at, path_of};
use fish_json::{JsonReader, JsonRecord};
use fish_psf::{Parsed, Steps};
use fish_read::RecordReader;
use fish_value::{Form, Path};
use std::alloc::{AllocError, Global};
use std::marker::Brand;
use std::sync::ledger::{Blank, Ledger};
use std::test::Fail;

/// The paths that records are asked for.
const PATHS: &[&str] = &[
    "a", "b", "a.a", "a.b", "b.a", "a.a.a", "", "a b", "é", "😀", "a\n",
];

/// How many objects are made, and how many changes to each.
const OBJECTS: u64 = 48;

const CHANGES: u64 = 40;

/// The readers over a tape, of a line in JSON and of a payload of either form, and the paths.
#[derive(Drop)]
struct Readers<P: Ledger> {
    line: JsonReader,
    payload: RecordReader,
    parses: Steps<P>,
    paths: Vec<Path>,
}

fn all_paths(alloc: Global) -> Result<Vec<Path>, AllocError> {
    let mut paths = Vec::new(alloc);
    for &names in PATHS {
        paths.push(path_of(alloc, names)?)?;
    }
    Ok(paths)
}

/// What a record has at each path, and the elements of an array there.
fn fields_of<R: Parsed>(alloc: Global, rec: &R, paths: &[Path]) -> Result<String, AllocError> {
    let mut told = String::new(alloc);
    for path in paths {
        let field = field_at(alloc, rec, path)?;
        told.push_str(field.as_str())?;
        let items = items_at(alloc, rec, path)?;
        told.push_str(items.as_str())?;
        told.push('|')?;
    }
    Ok(told)
}

/// What the tree tells of a payload: its fields, or why it is refused.
fn by_tree(alloc: Global, b: &[u8], paths: &[Path]) -> Result<String, AllocError> {
    match JsonRecord::read(alloc, b) {
        Ok(record) => {
            let told = fields_of(alloc, &record, paths);
            drop(record);
            told
        }
        Err(refusal) => format!(in alloc; "{refusal}"),
    }
}

/// What the tape tells of it.
fn by_tape(
    alloc: Global,
    reader: &mut JsonReader,
    b: &[u8],
    paths: &[Path],
) -> Result<String, AllocError> {
    match reader.read(alloc, b) {
        Ok(row) => {
            let told = fields_of(alloc, &row, paths);
            drop(row);
            told
        }
        Err(refusal) => format!(in alloc; "{refusal}"),
    }
}

/// What the reader of both forms tells of it.
fn by_form<P: Ledger>(
    alloc: Global,
    reader: &mut RecordReader,
    parses: &mut Steps<P>,
    b: &[u8],
    paths: &[Path],
) -> Result<String, AllocError> {
    match reader.read(alloc, Form::Json, b, parses) {
        Ok(row) => {
            let told = fields_of(alloc, &row, paths);
            drop(row);
            told
        }
        Err(refusal) => format!(in alloc; "{refusal}"),
    }
}

fn is_refusal(told: &str) -> bool {
    told == "no JSON in UTF-8" || told == "JSON, but no object"
}

/// What the reader of both forms is to tell where the tree tells this: it has one refusal for two.
fn of_any_form(told: &str) -> &str {
    if is_refusal(told) {
        "no record of its form"
    } else {
        told
    }
}

/// What a payload is by all of them: a record or none, or which of them differs from the tree.
fn kind_of<P: Ledger>(
    alloc: Global,
    readers: &mut Readers<P>,
    b: &[u8],
) -> Result<&'static str, AllocError> {
    let paths = readers.paths.as_slice();
    let tree = by_tree(alloc, b, paths)?;
    let tape = by_tape(alloc, &mut readers.line, b, paths)?;
    let row = by_form(alloc, &mut readers.payload, &mut readers.parses, b, paths)?;
    if tape.as_str() != tree.as_str() {
        return Ok("the tape differs");
    }
    if row.as_str() != of_any_form(tree.as_str()) {
        return Ok("the row differs");
    }
    Ok(if is_refusal(tree.as_str()) {
        "none"
    } else {
        "a record"
    })
}

/// Puts a payload into a report where it is another kind than what is wanted.
fn report_other<P: Ledger>(
    alloc: Global,
    readers: &mut Readers<P>,
    report: &mut String,
    b: &[u8],
    want: &str,
) -> Result<(), AllocError> {
    let kind = kind_of(alloc, readers, b)?;
    if kind == want {
        return Ok(());
    }
    let told = format!(in alloc; "{kind}: {b:?}; ")?;
    report.push_str(told.as_str())
}

/// Reports of an object, which is a record, and of its beginnings, which are none.
fn report_parts<P: Ledger>(
    alloc: Global,
    readers: &mut Readers<P>,
    report: &mut String,
    b: &[u8],
) -> Result<(), AllocError> {
    for end in 0..b.len() {
        let (front, _) = b.split_at(end);
        report_other(alloc, readers, report, front, "none")?;
    }
    report_other(alloc, readers, report, b, "a record")
}

/// Reports of an object with another byte at one place, again and again, and counts those that are
/// records.
fn report_changed<P: Ledger>(
    alloc: Global,
    readers: &mut Readers<P>,
    report: &mut String,
    b: &[u8],
    seeded: &mut Seeded,
) -> Result<u64, AllocError> {
    let mut records = 0u64;
    for _ in 0..CHANGES {
        let mut changed = b.to_vec(alloc)?;
        change_byte(seeded, &mut changed);
        if kind_of(alloc, readers, changed.as_slice())? == "a record" {
            records = records.saturating_add(1);
        } else {
            report_other(alloc, readers, report, changed.as_slice(), "none")?;
        }
    }
    Ok(records)
}

/// Reports of all payloads of a seed.
fn report_seed<P: Ledger>(
    alloc: Global,
    readers: &mut Readers<P>,
    report: &mut String,
    seed: u64,
) -> Result<(), AllocError> {
    let mut seeded = Seeded::new(seed);
    let mut records = 0u64;
    for _ in 0..OBJECTS {
        let text = object(alloc, &mut seeded)?;
        report_parts(alloc, readers, report, text.as_bytes())?;
        let changed = report_changed(alloc, readers, report, text.as_bytes(), &mut seeded)?;
        records = records.saturating_add(changed);
    }
    // Of the changed ones some are records and some are none, or the seed is a poor one.
    if records == 0 || records >= OBJECTS * CHANGES {
        report.push_str("a poor seed; ")?;
    }
    Ok(())
}

/// Values in one another, and what they are.
const DEPTHS: &[(usize, &str)] = &[(126, "a record"), (127, "a record"), (128, "none")];

/// Arrays alone, objects alone, and both.
const KINDS: &[u64] = &[0, u64::MAX, 0xaaaa_aaaa_aaaa_aaaa, 0x1234_5678_9abc_def0];

/// Reports of payloads that nest so deep.
fn report_nested<P: Ledger>(
    alloc: Global,
    readers: &mut Readers<P>,
    report: &mut String,
    depth: usize,
    want: &str,
) -> Result<(), AllocError> {
    for kinds in KINDS {
        let text = nested(alloc, depth, *kinds)?;
        report_other(alloc, readers, report, text.as_bytes(), want)?;
    }
    Ok(())
}

/// Reports of all payloads.
fn report_all<P: Ledger>(
    alloc: Global,
    readers: &mut Readers<P>,
    report: &mut String,
) -> Result<(), AllocError> {
    for &(depth, want) in DEPTHS {
        report_nested(alloc, readers, report, depth, want)?;
    }
    for seed in 1..3 {
        report_seed(alloc, readers, report, seed)?;
    }
    Ok(())
}

/// The report of all payloads, by readers that are made for it.
fn reported<P: Ledger>(alloc: Global, blank: Blank, paths: Vec<Path>) -> Result<String, AllocError>
    requires blank { IsBlankOf P.name P.parts blank }
{
    let mut report = String::new(alloc);
    let mut readers = Readers::<P> {
        line: JsonReader::new(alloc),
        payload: RecordReader::new(alloc),
        parses: Steps::new(blank),
        paths,
    };
    let done = report_all(alloc, &mut readers, &mut report);
    drop(readers);
    done?;
    Ok(report)
}

#[test]
fn payloads_of_a_seed(rt: HostRuntime) -> Result<(), Fail> {
    let paths = all_paths(rt.alloc())?;
    let report = reported::<Brand>(rt.alloc(), Blank::new(1), paths)?;
    expect(&rt, report.as_str(), "");
    Ok(())
}
