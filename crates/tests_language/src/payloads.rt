//! Payloads of both forms, counted as they are read, with what is told of them worked out by hand.

ghost use Rattle.std.specs.Prelude.{◌≡◌, ◌<◌};
ghost use Rattle.fish_psf.specs.Blanks.{IsBlankOf};

use crate::expecting::expect_all;
use crate::sources::definition;
use fish_psf::{ActiveDef, Keys, PsfRefusal, Record, Steps, keys, parse};
use fish_value::{Form, print_value};
use std::alloc::{AllocError, Global};
use std::marker::Brand;
use std::sync::ledger::{Blank, Ledger};
use std::test::Fail;

const NO_RECORD: &str = "no record of its form";

const TOO_LONG: &str = "a record has at most 524288 bytes";

/// Ids and definitions.
const DEFINITIONS: &[(u16, &str)] = &[
    (3, "take $1"),
    (4, "take $2"),
    (5, "take $3 when $1 = \"a\""),
    (9, "flag when $2 starts \"x\""),
    (11, "each tags"),
    (12, "each tags when $1 = 1"),
];

/// A form, a payload, and what is told of it: its values by id, or why it is refused.
const PAYLOADS: &[((Form, &str), &str)] = &[
    (
        (Form::Csv, "a,\"x,1\",007"),
        "3 \"a\";4 \"x,1\";5 \"007\";9 true;",
    ),
    ((Form::Csv, "12,-3"), "3 12;4 -3;"),
    ((Form::Csv, "b,,0"), "3 \"b\";4 \"\";"),
    ((Form::Csv, "\"a\"\"b\""), "3 \"a\\\"b\";"),
    ((Form::Csv, "a\nb"), NO_RECORD),
    (
        (Form::Json, "{\"$1\":1,\"$2\":\"x\"}"),
        "3 1;4 \"x\";9 true;",
    ),
    // An entry for each value, those of one id in the order of their first places.
    (
        (Form::Json, "{\"$1\":1,\"tags\":[\"b\",\"a\",\"b\",null,7]}"),
        "3 1;11 \"b\";11 \"a\";11 7;12 \"b\";12 \"a\";12 7;",
    ),
    (
        (Form::Json, "{\"tags\":[9,8,7,6,5,4,3,2,1],\"$2\":\"x\"}"),
        "4 \"x\";9 true;11 9;11 8;11 7;11 6;11 5;11 4;11 3;11 2;",
    ),
    ((Form::Json, "{\"tags\":\"a\"}"), ""),
    ((Form::Json, "[1]"), NO_RECORD),
    ((Form::Json, "{"), NO_RECORD),
];

/// The same of bytes that are no text.
const BYTES: &[((Form, &[u8]), &str)] = &[((Form::Csv, b"a,\xff"), NO_RECORD)];

/// A form, what a payload begins and ends with, how many bytes it has, and what is told of it.
const LONG: &[((Form, &str, &str, usize), &str)] = &[
    ((Form::Csv, "7,", "", 524_288), "3 7;9 true;"),
    ((Form::Csv, "7,", "", 524_289), TOO_LONG),
    (
        (Form::Json, "{\"$1\":7,\"$2\":\"", "\"}", 524_288),
        "3 7;9 true;",
    ),
    (
        (Form::Json, "{\"$1\":7,\"$2\":\"", "\"}", 524_289),
        TOO_LONG,
    ),
    ((Form::Json, "", "", 524_288), NO_RECORD),
    ((Form::Json, "", "", 524_289), TOO_LONG),
];

fn active(alloc: Global) -> Result<Vec<ActiveDef>, AllocError> {
    let mut defs = Vec::new(alloc);
    for &(id, source) in DEFINITIONS {
        let def = definition(alloc, source)?;
        defs.push(ActiveDef { id, def })?;
    }
    Ok(defs)
}

/// The values of a record by their ids, as a text.
fn values_of(alloc: Global, found: &Keys) -> Result<String, AllocError> {
    let mut text = String::new(alloc);
    for key in found.as_slice() {
        let value = print_value(alloc, &key.value)?;
        let told = format!(in alloc; "{} {};", key.id, value.as_str())?;
        text.push_str(told.as_str())?;
    }
    Ok(text)
}

fn keys_told(alloc: Global, defs: &[ActiveDef], record: &Record) -> Result<String, AllocError> {
    let found = keys(alloc, defs, record)?;
    let told = values_of(alloc, &found);
    drop(found);
    told
}

/// What a payload of a form is.
fn told<P: Ledger>(
    alloc: Global,
    blank: Blank,
    form: Form,
    payload: &[u8],
    defs: &[ActiveDef],
) -> Result<String, AllocError>
    requires blank { IsBlankOf P.name P.parts blank }
{
    let mut parses = Steps::<P>::new(blank);
    match parse(alloc, form, payload, &mut parses) {
        Ok(record) => {
            let told = keys_told(alloc, defs, &record);
            drop(record);
            told
        }
        Err(refusal) => refusal_text(alloc, refusal),
    }
}

/// The same with a counter of its own.
fn told_once(alloc: Global, form: Form, payload: &[u8]) -> Result<String, AllocError> {
    let defs = active(alloc)?;
    let told = told::<Brand>(alloc, Blank::new(1), form, payload, defs.as_slice());
    drop(defs);
    told
}

fn refusal_text(alloc: Global, refusal: PsfRefusal) -> Result<String, AllocError> {
    format!(in alloc; "{refusal}")
}

/// A payload of so many bytes, filled with `x`.
fn long_payload(alloc: Global, front: &str, end: &str, len: usize) -> Result<String, AllocError> {
    let mut payload = String::from_str(alloc, front)?;
    for _ in 0..len.saturating_sub(front.len() + end.len()) {
        payload.push('x')?;
    }
    payload.push_str(end)?;
    Ok(payload)
}

fn text_told(alloc: Global, case: &(Form, &str)) -> Result<String, AllocError> {
    told_once(alloc, case.0, case.1.as_bytes())
}

fn bytes_told(alloc: Global, case: &(Form, &[u8])) -> Result<String, AllocError> {
    told_once(alloc, case.0, case.1)
}

fn long_told(alloc: Global, case: &(Form, &str, &str, usize)) -> Result<String, AllocError> {
    let payload = long_payload(alloc, case.1, case.2, case.3)?;
    told_once(alloc, case.0, payload.as_bytes())
}

#[test]
fn payloads_of_both_forms(rt: HostRuntime) -> Result<(), Fail> {
    expect_all(&rt, rt.alloc(), PAYLOADS, text_told)?;
    expect_all(&rt, rt.alloc(), BYTES, bytes_told)?;
    expect_all(&rt, rt.alloc(), LONG, long_told)?;
    Ok(())
}
