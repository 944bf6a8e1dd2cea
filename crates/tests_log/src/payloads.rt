//! Payloads of both forms, with key entries that are worked out by hand, and the words of one record
//! that another program packed by the table of bits.

ghost use Rattle.std.specs.Prelude.{All, IfOk, IsTrue};
ghost use Rattle.fish_ingest.specs.Preparation.{AreDefs};
ghost use Rattle.fish_ingest.specs.Preparation.{IsOrigin};
ghost use Rattle.fish_rule.specs.Keys.{IsWritten};

use crate::cause::Cause;
use crate::expecting::{expect, expect_text};
use crate::flights::prepared;
use crate::logs::parsed;
use fish_catalog::MAX_ACTIVE;
use fish_ingest::{IngestRefusal, Origin, Prepared};
use fish_lang::LangRefusal;
use fish_layout::{BodyParts, KeyPart, MAX_PAYLOAD, read_body};
use fish_psf::ActiveDef;
use fish_value::{Form, print_value};
use std::alloc::{AllocError, Global};
use std::fmt::Write;
use std::process::Abort;
use std::test::Fail;

/// The first lane, with JSON, and the greatest lane and version, with CSV.
const JSON: Origin = Origin {
    lane: 1,
    version: 0,
    form: Form::Json,
};

const CSV: Origin = Origin {
    lane: 16,
    version: 512,
    form: Form::Csv,
};

/// A payload with its form, and what is told of it.
type Case = (Form, &'static str, &'static str);

const CASES: &[Case] = &[
    (
        Form::Json,
        "{\"type\":\"PushEvent\",\"payload\":{\"size\":27}}",
        "1 0 0;0 \"PushEvent\" 0;3 20 0;7 true 0;",
    ),
    (
        Form::Json,
        "{\"payload\":{\"size\":-1},\"$2\":\"x\"}",
        "1 0 0;3 -10 0;255 \"x\" 0;",
    ),
    (Form::Csv, "PushEvent,12", "16 512 0;255 12 0;"),
    (Form::Json, "[1]", "no record of its form"),
    (Form::Csv, "a\nb", "no record of its form"),
];

/// What is told of a payload of one byte too many, in either form.
const TOO_LONG: &str = "a record has at most 524288 bytes";

/// A text of two bytes under id 0 and the number 20 under id 3, in lane 2.
const WORDS: &[u64] = &[
    0x8c00_1008_0004,
    0,
    0,
    0xa,
    0,
    0x10_3000_0000,
    0x1021,
    0x14_6948,
    0,
    0x3a22_6570_7974_227b,
    0x6170_222c_2269_4822,
    0x7b3a_2264_616f_6c79,
    0x323a_2265_7a69_7322,
    0x7d_7d37,
    0,
    0,
];

/// Whether definitions may be active together.
fn are_defs(defs: &[ActiveDef]) -> bool
    requires written { All IsWritten defs.now }
    ensures { IsTrue result → AreDefs defs.now }
{
    if defs.len() > MAX_ACTIVE {
        return false;
    }
    let mut least = 0;
    for active in defs {
        if active.id < least || active.id >= 256 {
            return false;
        }
        least = active.id + 1;
    }
    true
}

/// Definitions by id, with gaps between the ids.
const DEFINITIONS: &[(u16, &str)] = &[
    (0, "take type"),
    (3, "bucket payload.size by 10"),
    (7, "flag when type = \"PushEvent\""),
    (255, "take $2"),
];

/// Adds a definition under an id.
fn push_def(
    alloc: Global,
    defs: &mut Vec<ActiveDef>,
    id: u16,
    source: &str,
) -> Result<(), LangRefusal>
    requires written { All IsWritten defs.old.items }
    ensures written { All IsWritten defs.new.items }
{
    let (def, text) = parsed(alloc, source)?;
    drop(text);
    match defs.push(ActiveDef { id, def }) {
        Ok(()) => Ok(()),
        Err(error) => Err(LangRefusal::from(AllocError::from(error))),
    }
}

/// Adds the definitions.
fn push_defs(alloc: Global, defs: &mut Vec<ActiveDef>) -> Result<(), LangRefusal>
    requires written { All IsWritten defs.old.items }
    ensures written { All IsWritten defs.new.items }
{
    for &(id, source) in DEFINITIONS {
        push_def(alloc, defs, id, source)?;
    }
    Ok(())
}

/// The record that a payload is under the definitions.
fn prepared_by_four(
    alloc: Global,
    origin: Origin,
    payload: &[u8],
) -> Result<Prepared, IngestRefusal>
    requires { IsOrigin origin }
{
    let mut defs = Vec::new(alloc);
    let pushed = push_defs(alloc, &mut defs);
    let made = if pushed.is_ok() && are_defs(defs.as_slice()) {
        prepared(alloc, defs.as_slice(), origin, payload)
    } else {
        Err(IngestRefusal::OutOfMemory)
    };
    drop(defs);
    made
}

/// Parts as a text: lane, version, number, and the key entries.
fn told(alloc: Global, parts: &BodyParts) -> Result<String, Cause> {
    let (lane, version, number) = (parts.lane, parts.version, parts.number);
    let mut text = format!(in alloc; "{lane} {version} {number};")?;
    for key in parts.keys.as_slice() {
        push_key(alloc, key, &mut text)?;
    }
    Ok(text)
}

/// A key entry as a text after others: id, value, and the place of the previous one.
fn push_key(alloc: Global, key: &KeyPart, text: &mut String) -> Result<(), Cause> {
    let value = print_value(alloc, &key.value)?;
    Ok(write!(text, "{} {} {};", key.id, value.as_str(), key.prev)?)
}

/// The parts that words say, as a text, where they have this form and payload.
fn told_of_words(
    alloc: Global,
    words: &[u64],
    form: Form,
    payload: &[u8],
) -> Result<String, Cause> {
    let Some(parts) = read_body(alloc, words)? else {
        return Err(Cause("no record"));
    };
    if parts.form != form || parts.payload.as_bytes() != payload {
        drop(parts);
        return Err(Cause("another form or payload"));
    }
    let text = told(alloc, &parts);
    drop(parts);
    text
}

/// What a payload is: how it is refused, or the parts that its words say, as a text.
fn read_back(alloc: Global, form: Form, payload: &[u8]) -> Result<String, Cause> {
    let origin = match form {
        Form::Json => JSON,
        Form::Csv => CSV,
    };
    match prepared_by_four(alloc, origin, payload) {
        Ok(prepared) => {
            let text = told_of_words(alloc, prepared.words(), form, payload);
            drop(prepared);
            text
        }
        Err(refusal) => Ok(format!(in alloc; "{refusal}")?),
    }
}

/// Asserts what is told of a payload.
fn expect_told<R: Abort>(
    rt: &R,
    alloc: Global,
    form: Form,
    payload: &[u8],
    want: &str,
) -> Result<(), Cause> {
    let text = read_back(alloc, form, payload)?;
    expect_text(rt, "a payload", text.as_str(), want);
    Ok(())
}

#[test]
fn payloads(rt: HostRuntime) -> Result<(), Fail> {
    for &(form, payload, want) in CASES {
        expect_told(&rt, rt.alloc(), form, payload.as_bytes(), want)?;
    }
    Ok(())
}

#[test]
fn too_long(rt: HostRuntime) -> Result<(), Fail> {
    let alloc = rt.alloc();
    let payload = vec![in alloc; b'x'; MAX_PAYLOAD + 1]?;
    for &form in &[Form::Json, Form::Csv] {
        expect_told(&rt, alloc, form, payload.as_slice(), TOO_LONG)?;
    }
    Ok(())
}

#[test]
fn words(rt: HostRuntime) -> Result<(), Fail> {
    let origin = Origin {
        lane: 2,
        version: 0,
        form: Form::Json,
    };
    let payload = b"{\"type\":\"Hi\",\"payload\":{\"size\":27}}";
    match prepared_by_four(rt.alloc(), origin, payload) {
        Ok(prepared) => {
            let same = prepared.words() == WORDS;
            drop(prepared);
            expect(&rt, "the words", &same, &true);
            Ok(())
        }
        Err(_) => Err(Fail::new("refused")),
    }
}

#[test]
fn longest(rt: HostRuntime) -> Result<(), Fail> {
    let alloc = rt.alloc();
    let payload = vec![in alloc; b'x'; MAX_PAYLOAD]?;
    match prepared_by_four(alloc, CSV, payload.as_slice()) {
        Ok(prepared) => {
            // a header, 65,536 words of payload, and the padding
            let words = prepared.words().len();
            drop(prepared);
            expect(&rt, "words", &words, &65_540);
            Ok(())
        }
        Err(_) => Err(Fail::new("refused")),
    }
}
