//! Definitions on lines, with values worked out by hand from what each word of the language means.

use crate::expecting::expect_all;
use crate::sources::definition;
use fish_json::{JsonReader, JsonRecord};
use fish_lang::Def;
use fish_psf::{Parsed, Record, holds};
use std::alloc::{AllocError, Global};
use std::test::Fail;
use tests_values::{agreed, values_text};

/// Definitions, lines, and the values that are wanted.
const VALUES: &[((&str, &str), &str)] = &[
    // The value at a path.
    (("take a", "{\"a\":false}"), "false"),
    (("take a", "{\"a\":-7}"), "int -7"),
    (("take a", "{\"a\":\"\\u00e9\"}"), "text é"),
    (("take a", "{\"a\":\"\"}"), "text "),
    (("take a", "{\"a\":null}"), "none"),
    (("take a", "{\"a\":1.5}"), "none"),
    (("take a", "{\"a\":[1]}"), "none"),
    (("take a", "{\"b\":1}"), "none"),
    (
        ("take a.b.\"c d\"", "{\"a\":{\"b\":{\"c d\":1}},\"c d\":2}"),
        "int 1",
    ),
    (("take a.b", "{\"a\":{\"c\":1},\"b\":2}"), "none"),
    (("take a when b = 1", "{\"a\":2,\"b\":1}"), "int 2"),
    (("take a when b = 1", "{\"a\":2,\"b\":2}"), "none"),
    // The values of an array's elements, each once in the order of its first place.
    (
        ("each tags", "{\"tags\":[\"a\",\"b\",\"a\"]}"),
        "text a|text b",
    ),
    (("each tags", "{\"tags\":\"a\"}"), "none"),
    (("each tags", "{\"tags\":[1.5,null,\"b\"]}"), "text b"),
    (("each a", "{\"a\":[]}"), "none"),
    (("each a", "{\"a\":null}"), "none"),
    (("each a", "{\"a\":1}"), "none"),
    (("each a", "{\"a\":{\"b\":[1]}}"), "none"),
    (("each a", "{\"b\":[1]}"), "none"),
    (
        (
            "each a",
            "{\"a\":[[1],{\"a\":1},null,1.5,9223372036854775808]}",
        ),
        "none",
    ),
    (("each a.b", "{\"a\":{\"b\":[2]},\"b\":[1]}"), "int 2"),
    (("each a.b", "{\"a\":[{\"b\":[2]}]}"), "none"),
    (
        ("each a", "{\"a\":[7,\"7\",true,7,true,\"7\"]}"),
        "int 7|text 7|true",
    ),
    (
        ("each a", "{\"a\":[false,0,\"\",-0,0]}"),
        "false|int 0|text ",
    ),
    // The first eight.
    (
        ("each n", "{\"n\":[1,2,3,4,5,6,7,8]}"),
        "int 1|int 2|int 3|int 4|int 5|int 6|int 7|int 8",
    ),
    (
        ("each n", "{\"n\":[1,2,3,4,5,6,7,8,9]}"),
        "int 1|int 2|int 3|int 4|int 5|int 6|int 7|int 8",
    ),
    (
        ("each n", "{\"n\":[9,1,9,null,2,1,3,4,5,9,6,7,8]}"),
        "int 9|int 1|int 2|int 3|int 4|int 5|int 6|int 7",
    ),
    (
        ("each a when b = 1", "{\"a\":[2,3],\"b\":1}"),
        "int 2|int 3",
    ),
    (("each a when b = 1", "{\"a\":[2,3],\"b\":2}"), "none"),
    // Rounding down.
    (("bucket n by 10", "{\"n\":0}"), "int 0"),
    (("bucket n by 10", "{\"n\":9}"), "int 0"),
    (("bucket n by 10", "{\"n\":10}"), "int 10"),
    (("bucket n by 10", "{\"n\":19}"), "int 10"),
    (("bucket n by 10", "{\"n\":-1}"), "int -10"),
    (("bucket n by 10", "{\"n\":-10}"), "int -10"),
    (
        ("bucket n by 1", "{\"n\":-9223372036854775808}"),
        "int -9223372036854775808",
    ),
    (("bucket n by 10", "{\"n\":-9223372036854775808}"), "none"),
    (
        ("bucket n by 10", "{\"n\":-9223372036854775800}"),
        "int -9223372036854775800",
    ),
    (
        (
            "bucket n by 9223372036854775807",
            "{\"n\":9223372036854775806}",
        ),
        "int 0",
    ),
    (
        ("bucket n by 9223372036854775807", "{\"n\":-1}"),
        "int -9223372036854775807",
    ),
    (
        (
            "bucket n by 9223372036854775807",
            "{\"n\":-9223372036854775808}",
        ),
        "none",
    ),
    (("bucket n by 10", "{\"n\":\"9\"}"), "none"),
    (("bucket n by 10", "{\"n\":true}"), "none"),
    (
        ("bucket n by 10 when a exists", "{\"n\":25,\"a\":null}"),
        "int 20",
    ),
    (("bucket n by 10 when a exists", "{\"n\":25}"), "none"),
    // A flag is true or nothing.
    (("flag when a exists", "{\"a\":false}"), "true"),
    (("flag when a exists", "{}"), "none"),
];

/// Conditions, lines, and whether they hold.
const CONDITIONS: &[((&str, &str), &str)] = &[
    (("flag when a = 1", "{\"a\":1}"), "true"),
    (("flag when a = 1", "{\"a\":2}"), "false"),
    (("flag when a = 1", "{\"a\":\"1\"}"), "false"),
    (("flag when a = 1", "{\"a\":1.0}"), "false"),
    (("flag when a = true", "{\"a\":1}"), "false"),
    (("flag when a = \"\"", "{\"a\":null}"), "false"),
    (("flag when a = \"x\"", "{\"a\":\"\\u0078\"}"), "true"),
    (("flag when a != 1", "{\"a\":1}"), "false"),
    (("flag when a != 1", "{\"a\":2}"), "true"),
    (("flag when a != 1", "{\"a\":\"1\"}"), "true"),
    (("flag when a != 1", "{\"a\":null}"), "true"),
    (("flag when a != 1", "{\"a\":[]}"), "true"),
    (("flag when a != 1", "{\"b\":2}"), "false"),
    (("flag when a < 0", "{\"a\":-9223372036854775808}"), "true"),
    (("flag when a < 0", "{\"a\":0}"), "false"),
    (("flag when a <= 0", "{\"a\":0}"), "true"),
    (("flag when a <= 0", "{\"a\":1}"), "false"),
    (("flag when a > 0", "{\"a\":0}"), "false"),
    (("flag when a >= 0", "{\"a\":0}"), "true"),
    (("flag when a >= 0", "{\"a\":-1}"), "false"),
    (("flag when a < 1", "{\"a\":\"0\"}"), "false"),
    (("flag when a >= 1", "{\"a\":null}"), "false"),
    (("flag when a < true", "{\"a\":false}"), "true"),
    (("flag when a >= true", "{\"a\":false}"), "false"),
    (("flag when a < \"b\"", "{\"a\":\"ab\"}"), "true"),
    (("flag when a > \"a\"", "{\"a\":\"ab\"}"), "true"),
    (("flag when a < \"a\"", "{\"a\":\"B\"}"), "true"),
    (("flag when a < \"z\"", "{\"a\":\"é\"}"), "false"),
    // By the bytes U+FFFD comes before U+1F600, by the units of UTF-16 after it.
    (("flag when a < \"😀\"", "{\"a\":\"\\ufffd\"}"), "true"),
    (("flag when a exists", "{\"a\":null}"), "true"),
    (("flag when a exists", "{\"a\":{}}"), "true"),
    (("flag when a.b exists", "{\"a\":{}}"), "false"),
    (("flag when a starts \"ab\"", "{\"a\":\"abc\"}"), "true"),
    (("flag when a starts \"ab\"", "{\"a\":\"a\"}"), "false"),
    (("flag when a starts \"\"", "{\"a\":\"\"}"), "true"),
    (("flag when a starts \"\"", "{\"a\":1}"), "false"),
    (("flag when a starts \"1\"", "{\"a\":12}"), "false"),
    (("flag when not a = 1", "{}"), "true"),
    (("flag when a = 1 and b = 2", "{\"a\":1,\"b\":2}"), "true"),
    (("flag when a = 1 and b = 2", "{\"a\":1,\"b\":3}"), "false"),
    (("flag when a = 1 and b = 2", "{\"a\":3,\"b\":2}"), "false"),
    (("flag when a = 1 or b = 2", "{\"a\":3,\"b\":2}"), "true"),
    (("flag when a = 1 or b = 2", "{\"a\":1}"), "true"),
    (("flag when a = 1 or b = 2", "{\"a\":2,\"b\":1}"), "false"),
];

/// What a definition gives on a record.
fn values_on<R: Parsed>(alloc: Global, def: &Def, rec: &R) -> Result<String, AllocError> {
    let found = fish_psf::values(alloc, def, rec)?;
    let told = values_text(alloc, &found);
    drop(found);
    told
}

/// The record that a line is. One that is none counts as memory that ran out, so that it shows.
fn record_of(alloc: Global, line: &str) -> Result<JsonRecord, AllocError> {
    match JsonRecord::read(alloc, line.as_bytes()) {
        Ok(record) => Ok(record),
        Err(_) => Err(AllocError),
    }
}

/// What it gives on a line that is read as a record.
fn in_record(alloc: Global, def: &Def, line: &str) -> Result<String, AllocError> {
    let record = record_of(alloc, line)?;
    let told = values_on(alloc, def, &record);
    drop(record);
    told
}

/// What it gives on a line that is read as a record of any form.
fn in_any_form(alloc: Global, def: &Def, line: &str) -> Result<String, AllocError> {
    let record = Record::Json(record_of(alloc, line)?);
    let told = values_on(alloc, def, &record);
    drop(record);
    told
}

/// What it gives on a line that is read as a row of a reader.
fn in_row(alloc: Global, def: &Def, line: &str) -> Result<String, AllocError> {
    let mut reader = JsonReader::new(alloc);
    match reader.read(alloc, line.as_bytes()) {
        Ok(row) => {
            let told = values_on(alloc, def, &row);
            drop(row);
            told
        }
        Err(refusal) => format!(in alloc; "{refusal}"),
    }
}

/// What it gives on a line, read in each way.
fn on_line(alloc: Global, def: &Def, line: &str) -> Result<String, AllocError> {
    let record = in_record(alloc, def, line)?;
    let any = in_any_form(alloc, def, line)?;
    let row = in_row(alloc, def, line)?;
    let both = agreed(alloc, record.as_str(), any.as_str())?;
    agreed(alloc, both.as_str(), row.as_str())
}

/// What a definition gives on a line.
fn values_by(alloc: Global, case: &(&str, &str)) -> Result<String, AllocError> {
    let def = definition(alloc, case.0)?;
    let told = on_line(alloc, &def, case.1);
    drop(def);
    told
}

#[test]
fn values(rt: HostRuntime) -> Result<(), Fail> {
    expect_all(&rt, rt.alloc(), VALUES, values_by)?;
    Ok(())
}

/// Whether a flag's condition holds on a line: `true` or `false`, or `no flag`.
fn holds_on(alloc: Global, def: &Def, line: &str) -> Result<&'static str, AllocError> {
    let Def::Flag { when } = def else {
        return Ok("no flag");
    };
    let record = record_of(alloc, line)?;
    let truth = holds(when, &record);
    drop(record);
    Ok(if truth { "true" } else { "false" })
}

fn holds_by(alloc: Global, case: &(&str, &str)) -> Result<String, AllocError> {
    let def = definition(alloc, case.0)?;
    let truth = holds_on(alloc, &def, case.1);
    drop(def);
    String::from_str(alloc, truth?)
}

#[test]
fn conditions(rt: HostRuntime) -> Result<(), Fail> {
    expect_all(&rt, rt.alloc(), CONDITIONS, holds_by)?;
    Ok(())
}

/// A definition and the bytes of a text at `a`, and how many bytes are told of the value and how they begin.
const LONG: &[((&str, usize), &str)] = &[
    (("take a", 256), "261 bytes text"),
    (("take a", 257), "4 bytes none"),
    (("take a", 500_000), "4 bytes none"),
    (("flag when a starts \"x\"", 257), "4 bytes true"),
    (("flag when a > \"x\"", 257), "4 bytes true"),
];

/// The same of a text that is alone in an array at `a`.
const LONG_IN_AN_ARRAY: &[((&str, usize), &str)] = &[
    (("each a", 256), "261 bytes text"),
    (("each a", 257), "4 bytes none"),
    (("each a", 500_000), "4 bytes none"),
];

/// A text of that many bytes between two.
fn long_line(alloc: Global, front: &str, len: usize, end: &str) -> Result<String, AllocError> {
    let mut line = String::from_str(alloc, front)?;
    for _ in 0..len {
        line.push('x')?;
    }
    line.push_str(end)?;
    Ok(line)
}

/// How many bytes are told of the values on a line, and how they begin.
fn begins(alloc: Global, source: &str, line: &str) -> Result<String, AllocError> {
    let told = values_by(alloc, &(source, line))?;
    let kind = told.as_str().trim_end_matches('x').trim_end();
    format!(in alloc; "{} bytes {kind}", told.len())
}

fn long_told(alloc: Global, case: &(&str, usize)) -> Result<String, AllocError> {
    let line = long_line(alloc, "{\"a\":\"", case.1, "\"}")?;
    begins(alloc, case.0, line.as_str())
}

fn long_item_told(alloc: Global, case: &(&str, usize)) -> Result<String, AllocError> {
    let line = long_line(alloc, "{\"a\":[\"", case.1, "\"]}")?;
    begins(alloc, case.0, line.as_str())
}

#[test]
fn long_texts(rt: HostRuntime) -> Result<(), Fail> {
    expect_all(&rt, rt.alloc(), LONG, long_told)?;
    expect_all(&rt, rt.alloc(), LONG_IN_AN_ARRAY, long_item_told)?;
    Ok(())
}
