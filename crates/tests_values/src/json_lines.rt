//! Lines with answers from outside: RFC 8259, and what `serde_json` 1.0 of Rust says of the rest.
//! Each is read as a tree and over a tape.

use crate::expecting::expect_all;
use crate::told::{agreed, field_or_refusal, path_of};
use fish_json::{JsonReader, JsonRecord};
use fish_value::Path;
use std::alloc::{AllocError, Global};
use std::test::Fail;

const NO_JSON: &str = "no JSON in UTF-8";

const NO_OBJECT: &str = "JSON, but no object";

const TOO_LONG: &str = "a record has at most 524288 bytes";

/// Lines, paths with a dot between the names, and what is wanted.
const LINES: &[((&str, &str), &str)] = &[
    // Paths.
    (("{}", "a"), "missing"),
    (("{\"a\":{\"b\":null}}", "a"), "other"),
    (("{\"a\":{\"b\":null}}", "a.b"), "null"),
    (("{\"a\":{\"b\":null}}", "a.b.c"), "missing"),
    (("{\"a\":{\"b\":null}}", "a.c"), "missing"),
    (("{\"a\":{\"b\":null}}", "b"), "missing"),
    (("{\"a\":[{\"b\":1}]}", "a"), "other"),
    (("{\"a\":[{\"b\":1}]}", "a.b"), "missing"),
    (("{\"a\":[[],{}],\"b\":{\"c\":true}}", "b.c"), "true"),
    (("{\"ab\":1,\"\":2}", ""), "int 2"),
    (("{\"ab\":1,\"\":2}", "a"), "missing"),
    // Of two equal names the last counts, also where they are written in two ways.
    (("{\"a\":1,\"b\":3,\"a\":2}", "a"), "int 2"),
    (("{\"a\":1,\"\\u0061\":null}", "a"), "null"),
    (("{\"a\":{\"b\":1},\"a\":{\"c\":2}}", "a.b"), "missing"),
    (("{\"a\":{\"b\":1},\"a\":{\"c\":2}}", "a.c"), "int 2"),
    // Numbers: those of 64 bits with a sign, then any double.
    (("{\"a\":0}", "a"), "int 0"),
    (("{\"a\":-1}", "a"), "int -1"),
    (
        ("{\"a\":9223372036854775807}", "a"),
        "int 9223372036854775807",
    ),
    (("{\"a\":9223372036854775808}", "a"), "other"),
    (
        ("{\"a\":-9223372036854775808}", "a"),
        "int -9223372036854775808",
    ),
    (("{\"a\":-9223372036854775809}", "a"), "other"),
    (("{\"a\":18446744073709551615}", "a"), "other"),
    (("{\"a\":18446744073709551616}", "a"), "other"),
    (("{\"a\":-0}", "a"), "other"),
    (("{\"a\":1.0}", "a"), "other"),
    (("{\"a\":1e0}", "a"), "other"),
    (("{\"a\":1e308}", "a"), "other"),
    (("{\"a\":5e-324}", "a"), "other"),
    (("{\"a\":1e-999}", "a"), "other"),
    // IEEE 754: below halfway from the greatest double to 2^1024, and above it.
    (("{\"a\":1.797693134862315807e308}", "a"), "other"),
    (("{\"a\":-1.797693134862315807e308}", "a"), "other"),
    (("{\"a\":1.7976931348623159e308}", "a"), NO_JSON),
    (("{\"a\":-1.7976931348623159e308}", "a"), NO_JSON),
    (("{\"a\":1,\"b\":[1e999]}", "a"), NO_JSON),
    (("{\"a\":01}", "a"), NO_JSON),
    (("{\"a\":-}", "a"), NO_JSON),
    (("{\"a\":1.}", "a"), NO_JSON),
    (("{\"a\":.5}", "a"), NO_JSON),
    (("{\"a\":1e}", "a"), NO_JSON),
    (("{\"a\":+1}", "a"), NO_JSON),
    // Texts.
    (("{\"a\":\"\\u00e9\\n\\u0000\"}", "a"), "text é\n\0"),
    (
        ("{\"a\":\"\\\"\\\\\\/\\b\\f\\n\\r\\t\"}", "a"),
        "text \"\\/\u{8}\u{c}\n\r\t",
    ),
    (("{\"a\":\"\\ud83d\\ude00\"}", "a"), "text 😀"),
    (("{\"a\":\"\\uD83D\\uDE00\"}", "a"), "text 😀"),
    (("{\"a\":\"\\ud83d\"}", "a"), NO_JSON),
    (("{\"a\":\"\\ud83d\\u0061\"}", "a"), NO_JSON),
    (("{\"a\":\"\\ude00\\ud83d\"}", "a"), NO_JSON),
    (("{\"a\":\"\\x61\"}", "a"), NO_JSON),
    (("{\"a\":\"\0\"}", "a"), NO_JSON),
    (("{\"a\":\"\t\"}", "a"), NO_JSON),
    // Blanks round the object, and what is more than an object or less.
    ((" \t\r\n{ \"a\" : false } \n", "a"), "false"),
    (("{\"a\":1}\0", "a"), NO_JSON),
    (("{\"a\":1}{}", "a"), NO_JSON),
    (("\u{feff}{\"a\":1}", "a"), NO_JSON),
    (("{\"a\":1,}", "a"), NO_JSON),
    (("{a:1}", "a"), NO_JSON),
    (("{\"a\":1", "a"), NO_JSON),
    (("", "a"), NO_JSON),
    ((" ", "a"), NO_JSON),
    (("[{\"a\":1}]", "a"), NO_OBJECT),
    (("\"a\"", "a"), NO_OBJECT),
    (("1", "a"), NO_OBJECT),
    (("null", "a"), NO_OBJECT),
];

/// The same of bytes that are no text: one that begins no character, a surrogate, a long form of `/`.
const BYTES: &[((&[u8], &str), &str)] = &[
    ((b"{\"a\":\"\xff\"}", "a"), NO_JSON),
    ((b"{\"a\":\"\xed\xa0\x80\"}", "a"), NO_JSON),
    ((b"{\"a\":\"\xc0\xaf\"}", "a"), NO_JSON),
];

/// A line that a reader reads before, so that it has memory of another one.
const BEFORE: &[u8] = b"{\"a\":[\"x\",{\"b\":[1,2]}],\"b\":\"\\n\",\"c\":{}}";

/// What a line has at a path, or why it is refused, by a reader that has read another line.
fn in_later_row(alloc: Global, line: &[u8], path: &Path) -> Result<String, AllocError> {
    let mut reader = JsonReader::new(alloc);
    let before = field_or_refusal(alloc, reader.read(alloc, BEFORE), path);
    let told = field_or_refusal(alloc, reader.read(alloc, line), path);
    drop(reader);
    drop(before?);
    told
}

/// The same by a record too.
fn told(alloc: Global, line: &[u8], names: &str) -> Result<String, AllocError> {
    let path = path_of(alloc, names)?;
    let tree = field_or_refusal(alloc, JsonRecord::read(alloc, line), &path)?;
    let tape = in_later_row(alloc, line, &path)?;
    agreed(alloc, tree.as_str(), tape.as_str())
}

fn text_told(alloc: Global, case: &(&str, &str)) -> Result<String, AllocError> {
    told(alloc, case.0.as_bytes(), case.1)
}

fn bytes_told(alloc: Global, case: &(&[u8], &str)) -> Result<String, AllocError> {
    told(alloc, case.0, case.1)
}

#[test]
fn fields(rt: HostRuntime) -> Result<(), Fail> {
    expect_all(&rt, rt.alloc(), LINES, text_told)?;
    expect_all(&rt, rt.alloc(), BYTES, bytes_told)?;
    Ok(())
}

/// Arrays in an object and bytes of the line with the blanks after it, and what is wanted.
const SIZES: &[((usize, usize), &str)] = &[
    ((125, 0), "other"),
    ((126, 0), "other"),
    ((127, 0), NO_JSON),
    ((1, 524_288), "other"),
    ((1, 524_289), TOO_LONG),
];

/// An object whose one member is that many arrays, each in the other, with blanks after it.
fn nested(alloc: Global, arrays: usize, len: usize) -> Result<String, AllocError> {
    let mut line = String::new(alloc);
    line.push_str("{\"a\":")?;
    for _ in 0..arrays {
        line.push('[')?;
    }
    for _ in 0..arrays {
        line.push(']')?;
    }
    line.push('}')?;
    for _ in line.len()..len {
        line.push(' ')?;
    }
    Ok(line)
}

fn nested_told(alloc: Global, case: &(usize, usize)) -> Result<String, AllocError> {
    let line = nested(alloc, case.0, case.1)?;
    told(alloc, line.as_bytes(), "a")
}

#[test]
fn limits(rt: HostRuntime) -> Result<(), Fail> {
    expect_all(&rt, rt.alloc(), SIZES, nested_told)?;
    Ok(())
}
