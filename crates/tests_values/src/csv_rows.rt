//! Rows with answers from outside: RFC 4180, and what `csv` 1.4 of Rust says of the rest. Each is read
//! as a record that owns its fields and by a reader that lends them.

use crate::expecting::expect_all;
use crate::told::{agreed, field_or_refusal, path_of};
use fish_csv::{CsvReader, CsvRecord};
use fish_value::Path;
use std::alloc::{AllocError, Global};
use std::test::Fail;

const NO_ROW: &str = "no single row of CSV in UTF-8";

/// Rows, paths with a dot between the names, and what is wanted.
const ROWS: &[((&str, &str), &str)] = &[
    // Columns.
    (("a,\"x,1\",007", "$1"), "text a"),
    (("a,\"x,1\",007", "$2"), "text x,1"),
    (("a,\"x,1\",007", "$3"), "text 007"),
    (("a,\"x,1\",007", "$4"), "missing"),
    (("a,\"x,1\",007", "$0"), "missing"),
    (("a,\"x,1\",007", "$01"), "missing"),
    (("a,\"x,1\",007", "$-1"), "missing"),
    (("a,\"x,1\",007", "$+1"), "missing"),
    (("a,\"x,1\",007", "$"), "missing"),
    (("a,\"x,1\",007", "1"), "missing"),
    (("a,\"x,1\",007", "#1"), "missing"),
    (("a,\"x,1\",007", ""), "missing"),
    (("a,\"x,1\",007", "$1.$1"), "missing"),
    (("a,\"x,1\",007", "$9223372036854775808"), "missing"),
    (("a,b,c,d,e,f,g,h,i,j", "$10"), "text j"),
    // Numbers: `0`, or no zero in front, within 64 bits with a sign.
    (("7", "$1"), "int 7"),
    (("\"7\",-5", "$1"), "int 7"),
    (("\"7\",-5", "$2"), "int -5"),
    (("-0,0, 7,+7,1.0", "$1"), "text -0"),
    (("-0,0, 7,+7,1.0", "$2"), "int 0"),
    (("-0,0, 7,+7,1.0", "$3"), "text  7"),
    (("-0,0, 7,+7,1.0", "$4"), "text +7"),
    (("-0,0, 7,+7,1.0", "$5"), "text 1.0"),
    (("9223372036854775807", "$1"), "int 9223372036854775807"),
    (("9223372036854775808", "$1"), "text 9223372036854775808"),
    (("-9223372036854775808", "$1"), "int -9223372036854775808"),
    (("-9223372036854775809", "$1"), "text -9223372036854775809"),
    (("-,--1,1e3,7x,00,-07", "$1"), "text -"),
    (("-,--1,1e3,7x,00,-07", "$2"), "text --1"),
    (("-,--1,1e3,7x,00,-07", "$3"), "text 1e3"),
    (("-,--1,1e3,7x,00,-07", "$4"), "text 7x"),
    (("-,--1,1e3,7x,00,-07", "$5"), "text 00"),
    (("-,--1,1e3,7x,00,-07", "$6"), "text -07"),
    // Empty fields and quotes.
    (("a,,b,", "$2"), "text "),
    (("a,,b,", "$4"), "text "),
    (("a,,b,", "$5"), "missing"),
    (("\"\"", "$1"), "text "),
    (("\"a\"\"b\",c", "$1"), "text a\"b"),
    (("a\"b,\"c\"d", "$1"), "text a\"b"),
    (("a\"b,\"c\"d", "$2"), "text cd"),
    (("\"a\rb\r\n\",c", "$1"), "text a\rb\r\n"),
    // Line ends round the row, and a byte order mark.
    (("\r\n\n7\r\n\r", "$1"), "int 7"),
    (("\u{feff}7,é", "$1"), "int 7"),
    (("\u{feff}\u{feff}7", "$1"), "text \u{feff}7"),
    // No row, and several.
    (("", "$1"), NO_ROW),
    (("\r\n", "$1"), NO_ROW),
    (("\u{feff}", "$1"), NO_ROW),
    (("a\nb", "$1"), NO_ROW),
    (("a\r\r,", "$1"), NO_ROW),
    (("\n\"a\"\n\"\"", "$1"), NO_ROW),
];

/// The same of bytes that are no text: one that begins no character, and a character with a quote in its middle.
const BYTES: &[((&[u8], &str), &str)] = &[
    ((b"a,\xff", "$1"), NO_ROW),
    ((b"\"\xc3\"\xa9,1", "$1"), NO_ROW),
];

/// A row that a reader reads before, so that it has memory of another one.
const BEFORE: &[u8] = b"1,\"\"\"2\"\"\",3,4,5,6,7,8,9,10,\"11\n\"";

/// What a row has at a path, or why it is refused, by a reader that has read another row.
fn in_later_row(alloc: Global, row: &[u8], path: &Path) -> Result<String, AllocError> {
    let mut reader = CsvReader::new(alloc);
    let before = field_or_refusal(alloc, reader.read(BEFORE), path);
    let told = field_or_refusal(alloc, reader.read(row), path);
    drop(reader);
    drop(before?);
    told
}

/// The same by a record too.
fn told(alloc: Global, row: &[u8], names: &str) -> Result<String, AllocError> {
    let path = path_of(alloc, names)?;
    let record = field_or_refusal(alloc, CsvRecord::read(alloc, row), &path)?;
    let lent = in_later_row(alloc, row, &path)?;
    agreed(alloc, record.as_str(), lent.as_str())
}

fn text_told(alloc: Global, case: &(&str, &str)) -> Result<String, AllocError> {
    told(alloc, case.0.as_bytes(), case.1)
}

fn bytes_told(alloc: Global, case: &(&[u8], &str)) -> Result<String, AllocError> {
    told(alloc, case.0, case.1)
}

#[test]
fn fields(rt: HostRuntime) -> Result<(), Fail> {
    expect_all(&rt, rt.alloc(), ROWS, text_told)?;
    expect_all(&rt, rt.alloc(), BYTES, bytes_told)?;
    Ok(())
}

/// The bytes of a row whose second field begins after two, and what is told of that field.
const LONG: &[(usize, &str)] = &[
    (524_288, "524291 bytes"),
    (524_289, "a record has at most 524288 bytes"),
];

fn long_row(alloc: Global, len: usize) -> Result<String, AllocError> {
    let mut row = String::from_str(alloc, "x,")?;
    for _ in row.len()..len {
        row.push('y')?;
    }
    Ok(row)
}

/// What is told of it: how many bytes, where they are `text ` and all of the field.
fn long_told(alloc: Global, len: &usize) -> Result<String, AllocError> {
    let row = long_row(alloc, *len)?;
    let told = told(alloc, row.as_bytes(), "$2")?;
    if told.as_str().trim_end_matches('y') == "text " {
        return format!(in alloc; "{} bytes", told.len());
    }
    Ok(told)
}

#[test]
fn limits(rt: HostRuntime) -> Result<(), Fail> {
    expect_all(&rt, rt.alloc(), LONG, long_told)?;
    Ok(())
}
