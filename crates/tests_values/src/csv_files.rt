//! Files in CSV with answers from outside: RFC 4180, and what `csv` 1.4 of Rust says of the rest.

use crate::expecting::{expect, expect_all};
use fish_csv::{CsvRows, rows};
use std::alloc::{AllocError, Global};
use std::test::Fail;

/// Files, whether they have a header, and the payloads, each with a `|` after it, and how many rows
/// are refused.
const FILES: &[((&str, bool), &str)] = &[
    (("h1,h2\r\n1,2\n", true), "1,2| 0"),
    (("h1,h2\r\n1,2\n", false), "h1,h2|1,2| 0"),
    (("", false), " 0"),
    (("", true), " 0"),
    (("\n\r\n\r\r", true), " 0"),
    (("a,\"x,1\",007\n", false), "a,\"x,1\",007| 0"),
    (("a\nb,c\n,\n d , e ", false), "a|b,c|,| d , e | 0"),
    // Line ends.
    (("a\rb\r\nc\n\n\r\nd", false), "a|b|c|d| 0"),
    (("\n\r\na,b", true), " 0"),
    (("\"h\n1\",h2\n1,2\n", true), "1,2| 0"),
    (("\"a\r\nb\",c\n", false), "\"a\r\nb\",c| 0"),
    // Quotes.
    (("\"a\",\"b\"\n", false), "a,b| 0"),
    (("a\"b,c\n", false), "\"a\"\"b\",c| 0"),
    (("\"a\"\"\"\"b\"\n", false), "\"a\"\"\"\"b\"| 0"),
    (("\"a\"b,\"\"\n", false), "ab,| 0"),
    (("\"\"\n\n\"\"\r\nz", false), "\"\"|\"\"|z| 0"),
    (("\"a\nb", false), "\"a\nb\"| 0"),
    // Byte order marks: one alone is dropped at the front, and one that is a row is no row.
    (("\u{feff}a,b\n\u{feff}c,d\n", false), "a,b|\u{feff}c,d| 0"),
    (("\u{feff}\u{feff}a\n", false), "\u{feff}a| 0"),
    (("x\n\u{feff}\ny\n", false), "x|y| 1"),
    (("\u{feff}\n7", false), "7| 0"),
    (("\u{feff}\u{feff}\"7\"", true), " 0"),
];

/// The same of files that are no texts.
const BYTES: &[((&[u8], bool), &str)] = &[
    ((b"a,\xff\nb\n", false), "b| 1"),
    ((b"a,\xff\nb\n", true), "b| 0"),
    ((b"\"\xc3\"\xa9,1\n", false), "é,1| 0"),
];

/// The payloads of a file, each with a `|` after it, and how many rows are refused; or why the file
/// is.
fn told(alloc: Global, file: &[u8], header: bool) -> Result<String, AllocError> {
    match rows(alloc, file, header) {
        Ok(found) => {
            let told = rows_text(alloc, &found);
            drop(found);
            told
        }
        Err(refusal) => format!(in alloc; "{refusal}"),
    }
}

fn rows_text(alloc: Global, found: &CsvRows) -> Result<String, AllocError> {
    let mut told = String::new(alloc);
    for text in found.texts.as_slice() {
        told.push_str(text.as_str())?;
        told.push('|')?;
    }
    let refused = format!(in alloc; " {}", found.refused)?;
    told.push_str(refused.as_str())?;
    Ok(told)
}

fn text_told(alloc: Global, case: &(&str, bool)) -> Result<String, AllocError> {
    told(alloc, case.0.as_bytes(), case.1)
}

fn bytes_told(alloc: Global, case: &(&[u8], bool)) -> Result<String, AllocError> {
    told(alloc, case.0, case.1)
}

#[test]
fn files(rt: HostRuntime) -> Result<(), Fail> {
    expect_all(&rt, rt.alloc(), FILES, text_told)?;
    expect_all(&rt, rt.alloc(), BYTES, bytes_told)?;
    Ok(())
}

/// What stands before the first row's letters, the bytes of that row, and the bytes of what is told and its end
/// without those letters. Quotes that call for none fall away.
const LONG: &[((&str, usize), &str)] = &[
    (("", 524_288), "524296 bytes |last| 0"),
    (("", 524_289), "7 bytes last| 1"),
    (("\"\"", 524_290), "524296 bytes |last| 0"),
    (("\"\"", 524_291), "7 bytes last| 1"),
];

/// A file whose first row begins so and has that many bytes, and whose second is `last`.
fn long_file(alloc: Global, front: &str, len: usize) -> Result<String, AllocError> {
    let mut file = String::from_str(alloc, front)?;
    for _ in file.len()..len {
        file.push('x')?;
    }
    file.push_str("\r\nlast\n")?;
    Ok(file)
}

fn long_told(alloc: Global, case: &(&str, usize)) -> Result<String, AllocError> {
    let file = long_file(alloc, case.0, case.1)?;
    let told = told(alloc, file.as_bytes(), false)?;
    let end = told.as_str().trim_start_matches("xxxxxxxx");
    format!(in alloc; "{} bytes {end}", told.len())
}

#[test]
fn long_rows(rt: HostRuntime) -> Result<(), Fail> {
    expect_all(&rt, rt.alloc(), LONG, long_told)?;
    Ok(())
}

/// What is told of one long row of the most bytes of a file, and of one byte more.
fn large_told(alloc: Global) -> Result<(String, String), AllocError> {
    let mut file = vec![in alloc; b'x'; 67_108_864]?;
    let most = told(alloc, file.as_slice(), false)?;
    file.push(b'x')?;
    Ok((most, told(alloc, file.as_slice(), false)?))
}

#[test]
fn large_files(rt: HostRuntime) -> Result<(), Fail> {
    let (most, more) = large_told(rt.alloc())?;
    expect(&rt, most.as_str(), " 1");
    expect(
        &rt,
        more.as_str(),
        "a file in CSV has at most 67108864 bytes",
    );
    Ok(())
}
