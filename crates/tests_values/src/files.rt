//! The records of whole files of both forms, with answers worked out by hand.

use crate::expecting::{expect, expect_all};
use fish_lines::{Records, records};
use fish_value::Form;
use std::alloc::{AllocError, Global};
use std::test::Fail;

/// Forms, headers, files, and the payloads with a bar after each and how many lines or rows are refused.
const FILES: &[((Form, bool, &str), &str)] = &[
    (
        (
            Form::Json,
            false,
            "{\"type\":\"Push\",\"n\":1}\n{\"type\":\"Open\",\"n\":2}\n{\"type\":\"Push\",\"n\":3}\n",
        ),
        "{\"type\":\"Push\",\"n\":1}|{\"type\":\"Open\",\"n\":2}|{\"type\":\"Push\",\"n\":3}| 0",
    ),
    (
        (
            Form::Json,
            true,
            "\u{feff}{\"n\":1}\r\n\n[1]\n{\"n\":\n{\"n\":2}",
        ),
        "{\"n\":1}|{\"n\":2}| 2",
    ),
    // Lines that end in CR LF, in LF and not at all, a blank one, a mark, and one that is refused.
    (
        (
            Form::Json,
            false,
            "\u{feff}{\"n\":1}\r\n{\"n\":2}\n \t\r\n{\"n\":3,}\r\n{\"n\": 4}",
        ),
        "{\"n\":1}|{\"n\":2}|{\"n\": 4}| 1",
    ),
    ((Form::Csv, true, "h1,h2\r\n1,2\n"), "1,2| 0"),
    ((Form::Csv, false, "a,\"x,1\",007"), "a,\"x,1\",007| 0"),
    ((Form::Csv, false, "\"a\nb\",c\nd"), "\"a\nb\",c|d| 0"),
    ((Form::Csv, true, ""), " 0"),
    ((Form::Csv, false, "x\n\u{feff}\ny\n"), "x|y| 1"),
];

/// The same of files that are no texts. A mark before a later line is no JSON either.
const BYTES: &[((Form, bool, &[u8]), &str)] = &[
    (
        (
            Form::Json,
            false,
            b"{\"n\":1}\n\xef\xbb\xbf{\"n\":2}\n{\"n\":\"\xff\"}\r\n{\"n\":3}\r",
        ),
        "{\"n\":1}|{\"n\":3}| 2",
    ),
    ((Form::Csv, false, b"a,\xff\nb\n"), "b| 1"),
];

/// The payloads of a file with a bar after each and how many lines or rows are refused, or why the file
/// is.
fn told(alloc: Global, form: Form, header: bool, b: &[u8]) -> Result<String, AllocError> {
    match records(alloc, form, header, b) {
        Ok(found) => {
            let told = records_text(alloc, &found);
            drop(found);
            told
        }
        Err(refusal) => format!(in alloc; "{refusal}"),
    }
}

fn records_text(alloc: Global, found: &Records) -> Result<String, AllocError> {
    let mut told = String::new(alloc);
    for payload in found.payloads.as_slice() {
        told.push_str(payload.as_str())?;
        told.push('|')?;
    }
    let refused = format!(in alloc; " {}", found.refused)?;
    told.push_str(refused.as_str())?;
    Ok(told)
}

fn text_told(alloc: Global, case: &(Form, bool, &str)) -> Result<String, AllocError> {
    told(alloc, case.0, case.1, case.2.as_bytes())
}

fn bytes_told(alloc: Global, case: &(Form, bool, &[u8])) -> Result<String, AllocError> {
    told(alloc, case.0, case.1, case.2)
}

#[test]
fn records_of_files(rt: HostRuntime) -> Result<(), Fail> {
    expect_all(&rt, rt.alloc(), FILES, text_told)?;
    expect_all(&rt, rt.alloc(), BYTES, bytes_told)?;
    Ok(())
}

/// The bytes of a line of JSON, and those of what is told of a file of it: the line, and `| 0`, or ` 1`.
const LINES: &[(usize, &str)] = &[(524_288, "524291 bytes"), (524_289, "2 bytes")];

/// A line of JSON of that many bytes.
fn long_line(alloc: Global, len: usize) -> Result<String, AllocError> {
    let mut line = String::from_str(alloc, "{\"p\":\"")?;
    for _ in 8..len {
        line.push('x')?;
    }
    line.push_str("\"}\n")?;
    Ok(line)
}

fn line_told(alloc: Global, len: &usize) -> Result<String, AllocError> {
    let line = long_line(alloc, *len)?;
    let told = told(alloc, Form::Json, false, line.as_bytes())?;
    format!(in alloc; "{} bytes", told.len())
}

#[test]
fn records_of_long_lines(rt: HostRuntime) -> Result<(), Fail> {
    expect_all(&rt, rt.alloc(), LINES, line_told)?;
    Ok(())
}

/// What is told of one byte more than a file in CSV may have, in CSV and in JSON, which has no limit.
fn large_told(alloc: Global) -> Result<(String, String), AllocError> {
    let zeros = vec![in alloc; 0u8; 67_108_865]?;
    let csv = told(alloc, Form::Csv, false, zeros.as_slice())?;
    Ok((csv, told(alloc, Form::Json, false, zeros.as_slice())?))
}

#[test]
fn records_of_large_files(rt: HostRuntime) -> Result<(), Fail> {
    let (csv, json) = large_told(rt.alloc())?;
    expect(
        &rt,
        csv.as_str(),
        "a file in CSV has at most 67108864 bytes",
    );
    expect(&rt, json.as_str(), " 1");
    Ok(())
}
