//! Lines of files in every cutting, with answers worked out by hand.

use crate::expecting::expect_all;
use fish_json::{cut_line, without_carriage_return};
use fish_lines::{Line, LineList, lines_of_pieces};
use fish_value::Bytes;
use std::alloc::{AllocError, Global};
use std::test::Fail;

/// A file, and its lines with a bar after each, with a character of that number for each byte.
const FILES: &[(&str, &str)] = &[
    (
        "{\"type\":\"Push\",\"n\":1}\n{\"type\":\"Open\",\"n\":2}\n{\"type\":\"Push\",\"n\":3}\n",
        "{\"type\":\"Push\",\"n\":1}|{\"type\":\"Open\",\"n\":2}|{\"type\":\"Push\",\"n\":3}|",
    ),
    ("", ""),
    // One CR is dropped before an LF and at the end, and no other.
    ("a\r\nb\r\r\nc\rd\ne\r", "a|b\r|c\rd|e|"),
    // Blank lines count nowhere, with an LF or at the end.
    ("\n \t\r\r\n\r\na\n\n\r \r", "a|"),
    // A byte order mark is dropped at the start alone, and once.
    ("\u{feff}a\n\u{feff}b\n", "a|\u{ef}\u{bb}\u{bf}b|"),
    ("\u{feff}\u{feff}a", "\u{ef}\u{bb}\u{bf}a|"),
];

/// The same of bytes that are no text: what is only the beginning of a mark stays.
const BYTES: &[(&[u8], &str)] = &[
    (b"\xef\xbb", "\u{ef}\u{bb}|"),
    (b"\xef\xbb\r\n\xbf", "\u{ef}\u{bb}|\u{bf}|"),
];

/// The lines of a file that comes in two pieces, or byte by byte where the first is to have as many
/// bytes as the file and more.
fn lines_in_two(alloc: Global, b: &[u8], at: usize) -> Result<LineList, AllocError> {
    let mut pieces = Vec::new(alloc);
    if at <= b.len() {
        let (front, behind) = b.split_at(at);
        pieces.push(Bytes::copy_of(alloc, front)?)?;
        pieces.push(Bytes::copy_of(alloc, behind)?)?;
    } else {
        for byte in b {
            pieces.push(Bytes::copy_of(alloc, [*byte].as_slice())?)?;
        }
    }
    lines_of_pieces(alloc, pieces.as_slice())
}

/// Lines with a bar after each. One that is too long is `*`.
fn joined(alloc: Global, lines: &[Line]) -> Result<String, AllocError> {
    let mut told = String::new(alloc);
    for line in lines {
        match line {
            Line::Whole(bytes) => push_bytes(&mut told, bytes.as_bytes())?,
            Line::TooLong => told.push('*')?,
        }
        told.push('|')?;
    }
    Ok(told)
}

fn push_bytes(told: &mut String, bytes: &[u8]) -> Result<(), AllocError> {
    for byte in bytes {
        told.push(char::from(*byte))?;
    }
    Ok(())
}

fn told_in_two(alloc: Global, b: &[u8], at: usize) -> Result<String, AllocError> {
    let found = lines_in_two(alloc, b, at)?;
    let told = joined(alloc, found.as_slice());
    drop(found);
    told
}

/// The lines of a file, which are the same in every cutting.
fn told(alloc: Global, b: &&[u8]) -> Result<String, AllocError> {
    let whole = told_in_two(alloc, b, 0)?;
    for at in 1..b.len() + 2 {
        let cut = told_in_two(alloc, b, at)?;
        if cut.as_str() != whole.as_str() {
            return format!(in alloc; "{} cut at {at}", cut.as_str());
        }
    }
    Ok(whole)
}

fn text_told(alloc: Global, text: &&str) -> Result<String, AllocError> {
    told(alloc, &text.as_bytes())
}

#[test]
fn lines_of_every_cutting(rt: HostRuntime) -> Result<(), Fail> {
    expect_all(&rt, rt.alloc(), FILES, text_told)?;
    expect_all(&rt, rt.alloc(), BYTES, told)?;
    Ok(())
}

/// A text, and its first line, that without a CR at its end, and what follows it.
const FIRST_LINES: &[(&str, &str)] = &[
    ("a\r\nb\nc", "a\r|a|b\nc"),
    ("a\rb\r\r\n", "a\rb\r\r|a\rb\r|"),
    ("\n\n", "||\n"),
    ("a\r", "no end"),
    ("", "no end"),
];

fn first_line(alloc: Global, text: &&str) -> Result<String, AllocError> {
    let Some((line, rest)) = cut_line(text.as_bytes()) else {
        return String::from_str(alloc, "no end");
    };
    let mut told = String::new(alloc);
    push_bytes(&mut told, line)?;
    told.push('|')?;
    push_bytes(&mut told, without_carriage_return(line))?;
    told.push('|')?;
    push_bytes(&mut told, rest)?;
    Ok(told)
}

#[test]
fn first_lines(rt: HostRuntime) -> Result<(), Fail> {
    expect_all(&rt, rt.alloc(), FIRST_LINES, first_line)?;
    Ok(())
}

/// A byte, how often it stands in a file, what follows, whole lines and lines too long.
const LONG: &[((u8, usize, &str), &str)] = &[
    ((b'x', 524_288, ""), "1 0"),
    ((b'x', 524_288, "\r\nx"), "2 0"),
    ((b'x', 524_288, "\r"), "1 0"),
    ((b'x', 524_288, "\r\r\n"), "0 1"),
    ((b'x', 524_289, "\nx"), "1 1"),
    ((b'x', 1_572_864, ""), "0 1"),
    ((b' ', 524_288, "\r\n"), "0 0"),
    ((b' ', 524_289, "\n"), "0 1"),
    ((b' ', 524_289, ""), "0 1"),
];

/// Where files are cut. The last is the end of each.
const CUTS: &[usize] = &[65_536, 524_288, usize::MAX];

/// How many lines are whole, and how many are too long.
fn count(alloc: Global, lines: &[Line]) -> Result<String, AllocError> {
    let whole = lines
        .iter()
        .filter(|line| matches!(line, Line::Whole(_)))
        .count();
    format!(in alloc; "{whole} {}", lines.len().saturating_sub(whole))
}

fn count_in_two(alloc: Global, b: &[u8], at: usize) -> Result<String, AllocError> {
    let found = lines_in_two(alloc, b, at.min(b.len()))?;
    let told = count(alloc, found.as_slice());
    drop(found);
    told
}

/// The same of a file, which is the same wherever it is cut.
fn long_told(alloc: Global, case: &(u8, usize, &str)) -> Result<String, AllocError> {
    let (byte, len, end) = case;
    let mut b = vec![in alloc; *byte; *len]?;
    b.extend_from_slice(end.as_bytes())?;
    let whole = count_in_two(alloc, b.as_slice(), 0)?;
    for at in CUTS {
        let cut = count_in_two(alloc, b.as_slice(), *at)?;
        if cut.as_str() != whole.as_str() {
            return format!(in alloc; "{} cut at {at}", cut.as_str());
        }
    }
    Ok(whole)
}

#[test]
fn long_lines(rt: HostRuntime) -> Result<(), Fail> {
    expect_all(&rt, rt.alloc(), LONG, long_told)?;
    Ok(())
}
