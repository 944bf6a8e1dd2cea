//! The body of a slot by the places of its bytes, and bodies with one byte changed, worked out by hand.

use crate::told::{expect, expect_all};
use fish_catalog::{CatRow, Catalog, Commit};
use fish_image::{has_format, is_within, read_slot, slot_body, words_in};
use fish_value::{Bytes, Text};
use std::alloc::{AllocError, Global};
use std::fmt::Write;
use std::test::Fail;

/// Places and lengths, and the bytes there in hexadecimal.
const BYTES: &[((usize, usize), &str)] = &[
    ((0, 16), "46495348535430310200000000000000"),
    ((16, 16), "08000000000000000c00000000000000"),
    ((32, 16), "03000000000000000600000000000000"),
    ((48, 16), "02000000000000000000000000000000"),
    ((64, 24), "0000000000000000ffffffffffffffff04096b696e640000"),
    ((128, 12), "74616b652074797065000000"),
    ((384, 22), "ffffffffffffffffffffffffffffffff0212c3a90000"),
    ((448, 20), "666c6167207768656e206e206578697374730000"),
    ((704, 8), "0000000000000000"),
];

/// A place and the byte that stands there instead, and what the bytes then tell.
const CHANGES: &[((usize, u8), &str)] = &[
    (
        (0, b'F'),
        "1: 2 8 12 3 6, kind take type 0 none, é flag when n exists none none",
    ),
    ((0, b'f'), "none"),
    // another format, and two that there are not
    (
        (7, b'2'),
        "2: 2 8 12 3 6, kind take type 0 none, é flag when n exists none none",
    ),
    ((7, b'3'), "none"),
    ((7, b'0'), "none"),
    (
        (8, 1),
        "1: 1 8 12 3 6, kind take type 0 none, é flag when n exists none none",
    ),
    ((8, 3), "none"),
    ((9, 1), "none"),
    // pages, bucket bits, entries and lines past their limits
    ((16, 0), "none"),
    ((17, 2), "none"),
    ((24, 3), "none"),
    ((24, 17), "none"),
    ((35, 0x10), "none"),
    (
        (40, 7),
        "1: 2 8 12 3 7, kind take type 0 none, é flag when n exists none none",
    ),
    ((44, 0x10), "none"),
    // a row too many, one too few, and the eighth word
    ((48, 3), "none"),
    ((48, 1), "none"),
    ((56, 1), "none"),
    // where the index begins and ends
    (
        (64, 5),
        "1: 2 8 12 3 6, kind take type 5 none, é flag when n exists none none",
    ),
    ((67, 0x10), "none"),
    ((72, 9), "none"),
    // the name: none, a shorter one with a byte after, and no text
    ((80, 0), "none"),
    ((80, 3), "none"),
    ((82, 0xff), "none"),
    // the text: no definition, a byte after it, and the end of the row
    ((128, b'T'), "none"),
    ((137, b' '), "none"),
    ((383, 1), "none"),
    ((86_015, 1), "none"),
];

pub(crate) fn row(
    alloc: Global,
    id: u16,
    texts: (&str, &str),
    from: Option<u32>,
) -> Result<CatRow, AllocError> {
    Ok(CatRow {
        id,
        name: Text::copy_of(alloc, texts.0)?,
        def: Text::copy_of(alloc, texts.1)?,
        from,
        to: None,
    })
}

fn catalog(alloc: Global) -> Result<Catalog, AllocError> {
    let mut rows = Vec::new(alloc);
    rows.push(row(alloc, 0, ("kind", "take type"), Some(0))?)?;
    rows.push(row(alloc, 1, ("é", "flag when n exists"), None)?)?;
    match Catalog::from_rows(alloc, rows)? {
        Some(catalog) => Ok(catalog),
        None => Ok(Catalog::new(alloc)),
    }
}

/// The body of the commit, or no bytes if it should be none.
fn body(alloc: Global) -> Result<Bytes, AllocError> {
    let c = Commit {
        format: 1,
        turn: 2,
        pages: 8,
        bucket_bits: 12,
        count: 3,
        lines: 6,
        rows: catalog(alloc)?,
    };
    let body = if is_within(&c) && has_format(&c) {
        slot_body(alloc, &c)
    } else {
        Ok(Bytes::new(alloc))
    };
    drop(c);
    body
}

fn bytes_told(alloc: Global, part: &(usize, usize)) -> Result<String, AllocError> {
    let body = body(alloc)?;
    let mut told = String::new(alloc);
    for byte in body.as_bytes().iter().skip(part.0).take(part.1) {
        let text = format!(in alloc; "{byte:02x}")?;
        told.push_str(text.as_str())?;
    }
    Ok(told)
}

#[test]
fn bytes(rt: HostRuntime) -> Result<(), Fail> {
    expect_all(&rt, rt.alloc(), BYTES, bytes_told)?;
    Ok(())
}

fn boundary_text(alloc: Global, boundary: Option<u32>) -> Result<String, AllocError> {
    match boundary {
        Some(number) => format!(in alloc; "{number}"),
        None => String::from_str(alloc, "none"),
    }
}

fn put_row(alloc: Global, told: &mut String, row: &CatRow) -> Result<(), AllocError> {
    let (name, def) = (row.name.as_str(), row.def.as_str());
    let from = boundary_text(alloc, row.from)?;
    let to = boundary_text(alloc, row.to)?;
    write!(told, ", {name} {def} {from} {to}")
}

fn commit_text(alloc: Global, c: &Commit) -> Result<String, AllocError> {
    let (turn, pages, bits, count, lines) = (c.turn, c.pages, c.bucket_bits, c.count, c.lines);
    let mut told = format!(in alloc; "{}: {turn} {pages} {bits} {count} {lines}", c.format)?;
    for row in c.rows.rows() {
        put_row(alloc, &mut told, row)?;
    }
    Ok(told)
}

fn slot_text(alloc: Global, b: &[u8]) -> Result<String, AllocError> {
    match read_slot(alloc, b)? {
        Some(c) => {
            let told = commit_text(alloc, &c);
            drop(c);
            told
        }
        None => String::from_str(alloc, "none"),
    }
}

fn change_told(alloc: Global, change: &(usize, u8)) -> Result<String, AllocError> {
    let body = body(alloc)?;
    let mut bytes = Vec::from_slice(alloc, body.as_bytes())?;
    if change.0 < bytes.len() {
        bytes[change.0] = change.1;
    }
    slot_text(alloc, bytes.as_slice())
}

#[test]
fn changes(rt: HostRuntime) -> Result<(), Fail> {
    expect_all(&rt, rt.alloc(), CHANGES, change_told)?;
    Ok(())
}

/// A byte too few, and none.
#[test]
fn shorter(rt: HostRuntime) -> Result<(), Fail> {
    let body = body(rt.alloc())?;
    let shorter = slot_text(rt.alloc(), &body.as_bytes()[..body.len().saturating_sub(1)])?;
    expect(&rt, shorter.as_str(), "none");
    let none = slot_text(rt.alloc(), &[])?;
    expect(&rt, none.as_str(), "none");
    Ok(())
}

/// A format and how many rows are active, and what stands in the seventh byte of the body instead; and the format
/// and the number of rows that the bytes then tell.
const ACTIVE: &[((u8, u16, u8), &str)] = &[
    ((1, 0, b'1'), "1 0"),
    ((1, 16, b'1'), "1 16"),
    ((1, 17, b'1'), "no body"),
    ((2, 17, b'2'), "2 17"),
    ((2, 32, b'2'), "2 32"),
    ((0, 1, b'0'), "no body"),
    ((3, 1, b'3'), "no body"),
    ((1, 16, b'2'), "2 16"),
    ((2, 16, b'1'), "1 16"),
    ((2, 17, b'1'), "none"),
    ((2, 32, b'1'), "none"),
    ((2, 1, b'3'), "none"),
];

/// So many active rows, or none of them if they should be refused.
fn active(alloc: Global, count: u16) -> Result<Catalog, AllocError> {
    let mut rows = Vec::new(alloc);
    for id in 0..count {
        let name = format!(in alloc; "d{id}")?;
        rows.push(row(alloc, id, (name.as_str(), "take type"), Some(0))?)?;
    }
    match Catalog::from_rows(alloc, rows)? {
        Some(catalog) => Ok(catalog),
        None => Ok(Catalog::new(alloc)),
    }
}

/// The body of a commit of a format with so many active rows, if there is one.
fn body_of(alloc: Global, format: u8, count: u16) -> Result<Option<Bytes>, AllocError> {
    let c = Commit {
        format,
        turn: 0,
        pages: 1,
        bucket_bits: 4,
        count: 0,
        lines: 0,
        rows: active(alloc, count)?,
    };
    let body = if is_within(&c) && has_format(&c) {
        slot_body(alloc, &c).map(Some)
    } else {
        Ok(None)
    };
    drop(c);
    body
}

/// The format and the number of rows that bytes tell.
fn format_text(alloc: Global, b: &[u8]) -> Result<String, AllocError> {
    match read_slot(alloc, b)? {
        Some(c) => {
            let (format, rows) = (c.format, c.rows.rows().len());
            drop(c);
            format!(in alloc; "{format} {rows}")
        }
        None => String::from_str(alloc, "none"),
    }
}

fn active_told(alloc: Global, case: &(u8, u16, u8)) -> Result<String, AllocError> {
    let Some(body) = body_of(alloc, case.0, case.1)? else {
        return String::from_str(alloc, "no body");
    };
    let mut bytes = Vec::from_slice(alloc, body.as_bytes())?;
    if 7 < bytes.len() {
        bytes[7] = case.2;
    }
    format_text(alloc, bytes.as_slice())
}

#[test]
fn formats(rt: HostRuntime) -> Result<(), Fail> {
    expect_all(&rt, rt.alloc(), ACTIVE, active_told)?;
    Ok(())
}

/// A text, and the whole words of its bytes in hexadecimal digits.
const SPELLED: &[(&str, &str)] = &[
    ("abcdefgh12345678xyz", "6867666564636261 3837363534333231 "),
    ("abcdefg", ""),
];

fn put_words(told: &mut String, words: &[u64]) -> Result<(), AllocError> {
    for word in words {
        write!(told, "{word:016x} ")?;
    }
    Ok(())
}

fn spelled(alloc: Global, text: &&str) -> Result<String, AllocError> {
    let words = words_in(alloc, text.as_bytes())?;
    let mut told = String::new(alloc);
    let put = put_words(&mut told, words.as_slice());
    drop(words);
    put?;
    Ok(told)
}

#[test]
fn words_of_bytes(rt: HostRuntime) -> Result<(), Fail> {
    expect_all(&rt, rt.alloc(), SPELLED, spelled)?;
    Ok(())
}
