//! Headers of regions of the log, with words that another program packed by the table of bits.

use crate::expecting::{expect, expect_all};
use fish_layout::{header_of, void_header};
use std::alloc::{AllocError, Global};
use std::test::Fail;

/// Words, and what they say as headers: the lines, the form, of which a void has none, the keys, the
/// lane, the version and the length.
const HEADERS: &[(u64, &str)] = &[
    (0x0e00_800d_0004, "4 Some(Csv) 3 16 512 3"),
    (0x0804_0001, "1 Some(Json) 1 1 0 0"),
    (0x2000_0000_0800_0001, "1 Some(Json) 0 1 0 524288"),
    (0x2_ffff, "65535 None 0 0 0 0"),
    (0x2_0000, "none"),
    (0x802_0001, "none"),
    (0x3_0001, "none"),
    (0x0, "none"),
    (0x800_0000, "none"),
    (0x8800_0001, "none"),
    (0x201_0800_0001, "none"),
    (0x4000_0000_0800_0001, "none"),
    (0x8000_0000_0802_0001, "none"),
    (0xc04_0001, "none"),
    (0x2000_0400_0800_0001, "none"),
];

fn told(alloc: Global, word: &u64) -> Result<String, AllocError> {
    let Some(header) = header_of(*word) else {
        return String::from_str(alloc, "none");
    };
    let (lines, form, keys) = (header.lines, header.form, header.keys);
    let (lane, version, length) = (header.lane, header.version, header.length);
    format!(in alloc; "{lines} {form:?} {keys} {lane} {version} {length}")
}

#[test]
fn headers(rt: HostRuntime) -> Result<(), Fail> {
    expect_all(&rt, rt.alloc(), HEADERS, told)?;
    Ok(())
}

#[test]
fn voids(rt: HostRuntime) -> Result<(), Fail> {
    let words = format!(in rt.alloc(); "{:x} {:x}", void_header(1), void_header(65_535))?;
    expect(&rt, words.as_str(), "20001 2ffff");
    Ok(())
}
