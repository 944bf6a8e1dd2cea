//! Payloads made from a seed: objects with names, numbers and texts of every kind, and what becomes of
//! them when a byte is another.

use std::alloc::{AllocError, Global};

/// Numbers that follow from a seed: SplitMix64, by Steele, Lea and Flood.
#[derive(Debug, Drop)]
pub struct Seeded {
    state: u64,
}

impl Seeded {
    /// The numbers of a seed.
    pub fn new(seed: u64) -> Seeded {
        Seeded { state: seed }
    }

    /// The next number.
    pub fn next(&mut self) -> u64 {
        self.state = self.state.wrapping_add(0x9e37_79b9_7f4a_7c15);
        let mixed = (self.state ^ (self.state >> 30)).wrapping_mul(0xbf58_476d_1ce4_e5b9);
        let mixed = (mixed ^ (mixed >> 27)).wrapping_mul(0x94d0_49bb_1331_11eb);
        mixed ^ (mixed >> 31)
    }
}

/// One of some pieces.
fn pick<'a>(seeded: &mut Seeded, pieces: &'a [&'a str]) -> &'a str {
    let number = seeded.next();
    match pieces.len() {
        0 => "",
        count => pieces[number as usize % count],
    }
}

/// Names of members. Two are written in two ways.
const NAMES: &[&str] = &[
    "a",
    "b",
    "\\u0061",
    "\\u0062",
    "",
    "a b",
    "é",
    "\\ud83d\\ude00",
    "a\\n",
];

/// Values without members: literals, numbers at the ends of their types, texts with escapes.
const VALUES: &[&str] = &[
    "null",
    "true",
    "false",
    "0",
    "-0",
    "7",
    "-1",
    "9223372036854775807",
    "9223372036854775808",
    "-9223372036854775808",
    "-9223372036854775809",
    "18446744073709551615",
    "18446744073709551616",
    "0.5",
    "-1.25e-3",
    "1E+2",
    "1e308",
    "-1e308",
    "5e-324",
    "1.797693134862315807e308",
    "\"\"",
    "\"a\"",
    "\"\\u0061\"",
    "\"\\\"\\\\\\/\\b\\f\\n\\r\\t\\u0000\\u001f\"",
    "\"\\ud83d\\ude00\"",
    "\"\\uD834\\uDD1E\\u00e9\"",
    "\"é😀\u{7f}\u{2028}\"",
    "[]",
    "{}",
    "[0, -1.5, \"]\", null]",
];

/// Blanks, mostly none.
const BLANKS: &[&str] = &["", "", "", "", " ", "\t", "\r", "\n "];

/// How a value is put into a larger one: what stands before it and after it.
const ROUND: &[(&str, &str)] = &[
    ("[", "]"),
    ("[1,", "]"),
    ("[", ",{\"a\":2}]"),
    ("{\"a\":", "}"),
    ("{\"b\":", "}"),
    ("{\"a\":1,\"a\":", "}"),
    ("{\"a\":", ",\"\\u0062\":2}"),
    ("{\"a\":{\"a\":", "}}"),
];

/// Puts a piece after the others, between blanks.
fn put(seeded: &mut Seeded, text: &mut String, piece: &str) -> Result<(), AllocError> {
    text.push_str(pick(seeded, BLANKS))?;
    text.push_str(piece)?;
    text.push_str(pick(seeded, BLANKS))
}

/// A value, put into larger ones up to three times.
fn value(alloc: Global, seeded: &mut Seeded) -> Result<String, AllocError> {
    let mut text = String::from_str(alloc, pick(seeded, VALUES))?;
    for _ in 0..seeded.next() % 4 {
        text = wrapped(alloc, seeded, text.as_str())?;
    }
    Ok(text)
}

fn wrapped(alloc: Global, seeded: &mut Seeded, inner: &str) -> Result<String, AllocError> {
    let (before, behind) = ROUND[seeded.next() as usize % ROUND.len()];
    let mut text = String::from_str(alloc, before)?;
    put(seeded, &mut text, inner)?;
    text.push_str(behind)?;
    Ok(text)
}

/// An object of up to four members, which ends with its last byte.
pub fn object(alloc: Global, seeded: &mut Seeded) -> Result<String, AllocError> {
    let mut text = String::new(alloc);
    put(seeded, &mut text, "{")?;
    for count in 0..seeded.next() % 5 {
        if count > 0 {
            put(seeded, &mut text, ",")?;
        }
        put_member(alloc, seeded, &mut text)?;
    }
    text.push('}')?;
    Ok(text)
}

fn put_member(alloc: Global, seeded: &mut Seeded, text: &mut String) -> Result<(), AllocError> {
    let name = format!(in alloc; "\"{}\"", pick(seeded, NAMES))?;
    put(seeded, text, name.as_str())?;
    text.push(':')?;
    let inner = value(alloc, seeded)?;
    put(seeded, text, inner.as_str())
}

/// Bytes that mean something in JSON, and some that mean nothing.
const BYTES: &[u8] = b"{}[],:\"\\0159-+.eEunltrfbda/ \t\r\n\0\x1f\x7f\x80\xbf\xc3\xed\xff";

/// Puts another byte at a place of a payload.
pub fn change_byte(seeded: &mut Seeded, payload: &mut Vec<u8>) {
    let number = seeded.next() as usize;
    let byte = BYTES[seeded.next() as usize % BYTES.len()];
    let count = payload.len();
    if count > 0 {
        payload[number % count] = byte;
    }
}

/// That many values, each in the other, in arrays or objects in turn as a number's bits say.
pub fn nested(alloc: Global, depth: usize, kinds: u64) -> Result<String, AllocError> {
    let mut text = String::from_str(alloc, "{\"a\":")?;
    let mut behind = String::new(alloc);
    for level in 1..depth {
        if (kinds >> (level % 64)) % 2 == 0 {
            text.push('[')?;
            behind.push(']')?;
        } else {
            text.push_str("{\"a\":")?;
            behind.push('}')?;
        }
    }
    text.push('0')?;
    push_backwards(&mut text, behind.as_str())?;
    text.push('}')?;
    Ok(text)
}

fn push_backwards(text: &mut String, ends: &str) -> Result<(), AllocError> {
    for end in ends.chars().rev() {
        text.push(end)?;
    }
    Ok(())
}
