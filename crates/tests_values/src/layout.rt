//! Records with words from outside: a worked example, and words that another program packed by the
//! same table of bits.

ghost use Rattle.std.specs.Prelude.{IfOk, IfSome};
ghost use Rattle.fish_layout.specs.Body.{IsBody};
ghost use Rattle.fish_layout.specs.declared.parts.BodyParts.{BodyParts};

use crate::expecting::{expect, expect_all};
use crate::told::text_of;
use fish_layout::{Body, BodyParts, KeyPart, body_of, read_body, read_payload, set_number};
use std::alloc::{AllocError, Global};
use std::test::Fail;

/// One text as a key, and a payload of 21 bytes.
const PUSH: &[u64] = &[
    0x0000_5401_0804_0002,
    0,
    0,
    18,
    0x6873_7550,
    0x3a22_6570_7974_227b,
    0x222c_2268_7375_5022,
    0x7d_313a_226e,
];

/// A key of each kind, the greatest fields, and three words of padding.
const KINDS: &[u64] = &[
    0x0e00_800d_0004,
    5,
    0x0fff_ffff,
    4,
    0,
    0x10_7fff_ffff,
    0x821,
    0xffff_ffff_ffff_ffff,
    0x2f_ffff_ffff,
    0x480a,
    0xffff_ffff_ffff_fe01,
    0xa9_c3ff,
    0x62_2c61,
    0,
    0,
    0,
];

/// Three values under one id.
const SEVERAL: &[u64] = &[
    0x5c01_080c_0004,
    0,
    0x3000_0000,
    6,
    0,
    0x10_3000_0000,
    0x806,
    0,
    0x20_3000_0000,
    0x1004,
    0x1_6261,
    0x3a22_7367_6174_227b,
    0x2262_222c_2261_225b,
    0x7d_5d65_7572_742c,
    0,
    0,
];

/// One value under two ids.
const TWO_IDS: &[u64] = &[
    0x801_0808_0003,
    0,
    0x3000_0000,
    6,
    0,
    0x10_4000_0000,
    0x806,
    0x6161,
    0x7d7b,
    0,
    0,
    0,
];

/// Neither a key nor a payload.
const BARE: &[u64] = &[0x1000_0001, 0, 0, 0];

/// The words of records, and their parts as a text, what `read_payload` reads of them, and whether the parts
/// have those words.
const BODIES: &[(&[u64], &str)] = &[
    (
        PUSH,
        "Json 1 1 0 [0 0 text Push] {\"type\":\"Push\",\"n\":1} / Json 1 {\"type\":\"Push\",\"n\":1} / true",
    ),
    (
        KINDS,
        "Csv 16 512 268435455 [5 0 true] [0 7 int -2] [18446744073709551615 255 text é] a,b / Csv 16 a,b / true",
    ),
    (BARE, "Json 2 0 0  / Json 2  / true"),
    (
        SEVERAL,
        "Json 1 1 0 [0 3 text a] [0 3 text b] [0 3 true] {\"tags\":[\"a\",\"b\",true]} / Json 1 {\"tags\":[\"a\",\"b\",true]} / true",
    ),
    (
        TWO_IDS,
        "Json 1 1 0 [0 3 text a] [0 4 text a] {} / Json 1 {} / true",
    ),
];

/// A record's form, lane, version, number, keys and payload.
fn parts_text(alloc: Global, parts: &BodyParts) -> Result<String, AllocError> {
    let (form, lane) = (parts.form, parts.lane);
    let mut told = format!(in alloc; "{form:?} {lane} {} {} ", parts.version, parts.number)?;
    for key in parts.keys.as_slice() {
        let text = key_text(alloc, key)?;
        told.push_str(text.as_str())?;
    }
    told.push_str(parts.payload.as_str())?;
    Ok(told)
}

fn key_text(alloc: Global, key: &KeyPart) -> Result<String, AllocError> {
    let value = text_of(alloc, &key.value)?;
    format!(in alloc; "[{} {} {}] ", key.prev, key.id, value.as_str())
}

/// The parts of the record that words are, or `none`.
fn parts_in(alloc: Global, words: &[u64]) -> Result<String, AllocError> {
    match read_body(alloc, words)? {
        Some(parts) => {
            let told = parts_text(alloc, &parts);
            drop(parts);
            told
        }
        None => String::from_str(alloc, "none"),
    }
}

/// The words of the parts that words have.
fn words_again(alloc: Global, words: &[u64]) -> Result<Option<Body>, AllocError>
    ensures { IfOk result (λ o. IfSome o (λ body. (p : BodyParts) × IsBody p body)) }
{
    match read_body(alloc, words)? {
        Some(parts) => {
            let body = body_of(alloc, &parts);
            drop(parts);
            Ok(Some(body?))
        }
        None => Ok(None),
    }
}

/// What `read_payload` reads of a record's words.
fn payload_in(alloc: Global, words: &[u64]) -> Result<String, AllocError> {
    match read_body(alloc, words)? {
        Some(parts) => {
            drop(parts);
            let found = read_payload(alloc, words)?;
            let (form, lane) = (found.form, found.lane);
            format!(in alloc; "{form:?} {lane} {}", found.payload.as_str())
        }
        None => String::from_str(alloc, "none"),
    }
}

/// Whether a record is the words that its parts have.
fn has_words(alloc: Global, words: &[u64]) -> Result<bool, AllocError> {
    let again = words_again(alloc, words)?;
    Ok(again.is_some_and(|body| body.as_slice() == words))
}

fn told(alloc: Global, words: &&[u64]) -> Result<String, AllocError> {
    let parts = parts_in(alloc, words)?;
    let payload = payload_in(alloc, words)?;
    let again = has_words(alloc, words)?;
    format!(in alloc; "{} / {} / {again}", parts.as_str(), payload.as_str())
}

#[test]
fn bodies(rt: HostRuntime) -> Result<(), Fail> {
    expect_all(&rt, rt.alloc(), BODIES, told)?;
    Ok(())
}

/// A word of `KINDS`, the bits of it that are turned, and what is wrong then; two equal ids are not.
const TURNED: &[((usize, u64, &str), &str)] = &[
    ((0, 1 << 0, "a line more than there is"), "none"),
    ((0, 1 << 17, "a form that there is not"), "none"),
    ((0, 1 << 18, "a key less"), "none"),
    ((0, 1 << 31, "no lane"), "none"),
    ((0, 1 << 27, "lane 17"), "none"),
    ((0, 1 << 32, "version 513"), "none"),
    ((0, 1 << 42, "a payload of two bytes"), "none"),
    ((0, 1 << 62, "bit 62 of the header"), "none"),
    ((2, 1 << 0, "two numbers in one record"), "none"),
    (
        (2, 7 << 28, "two equal ids, of different values"),
        "Csv 16 512 268435455 [5 7 true] [0 7 int -2] [18446744073709551615 255 text é] a,b",
    ),
    ((2, 255 << 28, "ids out of order"), "none"),
    ((2, 1 << 36, "an entry out of position"), "none"),
    ((2, 1 << 45, "bit 45 of an entry"), "none"),
    ((3, 3 << 0, "kind 3"), "none"),
    ((6, 1 << 0, "a truth value of eight bytes"), "none"),
    ((6, 1 << 11, "a gap between values"), "none"),
    ((9, 1 << 29, "bit 29 of a value's word"), "none"),
    ((10, 3 << 0, "a truth value 2"), "none"),
    ((11, 1 << 22, "a text that is not UTF-8"), "none"),
    (
        (11, 1 << 24, "padding of the values that is not zero"),
        "none",
    ),
    ((12, 1 << 7, "a payload that is not UTF-8"), "none"),
    (
        (12, 1 << 24, "padding of the payload that is not zero"),
        "none",
    ),
    (
        (15, 1 << 63, "padding of the line that is not zero"),
        "none",
    ),
];

/// Words that are no record, of which the second to fourth begin `PUSH`, and what is wrong.
const OTHERS: &[((&[u64], &str), &str)] = &[
    ((&[], "no words"), "none"),
    ((&[0x5401_0804_0002], "one word"), "none"),
    ((&[0x5401_0804_0002, 0, 0, 18], "a line of two"), "none"),
    (
        (
            &[
                0x5401_0804_0002,
                0,
                0,
                18,
                0x6873_7550,
                0x3a22_6570_7974_227b,
                0x222c_2268_7375_5022,
            ],
            "a word too few",
        ),
        "none",
    ),
    (
        (
            &[
                0x5401_0804_0002,
                0,
                0,
                18,
                0x6873_7550,
                0x3a22_6570_7974_227b,
                0x222c_2268_7375_5022,
                0x7d_313a_226e,
                0,
                0,
                0,
                0,
            ],
            "a line behind the record",
        ),
        "none",
    ),
    (
        (
            &[
                0x5401_0804_0003,
                0,
                0,
                18,
                0x6873_7550,
                0x3a22_6570_7974_227b,
                0x222c_2268_7375_5022,
                0x7d_313a_226e,
                0,
                0,
                0,
                0,
            ],
            "a line too many",
        ),
        "none",
    ),
    ((&[0x2_0001, 0, 0, 0], "a void"), "none"),
    (
        (
            &[
                0x801_0808_0003,
                0,
                0x3000_0000,
                6,
                7,
                0x10_3000_0000,
                0x806,
                0x6161,
                0x7d7b,
                0,
                0,
                0,
            ],
            "an entry twice, with another previous node",
        ),
        "none",
    ),
    (
        (
            &[
                0x801_080c_0003,
                0,
                0x3000_0000,
                6,
                0,
                0x10_3000_0000,
                0x806,
                0,
                0x20_3000_0000,
                0x1006,
                0x61_6261,
                0x7d7b,
            ],
            "an entry twice, with another one between",
        ),
        "none",
    ),
    (
        (
            &[
                0x801_0808_0003,
                0,
                0x4000_0000,
                6,
                0,
                0x10_3000_0000,
                0x806,
                0x6261,
                0x7d7b,
                0,
                0,
                0,
            ],
            "ids that descend, of other values",
        ),
        "none",
    ),
];

/// Words of which one has other bits turned.
fn turned(alloc: Global, words: &[u64], at: usize, bits: u64) -> Result<Vec<u64>, AllocError> {
    let mut turned = Vec::new(alloc);
    for (position, word) in words.iter().enumerate() {
        let other = if position == at { *word ^ bits } else { *word };
        turned.push(other)?;
    }
    Ok(turned)
}

fn turned_told(alloc: Global, case: &(usize, u64, &str)) -> Result<String, AllocError> {
    let words = turned(alloc, KINDS, case.0, case.1)?;
    parts_in(alloc, words.as_slice())
}

fn other_told(alloc: Global, case: &(&[u64], &str)) -> Result<String, AllocError> {
    parts_in(alloc, case.0)
}

#[test]
fn refusals(rt: HostRuntime) -> Result<(), Fail> {
    expect_all(&rt, rt.alloc(), TURNED, turned_told)?;
    expect_all(&rt, rt.alloc(), OTHERS, other_told)?;
    Ok(())
}

/// `KINDS` with another number in its three entries.
const RENUMBERED: &[u64] = &[
    0x0e00_800d_0004,
    5,
    0x0abc_def0,
    4,
    0,
    0x10_7abc_def0,
    0x821,
    0xffff_ffff_ffff_ffff,
    0x2f_fabc_def0,
    0x480a,
    0xffff_ffff_ffff_fe01,
    0xa9_c3ff,
    0x62_2c61,
    0,
    0,
    0,
];

/// The words with the number 0x0abc_def0, where they are a record's.
fn renumbered(alloc: Global, words: &[u64]) -> Result<Option<Body>, AllocError> {
    match words_again(alloc, words)? {
        Some(mut body) => {
            set_number(&mut body, 0x0abc_def0);
            Ok(Some(body))
        }
        None => Ok(None),
    }
}

/// Whether the words of `KINDS` are then those, and how many they are.
fn renumbered_told(alloc: Global) -> Result<String, AllocError> {
    match renumbered(alloc, KINDS)? {
        Some(body) => {
            let same = body.as_slice() == RENUMBERED;
            let told = format!(in alloc; "{same} {}", body.len());
            drop(body);
            told
        }
        None => String::from_str(alloc, "none"),
    }
}

#[test]
fn numbers(rt: HostRuntime) -> Result<(), Fail> {
    let told = renumbered_told(rt.alloc())?;
    expect(&rt, told.as_str(), "true 16");
    Ok(())
}
