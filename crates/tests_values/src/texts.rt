//! Texts with answers from outside: RFC 8259, section 7, and RFC 3629.

use crate::expecting::expect_all;
use crate::told::value_text;
use fish_value::{Text, is_bare_word, json_text, read_json, read_value};
use std::alloc::{AllocError, Global};
use std::test::Fail;

/// What is told of a text, and the JSON string that stands for it.
const STRINGS: &[(&str, &str)] = &[
    ("text ", "\"\""),
    ("text a\"b\\c\n\u{1}é", "\"a\\\"b\\\\c\\n\\u0001é\""),
    (
        "text \u{8}\u{c}\r\t\0\u{1f}",
        "\"\\b\\f\\r\\t\\u0000\\u001f\"",
    ),
    ("text /\u{7f}\u{2028}😀", "\"/\u{7f}\u{2028}😀\""),
];

/// What the value of a JSON string is.
fn value_of(alloc: Global, string: &Text) -> Result<String, AllocError> {
    let found = read_value(alloc, string.as_bytes())?;
    let told = value_text(alloc, &found);
    drop(found);
    told
}

/// The JSON string of a text after `text `, whose value is that text.
fn string_for(alloc: Global, told: &&str) -> Result<String, AllocError> {
    let text = Text::copy_of(alloc, told.strip_prefix("text ").unwrap_or(""))?;
    let string = json_text(alloc, &text)?;
    let again = value_of(alloc, &string)?;
    if again.as_str() == *told {
        return String::from_str(alloc, string.as_str());
    }
    format!(in alloc; "{} of {}", again.as_str(), string.as_str())
}

#[test]
fn strings(rt: HostRuntime) -> Result<(), Fail> {
    expect_all(&rt, rt.alloc(), STRINGS, string_for)?;
    Ok(())
}

/// Texts, and whether they are JSON.
const TEXTS: &[(&str, &str)] = &[
    ("", "a text"),
    ("\"é\"", "a text, JSON"),
    ("{\"a\":[1,null]}", "a text, JSON"),
    ("{\"a\":[1,null}", "a text"),
];

/// Bytes that are no text.
const BYTES: &[(&[u8], &str)] = &[
    (b"\"\xff\"", "neither"),
    (b"\"\xc3\"", "neither"),
    (b"\"\xed\xa0\x80\"", "neither"),
    (b"\"\xc0\xaf\"", "neither"),
];

fn is_text(alloc: Global, bytes: &[u8]) -> Result<bool, AllocError> {
    let text = Text::from_bytes(alloc, bytes)?;
    Ok(text.is_some())
}

fn is_json(alloc: Global, bytes: &[u8]) -> Result<bool, AllocError> {
    let value = read_json(alloc, bytes)?;
    let found = value.is_some();
    drop(value);
    Ok(found)
}

fn kind_of(alloc: Global, bytes: &&[u8]) -> Result<String, AllocError> {
    let kind = match (is_text(alloc, bytes)?, is_json(alloc, bytes)?) {
        (true, true) => "a text, JSON",
        (true, false) => "a text",
        (false, true) => "JSON",
        (false, false) => "neither",
    };
    String::from_str(alloc, kind)
}

fn kind_of_text(alloc: Global, text: &&str) -> Result<String, AllocError> {
    kind_of(alloc, &text.as_bytes())
}

#[test]
fn bytes(rt: HostRuntime) -> Result<(), Fail> {
    expect_all(&rt, rt.alloc(), TEXTS, kind_of_text)?;
    expect_all(&rt, rt.alloc(), BYTES, kind_of)?;
    Ok(())
}

/// Words, and how a file of that name is written: the bare ones are graphic ASCII, none of it `"` or `#`.
const WORDS: &[(&[u8], &str)] = &[
    (b"events.jsonl", "bare"),
    (b"!~", "bare"),
    (b"", "quoted"),
    (b"two words", "quoted"),
    (b"a#b", "quoted"),
    (b"a\"b", "quoted"),
    (b"a\x7f", "quoted"),
    (b"\xc3\xa9", "quoted"),
];

fn way_of(alloc: Global, word: &&[u8]) -> Result<String, AllocError> {
    String::from_str(alloc, if is_bare_word(word) { "bare" } else { "quoted" })
}

#[test]
fn bare_words(rt: HostRuntime) -> Result<(), Fail> {
    expect_all(&rt, rt.alloc(), WORDS, way_of)?;
    Ok(())
}
