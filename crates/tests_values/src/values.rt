//! Values with answers from outside: what Rust's own `parse` and its `serde_json` 1.0 say.

use crate::expecting::expect_all;
use crate::told::value_text;
use fish_value::{Value, print_value, read_int, read_value};
use std::alloc::{AllocError, Global};
use std::test::Fail;

/// Texts that could be numbers, and the number that is wanted.
const NUMBERS: &[(&str, &str)] = &[
    ("0", "int 0"),
    ("-1", "int -1"),
    ("10", "int 10"),
    ("9223372036854775807", "int 9223372036854775807"),
    ("9223372036854775808", "none"),
    ("-9223372036854775808", "int -9223372036854775808"),
    ("-9223372036854775809", "none"),
    ("18446744073709551617", "none"),
    ("007", "none"),
    ("+1", "none"),
    ("-0", "none"),
    ("-", "none"),
    ("", "none"),
    (" 1", "none"),
    ("1 ", "none"),
    ("1_0", "none"),
];

/// What the number of a text is.
fn number_in(alloc: Global, text: &&str) -> Result<String, AllocError> {
    value_text(alloc, &read_int(text.as_bytes()).map(Value::Int))
}

#[test]
fn numbers(rt: HostRuntime) -> Result<(), Fail> {
    expect_all(&rt, rt.alloc(), NUMBERS, number_in)?;
    Ok(())
}

/// Texts of values, and the value that is wanted.
const VALUES: &[(&str, &str)] = &[
    ("true", "true"),
    ("false", "false"),
    ("True", "none"),
    ("-10", "int -10"),
    ("9223372036854775808", "none"),
    ("1.5", "none"),
    ("null", "none"),
    ("a", "none"),
    ("", "none"),
    ("\"\"", "text "),
    ("\"a\"", "text a"),
    ("\"\\u00e9\"", "text é"),
    ("\"1\"", "text 1"),
    ("\" a\"", "text  a"),
    (" \"a\"", "none"),
    ("\"a\" ", "none"),
    ("\"", "none"),
    ("\"a\"b\"", "none"),
    ("\"\\ud800\"", "none"),
    ("[\"a\"]", "none"),
];

/// What the value of a text is.
fn value_in(alloc: Global, text: &&str) -> Result<String, AllocError> {
    let found = read_value(alloc, text.as_bytes())?;
    let told = value_text(alloc, &found);
    drop(found);
    told
}

#[test]
fn values(rt: HostRuntime) -> Result<(), Fail> {
    expect_all(&rt, rt.alloc(), VALUES, value_in)?;
    Ok(())
}

/// A piece, how often it stands in a string, and the bytes of what is told of the string's value:
/// `text ` and the text, or `none`.
const LONG: &[((&str, usize), &str)] = &[
    (("a", 256), "261 bytes"),
    (("a", 257), "4 bytes"),
    (("\\u00e9", 128), "261 bytes"),
    (("\\u00e9", 129), "4 bytes"),
];

/// The JSON string of that many times a piece.
fn string_of(alloc: Global, piece: &str, times: usize) -> Result<String, AllocError> {
    let mut text = String::new(alloc);
    text.push('"')?;
    for _ in 0..times {
        text.push_str(piece)?;
    }
    text.push('"')?;
    Ok(text)
}

fn long_told(alloc: Global, case: &(&str, usize)) -> Result<String, AllocError> {
    let (piece, times) = case;
    let text = string_of(alloc, piece, *times)?;
    let told = value_in(alloc, &text.as_str())?;
    format!(in alloc; "{} bytes", told.len())
}

#[test]
fn long_values(rt: HostRuntime) -> Result<(), Fail> {
    expect_all(&rt, rt.alloc(), LONG, long_told)?;
    Ok(())
}

/// Two texts of values, and whether the values are the same.
const SAME: &[((&str, &str), &str)] = &[
    (("true", "true"), "same"),
    (("true", "false"), "other"),
    (("-1", "-1"), "same"),
    (("1", "-1"), "other"),
    (("1", "true"), "other"),
    (("1", "\"1\""), "other"),
    (("\"a\"", "\"\\u0061\""), "same"),
    (("\"a\"", "\"ab\""), "other"),
    (("\"ab\"", "\"a\""), "other"),
    (("\"\"", "\"\""), "same"),
];

/// Whether two values are the same.
fn sameness(a: &Option<Value>, b: &Option<Value>) -> &'static str {
    match (a, b) {
        (Some(a), Some(b)) if a.is(b) => "same",
        (Some(_), Some(_)) => "other",
        _ => "none",
    }
}

/// The same of a value and a text.
fn sameness_with(alloc: Global, a: &Option<Value>, b: &str) -> Result<&'static str, AllocError> {
    let b = read_value(alloc, b.as_bytes())?;
    let same = sameness(a, &b);
    drop(b);
    Ok(same)
}

/// The same of two texts.
fn sameness_of(alloc: Global, case: &(&str, &str)) -> Result<String, AllocError> {
    let (a, b) = case;
    let a = read_value(alloc, a.as_bytes())?;
    let same = sameness_with(alloc, &a, b);
    drop(a);
    String::from_str(alloc, same?)
}

#[test]
fn same_values(rt: HostRuntime) -> Result<(), Fail> {
    expect_all(&rt, rt.alloc(), SAME, sameness_of)?;
    Ok(())
}

/// Texts of values, and how the values are printed.
const PRINTED: &[(&str, &str)] = &[
    ("true", "true"),
    ("false", "false"),
    ("-9223372036854775808", "-9223372036854775808"),
    ("\"\\u0061\\u0022\\u000a\"", "\"a\\\"\\n\""),
];

/// How the value of a text is printed, or `none` where the text is no value.
fn printed(alloc: Global, text: &&str) -> Result<String, AllocError> {
    let found = read_value(alloc, text.as_bytes())?;
    let text = print_found(alloc, &found);
    drop(found);
    text
}

fn print_found(alloc: Global, found: &Option<Value>) -> Result<String, AllocError> {
    match found {
        None => String::from_str(alloc, "none"),
        Some(value) => String::from_str(alloc, print_value(alloc, value)?.as_str()),
    }
}

#[test]
fn printed_values(rt: HostRuntime) -> Result<(), Fail> {
    expect_all(&rt, rt.alloc(), PRINTED, printed)?;
    Ok(())
}
