//! The language's table, and the cases round it.

use crate::expecting::expect_all;
use fish_lang::{Def, LangRefusal, parse_def, print_def};
use std::alloc::{AllocError, Global};
use std::test::Fail;
use tests_values::agreed;

/// The canonical text of a definition, or why it is refused.
fn told(alloc: Global, source: &str) -> Result<String, AllocError> {
    match parse_def(alloc, source.as_bytes()) {
        Ok(def) => {
            let text = printed(alloc, &def);
            drop(def);
            text
        }
        Err(refusal) => refusal_text(alloc, refusal),
    }
}

fn printed(alloc: Global, def: &Def) -> Result<String, AllocError> {
    let text = print_def(alloc, def)?;
    String::from_str(alloc, text.as_str())
}

fn refusal_text(alloc: Global, refusal: LangRefusal) -> Result<String, AllocError> {
    format!(in alloc; "{refusal}")
}

/// Definitions, and their canonical texts, each of which is its own; texts that are none, and why.
const DEFINITIONS: &[(&str, &str)] = &[
    (
        "take  \"type\"  when not ( n<3 or n >5)",
        "take type when not (n < 3 or n > 5)",
    ),
    ("each tags", "each tags"),
    (
        "each  a.\"each\" when ( n<3 )",
        "each a.\"each\" when n < 3",
    ),
    ("take \"each\"", "take \"each\""),
    (
        "flag when a = 1 or (b = 2 or c = 3)",
        "flag when a = 1 or (b = 2 or c = 3)",
    ),
    ("take a.\"by\".\"b c\".$1", "take a.\"by\".\"b c\".$1"),
    ("bucket n by 10 when n>=-5", "bucket n by 10 when n >= -5"),
    (
        "flag when ((a exists and (b exists)) and (c exists and d starts \"x\\u0079\"))",
        "flag when a exists and b exists and (c exists and d starts \"xy\")",
    ),
    (
        "flag when a=1 or b=true and not not c=false",
        "flag when a = 1 or b = true and not not c = false",
    ),
    (
        "flag when (a=1 or b=2) and c=\"\"",
        "flag when (a = 1 or b = 2) and c = \"\"",
    ),
    (
        "flag when not (a=1 and b=2)",
        "flag when not (a = 1 and b = 2)",
    ),
    (
        "flag when ((((((((((((((((a = 1))))))))))))))))",
        "flag when a = 1",
    ),
    // Refusals.
    ("bucket n by 0", "zero width at 12"),
    ("take type whem x exists", "unexpected at 10"),
    (
        "take n when n = 9223372036854775808",
        "number too large at 16",
    ),
    ("take", "unexpected at 4"),
    ("", "unexpected at 0"),
    ("take ", "unexpected at 5"),
    ("take a.by", "unexpected at 7"),
    ("each", "unexpected at 4"),
    ("each when a = 1", "unexpected at 5"),
    ("each a by 10", "unexpected at 7"),
    ("each a each b", "unexpected at 7"),
    ("take a.each", "unexpected at 7"),
    ("take each", "unexpected at 5"),
    ("bucket n by -1", "unexpected at 12"),
    ("take n when n!=-0", "unexpected at 15"),
    ("flag when a=\"x", "unexpected at 12"),
    ("flag when a=007", "unexpected at 12"),
    ("flag when a = 1 b", "unexpected at 16"),
    ("flag when (a = 1", "unexpected at 16"),
    (
        "flag when not not not not not not not not not not not not not not not not not a = 1",
        "too deep at 74",
    ),
    (
        "flag when (((((((((((((((((a = 1)))))))))))))))))",
        "too deep at 26",
    ),
];

/// The canonical text of a definition, which is its own, or why it is refused.
fn told_again(alloc: Global, source: &&str) -> Result<String, AllocError> {
    let text = told(alloc, source)?;
    if is_refusal(text.as_str()) {
        return Ok(text);
    }
    let again = told(alloc, text.as_str())?;
    agreed(alloc, text.as_str(), again.as_str())
}

/// A definition begins with one of four words, and no refusal does.
fn is_refusal(text: &str) -> bool {
    !(text.starts_with("take ")
        || text.starts_with("each ")
        || text.starts_with("bucket ")
        || text.starts_with("flag "))
}

#[test]
fn definitions(rt: HostRuntime) -> Result<(), Fail> {
    expect_all(&rt, rt.alloc(), DEFINITIONS, told_again)?;
    Ok(())
}

/// A text's beginning, a piece, how often it follows, and the end; and what is told of the text, or `itself`.
const LONG: &[((&str, &str, usize, &str), &str)] = &[
    (("take a", ".abc", 62, ""), "itself"),
    (("take a", ".abc", 62, "."), "unexpected at 255"),
    (("take a", ".abc", 61, ".abcd"), "itself"),
    (("take a", ".abc", 62, ".b"), "too long 256"),
    (("take a", "b", 249, ""), "itself"),
    (("take a", "b", 250, ""), "too long 256"),
    (("each a", "b", 249, ""), "itself"),
    (("each a", "b", 250, ""), "too long 256"),
    // Sources.
    (("take a", " ", 4_090, ""), "take a"),
    (("take a", " ", 4_091, ""), "too long 4097"),
    (("take a", " ", 4_250, ""), "too long 4256"),
    (("bucket n by", " ", 4_085, ""), "unexpected at 4096"),
    (("bucket n by", " ", 4_086, ""), "too long 4097"),
];

fn long_text(alloc: Global, case: &(&str, &str, usize, &str)) -> Result<String, AllocError> {
    let (front, piece, times, end) = case;
    let mut text = String::from_str(alloc, front)?;
    for _ in 0..*times {
        text.push_str(piece)?;
    }
    text.push_str(end)?;
    Ok(text)
}

fn long_told(alloc: Global, case: &(&str, &str, usize, &str)) -> Result<String, AllocError> {
    let source = long_text(alloc, case)?;
    let text = told(alloc, source.as_str())?;
    if text.as_str() == source.as_str() {
        return String::from_str(alloc, "itself");
    }
    Ok(text)
}

#[test]
fn long_texts(rt: HostRuntime) -> Result<(), Fail> {
    expect_all(&rt, rt.alloc(), LONG, long_told)?;
    Ok(())
}
