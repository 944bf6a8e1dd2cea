//! Arrays in lines, with answers from RFC 8259, section 5: their elements in order, as a tree and over a tape.

use crate::expecting::expect_all;
use crate::told::{agreed, fields_text, items_at, path_of};
use fish_json::{JsonReader, JsonRecord, JsonRow};
use fish_value::Path;
use std::alloc::{AllocError, Global};
use std::test::Fail;

/// Lines, paths with a dot between the names, and the elements of the array there.
const ARRAYS: &[((&str, &str), &str)] = &[
    (("{\"a\":[]}", "a"), ""),
    (("{\"a\":[ ]}", "a"), ""),
    (("{\"a\":[1]}", "a"), "int 1|"),
    (
        ("{\"tags\":[\"a\",\"b\",\"a\"]}", "tags"),
        "text a|text b|text a|",
    ),
    (
        ("{\"a\":[true,null,-7,1.5,\"\",{\"b\":1},[2,3],false]}", "a"),
        "true|null|int -7|other|text |other|other|false|",
    ),
    // Only the outermost array's elements, also where they begin or end with others.
    (("{\"a\":[[1],2,[]]}", "a"), "other|int 2|other|"),
    (("{\"a\":[{},{\"a\":[5]}]}", "a"), "other|other|"),
    // Blanks round the commas, and escapes.
    (
        ("{\"a\":[ 1 ,\t2\r\n, \"\\u00e9\\n\" ]}", "a"),
        "int 1|int 2|text é\n|",
    ),
    (
        ("{\"a\":[9223372036854775807,9223372036854775808]}", "a"),
        "int 9223372036854775807|other|",
    ),
    // Inside objects, and of two equal names the last.
    (("{\"a\":{\"b\":[1,2]},\"b\":[3]}", "a.b"), "int 1|int 2|"),
    (("{\"a\":[1],\"a\":[2,3]}", "a"), "int 2|int 3|"),
    (("{\"a\":[1],\"a\":2}", "a"), ""),
    // What is no array has none: an array has no names either.
    (("{\"a\":{\"b\":[1]}}", "a"), ""),
    (("{\"a\":[{\"b\":[1]}]}", "a.b"), ""),
    (("{\"a\":\"[1]\"}", "a"), ""),
    (("{\"a\":1}", "a"), ""),
    (("{\"a\":null}", "a"), ""),
    (("{\"b\":[1]}", "a"), ""),
    (("{}", "a"), ""),
];

/// What two ways of one reader tell: borrowed, and copied.
fn in_record(alloc: Global, record: &JsonRecord, path: &Path) -> Result<String, AllocError> {
    let borrowed = items_at(alloc, record, path)?;
    let copied = record.get_each(alloc, path)?;
    let told = fields_text(alloc, &copied)?;
    agreed(alloc, borrowed.as_str(), told.as_str())
}

/// The same of a row.
fn in_row(alloc: Global, row: &JsonRow<'_>, path: &Path) -> Result<String, AllocError> {
    let borrowed = items_at(alloc, row, path)?;
    let copied = row.get_each(alloc, path)?;
    let told = fields_text(alloc, &copied)?;
    agreed(alloc, borrowed.as_str(), told.as_str())
}

/// What a line that is read as a tree has there.
fn by_tree(alloc: Global, line: &str, path: &Path) -> Result<String, AllocError> {
    match JsonRecord::read(alloc, line.as_bytes()) {
        Ok(record) => {
            let told = in_record(alloc, &record, path);
            drop(record);
            told
        }
        Err(refusal) => format!(in alloc; "{refusal}"),
    }
}

/// What it has over a tape.
fn by_tape(alloc: Global, line: &str, path: &Path) -> Result<String, AllocError> {
    let mut reader = JsonReader::new(alloc);
    match reader.read(alloc, line.as_bytes()) {
        Ok(row) => {
            let told = in_row(alloc, &row, path);
            drop(row);
            told
        }
        Err(refusal) => format!(in alloc; "{refusal}"),
    }
}

fn told(alloc: Global, case: &(&str, &str)) -> Result<String, AllocError> {
    let path = path_of(alloc, case.1)?;
    let tree = by_tree(alloc, case.0, &path)?;
    let tape = by_tape(alloc, case.0, &path)?;
    agreed(alloc, tree.as_str(), tape.as_str())
}

#[test]
fn arrays(rt: HostRuntime) -> Result<(), Fail> {
    expect_all(&rt, rt.alloc(), ARRAYS, told)?;
    Ok(())
}
