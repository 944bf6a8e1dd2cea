//! Older records, read from the lines of a small log that another program packed, and from a disk of many pages.

ghost use Rattle.std.specs.Prelude.{◌≡◌, ◌<◌};
ghost use Rattle.fish_psf.specs.Blanks.{IsBlankOf};

use crate::images::WORDS;
use crate::told::{expect, expect_all, numbers};
use fish_catalog::{Entry, PageStart, PageStarts};
use fish_cold::{Cold, ColdNode, ColdRefusal};
use fish_disk::{Disk, MemoryDisk};
use fish_layout::LINES_AT;
use fish_psf::Steps;
use fish_rule::Base;
use fish_value::{Bytes, print_value};
use std::alloc::{AllocError, Global};
use std::fmt::Write;
use std::marker::Brand;
use std::sync::ledger::{Blank, Ledger};
use std::test::Fail;

/// A word of the log that is changed, with the bits; how many words the file has; and which call of the disk fails.
type Case = (usize, u64, usize, u64);

/// What is answered for the numbers from the newest, and for the chain of the bucket of `Push` from its head at 17.
///
/// The changes: none; the second header put to nothing, and to that of a void of two lines; a byte of the second
/// payload that is no UTF-8; the number of the third record's entry 5, and its previous node its own place; the last
/// line missing; and the first call of the disk fails.
const CASES: &[(Case, &str)] = &[
    (
        (0, 0, 24, 99),
        r#"1:{"type":"Push"} 2:{"type":"Pull"} 1:{"type":"Push"} / 2 "Push" 1 1:{"type":"Push"} 0 "Push" 0 1:{"type":"Push"} end"#,
    ),
    (
        (8, 0x3c01_1004_0002, 24, 99),
        r#"(damaged at 2) (damaged at 1) 1:{"type":"Push"} / 2 "Push" 1 1:{"type":"Push"} 0 "Push" 0 1:{"type":"Push"} end"#,
    ),
    (
        (8, 0x3c01_1006_0000, 24, 99),
        r#"1:{"type":"Push"} void 1:{"type":"Push"} / 2 "Push" 1 1:{"type":"Push"} 0 "Push" 0 1:{"type":"Push"} end"#,
    ),
    (
        (13, 0x80, 24, 99),
        r#"1:{"type":"Push"} (damaged at 1) 1:{"type":"Push"} / 2 "Push" 1 1:{"type":"Push"} 0 "Push" 0 1:{"type":"Push"} end"#,
    ),
    (
        (18, 7, 24, 99),
        r#"1:{"type":"Push"} 2:{"type":"Pull"} 1:{"type":"Push"} / (damaged at 3)"#,
    ),
    (
        (17, 0x10, 24, 99),
        r#"1:{"type":"Push"} 2:{"type":"Pull"} 1:{"type":"Push"} / (damaged at 3)"#,
    ),
    (
        (0, 0, 20, 99),
        r#"(damaged at 2) 2:{"type":"Pull"} 1:{"type":"Push"} / (damaged at 3)"#,
    ),
    (
        (0, 0, 24, 0),
        r#"(the disk failed) 2:{"type":"Pull"} 1:{"type":"Push"} / 2 "Push" 1 1:{"type":"Push"} 0 "Push" 0 1:{"type":"Push"} end"#,
    ),
];

/// A file whose slots are empty, with so many words of the log, of which one is changed.
pub(crate) fn file(alloc: Global, case: &Case) -> Result<Bytes, AllocError> {
    let mut bytes = vec![in alloc; 0u8; LINES_AT as usize]?;
    for (place, word) in WORDS.iter().enumerate() {
        if place < case.2 {
            let changed = if place == case.0 {
                *word ^ case.1
            } else {
                *word
            };
            bytes.extend_from_slice(&changed.to_le_bytes())?;
        }
    }
    Bytes::copy_of(alloc, bytes.as_slice())
}

/// Nothing read of a log in which one page has a start.
fn nothing_read(alloc: Global, base: Base) -> Result<Cold, AllocError> {
    let mut starts = PageStarts::new(alloc);
    starts.push(PageStart { number: 0, line: 0 })?;
    if base.line > 1 << 30 {
        drop(starts);
        return Err(AllocError);
    }
    Cold::new(alloc, base, starts)
}

/// Puts an entry, or why it isn't answered, after a text.
fn put_entry(told: &mut String, found: Result<Entry, ColdRefusal>) -> Result<(), AllocError> {
    match found {
        Ok(entry) => {
            let put = put_stored(told, &entry);
            drop(entry);
            put
        }
        Err(refusal) => write!(told, "({refusal}) "),
    }
}

fn put_stored(told: &mut String, entry: &Entry) -> Result<(), AllocError> {
    match entry {
        Entry::Stored {
            lane,
            form: _,
            payload,
        } => write!(told, "{lane}:{} ", payload.as_str()),
        Entry::Void => told.push_str("void "),
    }
}

/// Puts a key entry and its record after a text.
fn put_node<D: Disk, L: Ledger>(
    alloc: Global,
    told: &mut String,
    cold: &mut Cold,
    disk: &mut D,
    node: &ColdNode,
    loads: &mut Steps<L>,
) -> Result<(), AllocError> {
    let value = print_value(alloc, &node.value)?;
    write!(told, "{} {} {} ", node.number, value.as_str(), node.prev)?;
    drop(value);
    if node.number < cold.base().number && node.place < 4 * cold.base().line {
        put_entry(told, cold.cold_row(disk, node, loads))?;
    }
    Ok(())
}

/// Puts the key entries from a place down after a text.
fn put_chain<D: Disk, L: Ledger>(
    alloc: Global,
    told: &mut String,
    cold: &mut Cold,
    disk: &mut D,
    head: u64,
    loads: &mut Steps<L>,
) -> Result<(), AllocError> {
    let mut place = head;
    let mut below = cold.base().number;
    for _ in 0..8 {
        if place >= 4 * cold.base().line {
            return told.push_str("past the base");
        }
        match cold.cold_walk(disk, place, below, 0, loads) {
            Ok(Some(node)) => {
                place = node.prev;
                below = node.number.saturating_add(1);
                let put = put_node(alloc, told, cold, disk, &node, loads);
                drop(node);
                put?;
            }
            Ok(None) => return told.push_str("end"),
            Err(refusal) => return write!(told, "({refusal})"),
        }
    }
    Ok(())
}

/// What all numbers and the chain from 17 answer, with a counter of a blank.
pub(crate) fn answers_told<L: Ledger>(
    alloc: Global,
    blank: Blank,
    cold: &mut Cold,
    disk: &mut MemoryDisk,
) -> Result<String, AllocError>
    requires blank { IsBlankOf L.name L.parts blank }
{
    let mut loads = Steps::<L>::new(blank);
    let mut told = String::new(alloc);
    for number in (0..cold.base().number).rev() {
        if number < cold.base().number {
            put_entry(&mut told, cold.cold_record(disk, number, &mut loads))?;
        }
    }
    told.push_str("/ ")?;
    put_chain(alloc, &mut told, cold, disk, 17, &mut loads)?;
    Ok(told)
}

fn case_told(alloc: Global, case: &Case) -> Result<String, AllocError> {
    let mut disk = MemoryDisk::new(alloc, file(alloc, case)?, numbers(alloc, &[case.3])?);
    let mut cold = nothing_read(alloc, Base { number: 3, line: 6 })?;
    let told = answers_told::<Brand>(alloc, Blank::new(1), &mut cold, &mut disk);
    drop((cold, disk));
    told
}

#[test]
fn older_records(rt: HostRuntime) -> Result<(), Fail> {
    expect_all(&rt, rt.alloc(), CASES, case_told)?;
    Ok(())
}
