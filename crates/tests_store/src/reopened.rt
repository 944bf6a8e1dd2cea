//! Stores that are opened: the older gate is closed and a short file lengthened, whatever call of the disk fails in
//! between the store opens as the same log, and a log that was opened goes on.

use crate::openings::{ALL, Slot, store};
use crate::told::{expect_all, numbers};
use fish_disk::MemoryDisk;
use fish_recover::{Asked, OpenRefusal, Opened, open_store};
use fish_rule::{base, shape};
use fish_value::Bytes;
use std::alloc::{AllocError, Global};
use std::fmt::Write;
use std::test::Fail;

/// Where the second gate is.
const SECOND_GATE: usize = 4_096;

/// Where the first body says its format: `1` or `2`.
const FORMAT_AT: usize = 8_199;

/// What is asked for: the shape of the stores here, of which a new table has one page.
pub(crate) const ASKED: Asked = Asked {
    pages: Some(1),
    bucket_bits: Some(4),
};

/// Both slots, and how many bytes the file has.
pub(crate) type Case = (Slot, Slot, usize);

/// What is open, and then the gates and the length of the file.
const CASES: &[(Case, &str)] = &[
    (
        ((1, 0, 3, 6), (0, 1, 2, 4), ALL),
        "opened 3 at line 6 of 1 pages heads 5:17 6:9 starts 0 at 0 rows 0 3 gates 10 bytes 180416",
    ),
    (
        ((0, 0, 3, 6), (1, 1, 2, 4), ALL),
        "opened 2 at line 4 of 1 pages heads 5:1 6:9 starts 0 at 0 rows 0 2 gates 01 bytes 180416",
    ),
    // both gates are open: the older one is closed
    (
        ((1, 0, 3, 6), (1, 1, 2, 4), ALL),
        "opened 2 at line 4 of 1 pages heads 5:1 6:9 starts 0 at 0 rows 0 2 gates 01 bytes 180416",
    ),
    (
        ((1, 0, 3, 6), (1, 2, 2, 4), ALL),
        "opened 3 at line 6 of 1 pages heads 5:17 6:9 starts 0 at 0 rows 0 3 gates 10 bytes 180416",
    ),
    // a store without a record, whose file ends after its body, or one byte before the lines
    (
        ((1, 0, 0, 0), (0, 1, 0, 0), 94_208),
        "opened 0 at line 0 of 1 pages heads starts rows 0 0 gates 10 bytes 180224",
    ),
    (
        ((1, 0, 0, 0), (0, 1, 0, 0), 180_223),
        "opened 0 at line 0 of 1 pages heads starts rows 0 0 gates 10 bytes 180224",
    ),
    // and of which the other body is there in part, with its turn
    (
        ((1, 0, 0, 0), (1, 2, 0, 0), 94_300),
        "opened 0 at line 0 of 1 pages heads starts rows 0 0 gates 10 bytes 180224",
    ),
    // an empty disk gets a store without a definition
    (
        ((0, 0, 0, 0), (0, 0, 0, 0), 0),
        "made 0 at line 0 of 1 pages heads starts rows gates 10 bytes 180224",
    ),
    // whatever isn't opened stays as it is
    (
        ((1, 0, 3, 6), (1, 0, 2, 4), ALL),
        "damaged 0 gates 11 bytes 180416",
    ),
    (
        ((0, 0, 3, 6), (0, 1, 2, 4), 94_208),
        "not a store gates 00 bytes 94208",
    ),
    (
        ((1, 0, 3, 6), (1, 1, 4, 6), ALL),
        "damaged 3 gates 11 bytes 180416",
    ),
];

/// Heads that are there, by bucket, page starts, and where the rows begin.
fn put_kept(told: &mut String, opened: &Opened) -> Result<(), AllocError> {
    told.push_str(" heads")?;
    for (bucket, head) in opened.flusher.heads().iter().enumerate() {
        if *head != 0 {
            write!(told, " {bucket}:{head}")?;
        }
    }
    told.push_str(" starts")?;
    for start in opened.flusher.starts() {
        write!(told, " {} at {}", start.number, start.line)?;
    }
    told.push_str(" rows")?;
    for row in opened.catalog.rows() {
        if let Some(from) = row.from {
            write!(told, " {from}")?;
        }
    }
    Ok(())
}

fn opened_text(alloc: Global, opened: &Opened) -> Result<String, AllocError> {
    let how = if opened.made { "made" } else { "opened" };
    let first = base(&opened.log);
    let pages = shape(&opened.log).pages;
    let mut told = format!(in alloc;
        "{how} {} at line {} of {pages} pages",
        opened.count, first.line
    )?;
    put_kept(&mut told, opened)?;
    Ok(told)
}

/// What is open, or why nothing is.
fn answer(alloc: Global, opened: Result<Opened, OpenRefusal>) -> Result<String, AllocError> {
    match opened {
        Ok(opened) => {
            let told = opened_text(alloc, &opened);
            drop(opened);
            told
        }
        Err(refusal) => format!(in alloc; "{refusal}"),
    }
}

/// A gate of a file: `1` if it is open, `0` if not.
fn gate_of(bytes: &[u8], at: usize) -> char {
    if at < bytes.len() && bytes[at] == 1 {
        '1'
    } else {
        '0'
    }
}

/// Puts gates and length of a file after a text.
fn put_file(told: &mut String, bytes: &[u8]) -> Result<(), AllocError> {
    let (first, second) = (gate_of(bytes, 0), gate_of(bytes, SECOND_GATE));
    write!(told, " gates {first}{second} bytes {}", bytes.len())?;
    Ok(())
}

/// What an opening of a file answers, and the file after it.
fn file_told(alloc: Global, bytes: Bytes) -> Result<String, AllocError> {
    let mut disk = MemoryDisk::new(alloc, bytes, numbers(alloc, &[])?);
    let mut told = answer(alloc, open_store(alloc, ASKED, &mut disk))?;
    put_file(&mut told, disk.as_bytes())?;
    drop(disk);
    Ok(told)
}

/// The first bytes of a store with these slots.
pub(crate) fn file_of(alloc: Global, case: &Case) -> Result<Bytes, AllocError> {
    let bytes = store(alloc, &case.0, &case.1)?;
    let size = case.2.min(bytes.as_bytes().len());
    Bytes::copy_of(alloc, &bytes.as_bytes()[..size])
}

fn case_told(alloc: Global, case: &Case) -> Result<String, AllocError> {
    file_told(alloc, file_of(alloc, case)?)
}

#[test]
fn reopened(rt: HostRuntime) -> Result<(), Fail> {
    expect_all(&rt, rt.alloc(), CASES, case_told)?;
    Ok(())
}

/// The format of the first body, as its letter.
const FORMATS: &[(u8, &str)] = &[
    (
        b'1',
        "opened 3 at line 6 of 1 pages heads 5:17 6:9 starts 0 at 0 rows 0 3 gates 10 bytes 180416",
    ),
    (b'3', "damaged 0 gates 10 bytes 180416"),
];

fn format_told(alloc: Global, letter: &u8) -> Result<String, AllocError> {
    let bytes = store(alloc, &(1, 0, 3, 6), &(0, 1, 2, 4))?;
    let mut all = Vec::from_slice(alloc, bytes.as_bytes())?;
    if FORMAT_AT < all.len() {
        all[FORMAT_AT] = *letter;
    }
    file_told(alloc, Bytes::copy_of(alloc, all.as_slice())?)
}

#[test]
fn formats(rt: HostRuntime) -> Result<(), Fail> {
    expect_all(&rt, rt.alloc(), FORMATS, format_told)?;
    Ok(())
}

/// The number of the call that fails as a store is opened both of whose gates are open; what was answered; and how many
/// records each of eight picks of a crash opens with then. The calls are a sync, the length, a sync, two reads of gates
/// and two of turns, one of a body and one of a page; the write of the older gate and its sync; and the length again.
const STOPS: &[(u64, &str)] = &[
    (0, "disk 22222222"),
    (1, "disk 22222222"),
    (2, "disk 22222222"),
    (3, "disk 22222222"),
    (4, "disk 22222222"),
    (5, "disk 22222222"),
    (6, "disk 22222222"),
    (7, "disk 22222222"),
    (8, "disk 22222222"),
    (9, "disk 22222222"),
    (10, "disk 22222222"),
    (11, "disk 22222222"),
    (
        12,
        "opened 2 at line 4 of 1 pages heads 5:1 6:9 starts 0 at 0 rows 0 2 22222222",
    ),
];

/// The same of a store without a record whose file ends after its body: a sync, the length, a sync, two reads of gates
/// and one of a body; the length again, the write of zero bytes, and its sync.
const SHORT_STOPS: &[(u64, &str)] = &[
    (5, "disk 00000000"),
    (6, "disk 00000000"),
    (7, "disk 00000000"),
    (8, "disk 00000000"),
    (
        9,
        "opened 0 at line 0 of 1 pages heads starts rows 0 0 00000000",
    ),
];

/// How many records a file opens with, or `x`.
pub(crate) fn count_of(alloc: Global, bytes: Bytes) -> Result<char, AllocError> {
    let mut disk = MemoryDisk::new(alloc, bytes, numbers(alloc, &[])?);
    let count = match open_store(alloc, ASKED, &mut disk) {
        Ok(opened) => {
            let count = opened.count;
            drop(opened);
            char::from_digit(count, 10).unwrap_or('x')
        }
        Err(_) => 'x',
    };
    drop(disk);
    Ok(count)
}

fn left_told(alloc: Global, bytes: Bytes, fail: u64) -> Result<String, AllocError> {
    let mut disk = MemoryDisk::new(alloc, bytes, numbers(alloc, &[fail])?);
    let mut told = answer(alloc, open_store(alloc, ASKED, &mut disk))?;
    told.push(' ')?;
    for pick in 0..8 {
        let left = disk.crashed(alloc, pick)?;
        let again = Bytes::copy_of(alloc, left.as_bytes());
        drop(left);
        told.push(count_of(alloc, again?)?)?;
    }
    drop(disk);
    Ok(told)
}

fn stop_told(alloc: Global, fail: &u64) -> Result<String, AllocError> {
    left_told(alloc, store(alloc, &(1, 0, 3, 6), &(1, 1, 2, 4))?, *fail)
}

fn short_told(alloc: Global, fail: &u64) -> Result<String, AllocError> {
    let bytes = file_of(alloc, &((1, 0, 0, 0), (0, 1, 0, 0), 94_208))?;
    left_told(alloc, bytes, *fail)
}

#[test]
fn stopped(rt: HostRuntime) -> Result<(), Fail> {
    expect_all(&rt, rt.alloc(), STOPS, stop_told)?;
    expect_all(&rt, rt.alloc(), SHORT_STOPS, short_told)?;
    Ok(())
}
