//! Stores of two slots, whose lines another program packed, as an opening finds them.

use crate::images::{WORDS, checked_text, commit};
use crate::told::{bytes_of, expect_all, numbers};
use fish_catalog::Commit;
use fish_disk::MemoryDisk;
use fish_image::{has_format, is_within, slot_body};
use fish_recover::{Asked, Found, OpenRefusal, find_store};
use fish_value::Bytes;
use std::alloc::{AllocError, Global};
use std::test::Fail;

/// From one gate to the other, and after that to the first body.
const GATE_STEP: usize = 4_096;

/// A slot: its gate, its turn, and how many entries and lines it counts.
pub(crate) type Slot = (u8, u8, u32, u64);

/// Both slots, how many bytes the file has, and which pages and bits are asked for.
type Case = (Slot, Slot, usize, Option<u16>, Option<u8>);

/// All bytes: 180,224 and six lines.
pub(crate) const ALL: usize = 180_416;

/// Three entries and two, of turns that follow one another, and what is found.
const CASES: &[(Case, &str)] = &[
    (
        ((1, 0, 3, 6), (0, 1, 2, 4), ALL, None, None),
        "slot 0 alone true count 3 heads 5:17 6:9 starts 0 at 0",
    ),
    (
        ((0, 0, 3, 6), (1, 1, 2, 4), ALL, None, None),
        "slot 1 alone true count 2 heads 5:1 6:9 starts 0 at 0",
    ),
    // both gates are open: the turn after the other's, also the one after 2; and neither
    (
        ((1, 0, 3, 6), (1, 1, 2, 4), ALL, None, None),
        "slot 1 alone false count 2 heads 5:1 6:9 starts 0 at 0",
    ),
    (
        ((1, 0, 3, 6), (1, 2, 2, 4), ALL, None, None),
        "slot 0 alone false count 3 heads 5:17 6:9 starts 0 at 0",
    ),
    (((1, 1, 3, 6), (1, 1, 2, 4), ALL, None, None), "damaged 0"),
    // no gate is open: another byte opens none
    (((0, 0, 3, 6), (0, 1, 2, 4), ALL, None, None), "not a store"),
    (
        ((2, 0, 3, 6), (255, 1, 2, 4), ALL, None, None),
        "not a store",
    ),
    (((1, 0, 3, 6), (0, 1, 2, 4), 0, None, None), "not a store"),
    // the shape that is asked for, which is held before the lines
    (
        ((1, 0, 3, 6), (0, 1, 2, 4), ALL, Some(1), Some(4)),
        "slot 0 alone true count 3 heads 5:17 6:9 starts 0 at 0",
    ),
    (
        ((1, 0, 3, 6), (0, 1, 2, 4), ALL, Some(2), Some(4)),
        "shape 1 4 asked 2 4",
    ),
    (
        ((1, 0, 3, 6), (0, 1, 2, 4), ALL, Some(1), Some(5)),
        "shape 1 4 asked 1 5",
    ),
    (
        ((1, 0, 4, 6), (0, 1, 2, 4), ALL, None, Some(5)),
        "shape 1 4 asked 1 5",
    ),
    // lines that stand for no log, by what is counted and by what the file has
    (((1, 0, 4, 6), (0, 1, 2, 4), ALL, None, None), "damaged 3"),
    (((1, 0, 2, 6), (0, 1, 2, 4), ALL, None, None), "damaged 2"),
    (
        ((1, 0, 3, 6), (0, 1, 2, 4), ALL - 65, None, None),
        "damaged 1",
    ),
    // a store without a record needs its body alone
    (
        ((1, 0, 0, 0), (0, 1, 0, 0), 94_208, None, None),
        "slot 0 alone true count 0 heads starts",
    ),
    (
        ((1, 0, 0, 0), (0, 1, 0, 0), 94_207, None, None),
        "damaged 0",
    ),
];

/// The body of a slot, or none where its numbers are out of their limits.
fn told_body(alloc: Global, c: &Commit) -> Result<Bytes, AllocError> {
    if !is_within(c) || !has_format(c) {
        return Ok(Bytes::new(alloc));
    }
    slot_body(alloc, c)
}

fn body(alloc: Global, slot: &Slot) -> Result<Bytes, AllocError> {
    let mut c = commit(alloc, &(slot.2, slot.3, None, 0, 0))?;
    c.turn = slot.1;
    let told = told_body(alloc, &c);
    drop(c);
    told
}

/// A gate and what stands between it and what follows.
fn put_gate(alloc: Global, all: &mut Bytes, gate: u8) -> Result<(), AllocError> {
    let rest = bytes_of(alloc, 0, GATE_STEP - 1)?;
    all.append(&[gate])?;
    all.append(rest.as_bytes())
}

/// All bytes of a store with these slots.
pub(crate) fn store(alloc: Global, first: &Slot, second: &Slot) -> Result<Bytes, AllocError> {
    let mut all = Bytes::new(alloc);
    put_gate(alloc, &mut all, first.0)?;
    put_gate(alloc, &mut all, second.0)?;
    let one = body(alloc, first)?;
    all.append(one.as_bytes())?;
    let other = body(alloc, second)?;
    all.append(other.as_bytes())?;
    for word in WORDS {
        all.append(&word.to_le_bytes())?;
    }
    Ok(all)
}

/// What was found, or why nothing was.
fn answer(alloc: Global, found: Result<Found, OpenRefusal>) -> Result<String, AllocError> {
    match found {
        Ok(found) => {
            let (slot, alone, count) = (found.slot, !found.both, found.commit.count);
            let checked = checked_text(alloc, &found.checked);
            drop(found);
            let checked = checked?;
            format!(in alloc; "slot {slot} alone {alone} count {count} {checked}")
        }
        Err(refusal) => format!(in alloc; "{refusal}"),
    }
}

/// What an opening finds on a disk whose call of this number fails.
fn opened(
    alloc: Global,
    bytes: Bytes,
    fail: Option<u64>,
    asked: Asked,
) -> Result<String, AllocError> {
    let fails = match fail {
        Some(call) => numbers(alloc, &[call])?,
        None => numbers(alloc, &[])?,
    };
    let mut disk = MemoryDisk::new(alloc, bytes, fails);
    let told = answer(alloc, find_store(alloc, asked, &mut disk));
    drop(disk);
    told
}

fn case_told(alloc: Global, case: &Case) -> Result<String, AllocError> {
    let bytes = store(alloc, &case.0, &case.1)?;
    let size = case.2.min(bytes.as_bytes().len());
    let kept = Bytes::copy_of(alloc, &bytes.as_bytes()[..size])?;
    let asked = Asked {
        pages: case.3,
        bucket_bits: case.4,
    };
    opened(alloc, kept, None, asked)
}

#[test]
fn openings(rt: HostRuntime) -> Result<(), Fail> {
    expect_all(&rt, rt.alloc(), CASES, case_told)?;
    Ok(())
}

/// The number of the call that fails, of a store both of whose gates are open. The calls are a sync, two reads of gates
/// and two of turns, one of a body, and one of a page.
const STOPS: &[(u64, &str)] = &[
    (0, "disk"),
    (1, "disk"),
    (2, "disk"),
    (3, "disk"),
    (4, "disk"),
    (5, "disk"),
    (6, "disk"),
    (7, "slot 1 alone false count 2 heads 5:1 6:9 starts 0 at 0"),
];

fn stop_told(alloc: Global, fail: &u64) -> Result<String, AllocError> {
    let bytes = store(alloc, &(1, 0, 3, 6), &(1, 1, 2, 4))?;
    let asked = Asked {
        pages: None,
        bucket_bits: None,
    };
    opened(alloc, bytes, Some(*fail), asked)
}

#[test]
fn stops(rt: HostRuntime) -> Result<(), Fail> {
    expect_all(&rt, rt.alloc(), STOPS, stop_told)?;
    Ok(())
}
