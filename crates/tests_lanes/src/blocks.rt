//! Blocks of lanes on threads: what their items tell, and the log that is closed after them.

ghost use Rattle.std.specs.Prelude.{◌≤◌, OnOk, length};
ghost use Rattle.tests_lanes.specs.Blocks.{IsHeld};

use crate::expecting::{expect, expect_text};
use crate::running::{Block, Left, Open, close_behind, defined, ran, run_table, told};
use crate::scripts::{Plain, Script, record_of};
use fish_catalog::{Entries, Entry};
use fish_lanes::Lane;
use fish_report::Item;
use fish_value::{Form, Row, Rows, Text};
use std::alloc::Global;
use std::process::Abort;
use std::test::Fail;
use std::thread::Threads;
use tests_log::Cause;

/// One lane: of its lines one is no record, one is cut off and one is blank. The index of the definition begins at 0.
const ALONE: &[Script] = &[&[
    Plain::Lines("{\"kind\":\"k1\"}\nno record\n\n{\"kind\":\"k2\"}\n{\"kind\":\n"),
    Plain::Rows("kind,n\nk1,7\n\"k2\",8\n"),
    Plain::Checkpoint,
    Plain::Scan("kind", "k1"),
    Plain::Scan("sort", "k1"),
    Plain::Explain("kind", 2, 2),
    Plain::Explain("kind", 1, 9),
]];

/// What it tells, and what it leaves in the log.
const ALONE_TOLD: &str = "lane 1\n\
ingested lines stored 2 refused 2\n\
ingested rows stored 2 refused 0\n\
checkpoint 4\n\
scan kind = \"k1\" in 0..4 found 1 open none\n\
0 13 {\"kind\":\"k1\"}\n\
refused scan sort unknown name version 1\n\
refused explain kind empty range 2..2\n\
explain kind = \"\" in 1..4: index 1..4 by 0\n\
1 {\"kind\":\"k1\"}\n\
1 {\"kind\":\"k2\"}\n\
1 k1,7\n\
1 k2,8\n";

/// Asserts what a block of one lane tells.
fn expect_told<R: Threads + Sync + Abort>(
    rt: &R,
    alloc: Global,
    scripts: &[Script],
    want: &str,
) -> Result<(), Cause>
    requires some { 1 ≤ length scripts.now }
    requires few { length scripts.now ≤ 16 }
{
    let left = ran(rt, alloc, scripts)?;
    let found = told(alloc, &left);
    drop(left);
    expect_text(rt, "a block", found?.as_str(), want);
    Ok(())
}

#[test]
fn a_lane_alone_tells_of_what_it_did(rt: HostRuntime) -> Result<(), Fail> {
    Ok(expect_told(&rt, rt.alloc(), ALONE, ALONE_TOLD)?)
}

/// How many records of a lane are in a log, where they are those that the lane made, in order and with nothing lost.
pub(crate) fn stored_in_order(
    alloc: Global,
    entries: &Entries,
    lane: u8,
    words: usize,
) -> Result<usize, Cause> {
    let mut position = 0;
    for entry in entries.as_slice() {
        let Entry::Stored { lane: of, .. } = entry else {
            continue;
        };
        if *of != lane {
            continue;
        }
        let want = Entry::Stored {
            lane,
            form: Form::Json,
            payload: record_of(alloc, lane, position, words)?,
        };
        let same = entry.is(&want);
        drop(want);
        if !same {
            return Err(Cause("another record"));
        }
        position += 1;
    }
    Ok(position)
}

/// How the records begin whose kind is k1.
const KIND: &[u8] = b"{\"kind\":\"k1\"";

/// The payload of the entry at a number, where it is of the kind that is asked for.
fn kind_at(entries: &Entries, number: u32) -> Option<&Text> {
    match entries.as_slice().get(number as usize)? {
        Entry::Stored { payload, .. } if payload.as_bytes().starts_with(KIND) => Some(payload),
        _ => None,
    }
}

/// Whether a row is this record.
fn is_row(row: &Row, number: u32, payload: &Text) -> bool {
    row.number == number && row.payload.is(payload)
}

/// Whether rows, newest first, are the records of the kind that have numbers of a range which aren't open.
fn are_of_kind(entries: &Entries, range: (u32, u32), opens: &[u32], rows: &Rows) -> bool {
    let mut left = rows.len();
    for number in range.0..range.1 {
        let Some(payload) = kind_at(entries, number) else {
            continue;
        };
        if opens.contains(&number) {
            continue;
        }
        if left == 0 || !is_row(&rows.as_slice()[left - 1], number, payload) {
            return false;
        }
        left -= 1;
    }
    left == 0
}

/// How many scans of a lane gave all records of their kind and no other.
pub(crate) fn right_scans(entries: &Entries, lane: &Lane) -> usize {
    let mut right = 0;
    for item in lane.items.as_slice() {
        if let Item::Scanned {
            from,
            to,
            opens,
            rows,
            ..
        } = item
        {
            if are_of_kind(entries, (*from, *to), opens.as_slice(), rows) {
                right += 1;
            }
        }
    }
    right
}

/// Each of four lanes stores records, scans, stores more and scans again. The first commits meanwhile.
const SCANNING: &[Script] = &[COMMITTING, STORING, STORING, STORING];

const COMMITTING: Script = &[
    Plain::Records(0, 150, 2),
    Plain::Checkpoint,
    Plain::Scan("kind", "k1"),
    Plain::Records(150, 150, 2),
    Plain::Scan("kind", "k1"),
];

const STORING: Script = &[
    Plain::Records(0, 150, 2),
    Plain::Scan("kind", "k1"),
    Plain::Records(150, 150, 2),
    Plain::Scan("kind", "k1"),
];

/// How many items a lane has.
fn items_of(lane: &Lane) -> usize {
    if lane.number == 1 { 5 } else { 4 }
}

/// Asserts that each lane's records are in order, and that each of its scans is a plain filter of the log.
fn expect_scans<R: Abort>(rt: &R, alloc: Global, left: &Left) -> Result<(), Cause> {
    expect(rt, "entries", &left.entries.len(), &1_200);
    expect(rt, "the end", &left.block.end.to, &1_200);
    for lane in left.block.lanes.as_slice() {
        let stored = stored_in_order(alloc, &left.entries, lane.number, 2)?;
        expect(rt, "records of a lane", &stored, &300);
        expect(rt, "items of a lane", &lane.items.len(), &items_of(lane));
        expect(rt, "scans", &right_scans(&left.entries, lane), &2);
    }
    Ok(())
}

#[test]
fn four_lanes_scan_what_four_lanes_store(rt: HostRuntime) -> Result<(), Fail> {
    let left = ran(&rt, rt.alloc(), SCANNING)?;
    let done = expect_scans(&rt, rt.alloc(), &left);
    drop(left);
    Ok(done?)
}

/// How many records an item says are stored, and whether it says that the log is full, with its end.
fn told_stored(item: &Item) -> (usize, Option<u64>) {
    match item {
        Item::Ingested { stored, .. } => (*stored as usize, None),
        Item::IngestFull { stored, end, .. } => (*stored as usize, Some(*end)),
        _ => (0, None),
    }
}

/// Four lanes have more to store than a page holds: a record has 292 words, so 448 of 73 lines find room in 32,768.
const FILLING: &[Script] = &[LONG, LONG, LONG, LONG];

const LONG: Script = &[Plain::Records(0, 200, 450)];

/// How many records a lane's items say are stored. An end that they name has to be the log's.
fn stored_by(lane: &Lane) -> Result<usize, Cause> {
    let mut stored = 0_usize;
    for item in lane.items.as_slice() {
        let (more, end) = told_stored(item);
        if end.is_some() && end != Some(32_768) {
            return Err(Cause("another end"));
        }
        stored = stored.saturating_add(more);
    }
    Ok(stored)
}

/// Asserts that the items of each lane count its records in a log that got full.
fn expect_full<R: Abort>(rt: &R, alloc: Global, left: &Left) -> Result<(), Cause> {
    expect(rt, "entries", &left.entries.len(), &448);
    expect(rt, "the end", &left.block.end.to, &448);
    for lane in left.block.lanes.as_slice() {
        let stored = stored_in_order(alloc, &left.entries, lane.number, 450)?;
        expect(rt, "records of a lane", &stored, &stored_by(lane)?);
    }
    Ok(())
}

#[test]
fn a_full_log_has_what_its_lanes_tell(rt: HostRuntime) -> Result<(), Fail> {
    let left = ran(&rt, rt.alloc(), FILLING)?;
    let done = expect_full(&rt, rt.alloc(), &left);
    drop(left);
    Ok(done?)
}

/// Two lanes store records, and then three.
const FIRST_BLOCK: &[Script] = &[&[Plain::Records(0, 40, 2)], &[Plain::Records(0, 50, 2)]];

const SECOND_BLOCK: &[Script] = &[
    &[Plain::Records(40, 30, 2), Plain::Checkpoint],
    &[Plain::Records(50, 20, 2)],
    &[Plain::Scan("kind", "k1"), Plain::Records(0, 10, 2)],
];

/// How far a log reaches after each of two blocks, and how many records each lane has in it.
type Ends = ([u32; 2], [usize; 3]);

/// Runs the first block. How far the log then reaches.
fn first_end<R: Threads + Sync>(rt: &R, alloc: Global, held: &mut Open) -> Result<u32, Cause>
    requires { IsHeld held.old.disk held.old.store }
    ensures { OnOk result (IsHeld held.new.disk held.new.store) }
{
    let block = run_table(rt, alloc, held, FIRST_BLOCK)?;
    let end = block.end.to;
    drop(block);
    Ok(end)
}

/// Runs both. How far the log reaches after the first, and the second.
fn run_both<R: Threads + Sync>(
    rt: &R,
    alloc: Global,
    held: &mut Open,
) -> Result<(u32, Block), Cause>
    requires { IsHeld held.old.disk held.old.store }
    ensures { OnOk result (IsHeld held.new.disk held.new.store) }
{
    let end = first_end(rt, alloc, held)?;
    let block = run_table(rt, alloc, held, SECOND_BLOCK)?;
    Ok((end, block))
}

/// Runs both over a new store, and closes it.
fn ran_both<R: Threads + Sync>(rt: &R, alloc: Global) -> Result<(u32, Left), Cause> {
    let mut held = defined(rt, alloc)?;
    match run_both(rt, alloc, &mut held) {
        Ok((end, block)) => Ok((end, close_behind(alloc, held, block)?)),
        Err(fail) => {
            drop(held);
            Err(fail)
        }
    }
}

/// How many records each lane has in a log.
fn stored_by_each(alloc: Global, entries: &Entries) -> Result<[usize; 3], Cause> {
    let mut stored = [0; 3];
    for position in 0..3 {
        stored[position] = stored_in_order(alloc, entries, position as u8 + 1, 2)?;
    }
    Ok(stored)
}

/// How far the log reaches after each block, and how many records each lane has in it.
fn ends_of(alloc: Global, end: u32, left: &Left) -> Result<Ends, Cause> {
    let stored = stored_by_each(alloc, &left.entries)?;
    Ok(([end, left.block.end.to], stored))
}

#[test]
fn a_block_goes_on_where_the_one_before_ended(rt: HostRuntime) -> Result<(), Fail> {
    let (end, left) = ran_both(&rt, rt.alloc())?;
    let found = ends_of(rt.alloc(), end, &left);
    drop(left);
    expect(
        &rt,
        "ends, and records",
        &found?,
        &([90, 150], [70, 70, 10]),
    );
    Ok(())
}
