//! What scans beside lanes answered is what a plain search finds in the closed log.

use crate::expecting::expect;
use crate::questions::{Kept, asks_kind, text_at};
use crate::races::{Left, RECORDS, raced_log};
use fish_catalog::Entry;
use fish_scan::How;
use fish_value::{Row, Text};
use std::process::Abort;
use std::test::Fail;

/// Whether a scan found a number open.
fn is_open(kept: &Kept, number: u32) -> bool {
    kept.answer.opens.as_slice().contains(&number)
}

/// The payload of the record at a number, if the scan has to find it: it isn't open, and has the text.
fn wanted_at<'a>(entries: &'a [Entry], kept: &Kept, number: u32) -> Option<&'a Text> {
    let text = text_at(kept.asked)?;
    match entries.get(number as usize)? {
        Entry::Stored { payload, .. }
            if !is_open(kept, number) && payload.as_str().contains(text) => { Some(payload) }
        Entry::Stored { .. } | Entry::Void => None,
    }
}

/// Whether a row is the record with this number and payload.
fn is_row(row: Option<&Row>, number: u32, payload: &Text) -> bool {
    match row {
        Some(row) => row.number == number && row.payload.is(payload),
        None => false,
    }
}

/// Whether the rows are the records of the range that the scan has to find, newest first.
fn has_found(entries: &[Entry], kept: &Kept) -> bool {
    let rows = kept.answer.rows.as_slice();
    let mut place = 0;
    for number in (kept.answer.from..kept.answer.to).rev() {
        if let Some(payload) = wanted_at(entries, kept, number) {
            if !is_row(rows.get(place), number, payload) {
                return false;
            }
            place = usize::saturating_add(place, 1);
        }
    }
    place == rows.len()
}

/// Whether a number is that of a record of the scan's lane, and isn't open.
fn is_own(entries: &[Entry], kept: &Kept, number: u32) -> bool {
    match entries.get(number as usize) {
        Some(Entry::Stored { lane, .. }) => *lane == kept.lane && !is_open(kept, number),
        Some(Entry::Void) | None => false,
    }
}

/// Whether the records of its lane in the range are exactly those that were stored before the scan.
fn has_own(entries: &[Entry], kept: &Kept) -> bool {
    let mut own = 0;
    for number in kept.answer.from..kept.answer.to {
        if is_own(entries, kept, number) {
            own = usize::saturating_add(own, 1);
        }
    }
    own == kept.stored
}

/// How many answers differ from the closed log.
fn differing(entries: &[Entry], kept: &[Kept]) -> usize {
    let mut wrong = 0;
    for one in kept {
        if !has_found(entries, one) || !has_own(entries, one) {
            wrong = usize::saturating_add(wrong, 1);
        }
    }
    wrong
}

/// How many questions about the definition that stays were answered in a way.
fn answered(kept: &[Kept], how: How) -> usize {
    let mut count = 0;
    for one in kept {
        if asks_kind(one.asked, how) {
            count = usize::saturating_add(count, 1);
        }
    }
    count
}

/// Asserts that the answers of a pass are those of the closed log, and how many there are by the index, in full, and
/// in either way, of the definition that stays.
fn expect_answers<R: Abort>(rt: &R, entries: &[Entry], kept: &[Kept], want: &[usize; 3]) {
    expect(rt, "differing answers", &differing(entries, kept), &0);
    let found = [
        answered(kept, How::Index),
        answered(kept, How::Full),
        answered(kept, How::Auto),
    ];
    expect(rt, "answers", &found, want);
}

/// Asserts what a race left. A lane asks thirty times and the control pass eighteen times, each beginning where it
/// stands: at the second question, and at the first.
fn expect_left<R: Abort>(rt: &R, left: &Left) {
    let entries = left.entries.as_slice();
    let answers = &left.raced.answers;
    expect(
        rt,
        "records",
        &left.raced.stored,
        &[RECORDS, RECORDS, RECORDS],
    );
    expect(rt, "entries", &entries.len(), &720);
    expect_answers(rt, entries, answers.control.as_slice(), &[2, 2, 4]);
    expect_answers(rt, entries, answers.second.as_slice(), &[3, 3, 7]);
    expect_answers(rt, entries, answers.third.as_slice(), &[3, 3, 7]);
    expect_answers(rt, entries, answers.fourth.as_slice(), &[3, 3, 7]);
}

#[test]
fn scans_beside_lanes_answer_what_the_closed_log_has(rt: HostRuntime) -> Result<(), Fail> {
    let left = raced_log(&rt, rt.alloc())?;
    expect_left(&rt, &left);
    drop(left);
    Ok(())
}
