//! Reports that are written by pieces: which bytes come at which write, worked out by hand.

use crate::expecting::expect_all;
use crate::items::{Plain, put_items};
use crate::reports::REPORTS;
use fish_outside::MemorySink;
use fish_report::{Item, Items, Report, WriteRefusal, report_text, write_items};
use fish_value::{Numbers64, Row, Rows, Text};
use std::alloc::{AllocError, Global};
use std::test::Fail;

/// How many rows a selection has and how many bytes each payload, the number of the write that fails; and what the sink
/// got. The head of a selection of 1 to 9 rows has 30 bytes and that of 40 has 32.
const PIECES: &[((u32, usize, u64), &str)] = &[
    // lines of 4,104 bytes, and from the tenth row on of 4,105: a piece ends after rows 15 and 31
    (
        (40, 4_096, 0),
        "failed at 0 of 164222 bytes, 1 writes, 1 faults",
    ),
    (
        (40, 4_096, 1),
        "failed at 65702 of 164222 bytes, 2 writes, 1 faults",
    ),
    (
        (40, 4_096, 2),
        "failed at 131382 of 164222 bytes, 3 writes, 1 faults",
    ),
    (
        (40, 4_096, 3),
        "written, 164222 of 164222 bytes, 3 writes, 0 faults",
    ),
    // what waits is written at 65,536 bytes, and not below
    (
        (2, 65_497, 1),
        "failed at 65536 of 131042 bytes, 2 writes, 1 faults",
    ),
    (
        (2, 65_496, 1),
        "written, 131040 of 131040 bytes, 1 writes, 0 faults",
    ),
    (
        (1, 65_497, 9),
        "written, 65536 of 65536 bytes, 1 writes, 0 faults",
    ),
    (
        (1, 65_496, 9),
        "written, 65535 of 65535 bytes, 1 writes, 0 faults",
    ),
    // one line of more bytes than a piece
    (
        (1, 200_000, 0),
        "failed at 0 of 200040 bytes, 1 writes, 1 faults",
    ),
    (
        (1, 200_000, 1),
        "written, 200040 of 200040 bytes, 1 writes, 0 faults",
    ),
    ((0, 0, 0), "failed at 0 of 30 bytes, 1 writes, 1 faults"),
];

/// A sink of whose writes one fails.
fn sink_failing(alloc: Global, write: u64) -> Result<MemorySink, AllocError> {
    let mut fails = Numbers64::new(alloc);
    fails.push(write)?;
    Ok(MemorySink::new(alloc, fails))
}

/// A payload of so many bytes.
fn payload_of(alloc: Global, size: usize) -> Result<Text, AllocError> {
    let mut payload = String::new(alloc);
    for _ in 0..size {
        payload.push('x')?;
    }
    Text::copy_of(alloc, payload.as_str())
}

fn rows_of(alloc: Global, count: u32, size: usize) -> Result<Rows, AllocError> {
    let mut rows = Rows::new(alloc);
    for number in 0..count {
        let payload = payload_of(alloc, size)?;
        rows.push(Row { number, payload })?;
    }
    Ok(rows)
}

/// A report of one selection.
fn report_of(alloc: Global, count: u32, size: usize) -> Result<Report, AllocError> {
    let rows = rows_of(alloc, count, size)?;
    let mut items = Items::new(alloc);
    items.push(Item::Select {
        rows,
        count: u64::from(count),
        refused: 0,
    })?;
    Ok(Report { items })
}

/// What a sink got of a text, which is a first part of it, and what the call said.
fn got_told(
    alloc: Global,
    text: &str,
    sink: &MemorySink,
    answer: Result<(), WriteRefusal>,
) -> Result<String, AllocError> {
    let word = match answer {
        Ok(()) => "written,",
        Err(WriteRefusal::Failed) => "failed at",
        Err(WriteRefusal::OutOfMemory) => return Err(AllocError),
    };
    let got = sink.as_bytes().len();
    let (calls, faults) = (sink.plan.calls, sink.plan.faults);
    if !text.as_bytes().starts_with(sink.as_bytes()) {
        return format!(in alloc; "{word} {got} other bytes");
    }
    format!(in alloc;
        "{word} {got} of {} bytes, {calls} writes, {faults} faults",
        text.len()
    )
}

/// The same of the items of a report, of which the sink is to get the text.
fn written_told(
    alloc: Global,
    report: &Report,
    sink: &mut MemorySink,
) -> Result<String, AllocError> {
    let text = report_text(alloc, report)?;
    let answer = write_items(alloc, sink, report.items.as_slice());
    got_told(alloc, text.as_str(), sink, answer)
}

/// The same to a sink of whose writes one fails.
fn sent_told(alloc: Global, report: &Report, fail: u64) -> Result<String, AllocError> {
    let mut sink = sink_failing(alloc, fail)?;
    let told = written_told(alloc, report, &mut sink);
    drop(sink);
    told
}

fn pieces_told(alloc: Global, case: &(u32, usize, u64)) -> Result<String, AllocError> {
    let (count, size, fail) = *case;
    let report = report_of(alloc, count, size)?;
    let told = sent_told(alloc, &report, fail);
    drop(report);
    told
}

#[test]
fn pieces(rt: HostRuntime) -> Result<(), Fail> {
    expect_all(&rt, rt.alloc(), PIECES, pieces_told)?;
    Ok(())
}

/// All that a sink got, as a text.
fn got_text(alloc: Global, sink: &MemorySink) -> Result<String, AllocError> {
    match Text::from_bytes(alloc, sink.as_bytes())? {
        Some(text) => String::from_str(alloc, text.as_str()),
        None => String::from_str(alloc, "no text"),
    }
}

/// What a sink gets of items.
fn items_sent(alloc: Global, items: &[Item]) -> Result<String, AllocError> {
    let mut sink = MemorySink::new(alloc, Numbers64::new(alloc));
    let answer = write_items(alloc, &mut sink, items);
    let told = got_text(alloc, &sink);
    drop(sink);
    match answer {
        Ok(()) => told,
        Err(_) => String::from_str(alloc, "failed"),
    }
}

fn report_sent(alloc: Global, plain: &&[Plain]) -> Result<String, AllocError> {
    let mut items = Items::new(alloc);
    let put = put_items(alloc, &mut items, plain);
    let told = items_sent(alloc, items.as_slice());
    drop(items);
    match put {
        Ok(()) => told,
        Err(error) => Err(error),
    }
}

/// What is written of a report is its text.
#[test]
fn whole_reports(rt: HostRuntime) -> Result<(), Fail> {
    expect_all(&rt, rt.alloc(), REPORTS, report_sent)?;
    Ok(())
}
