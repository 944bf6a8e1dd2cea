//! Commands over files and an output in memory: how they end, and what is written, worked out by hand.

use crate::expecting::{expect, expect_text};
use crate::outside::{content_in, disk_of, host_of, sink_of, words_of};
use fish_disk::MemoryDisk;
use fish_outside::{MemoryHost, MemorySink, read_file};
use fish_program::run;
use fish_value::Text;
use std::alloc::{AllocError, Global};
use std::process::Abort;
use std::test::Fail;
use std::thread::Threads;

/// The words of a run on one page.
const RUN: &str = "run|store|script|--pages|1|";

/// The words of a selection.
const SELECT: &str = "select|take type|\"a\"|events|";

/// The files: three records, lines of which one is no record, and rows after a header.
const FILES: &[(&str, &str)] = &[
    (
        "a",
        "{\"type\":\"Push\",\"n\":1}\n{\"type\":\"Open\",\"n\":2}\n{\"type\":\"Push\",\"n\":3}\n",
    ),
    (
        "events",
        "{\"type\":\"a\"}\n{\"type\":\"b\"}\nnone\n{\"type\":\"a\"}\n",
    ),
    ("rows", "type,n\na,1\nb,2\n"),
];

/// Statements by themselves, a block of two lanes that scan, and a definition that ends.
const WHOLE: &str = "register t as take type\n\
ingest json events\n\
scan t = \"a\"\n\
ingest csv rows header\n\
lanes\n\
lane\n\
scan t = \"b\" from 0 to 3\n\
lane\n\
scan t = \"a\" from 0 to 2 by full\n\
end\n\
deregister t\n\
deregister t\n\
checkpoint\n";

/// What it writes.
const WHOLE_WRITTEN: &str = "created\n\
registered t id 0 from 0\n\
ingested events stored 3 refused 1\n\
scan t = \"a\" in 0..3 found 2 open none\n\
2 12 {\"type\":\"a\"}\n\
0 12 {\"type\":\"a\"}\n\
ingested rows stored 2 refused 0\n\
lanes 5..5\n\
lane 1\n\
scan t = \"b\" in 0..3 found 1 open none\n\
1 12 {\"type\":\"b\"}\n\
lane 2\n\
scan t = \"a\" in 0..2 found 1 open none\n\
0 12 {\"type\":\"a\"}\n\
end\n\
deregistered t id 0 to 5\n\
refused deregister t unknown name\n\
checkpoint 5\n\
closed 5\n";

/// A definition that is registered, a file that is stored, a plan and a scan.
const INDEXED: &str = "register t as take type\n\
ingest json a\n\
explain t = \"Push\"\n\
scan t = \"Push\"\n";

/// What it writes before the file.
const REGISTERED: &str = "created\nregistered t id 0 from 0\n";

/// A command on an empty disk, and how it ends: its words, its script, which feed and which write fail, its status
/// with its fault, whether something was refused and how many entries its log has, and what is written.
type End = (
    &'static str,
    &'static str,
    Option<u64>,
    Option<u64>,
    &'static str,
    &'static str,
);

/// Commands by which nothing fails.
const DONE: &[End] = &[
    (RUN, WHOLE, None, None, "3 fault none true 5", WHOLE_WRITTEN),
    (
        RUN,
        "register t as take type\nexplain t = 1\ncheckpoint\nderegister t\n",
        None,
        None,
        "0 fault none false 0",
        "created\nregistered t id 0 from 0\nexplain t = 1 in 0..0: none\ncheckpoint 0\n\
deregistered t id 0 to 0\nclosed 0\n",
    ),
    (
        SELECT,
        "",
        None,
        None,
        "0 fault none false 0",
        "select found 2 of 3 refused 1\n2 12 {\"type\":\"a\"}\n0 12 {\"type\":\"a\"}\n",
    ),
    ("", "", None, None, "1 fault usage words false 0", ""),
    (
        RUN,
        "scan\n",
        None,
        None,
        "2 fault script unexpected line 1 false 0",
        "",
    ),
];

/// Commands by which a feed or a write fails. The script is the first feed.
const STOPPED: &[End] = &[
    (RUN, INDEXED, Some(0), None, "6 fault input false 0", ""),
    (
        RUN,
        INDEXED,
        Some(1),
        None,
        "6 fault input false 0",
        REGISTERED,
    ),
    (RUN, INDEXED, None, Some(0), "7 fault output false 0", ""),
    // the second file of two: what was done before it is written
    (
        RUN,
        WHOLE,
        Some(2),
        None,
        "6 fault input false 3",
        "created\nregistered t id 0 from 0\ningested events stored 3 refused 1\n\
scan t = \"a\" in 0..3 found 2 open none\n2 12 {\"type\":\"a\"}\n0 12 {\"type\":\"a\"}\n",
    ),
    // the third piece: what it tells of is in the log
    (
        RUN,
        WHOLE,
        None,
        Some(2),
        "7 fault output false 3",
        REGISTERED,
    ),
    (SELECT, "", Some(0), None, "6 fault input false 0", ""),
    (SELECT, "", None, Some(0), "7 fault output false 0", ""),
];

/// Runs the command that a line is, and tells how it ended.
fn ended_by<R: Threads + Sync>(
    rt: &R,
    alloc: Global,
    line: &str,
    host: &mut MemoryHost,
    disk: &mut MemoryDisk,
    out: &mut MemorySink,
) -> Result<String, AllocError> {
    let words = words_of(alloc, line)?;
    let outcome = run(rt, alloc, words.as_slice(), host, disk, out);
    content_in(alloc, &outcome, out)
}

/// Asserts how a command ends.
fn expect_end<R: Threads + Sync + Abort>(
    rt: &R,
    alloc: Global,
    row: &End,
) -> Result<(), AllocError> {
    let (line, script, feed, write, end, written) = *row;
    let mut host = host_of(alloc, script, FILES, feed)?;
    let mut disk = disk_of(alloc, b"", None)?;
    let mut out = sink_of(alloc, write)?;
    let found = ended_by(rt, alloc, line, &mut host, &mut disk, &mut out)?;
    let want = format!(in alloc; "{end}\n{written}")?;
    expect_text(rt, line, found.as_str(), want.as_str());
    Ok(())
}

/// Asserts how commands end.
fn expect_ends<R: Threads + Sync + Abort>(
    rt: &R,
    alloc: Global,
    rows: &[End],
) -> Result<(), AllocError> {
    for row in rows {
        expect_end(rt, alloc, row)?;
    }
    Ok(())
}

#[test]
fn commands_end_by_what_they_are(rt: HostRuntime) -> Result<(), Fail> {
    expect_ends(&rt, rt.alloc(), DONE)?;
    Ok(())
}

#[test]
fn commands_end_by_what_fails(rt: HostRuntime) -> Result<(), Fail> {
    expect_ends(&rt, rt.alloc(), STOPPED)?;
    Ok(())
}

#[test]
fn a_file_is_read_up_to_so_many_bytes(rt: HostRuntime) -> Result<(), Fail> {
    let mut host = host_of(rt.alloc(), "", FILES, None)?;
    let name = Text::copy_of(rt.alloc(), "rows")?;
    for (most, want) in [(0, 0), (14, 14), (15, 15), (16, 15), (1_000, 15)] {
        match read_file(rt.alloc(), &mut host, &name, most) {
            Ok(bytes) => expect(&rt, "bytes", &bytes.len(), &want),
            Err(_) => return Err(Fail::new("no file")),
        }
    }
    Ok(())
}
