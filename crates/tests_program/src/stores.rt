//! Stores that several runs open, one after the other, and disks that fail or hold none: how each run ends and what
//! it writes.

use crate::expecting::{expect, expect_text};
use crate::outside::{content_in, disk_of, host_of, sink_of, words_of};
use fish_disk::MemoryDisk;
use fish_program::run;
use std::alloc::{AllocError, Global};
use std::process::Abort;
use std::test::Fail;
use std::thread::Threads;

/// Three records, of which two are pushes.
const FILES: &[(&str, &str)] = &[(
    "a",
    "{\"type\":\"Push\",\"n\":1}\n{\"type\":\"Open\",\"n\":2}\n{\"type\":\"Push\",\"n\":3}\n",
)];

/// A run with the usual sizes.
const RUN: &str = "run|store|script|";

/// A run that asks for so many pages.
const PAGES: &str = "run|store|script|--pages|4|";

/// A run that asks for so many bits.
const BITS: &str = "run|store|script|--bits|5|";

/// A definition whose index holds all records.
const INDEXED: &str =
    "register t as take type\ningest json a\nexplain t = \"Push\"\nscan t = \"Push\"\n";

/// What it writes.
const INDEXED_WRITTEN: &str = "0 fault none false 3\n\
created\n\
registered t id 0 from 0\n\
ingested a stored 3 refused 0\n\
explain t = \"Push\" in 0..3: index 0..3 by 0\n\
scan t = \"Push\" in 0..3 found 2 open none\n\
2 21 {\"type\":\"Push\",\"n\":3}\n\
0 21 {\"type\":\"Push\",\"n\":1}\n\
closed 3\n";

/// Two lanes, of which the second reads what stands in the file alone.
const LANES: &str = "lanes\nlane\nlane\nscan t = \"Push\"\nend\n";

/// What they write.
const LANES_WRITTEN: &str = "0 fault none false 3\n\
opened 3\n\
lanes 3..3\n\
lane 1\n\
lane 2\n\
scan t = \"Push\" in 0..3 found 2 open none\n\
2 21 {\"type\":\"Push\",\"n\":3}\n\
0 21 {\"type\":\"Push\",\"n\":1}\n\
end\n\
closed 3\n";

/// A definition whose index begins after the first three records.
const BETWEEN: &str = "ingest json a\nregister t as take type\ningest json a\n\
explain t = \"Push\"\nscan t = \"Push\"\n";

/// What it writes.
const BETWEEN_WRITTEN: &str = "0 fault none false 6\n\
created\n\
ingested a stored 3 refused 0\n\
registered t id 0 from 3\n\
ingested a stored 3 refused 0\n\
explain t = \"Push\" in 0..6: index 3..6 by 0 full 0..3\n\
scan t = \"Push\" in 0..6 found 4 open none\n\
5 21 {\"type\":\"Push\",\"n\":3}\n\
3 21 {\"type\":\"Push\",\"n\":1}\n\
2 21 {\"type\":\"Push\",\"n\":3}\n\
0 21 {\"type\":\"Push\",\"n\":1}\n\
closed 6\n";

/// More records in the store, and a scan over those in the file and those in memory.
const MORE: &str = "ingest json a\nexplain t = \"Push\"\nscan t = \"Push\"\n";

/// What it writes.
const MORE_WRITTEN: &str = "0 fault none false 9\n\
opened 6\n\
ingested a stored 3 refused 0\n\
explain t = \"Push\" in 0..9: index 3..9 by 0 full 0..3\n\
scan t = \"Push\" in 0..9 found 6 open none\n\
8 21 {\"type\":\"Push\",\"n\":3}\n\
6 21 {\"type\":\"Push\",\"n\":1}\n\
5 21 {\"type\":\"Push\",\"n\":3}\n\
3 21 {\"type\":\"Push\",\"n\":1}\n\
2 21 {\"type\":\"Push\",\"n\":3}\n\
0 21 {\"type\":\"Push\",\"n\":1}\n\
closed 9\n";

/// A run: its words, its script, and how it ends with what it writes.
type Step = (&'static str, &'static str, &'static str);

/// Runs over one disk each, in order.
const AGAIN: &[&[Step]] = &[
    &[
        (RUN, BETWEEN, BETWEEN_WRITTEN),
        (RUN, "", "0 fault none false 6\nopened 6\nclosed 6\n"),
        (PAGES, "", "4 fault store shape 8 12 asked 4 12 false 0\n"),
        (BITS, "", "4 fault store shape 8 12 asked 8 5 false 0\n"),
        (RUN, "scan\n", "2 fault script unexpected line 1 false 0\n"),
        (RUN, MORE, MORE_WRITTEN),
        (RUN, "", "0 fault none false 9\nopened 9\nclosed 9\n"),
    ],
    &[(RUN, INDEXED, INDEXED_WRITTEN), (RUN, LANES, LANES_WRITTEN)],
];

/// Runs a script over a disk, and tells how it ended.
fn ended_by<R: Threads + Sync>(
    rt: &R,
    alloc: Global,
    line: &str,
    script: &str,
    disk: &mut MemoryDisk,
) -> Result<String, AllocError> {
    let mut host = host_of(alloc, script, FILES, None)?;
    let mut out = sink_of(alloc, None)?;
    let words = words_of(alloc, line)?;
    let outcome = run(rt, alloc, words.as_slice(), &mut host, disk, &mut out);
    content_in(alloc, &outcome, &out)
}

/// Asserts how runs over one disk end.
fn expect_runs<R: Threads + Sync + Abort>(
    rt: &R,
    alloc: Global,
    runs: &[Step],
) -> Result<(), AllocError> {
    let mut disk = disk_of(alloc, b"", None)?;
    for (line, script, want) in runs {
        let found = ended_by(rt, alloc, line, script, &mut disk)?;
        expect_text(rt, script, found.as_str(), want);
    }
    Ok(())
}

#[test]
fn a_store_is_opened_again(rt: HostRuntime) -> Result<(), Fail> {
    for runs in AGAIN {
        expect_runs(&rt, rt.alloc(), runs)?;
    }
    Ok(())
}

/// The bytes of the store that a script makes.
fn store_of<R: Threads + Sync>(
    rt: &R,
    alloc: Global,
    script: &str,
) -> Result<MemoryDisk, AllocError> {
    let mut disk = disk_of(alloc, b"", None)?;
    drop(ended_by(rt, alloc, RUN, script, &mut disk)?);
    Ok(disk)
}

/// Asserts how a run without a statement ends over these bytes, and that they stay.
fn expect_refused<R: Threads + Sync + Abort>(
    rt: &R,
    alloc: Global,
    bytes: &[u8],
    want: &str,
) -> Result<(), AllocError> {
    let mut disk = disk_of(alloc, bytes, None)?;
    let found = ended_by(rt, alloc, RUN, "", &mut disk)?;
    expect_text(rt, "refused", found.as_str(), want);
    let same = disk.as_bytes() == bytes;
    expect(rt, "the same bytes", &same, &true);
    Ok(())
}

#[test]
fn a_disk_without_a_store_is_refused(rt: HostRuntime) -> Result<(), Fail> {
    let alloc = rt.alloc();
    let disk = store_of(&rt, alloc, INDEXED)?;
    let bytes = disk.as_bytes();
    expect(&rt, "bytes", &bytes.len(), &180_416);
    let (cut, _) = bytes.split_at(bytes.len().min(180_400));
    expect_refused(&rt, alloc, cut, "4 fault store damaged 2 false 0\n")?;
    let none = b"{\"type\":\"Push\"}\n".as_slice();
    expect_refused(&rt, alloc, none, "4 fault store not a store false 0\n")?;
    Ok(())
}

/// Words and scripts with which a command doesn't come to its store.
const BEFORE: &[Step] = &[
    (RUN, "scan\n", "2 fault script unexpected line 1 false 0\n"),
    ("run|store|", "", "1 fault usage words false 0\n"),
    ("run|store|none|", "", "6 fault input false 0\n"),
    (
        "select|take type|\"Open\"|a|",
        "",
        "0 fault none false 0\nselect found 1 of 3 refused 0\n1 21 {\"type\":\"Open\",\"n\":2}\n",
    ),
];

#[test]
fn no_call_of_the_disk_comes_before_the_script_was_read(rt: HostRuntime) -> Result<(), Fail> {
    let alloc = rt.alloc();
    let mut disk = disk_of(alloc, b"", None)?;
    for (line, script, want) in BEFORE {
        let found = ended_by(&rt, alloc, line, script, &mut disk)?;
        expect_text(&rt, line, found.as_str(), want);
    }
    expect(&rt, "calls", &disk.calls.len(), &0);
    Ok(())
}

/// Asserts that a run ends by the disk where this call of it fails, and what a crash then leaves.
fn expect_disk_fault<R: Threads + Sync + Abort>(
    rt: &R,
    alloc: Global,
    call: u64,
) -> Result<(), AllocError> {
    let mut disk = disk_of(alloc, b"", Some(call))?;
    let found = ended_by(rt, alloc, RUN, "ingest json a\n", &mut disk)?;
    expect(rt, "disk", &found.starts_with("5 fault disk false "), &true);
    Ok(())
}

#[test]
fn each_call_of_the_disk_may_fail(rt: HostRuntime) -> Result<(), Fail> {
    let alloc = rt.alloc();
    let mut disk = disk_of(alloc, b"", None)?;
    let found = ended_by(&rt, alloc, RUN, "ingest json a\n", &mut disk)?;
    let want = "0 fault none false 3\ncreated\ningested a stored 3 refused 0\nclosed 3\n";
    expect_text(&rt, "no call fails", found.as_str(), want);
    for call in 0..disk.calls.len() as u64 {
        expect_disk_fault(&rt, alloc, call)?;
    }
    Ok(())
}

#[test]
fn a_crash_behind_a_run_leaves_all_of_it(rt: HostRuntime) -> Result<(), Fail> {
    let alloc = rt.alloc();
    let disk = store_of(&rt, alloc, BETWEEN)?;
    for pick in 0..8 {
        let mut left = disk.crashed(alloc, pick)?;
        let found = ended_by(&rt, alloc, RUN, "", &mut left)?;
        let want = "0 fault none false 6\nopened 6\nclosed 6\n";
        expect_text(&rt, "behind a crash", found.as_str(), want);
    }
    Ok(())
}
