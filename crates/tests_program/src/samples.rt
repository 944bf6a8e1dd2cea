//! The command `sample` over an output in memory: how it ends, and what is written, as another program counted it.

use crate::expecting::expect_text;
use crate::outside::{content_in, disk_of, host_of, sink_of, words_of};
use fish_disk::MemoryDisk;
use fish_outside::{MemoryHost, MemorySink};
use fish_program::run;
use std::alloc::{AllocError, Global};
use std::process::Abort;
use std::test::Fail;
use std::thread::Threads;

/// Of ten records.
const TEN: &str = "sample 10\n\
kind \"T0\" 2\n\
kind \"T1\" 2\n\
kind \"T2\" 2\n\
kind \"T3\" 1\n\
kind \"T4\" 1\n\
kind \"T5\" 1\n\
kind \"T6\" 1\n\
late true 0\n\
band 0 1\n\
band 100 1\n\
band 200 1\n\
band 300 1\n\
band 400 1\n\
band 500 0\n\
band 600 1\n\
band 700 1\n\
band 800 0\n\
band 900 3\n\
stored 10\n";

/// Of none.
const NONE: &str = "sample 0\n\
kind \"T0\" 0\n\
kind \"T1\" 0\n\
kind \"T2\" 0\n\
kind \"T3\" 0\n\
kind \"T4\" 0\n\
kind \"T5\" 0\n\
kind \"T6\" 0\n\
late true 0\n\
band 0 0\n\
band 100 0\n\
band 200 0\n\
band 300 0\n\
band 400 0\n\
band 500 0\n\
band 600 0\n\
band 700 0\n\
band 800 0\n\
band 900 0\n\
stored 0\n";

/// Words, which write fails, how the command ends, and what is written.
const ENDS: &[(&str, Option<u64>, &str, &str)] = &[
    ("sample|10|", None, "0 fault none false 10", TEN),
    ("sample|0|", None, "0 fault none false 0", NONE),
    ("sample|10|", Some(0), "7 fault output false 0", ""),
    ("sample|60001|", None, "1 fault usage words false 0", ""),
    ("sample|", None, "1 fault usage words false 0", ""),
    ("sample|1|1|", None, "1 fault usage words false 0", ""),
    (
        "sample|1|--bits|4|",
        None,
        "1 fault usage words false 0",
        "",
    ),
];

/// Runs the command that a line is, and tells how it ended.
fn ended_by<R: Threads + Sync>(
    rt: &R,
    alloc: Global,
    line: &str,
    host: &mut MemoryHost,
    disk: &mut MemoryDisk,
    out: &mut MemorySink,
) -> Result<String, AllocError> {
    let words = words_of(alloc, line)?;
    let outcome = run(rt, alloc, words.as_slice(), host, disk, out);
    content_in(alloc, &outcome, out)
}

/// Asserts how a command ends.
fn expect_end<R: Threads + Sync + Abort>(
    rt: &R,
    alloc: Global,
    row: &(&str, Option<u64>, &str, &str),
) -> Result<(), AllocError> {
    let (line, write, end, written) = *row;
    let mut host = host_of(alloc, "", &[], None)?;
    let mut disk = disk_of(alloc, b"", None)?;
    let mut out = sink_of(alloc, write)?;
    let found = ended_by(rt, alloc, line, &mut host, &mut disk, &mut out)?;
    let want = format!(in alloc; "{end}\n{written}")?;
    expect_text(rt, line, found.as_str(), want.as_str());
    Ok(())
}

#[test]
fn samples_end_by_their_numbers(rt: HostRuntime) -> Result<(), Fail> {
    for row in ENDS {
        expect_end(&rt, rt.alloc(), row)?;
    }
    Ok(())
}
