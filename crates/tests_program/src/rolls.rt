//! Runs whose logs outgrow a table of one page: what they write, worked out by hand, and what a later run finds of it.

use crate::expecting::{expect, expect_text};
use crate::outside::{content_in, disk_of, host_of, sink_of, words_of};
use fish_disk::MemoryDisk;
use fish_program::run;
use std::alloc::{AllocError, Global};
use std::fmt::Write;
use std::process::Abort;
use std::test::Fail;
use std::thread::Threads;

/// A run with a table of one page.
const RUN: &str = "run|store|script|--pages|1|--bits|4|";

/// Letters of a record's text. With these eight times over its line has 12,000 bytes and its region, with a key, 377
/// lines.
const PART: usize = 1_496;

/// A file of so many records, from 100 on, with a line that is none and a blank one before each seventh.
fn lines_of(alloc: Global, count: u32) -> Result<String, AllocError> {
    let mut part = String::new(alloc);
    for _ in 0..PART {
        part.push('x')?;
    }
    let mut text = String::new(alloc);
    for i in 0..count.min(800) {
        if i % 7 == 0 {
            text.push_str("[1]\n\n")?;
        }
        let kind = if i % 67 == 0 { "one" } else { "two" };
        let n = i + 100;
        write!(text, "{{\"kind\":\"{kind}\",\"n\":{n},\"text\":\"")?;
        for _ in 0..8 {
            text.push_str(part.as_str())?;
        }
        text.push_str("\"}\n")?;
    }
    Ok(text)
}

/// What was told, without the texts of records.
fn short_of(alloc: Global, told: &str) -> Result<String, AllocError> {
    let mut text = String::new(alloc);
    for line in told.lines() {
        let row = match line.split_once(",\"text\"") {
            Some((front, _)) => front,
            None => line,
        };
        text.push_str(row)?;
        text.push('\n')?;
    }
    Ok(text)
}

/// Runs a script over a disk and a file, and tells how it ended, without the texts of records.
fn ended_by<R: Threads + Sync>(
    rt: &R,
    alloc: Global,
    script: &str,
    file: &str,
    disk: &mut MemoryDisk,
) -> Result<String, AllocError> {
    let mut host = host_of(alloc, script, &[("f", file)], None)?;
    let mut out = sink_of(alloc, None)?;
    let words = words_of(alloc, RUN)?;
    let outcome = run(rt, alloc, words.as_slice(), &mut host, disk, &mut out);
    let told = content_in(alloc, &outcome, &out)?;
    short_of(alloc, told.as_str())
}

/// A file of 200 records by one lane, in three tables. A page has room for 86 of them, and padding has the numbers 86
/// and 173.
const ONE: &str = "register k as take kind\n\
ingest json f\n\
scan k = \"one\"\n\
explain k = \"one\"\n\
checkpoint\n";

/// What it writes.
const ONE_WRITTEN: &str = "0 fault none false 202\n\
created\n\
registered k id 0 from 0\n\
ingested f stored 200 refused 29\n\
scan k = \"one\" in 0..202 found 3 open none\n\
135 12000 {\"kind\":\"one\",\"n\":234\n\
67 12000 {\"kind\":\"one\",\"n\":167\n\
0 12000 {\"kind\":\"one\",\"n\":100\n\
explain k = \"one\" in 0..202: index 0..202 by 0\n\
checkpoint 202\n\
closed 202\n";

/// The same file again, in the same store. Padding has the numbers 260 and 347.
const AGAIN: &str = "scan k = \"one\" by full\n\
ingest json f\n\
deregister k\n\
scan k = \"one\"\n";

/// What it writes.
const AGAIN_WRITTEN: &str = "0 fault none false 404\n\
opened 202\n\
scan k = \"one\" in 0..202 found 3 open none\n\
135 12000 {\"kind\":\"one\",\"n\":234\n\
67 12000 {\"kind\":\"one\",\"n\":167\n\
0 12000 {\"kind\":\"one\",\"n\":100\n\
ingested f stored 200 refused 29\n\
deregistered k id 0 to 404\n\
scan k = \"one\" in 0..404 found 6 open none\n\
337 12000 {\"kind\":\"one\",\"n\":234\n\
270 12000 {\"kind\":\"one\",\"n\":167\n\
202 12000 {\"kind\":\"one\",\"n\":100\n\
135 12000 {\"kind\":\"one\",\"n\":234\n\
67 12000 {\"kind\":\"one\",\"n\":167\n\
0 12000 {\"kind\":\"one\",\"n\":100\n\
closed 404\n";

/// Asserts what two runs over one disk write.
fn expect_both<R: Threads + Sync + Abort>(rt: &R, alloc: Global) -> Result<(), AllocError> {
    let file = lines_of(alloc, 200)?;
    let mut disk = disk_of(alloc, b"", None)?;
    let found = ended_by(rt, alloc, ONE, file.as_str(), &mut disk)?;
    expect_text(rt, "several tables", found.as_str(), ONE_WRITTEN);
    let found = ended_by(rt, alloc, AGAIN, file.as_str(), &mut disk)?;
    expect_text(rt, "opened again", found.as_str(), AGAIN_WRITTEN);
    Ok(())
}

#[test]
fn a_log_outgrows_its_table(rt: HostRuntime) -> Result<(), Fail> {
    Ok(expect_both(&rt, rt.alloc())?)
}

/// Sixteen lanes that store the file, of which the first registers, scans and commits, and others scan; and scans of
/// all.
fn sixteen(alloc: Global) -> Result<String, AllocError> {
    let mut text = String::new(alloc);
    text.push_str("register k as take kind\nlanes\n")?;
    text.push_str("lane\nregister n as take n\ningest json f\nscan k = \"one\"\ncheckpoint\n")?;
    for lane in 2..17 {
        text.push_str("lane\ningest json f\n")?;
        if lane % 4 == 0 {
            text.push_str("scan k = \"one\"\n")?;
        }
    }
    text.push_str("end\nscan k = \"one\"\nscan k = \"two\" by full\n")?;
    text.push_str("scan n = 100\nscan n = 113 by full\nscan n = 119\n")?;
    Ok(text)
}

/// How often these stand in what is written after the block, with files of 20 records.
const ALL: &[(&str, usize)] = &[
    (" found 16 open none\n", 4),
    (" found 304 open none\n", 1),
    (" 12000 {\"kind\":\"one\",\"n\":100\n", 32),
    (" 12000 {\"kind\":\"two\",\"n\":113\n", 32),
    (" 12000 {\"kind\":\"two\",\"n\":115\n", 16),
    (" 12000 {\"kind\":\"two\",\"n\":119\n", 32),
];

/// Asserts what is so of their output, whichever came first. What scans of the lanes found isn't counted.
fn expect_sixteen<R: Threads + Sync + Abort>(rt: &R, alloc: Global) -> Result<(), AllocError> {
    let file = lines_of(alloc, 20)?;
    let script = sixteen(alloc)?;
    let mut disk = disk_of(alloc, b"", None)?;
    let found = ended_by(rt, alloc, script.as_str(), file.as_str(), &mut disk)?;
    let told = found.as_str();
    expect(rt, "ended", &told.starts_with("0 fault none false "), &true);
    let (lanes, behind) = told.split_once("\nend\n").unwrap_or((told, ""));
    let stored = lanes.matches("ingested f stored 20 refused 3").count();
    expect(rt, "files", &stored, &16);
    for (part, want) in ALL {
        expect(rt, part, &behind.matches(*part).count(), want);
    }
    Ok(())
}

#[test]
fn sixteen_lanes_outgrow_a_table(rt: HostRuntime) -> Result<(), Fail> {
    Ok(expect_sixteen(&rt, rt.alloc())?)
}
