//! Files that are read in parts, by one lane and by two at once: a read that fails in the middle of one, and one of
//! several parts.

use crate::expecting::expect_text;
use crate::outside::{content_in, disk_of, file_of, sink_of, words_of};
use fish_outside::{HostFile, HostFiles, MemoryHost};
use fish_program::run;
use fish_value::{Bytes, Numbers64, Text};
use std::alloc::{AllocError, Global};
use std::test::Fail;
use std::thread::Threads;

/// One lane that stores the file `x`, and two that each do.
const ONE: &str = "ingest json x\n";

const TWO: &str = "lanes\nlane\ningest json x\nlane\ningest json x\nend\n";

/// A run that stores a file of equal lines.
struct Case {
    script: &'static str,
    /// How many members of 10 bytes a line has beside 22 bytes.
    members: usize,
    lines: usize,
    /// Which of the reads of each feed fails.
    fails: Option<u64>,
    /// How the run ends.
    end: &'static str,
    /// What is written.
    written: &'static str,
}

const CASES: &[Case] = &[
    Case {
        script: ONE,
        members: 0,
        lines: 10_000,
        fails: Some(0),
        end: "6 fault input false 0",
        written: "created\n",
    },
    // Two reads of 65,536 bytes have 5,957 whole lines.
    Case {
        script: ONE,
        members: 0,
        lines: 10_000,
        fails: Some(2),
        end: "6 fault input false 5957",
        written: "created\n",
    },
    // 16 reads are a part, and 20 have 59,578 whole lines.
    Case {
        script: ONE,
        members: 0,
        lines: 100_000,
        fails: Some(20),
        end: "6 fault input false 59578",
        written: "created\n",
    },
    Case {
        script: ONE,
        members: 0,
        lines: 100_000,
        fails: None,
        end: "0 fault none false 100000",
        written: "created\ningested x stored 100000 refused 0\nclosed 100000\n",
    },
    // 20 reads have 5,904 whole lines of 222 bytes.
    Case {
        script: TWO,
        members: 20,
        lines: 10_000,
        fails: Some(20),
        end: "6 fault input false 11808",
        written: "created\n",
    },
    Case {
        script: TWO,
        members: 20,
        lines: 10_000,
        fails: None,
        end: "0 fault none false 20000",
        written: "created\nlanes 0..20000\nlane 1\ningested x stored 10000 refused 0\n\
            lane 2\ningested x stored 10000 refused 0\nend\nclosed 20000\n",
    },
];

/// A line of a case's file.
fn line_of(alloc: Global, case: &Case) -> Result<String, AllocError> {
    let mut line = String::from_str(alloc, "{\"type\":\"Push\",\"n\":1")?;
    for _ in 0..case.members {
        line.push_str(",\"more\":10")?;
    }
    line.push_str("}\n")?;
    Ok(line)
}

/// The file `x` of a case, one of whose reads may fail.
fn long_file(alloc: Global, case: &Case) -> Result<HostFile, AllocError> {
    let line = line_of(alloc, case)?;
    let mut bytes = Bytes::new(alloc);
    for _ in 0..case.lines {
        bytes.append(line.as_bytes())?;
    }
    let mut numbers = Numbers64::new(alloc);
    if let Some(number) = case.fails {
        numbers.push(number)?;
    }
    Ok(HostFile {
        name: Text::copy_of(alloc, "x")?,
        bytes,
        fails: numbers,
    })
}

/// The host of a case's script and file.
fn host_of(alloc: Global, case: &Case) -> Result<MemoryHost, AllocError> {
    let mut files = HostFiles::new(alloc);
    files.push(file_of(alloc, "script", case.script)?)?;
    files.push(long_file(alloc, case)?)?;
    Ok(MemoryHost::new(files, Numbers64::new(alloc)))
}

/// How the run of a case ends.
fn ended_by<R: Threads + Sync>(rt: &R, alloc: Global, case: &Case) -> Result<String, AllocError> {
    let mut host = host_of(alloc, case)?;
    let mut disk = disk_of(alloc, b"", None)?;
    let mut out = sink_of(alloc, None)?;
    let words = words_of(alloc, "run|store|script|")?;
    let outcome = run(rt, alloc, words.as_slice(), &mut host, &mut disk, &mut out);
    content_in(alloc, &outcome, &out)
}

#[test]
fn files_are_read_in_parts(rt: HostRuntime) -> Result<(), Fail> {
    for case in CASES {
        let found = ended_by(&rt, rt.alloc(), case)?;
        let (end, written) = (case.end, case.written);
        let want = format!(in rt.alloc(); "{end}\n{written}")?;
        expect_text(&rt, end, found.as_str(), want.as_str());
    }
    Ok(())
}
