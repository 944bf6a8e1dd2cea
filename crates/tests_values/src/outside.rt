//! The outside in memory, which fails by a plan or never: what the calls of one object answer one after the
//! other, worked out by hand.

use crate::expecting::{expect, expect_all};
use fish_outside::{
    BoundedBytes, Failed, FaultPlan, FeedRefusal, Host, HostFile, HostFiles, MemoryHost,
    MemorySink, Sink, Source, SureHost, SureSink, write_whole,
};
use fish_value::{Bytes, Numbers64, Text};
use std::alloc::{AllocError, Global};
use std::test::Fail;

fn numbers(alloc: Global, all: &[u64]) -> Result<Numbers64, AllocError> {
    let mut numbers = Numbers64::new(alloc);
    for number in all {
        numbers.push(*number)?;
    }
    Ok(numbers)
}

fn file_of(alloc: Global, name: &str, b: &[u8], fails: &[u64]) -> Result<HostFile, AllocError> {
    let name = Text::copy_of(alloc, name)?;
    let bytes = Bytes::copy_of(alloc, b)?;
    let fails = numbers(alloc, fails)?;
    Ok(HostFile { name, bytes, fails })
}

/// A file `a` of the bytes `abcde`, whose second and fourth read fail, and another `a`.
fn files(alloc: Global) -> Result<HostFiles, AllocError> {
    let mut files = HostFiles::new(alloc);
    files.push(file_of(alloc, "a", b"abcde", &[1, 3])?)?;
    files.push(file_of(alloc, "a", b"", &[])?)?;
    Ok(files)
}

/// A host of both, of whose calls one fails.
fn host_failing(alloc: Global, call: u64) -> Result<MemoryHost, AllocError> {
    let fails = numbers(alloc, &[call])?;
    Ok(MemoryHost::new(files(alloc)?, fails))
}

/// Puts after a text how many calls there were and how many faults.
fn put_plan(alloc: Global, told: &mut String, plan: &FaultPlan) -> Result<(), AllocError> {
    let text = format!(in alloc; "{} calls, {} faults", plan.calls, plan.faults)?;
    told.push_str(text.as_str())
}

/// Puts bytes after a text.
fn put_bytes(told: &mut String, bytes: &[u8]) -> Result<(), AllocError> {
    for byte in bytes {
        told.push(char::from(*byte))?;
    }
    told.push_str(", ")
}

/// What a call answers. The feed goes back at once.
fn put_feed(
    alloc: Global,
    told: &mut String,
    host: &mut MemoryHost,
    name: &str,
) -> Result<(), AllocError> {
    let name = Text::copy_of(alloc, name)?;
    match host.feed(alloc, &name) {
        Ok(feed) => {
            let fresh = feed.plan.faults == 0;
            host.done(feed);
            told.push_str(if fresh {
                "a feed, "
            } else {
                "a feed with faults, "
            })
        }
        Err(FeedRefusal::Failed) => told.push_str("failed, "),
        Err(FeedRefusal::OutOfMemory) => Err(AllocError),
    }
}

/// The names that a host is asked for, one after the other.
const NAMES: &[&str] = &["b", "a", "a", "a"];

fn feeds_told(alloc: Global, host: &mut MemoryHost) -> Result<String, AllocError> {
    let mut told = String::new(alloc);
    for name in NAMES {
        put_feed(alloc, &mut told, host, name)?;
    }
    put_plan(alloc, &mut told, &host.plan)?;
    Ok(told)
}

/// There is no `b`, and the third call fails.
#[test]
fn feeds(rt: HostRuntime) -> Result<(), Fail> {
    let mut host = host_failing(rt.alloc(), 2)?;
    let told = feeds_told(rt.alloc(), &mut host);
    drop(host);
    expect(
        &rt,
        told?.as_str(),
        "failed, a feed, failed, a feed, 4 calls, 2 faults",
    );
    Ok(())
}

/// What a read with room for two bytes answers, and the bytes in the buffer then.
fn put_read<S: Source>(alloc: Global, told: &mut String, feed: &mut S) -> Result<(), AllocError> {
    let mut buf = *b"..";
    match feed.read(&mut buf) {
        Ok(count) => {
            let text = format!(in alloc; "{count} ")?;
            told.push_str(text.as_str())?;
        }
        Err(Failed) => told.push_str("failed ")?,
    }
    put_bytes(told, &buf)
}

fn reads_told<S: Source>(alloc: Global, feed: &mut S, reads: u32) -> Result<String, AllocError> {
    let mut told = String::new(alloc);
    for _ in 0..reads {
        put_read(alloc, &mut told, feed)?;
    }
    Ok(told)
}

/// What so many reads of the file of a name answer.
fn feed_told<H: Host>(
    alloc: Global,
    host: &mut H,
    name: &str,
    reads: u32,
) -> Result<String, AllocError> {
    let name = Text::copy_of(alloc, name)?;
    match host.feed(alloc, &name) {
        Ok(mut feed) => {
            let told = reads_told(alloc, &mut feed, reads);
            host.done(feed);
            told
        }
        Err(refusal) => format!(in alloc; "{refusal}"),
    }
}

fn host_told(alloc: Global, host: &mut MemoryHost) -> Result<String, AllocError> {
    let mut told = feed_told(alloc, host, "a", 6)?;
    put_plan(alloc, &mut told, &host.plan)?;
    Ok(told)
}

/// The second and the fourth read of the file fail.
#[test]
fn reads(rt: HostRuntime) -> Result<(), Fail> {
    let mut host = host_failing(rt.alloc(), 1)?;
    let told = host_told(rt.alloc(), &mut host);
    drop(host);
    expect(
        &rt,
        told?.as_str(),
        "2 ab, failed .., 2 cd, failed .., 1 e., 0 .., 1 calls, 2 faults",
    );
    Ok(())
}

/// What writing a whole piece answers.
fn put_write<W: Sink>(told: &mut String, sink: &mut W, piece: &[u8]) -> Result<(), AllocError> {
    match write_whole(sink, piece) {
        Ok(()) => told.push_str("written "),
        Err(Failed) => told.push_str("failed "),
    }
}

/// A sink of whose writes one fails.
fn sink_failing(alloc: Global, write: u64) -> Result<MemorySink, AllocError> {
    let fails = numbers(alloc, &[write])?;
    Ok(MemorySink::new(alloc, fails))
}

/// Pieces that are written one after the other.
const PIECES: &[&[u8]] = &[b"ab", b"cd", b"", b"efg"];

/// What writing each answers, and all that was written then.
fn writes_told(alloc: Global, sink: &mut MemorySink) -> Result<String, AllocError> {
    let mut told = String::new(alloc);
    for piece in PIECES {
        put_write(&mut told, sink, piece)?;
        put_bytes(&mut told, sink.as_bytes())?;
    }
    put_plan(alloc, &mut told, &sink.plan)?;
    Ok(told)
}

/// The second write fails, and an empty piece takes none.
#[test]
fn writes(rt: HostRuntime) -> Result<(), Fail> {
    let mut sink = sink_failing(rt.alloc(), 1)?;
    let told = writes_told(rt.alloc(), &mut sink);
    drop(sink);
    expect(
        &rt,
        told?.as_str(),
        "written ab, failed ab, written ab, written abefg, 3 calls, 1 faults",
    );
    Ok(())
}

/// A sink that takes at most two bytes in a write.
#[derive(Drop)]
struct Narrow {
    sink: MemorySink,
}

impl Sink for Narrow {
    ghost use Rattle.std.specs.Prelude.{Some};

    ghost written = { λ narrow. Some narrow.sink.bytes };

    ghost faults = { λ narrow. narrow.sink.plan.faults };

    fn write(&mut self, piece: &[u8]) -> Result<usize, Failed> {
        let (front, _) = piece.split_at(piece.len().min(2));
        self.sink.write(front)
    }
}

/// The number of the write that fails, what writing `abcde` answers, and what was written then.
const PARTS: &[(u64, &str)] = &[
    (0, "failed , "),
    (1, "failed ab, "),
    (2, "failed abcd, "),
    (3, "written abcde, "),
];

fn narrow_told(alloc: Global, narrow: &mut Narrow) -> Result<String, AllocError> {
    let mut told = String::new(alloc);
    put_write(&mut told, narrow, b"abcde")?;
    put_bytes(&mut told, narrow.sink.as_bytes())?;
    Ok(told)
}

fn parts_told(alloc: Global, fail: &u64) -> Result<String, AllocError> {
    let sink = sink_failing(alloc, *fail)?;
    let mut narrow = Narrow { sink };
    let told = narrow_told(alloc, &mut narrow);
    drop(narrow);
    told
}

#[test]
fn writes_in_parts(rt: HostRuntime) -> Result<(), Fail> {
    expect_all(&rt, rt.alloc(), PARTS, parts_told)?;
    Ok(())
}

/// A name, and what reads with room for two bytes answer. A name that isn't among the files is that of an
/// empty file, and the file's own plan of faults counts nothing.
const SURE_READS: &[((&str, u32), &str)] = &[
    (("a", 3), "2 xy, 1 z., 0 .., "),
    (("b", 2), "0 .., 0 .., "),
];

fn sure_host(alloc: Global) -> Result<SureHost, AllocError> {
    let mut files = HostFiles::new(alloc);
    files.push(file_of(alloc, "a", b"xyz", &[0])?)?;
    Ok(SureHost::new(files))
}

fn sure_told(alloc: Global, case: &(&str, u32)) -> Result<String, AllocError> {
    let mut host = sure_host(alloc)?;
    let told = feed_told(alloc, &mut host, case.0, case.1);
    drop(host);
    told
}

#[test]
fn sure_reads(rt: HostRuntime) -> Result<(), Fail> {
    expect_all(&rt, rt.alloc(), SURE_READS, sure_told)?;
    Ok(())
}

/// Pieces that are written to a sink with room for four bytes.
const SURE_PIECES: &[&[u8]] = &[b"abc", b"", b"def", b"g"];

/// Whether each is taken whole, and what is kept then.
fn kept_told(alloc: Global, sink: &mut SureSink) -> Result<String, AllocError> {
    let mut told = String::new(alloc);
    for piece in SURE_PIECES {
        let whole = sink.write(piece) == Ok(piece.len());
        told.push_str(if whole { "whole " } else { "cut " })?;
        put_bytes(&mut told, sink.as_bytes())?;
    }
    Ok(told)
}

#[test]
fn sure_writes(rt: HostRuntime) -> Result<(), Fail> {
    let mut sink = SureSink::new(rt.alloc(), 4)?;
    let told = kept_told(rt.alloc(), &mut sink);
    drop(sink);
    expect(
        &rt,
        told?.as_str(),
        "whole abc, whole abc, whole abcd, whole abcd, ",
    );
    Ok(())
}

/// What is kept of two pieces, and what once a piece stands over the second and the third byte.
fn bounded_told(alloc: Global, bytes: &mut BoundedBytes) -> Result<String, AllocError> {
    let mut told = String::new(alloc);
    bytes.append(b"abc");
    bytes.append(b"def");
    put_bytes(&mut told, bytes.as_bytes())?;
    if bytes.as_bytes().len() >= 3 {
        bytes.overwrite(1, b"xy");
    }
    put_bytes(&mut told, bytes.as_bytes())?;
    Ok(told)
}

#[test]
fn bounded_bytes(rt: HostRuntime) -> Result<(), Fail> {
    let mut bytes = BoundedBytes::new(rt.alloc(), 4)?;
    let told = bounded_told(rt.alloc(), &mut bytes);
    drop(bytes);
    expect(&rt, told?.as_str(), "abcd, axyd, ");
    Ok(())
}
