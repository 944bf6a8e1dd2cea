//! Real files and standard output, of which nothing is proved: one that is there and one that isn't,
//! and an output that signals interrupt.

use crate::expecting::{expect, expect_all};
use fish_outside::{FileHost, Host, OutSink, Sink, Source, write_whole};
use fish_value::Text;
use std::alloc::{AllocError, Global};
use std::cell::Cell;
use std::fmt::Display;
use std::io::{self, ErrorKind};
use std::test::Fail;
use std::{env, fs, process};

/// What the first two reads of a file answer, and how often the host has failed then.
fn feed_told<H: Host>(alloc: Global, host: &mut H, name: &Text) -> Result<String, AllocError> {
    match host.feed(alloc, name) {
        Ok(mut feed) => {
            let told = reads_told(alloc, &mut feed);
            host.done(feed);
            told
        }
        Err(refusal) => format!(in alloc; "{refusal}"),
    }
}

fn reads_told<S: Source>(alloc: Global, feed: &mut S) -> Result<String, AllocError> {
    let mut buf = *b"........";
    let first = feed.read(&mut buf);
    let (front, middle, back) = (buf[0], buf[1], buf[2]);
    let second = feed.read(&mut buf);
    format!(in alloc; "{first:?} {front} {middle} {back} {second:?}")
}

/// A file of the bytes `abc` in the folder for files that don't stay, by a name that no other process has.
fn new_file(rt: &HostRuntime) -> Result<Text, Fail> {
    let folder = env::temp_dir(rt)?;
    let id = process::id(rt.process());
    let path = format!(in rt.alloc(); "{}/fish_outside_{id}", folder.as_path().display())?;
    fs::write(rt, path.as_str(), "abc")?;
    Ok(Text::from_string(path))
}

/// What is told of a file that is there and then isn't, and how often the host has failed.
fn file_told<H: Host>(rt: &HostRuntime, host: &mut H, name: &Text) -> Result<String, Fail> {
    let there = feed_told(rt.alloc(), host, name)?;
    fs::remove_file(rt, name.as_str())?;
    let gone = feed_told(rt.alloc(), host, name)?;
    Ok(format!(in rt.alloc(); "{}, {}", there.as_str(), gone.as_str())?)
}

#[test]
fn reads(rt: HostRuntime) -> Result<(), Fail> {
    let name = new_file(&rt)?;
    let mut host = FileHost::new(rt);
    let told = file_told(&rt, &mut host, &name)?;
    expect(
        &rt,
        told.as_str(),
        "Ok(3) 97 98 99 Ok(0), the outside failed",
    );
    let faults = format!(in rt.alloc(); "{}", host.faults())?;
    expect(&rt, faults.as_str(), "1");
    Ok(())
}

/// An output that signals interrupt so often before it takes one byte.
#[derive(Drop)]
struct Interrupted {
    left: Cell<u32>,
}

impl Print for Interrupted {
    fn print<D: Display + Drop>(&self, _value: D) -> io::Result<()> {
        Ok(())
    }

    fn println<D: Display + Drop>(&self, _value: D) -> io::Result<()> {
        Ok(())
    }

    fn write_all(&self, _bytes: &[u8]) -> io::Result<()> {
        Ok(())
    }

    fn write_some(&self, bytes: &[u8]) -> io::Result<usize> {
        let left = self.left.get();
        if left > 0 {
            self.left.set(left - 1);
            return Err(io::Error::from(ErrorKind::Interrupted));
        }
        Ok(bytes.len().min(1))
    }
}

/// How often signals interrupt, and what a write of two bytes answers and the faults then.
const INTERRUPTED: &[(u32, &str)] = &[(0, "Ok(1) 0"), (63, "Ok(1) 0"), (64, "Err(Failed) 1")];

fn write_told(alloc: Global, often: &u32) -> Result<String, AllocError> {
    let left = Cell::new(*often);
    let mut sink = OutSink::new(Interrupted { left });
    let result = sink.write(b"ab");
    let faults = sink.faults();
    drop(sink);
    format!(in alloc; "{result:?} {faults}")
}

#[test]
fn tries_again(rt: HostRuntime) -> Result<(), Fail> {
    expect_all(&rt, rt.alloc(), INTERRUPTED, write_told)?;
    Ok(())
}

/// What writing five bytes to standard output answers, and writing none.
#[test]
fn writes(rt: HostRuntime) -> Result<(), Fail> {
    let mut sink = OutSink::new(rt);
    let whole = write_whole(&mut sink, b"fish\n");
    let none = sink.write(b"");
    let told = format!(in rt.alloc(); "{whole:?} {none:?}")?;
    expect(&rt, told.as_str(), "Ok(()) Ok(0)");
    Ok(())
}
