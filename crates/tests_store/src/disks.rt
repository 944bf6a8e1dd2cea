//! Disks in memory: what calls answer one after the other, worked out by hand.

use crate::told::{expect, expect_all, numbers, put_bytes};
use fish_disk::{Disk, MemoryDisk, SureDisk};
use fish_value::Bytes;
use std::alloc::{AllocError, Global};
use std::test::Fail;

/// Puts what a read of three bytes at a place gives after a text.
fn put_read<D: Disk>(told: &mut String, disk: &mut D, at: u64) -> Result<(), AllocError> {
    let mut buf = *b"...";
    match disk.read(at, &mut buf) {
        Ok(count) => put_bytes(told, &buf[..count])?,
        Err(_) => told.push_str("failed")?,
    }
    told.push_str(" ")
}

/// Puts what a sync and the length answer after a text.
fn put_length<D: Disk>(alloc: Global, told: &mut String, disk: &mut D) -> Result<(), AllocError> {
    told.push_str(if disk.sync().is_ok() {
        "synced "
    } else {
        "failed "
    })?;
    let length = disk.length();
    let text = format!(in alloc; "{length:?}")?;
    told.push_str(text.as_str())
}

/// A disk of the bytes `abcd`, one of whose calls fails.
fn memory(alloc: Global, fail: u64) -> Result<MemoryDisk, AllocError> {
    let bytes = Bytes::copy_of(alloc, b"abcd")?;
    let fails = numbers(alloc, &[fail])?;
    Ok(MemoryDisk::new(alloc, bytes, fails))
}

/// What reads at three places, a write of `xyz` over the end and after it, a read, a sync and the length answer.
fn calls_told(alloc: Global, disk: &mut MemoryDisk) -> Result<String, AllocError> {
    let mut told = String::new(alloc);
    for at in [0, 2, 5] {
        put_read(&mut told, disk, at)?;
    }
    if disk.as_bytes().len() >= 3 {
        told.push_str(if disk.write_at(3, b"xyz").is_ok() {
            "written "
        } else {
            "failed "
        })?;
    }
    put_read(&mut told, disk, 3)?;
    put_length(alloc, &mut told, disk)?;
    Ok(told)
}

fn memory_told(alloc: Global, fail: &u64) -> Result<String, AllocError> {
    let mut disk = memory(alloc, *fail)?;
    let told = calls_told(alloc, &mut disk);
    drop(disk);
    told
}

/// The number of the call that fails, and what all calls answer.
const MEMORY: &[(u64, &str)] = &[
    (9, "abc cd  written xyz synced Ok(6)"),
    (0, "failed cd  written xyz synced Ok(6)"),
    (3, "abc cd  failed d synced Ok(4)"),
    (5, "abc cd  written xyz failed Ok(6)"),
    (6, "abc cd  written xyz synced Err(Failed)"),
];

#[test]
fn memory_disks(rt: HostRuntime) -> Result<(), Fail> {
    expect_all(&rt, rt.alloc(), MEMORY, memory_told)?;
    Ok(())
}

/// A place, a piece, and the bytes that a disk with room for four has after this write and those before. The
/// fourth doesn't fit, so that the disk tells no more; the last is past its end.
const WRITES: &[(u64, &[u8])] = &[
    (0, b"ab"),
    (1, b"xy"),
    (1, b"z"),
    (3, b"pqr"),
    (0, b"c"),
    (9, b"d"),
];

fn sure_told(alloc: Global, disk: &mut SureDisk) -> Result<String, AllocError> {
    let mut told = String::new(alloc);
    for (at, piece) in WRITES {
        if *at <= disk.as_bytes().len() as u64 && disk.write_at(*at, piece).is_ok() {
            put_bytes(&mut told, disk.as_bytes())?;
            told.push_str(" ")?;
        }
    }
    put_length(alloc, &mut told, disk)?;
    Ok(told)
}

#[test]
fn sure_disk(rt: HostRuntime) -> Result<(), Fail> {
    let mut disk = SureDisk::new(rt.alloc(), 4)?;
    let told = sure_told(rt.alloc(), &mut disk);
    drop(disk);
    expect(&rt, told?.as_str(), "ab axy azy azyp czyp synced Ok(4)");
    Ok(())
}
