//! A commit by the calls of slots over a disk in memory, stopped at each call of the disk, and what a crash then
//! leaves: a gate is always open, and the new one only with the new body and the new line.

ghost use Rattle.std.specs.Prelude.{◌≡◌, length};

use crate::told::{bytes_of, expect_all, numbers};
use fish_disk::{Disk, MemoryDisk};
use fish_outside::Failed;
use fish_slots::{best, close_old, open_gate, seal};
use fish_value::Bytes;
use std::alloc::{AllocError, Global};
use std::test::Fail;

/// Where the second gate, the bodies and the first two lines are, and how long a body is.
const SECOND_GATE: usize = 4_096;

const FIRST_BODY: usize = 8_192;

const SECOND_BODY: usize = 94_208;

const FIRST_LINE: usize = 180_224;

const SECOND_LINE: usize = 180_256;

const BODY: usize = 86_016;

/// What the parts of a store are made of: the first body and line, and the second.
const PARTS: [u8; 4] = *b"abcd";

/// A store of one line in the first slot, whose bytes are told by name, and room for a second line.
fn store(alloc: Global) -> Result<Bytes, AllocError> {
    let pieces = [
        (1, 1),
        (0, FIRST_BODY - 1),
        (PARTS[0], BODY),
        (0, BODY),
        (PARTS[1], 32),
        (0, 32),
    ];
    let mut all = Bytes::new(alloc);
    for (byte, count) in pieces {
        let piece = bytes_of(alloc, byte, count)?;
        all.append(piece.as_bytes())?;
    }
    Ok(all)
}

/// Writes the second line, and commits a body of the second slot that counts it.
fn commit(disk: &mut MemoryDisk, line: &[u8], body: &[u8]) -> Result<(), Failed>
    requires { length body.now ≡ 86016 }
{
    if disk.as_bytes().len() < SECOND_LINE {
        return Err(Failed);
    }
    disk.write_at(SECOND_LINE as u64, line)?;
    put_second(disk, body)?;
    close_first(disk)
}

/// Puts the body into the second slot, if its gate is closed, and opens it.
fn put_second(disk: &mut MemoryDisk, body: &[u8]) -> Result<(), Failed>
    requires { length body.now ≡ 86016 }
{
    let gates = best(disk)?;
    if gates.second || disk.as_bytes().len() < SECOND_BODY {
        return Err(Failed);
    }
    seal(disk, 1, body)?;
    if disk.as_bytes().len() < SECOND_GATE {
        return Err(Failed);
    }
    open_gate(disk, 1)
}

fn close_first(disk: &mut MemoryDisk) -> Result<(), Failed> {
    let gates = best(disk)?;
    if !gates.first {
        return Err(Failed);
    }
    close_old(disk, 0)
}

/// Whether so many bytes from a place on are all this one.
fn is_all(bytes: &[u8], from: usize, count: usize, byte: u8) -> bool {
    if bytes.len() < from || bytes.len() - from < count {
        return false;
    }
    let (_, rest) = bytes.split_at(from);
    let (front, _) = rest.split_at(count);
    front.iter().all(|b| *b == byte)
}

/// `o` where the old gate alone is open, `n` the new one alone, `b` both, each with its body and line; and else `-`.
fn state(bytes: &[u8]) -> char {
    let first = is_all(bytes, 0, 1, 1);
    let second = is_all(bytes, SECOND_GATE, 1, 1);
    let old = is_all(bytes, FIRST_BODY, BODY, PARTS[0]) && is_all(bytes, FIRST_LINE, 32, PARTS[1]);
    let new = is_all(bytes, SECOND_BODY, BODY, PARTS[2])
        && is_all(bytes, SECOND_LINE, 32, PARTS[3]);
    match (first, second) {
        (true, false) if old => 'o',
        (false, true) if new => 'n',
        (true, true) if old && new => 'b',
        _ => '-',
    }
}

/// The state of what each of eight picks leaves.
fn states(alloc: Global, disk: &MemoryDisk) -> Result<String, AllocError> {
    let mut told = String::new(alloc);
    for pick in 0..8 {
        let left = disk.crashed(alloc, pick)?;
        let left_state = state(left.as_bytes());
        drop(left);
        told.push(left_state)?;
    }
    Ok(told)
}

/// The number of the call that fails, and the state of what each of eight picks leaves then. The calls are: the
/// line's write (0), a sync and two reads (1 to 3), the body's write and sync (4, 5), those of the new gate
/// (6, 7), a sync and two reads (8 to 10), and those of the old gate (11, 12).
const STOPS: &[(u64, &str)] = &[
    (0, "oooooooo"),
    (1, "oooooooo"),
    (2, "oooooooo"),
    (3, "oooooooo"),
    (4, "oooooooo"),
    (5, "oooooooo"),
    (6, "oobboobb"),
    (7, "oobboobb"),
    (8, "bbbbbbbb"),
    (9, "bbbbbbbb"),
    (10, "bbbbbbbb"),
    (11, "bbnbbbnb"),
    (12, "bbnbbbnb"),
    (13, "nnnnnnnn"),
];

fn stop_told(alloc: Global, fail: &u64) -> Result<String, AllocError> {
    let bytes = store(alloc)?;
    let fails = numbers(alloc, &[*fail])?;
    let mut disk = MemoryDisk::new(alloc, bytes, fails);
    let told = committed_told(alloc, &mut disk);
    drop(disk);
    told
}

fn committed_told(alloc: Global, disk: &mut MemoryDisk) -> Result<String, AllocError> {
    let line = vec![in alloc; PARTS[3]; 32]?;
    let body = body_of(alloc)?;
    if body.len() == BODY {
        // Where it stops shows in what is left.
        let _ = commit(disk, line.as_slice(), body.as_bytes());
    }
    states(alloc, disk)
}

fn body_of(alloc: Global) -> Result<Bytes, AllocError> {
    bytes_of(alloc, PARTS[2], BODY)
}

#[test]
fn commits(rt: HostRuntime) -> Result<(), Fail> {
    expect_all(&rt, rt.alloc(), STOPS, stop_told)?;
    Ok(())
}
