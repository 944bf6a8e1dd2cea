//! A store that is made on an empty disk in memory, stopped at each call of the disk, and what a crash then leaves:
//! no commit that counts, or the first one.

use crate::told::{expect_all, numbers};
use fish_disk::MemoryDisk;
use fish_flush::{FlushRefusal, create};
use fish_image::read_slot;
use fish_rule::Shape;
use fish_value::Bytes;
use std::alloc::{AllocError, Global};
use std::test::Fail;

/// The table for which the store is made.
const SHAPE: Shape = Shape {
    pages: 3,
    bucket_bits: 5,
};

/// Where the second gate, the first body and its end, and the first line are.
const SECOND_GATE: usize = 4_096;

const FIRST_BODY: usize = 8_192;

const SECOND_BODY: usize = 94_208;

const FIRST_LINE: usize = 180_224;

/// The number of the call that fails, what was answered, and what each of eight picks leaves then. The calls are: the
/// write and sync of the zeros (0, 1), those of the body (2, 3), and those of the gate (4, 5).
const STOPS: &[(u64, &str)] = &[
    (0, "fault --------"),
    (1, "fault --------"),
    (2, "fault --------"),
    (3, "fault --------"),
    (4, "fault --mm--mm"),
    (5, "fault --mm--mm"),
    (6, "made mmmmmmmm"),
];

/// `m` where the first gate alone is open, over a body that tells the first commit of the shape, and room up to
/// the first line; `x` where its body tells another; and else `-`.
fn state(alloc: Global, bytes: &[u8]) -> Result<char, AllocError> {
    if bytes.len() < FIRST_LINE || bytes[0] != 1 || bytes[SECOND_GATE] == 1 {
        return Ok('-');
    }
    let Some(commit) = read_slot(alloc, &bytes[FIRST_BODY..SECOND_BODY])? else {
        return Ok('-');
    };
    let first = commit.turn == 0 && commit.count == 0 && commit.lines == 0;
    let shaped = commit.pages == 3 && commit.bucket_bits == 5;
    drop(commit);
    Ok(if first && shaped { 'm' } else { 'x' })
}

/// The state of what each of eight picks leaves, after what was answered.
fn states(alloc: Global, disk: &MemoryDisk, answer: &str) -> Result<String, AllocError> {
    let mut told = String::new(alloc);
    told.push_str(answer)?;
    told.push(' ')?;
    for pick in 0..8 {
        let left = disk.crashed(alloc, pick)?;
        let left_state = state(alloc, left.as_bytes());
        drop(left);
        told.push(left_state?)?;
    }
    Ok(told)
}

/// Makes the store, and says how that ended.
fn made(alloc: Global, disk: &mut MemoryDisk) -> &'static str {
    if disk.as_bytes().len() > 0 {
        return "not empty";
    }
    match create(alloc, SHAPE, disk) {
        Ok(flusher) => {
            drop(flusher);
            "made"
        }
        Err(FlushRefusal::DiskFault) => "fault",
        Err(FlushRefusal::OutOfMemory) => "memory",
    }
}

fn stop_told(alloc: Global, fail: &u64) -> Result<String, AllocError> {
    let fails = numbers(alloc, &[*fail])?;
    let mut disk = MemoryDisk::new(alloc, Bytes::new(alloc), fails);
    let answer = made(alloc, &mut disk);
    let told = states(alloc, &disk, answer);
    drop(disk);
    told
}

#[test]
fn creations(rt: HostRuntime) -> Result<(), Fail> {
    expect_all(&rt, rt.alloc(), STOPS, stop_told)?;
    Ok(())
}
