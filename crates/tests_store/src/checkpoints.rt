//! A store is made, two records are committed, then a third, then nothing, and the disk in memory fails at one call.
//! What each of eight picks of a crash leaves then is read as an opening reads it: it is the log of the last commit or
//! of the next one, and nothing between.
//!
//! The third record is of the first one's bucket, so its previous node comes from what is kept of the first commit.

ghost use Rattle.tests_store.specs.Flushing.{IsEmptyLog, IsFlushing};
ghost use Rattle.std.specs.Prelude.{◌≡◌, IfOk, IfSome, OnOk, length};

use crate::flushing::{SHAPE, commit, made, opened, store};
use crate::passes::Control;
use crate::stored::state;
use crate::told::{expect_all, numbers};
use fish_disk::{Disk, MemoryDisk};
use fish_flush::FlushRefusal;
use fish_rule::{Log, Pass, Start};
use fish_value::Bytes;
use std::alloc::{AllocError, Global};
use std::fmt::Write;
use std::test::Fail;

/// The payloads that are stored before each commit.
const STEPS: &[&[&str]] = &[
    &["{\"type\":\"Push\"}", "{\"type\":\"Pull\"}"],
    &["{\"type\":\"Push\"}"],
    &[],
];

/// The number of the call that fails; what the commits answered, `s` for a fault that shut the flusher; and how many
/// entries each of eight picks leaves then. The calls of a commit with lines are: the lines' write, that of the body
/// and its sync, those of the new gate and those of the old one. The first six calls make the store, and the last
/// commit has no lines.
const STOPS: &[(u64, &str)] = &[
    (6, "s 00000000"),
    (7, "s 00000000"),
    (8, "s 00000000"),
    (9, "s 00220022"),
    (10, "s 00220022"),
    (11, "s 22222222"),
    (12, "s 22222222"),
    (13, "2s 22222222"),
    (14, "2s 22222222"),
    (15, "2s 22222222"),
    (16, "2s 22332233"),
    (17, "2s 22332233"),
    (18, "2s 33333333"),
    (19, "2s 33333333"),
    (20, "23s 33333333"),
    (21, "23s 33333333"),
    (22, "23s 33333333"),
    (23, "23s 33333333"),
    (24, "23s 33333333"),
    (25, "23s 33333333"),
    (26, "233 33333333"),
];

/// Stores payloads and commits them. How many entries are committed.
pub(crate) fn step<D: Disk>(
    alloc: Global,
    log: &Log,
    control: &mut Control,
    disk: &mut D,
    payloads: &[&str],
) -> Result<Result<u32, FlushRefusal>, AllocError>
    requires { IsFlushing (D.images disk.old) log.now control.old }
    ensures { IfOk result (λ r. OnOk r (IsFlushing (D.images disk.new) log.now control.new)) }
{
    for payload in payloads {
        let Control { pass, defs, .. } = control;
        if store(alloc, log, pass, defs, payload.as_bytes()).is_err() {
            return Err(AllocError);
        }
    }
    Ok(commit(alloc, log, control, disk))
}

/// A refusal as a letter: `s` for a fault that shut the flusher.
fn letter(refusal: FlushRefusal, shut: bool) -> char {
    match (refusal, shut) {
        (FlushRefusal::DiskFault, true) => 's',
        (FlushRefusal::DiskFault, false) => 'f',
        (FlushRefusal::OutOfMemory, _) => 'm',
    }
}

/// What the commits answer, up to the first refusal.
fn steps_told<D: Disk>(
    alloc: Global,
    log: &Log,
    control: &mut Control,
    disk: &mut D,
) -> Result<String, AllocError>
    requires { IsFlushing (D.images disk.old) log.now control.old }
{
    let mut told = String::new(alloc);
    for payloads in STEPS {
        match step(alloc, log, control, disk, *payloads)? {
            Ok(count) => write!(told, "{count}")?,
            Err(refusal) => {
                told.push(letter(refusal, control.flusher.is_shut()))?;
                return Ok(told);
            }
        }
    }
    Ok(told)
}

/// The same of a store that is made first.
fn made_told<D: Disk>(
    alloc: Global,
    start: Start,
    log: &Log,
    pass: Pass,
    disk: &mut D,
) -> Result<String, AllocError>
    requires opened { IsEmptyLog SHAPE start log.now pass }
    requires empty { IfSome (D.content disk.old) (λ c. length c ≡ 0) }
{
    match made(alloc, SHAPE, start, log, pass, disk) {
        Ok(mut control) => {
            let told = steps_told(alloc, log, &mut control, disk);
            drop(control);
            told
        }
        Err(_) => String::from_str(alloc, "not made"),
    }
}

/// The same of a log that is opened first.
fn story(alloc: Global, disk: &mut MemoryDisk) -> Result<String, AllocError> {
    if disk.as_bytes().len() > 0 {
        return String::from_str(alloc, "not empty");
    }
    let (start, log, pass) = opened(alloc, SHAPE)?;
    let told = made_told(alloc, start, &log, pass, disk);
    drop(log);
    told
}

/// Puts what each of eight picks leaves after a text.
fn put_states(alloc: Global, told: &mut String, disk: &MemoryDisk) -> Result<(), AllocError> {
    told.push(' ')?;
    for pick in 0..8 {
        let left = disk.crashed(alloc, pick)?;
        let left_state = state(alloc, left.as_bytes());
        drop(left);
        told.push(left_state?)?;
    }
    Ok(())
}

fn stop_told(alloc: Global, fail: &u64) -> Result<String, AllocError> {
    let fails = numbers(alloc, &[*fail])?;
    let mut disk = MemoryDisk::new(alloc, Bytes::new(alloc), fails);
    let told = stopped_told(alloc, &mut disk);
    drop(disk);
    told
}

fn stopped_told(alloc: Global, disk: &mut MemoryDisk) -> Result<String, AllocError> {
    let mut told = story(alloc, disk)?;
    put_states(alloc, &mut told, disk)?;
    Ok(told)
}

#[test]
fn checkpoints(rt: HostRuntime) -> Result<(), Fail> {
    expect_all(&rt, rt.alloc(), STOPS, stop_told)?;
    Ok(())
}
