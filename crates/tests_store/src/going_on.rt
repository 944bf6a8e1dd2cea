//! A log that was opened goes on: a record more is stored and committed, and then the store opens with all of them.
//! What is below its base is read from the file.

ghost use Rattle.std.specs.Prelude.{◌≡◌, false};
ghost use Rattle.tests_store.specs.Flushing.{IsFlushing, IsOpenStore};

use crate::checkpoints::step;
use crate::older::answers_told;
use crate::openings::ALL;
use crate::passes::Control;
use crate::reopened::{ASKED, Case, count_of, file_of};
use crate::told::{expect, expect_all, numbers};
use fish_catalog::Catalog;
use fish_cold::Cold;
use fish_disk::{Disk, MemoryDisk};
use fish_epoch::Defs;
use fish_flush::Flusher;
use fish_recover::{Opened, open_store};
use fish_rule::{Log, Pass, Start, base};
use fish_value::{Bytes, Numbers64};
use std::alloc::{AllocError, Global};
use std::marker::Brand;
use std::sync::ledger::Blank;
use std::test::Fail;
use std::thread::{Threads, join_mut};

/// How many records are committed then, and how many the file opens with.
const CASES: &[(Case, &str)] = &[
    (((1, 0, 3, 6), (0, 1, 2, 4), ALL), "4 4"),
    (((1, 0, 3, 6), (1, 1, 2, 4), ALL), "3 3"),
    (((1, 0, 0, 0), (0, 1, 0, 0), 94_208), "1 1"),
    (((0, 0, 0, 0), (0, 0, 0, 0), 0), "1 1"),
];

/// The control pass of a log that was opened, with what it keeps.
fn control_of(alloc: Global, log: &Log, pass: Pass, flusher: Flusher, catalog: Catalog) -> Control
    ensures pass { result.pass ≡ pass }
    ensures catalog { result.start.catalog ≡ catalog }
    ensures flusher { result.flusher ≡ flusher }
    ensures read { result.defs.known.read ≡ false }
{
    Control {
        pass,
        start: Start {
            base: base(log),
            heads: Numbers64::new(alloc),
            catalog,
            version: 0,
        },
        defs: Defs::new(alloc),
        flusher,
    }
}

/// Stores a record and commits it. How many are committed.
fn gone_on<D: Disk>(alloc: Global, opened: Opened, disk: &mut D) -> Result<String, AllocError>
    requires { IsOpenStore (D.images disk.old) opened }
{
    let Opened {
        log,
        pass,
        flusher,
        catalog,
        cold,
        ..
    } = opened;
    drop(cold);
    let mut control = control_of(alloc, &log, pass, flusher, catalog);
    let told = step_told(alloc, &log, &mut control, disk);
    drop(control);
    drop(log);
    told
}

fn step_told<D: Disk>(
    alloc: Global,
    log: &Log,
    control: &mut Control,
    disk: &mut D,
) -> Result<String, AllocError>
    requires { IsFlushing (D.images disk.old) log.now control.old }
{
    match step(alloc, log, control, disk, &["{\"type\":\"Pull\"}"])? {
        Ok(count) => format!(in alloc; "{count} "),
        Err(refusal) => format!(in alloc; "{refusal} "),
    }
}

fn case_told(alloc: Global, case: &Case) -> Result<String, AllocError> {
    let mut disk = MemoryDisk::new(alloc, file_of(alloc, case)?, numbers(alloc, &[])?);
    let told = match open_store(alloc, ASKED, &mut disk) {
        Ok(opened) => gone_on(alloc, opened, &mut disk),
        Err(refusal) => format!(in alloc; "{refusal} "),
    };
    let again = Bytes::copy_of(alloc, disk.as_bytes());
    drop(disk);
    let mut told = told?;
    told.push(count_of(alloc, again?)?)?;
    Ok(told)
}

#[test]
fn going_on(rt: HostRuntime) -> Result<(), Fail> {
    expect_all(&rt, rt.alloc(), CASES, case_told)?;
    Ok(())
}

/// A store, and what the numbers answer from the newest, and then the chain of the bucket of `Push` from its head at
/// 17.
const OLDER: (Case, &str) = (
    ((1, 0, 3, 6), (1, 2, 2, 4), ALL),
    r#"1:{"type":"Push"} 2:{"type":"Pull"} 1:{"type":"Push"} / 2 "Push" 1 1:{"type":"Push"} 0 "Push" 0 1:{"type":"Push"} end"#,
);

fn numbers_told(
    alloc: Global,
    cold: &mut Cold,
    disk: &mut MemoryDisk,
) -> Result<String, AllocError> {
    answers_told::<Brand>(alloc, Blank::new(1), cold, disk)
}

/// The same on a thread of its own.
fn told_beside<R: Threads + Sync>(
    rt: &R,
    alloc: Global,
    opened: Opened,
    disk: &mut MemoryDisk,
) -> Result<String, AllocError> {
    let Opened {
        log,
        pass,
        flusher,
        catalog,
        mut cold,
        ..
    } = opened;
    let (told, ()) = join_mut(
        rt,
        &mut || numbers_told(alloc, &mut cold, disk),
        &mut || -> () {},
    );
    drop((log, pass, flusher));
    drop((catalog, cold));
    told
}

fn older_told<R: Threads + Sync>(rt: &R, alloc: Global, case: &Case) -> Result<String, AllocError> {
    let mut disk = MemoryDisk::new(alloc, file_of(alloc, case)?, numbers(alloc, &[])?);
    let told = match open_store(alloc, ASKED, &mut disk) {
        Ok(opened) => told_beside(rt, alloc, opened, &mut disk),
        Err(refusal) => format!(in alloc; "{refusal}"),
    };
    drop(disk);
    told
}

/// What is kept of the older pages may go to another thread.
#[test]
fn older_of_an_opened_store(rt: HostRuntime) -> Result<(), Fail> {
    let told = older_told(&rt, rt.alloc(), &OLDER.0)?;
    expect(&rt, told.as_str(), OLDER.1);
    Ok(())
}
