//! Two lanes store while the control pass checkpoints. Whatever the schedule, no checkpoint commits fewer entries than
//! the one before, and a last one commits all that the lanes stored. All records have one value, so the image has one
//! chain.

ghost use Rattle.std.specs.Prelude.{◌≡◌, OnOk};
ghost use Rattle.std.specs.Thread.{IsSync};
ghost use Rattle.fish_disk.specs.Memory.{images_of};
ghost use Rattle.fish_ingest.specs.Ingestion.{CanIngest};
ghost use Rattle.fish_rule.specs.Passes.{IsPassOf, view};
ghost use Rattle.fish_rule.specs.SeatSteps.{CanSplitPass, split_left};
ghost use Rattle.fish_rule.specs.Table.{first_view};
ghost use Rattle.tests_store.specs.Flushing.{AreOut, IsEmptyLog, IsFlushing, IsOutOf};

use crate::flushing::{SHAPE, commit, made, opened, store};
use crate::passes::{Control, Seat};
use crate::stored::{checked, counting, words_of};
use crate::told::{expect, numbers};
use fish_catalog::Commit;
use fish_disk::{Disk, MemoryDisk};
use fish_epoch::Defs;
use fish_flush::FlushRefusal;
use fish_rule::{Log, Pass, split_pass};
use fish_value::Bytes;
use std::alloc::{AllocError, Global};
use std::test::Fail;
use std::thread::{Threads, for_each_mut, join_mut};

/// How many records each lane stores.
const RECORDS: usize = 200;

/// How often the control pass commits beside them.
const CHECKPOINTS: u32 = 20;

/// Stores records. How many.
fn store_some(alloc: Global, log: &Log, pass: &mut Pass, defs: &mut Defs) -> usize
    requires { CanIngest log.now pass.old defs.old }
    ensures { CanIngest log.now pass.new defs.new }
{
    for stored in 0..RECORDS {
        if store(alloc, log, pass, defs, b"{\"type\":\"Push\"}").is_err() {
            return stored;
        }
    }
    RECORDS
}

/// A seat's pass does so, with definitions of its own.
fn store_at(alloc: Global, log: &Log, seat: &mut Seat)
    requires { IsOutOf log.now seat.old.pass }
    ensures { IsOutOf log.now seat.new.pass }
{
    let mut defs = Defs::new(alloc);
    seat.stored = store_some(alloc, log, &mut seat.pass, &mut defs);
    drop(defs);
}

/// All seats do so at once, each on a thread.
fn store_all<R: Threads + Sync>(rt: &R, alloc: Global, log: &Log, seats: &mut [Seat])
    requires { AreOut log.now seats.old }
    ensures { AreOut log.now seats.new }
{
    let threads = seats.len();
    for_each_mut(rt, seats, threads, &|_, seat| store_at(alloc, log, seat));
}

/// Commits again and again. Whether no commit has fewer entries than the one before.
fn commit_often<D: Disk>(
    alloc: Global,
    log: &Log,
    control: &mut Control,
    disk: &mut D,
) -> Result<bool, FlushRefusal>
    requires { IsFlushing (D.images disk.old) log.now control.old }
    ensures { OnOk result (IsFlushing (D.images disk.new) log.now control.new) }
{
    let mut last = 0;
    let mut rises = true;
    for _ in 0..CHECKPOINTS {
        let count = commit(alloc, log, control, disk)?;
        rises = rises && last <= count;
        last = count;
    }
    Ok(rises)
}

/// It does so while the seats store.
fn commit_beside<R: Threads + Sync>(
    rt: &R,
    alloc: Global,
    log: &Log,
    control: &mut Control,
    disk: &mut MemoryDisk,
    seats: &mut [Seat],
) -> Result<bool, FlushRefusal>
    requires flushing { IsFlushing (images_of disk.old) log.now control.old }
    requires seats { AreOut log.now seats.old }
    ensures { OnOk result (IsFlushing (images_of disk.new) log.now control.new) }
{
    let (rises, ()) = join_mut(
        rt,
        &mut || commit_often(alloc, log, control, disk),
        &mut || -> ()
            requires { IsSync R.row × AreOut log.now seats.now }
            ensures { AreOut log.entry.now seats.exit.now }
        { store_all(rt, alloc, log, seats) },
    );
    rises
}

/// The pass of a lane, which the control pass gives out.
fn seat_of(log: &Log, control: &mut Pass, lane: u8) -> Seat
    requires pass { IsPassOf log.now control.old }
    requires can { CanSplitPass (view control.old) lane }
    ensures pass { IsPassOf log.now control.new }
    ensures left { view control.new ≡ split_left lane (view control.old) }
    ensures seat { IsOutOf log.now result.pass }
{
    let pass = split_pass(log, control, lane);
    Seat { pass, stored: 0 }
}

/// The passes of lanes 2 and 3.
fn split_two(log: &Log, control: &mut Pass) -> [Seat; 2]
    requires pass { IsPassOf log.now control.old }
    requires first { view control.old ≡ first_view log.now.key }
    ensures pass { IsPassOf log.now control.new }
    ensures left { view control.new ≡ split_left 3 (split_left 2 (view control.old)) }
    ensures seats { AreOut log.now result }
{
    let second = seat_of(log, control, 2);
    let third = seat_of(log, control, 3);
    [second, third]
}

/// What came of it: how many records each lane stored, whether no commit fell, and how many entries the last one has.
#[derive(Clone, Copy, Debug)]
struct Done {
    stored: [usize; 2],
    rises: bool,
    count: u32,
}

/// Two lanes store beside the control pass, and then it commits once more.
fn run<R: Threads + Sync>(
    rt: &R,
    alloc: Global,
    log: &Log,
    control: &mut Control,
    disk: &mut MemoryDisk,
) -> Result<Done, FlushRefusal>
    requires flushing { IsFlushing (images_of disk.old) log.now control.old }
    requires first { view control.old.pass ≡ first_view log.now.key }
{
    let mut seats = split_two(log, &mut control.pass);
    let rises = commit_beside(rt, alloc, log, control, disk, &mut seats);
    let [second, third] = seats;
    let stored = [second.stored, third.stored];
    drop((second, third));
    let rises = rises?;
    let count = commit(alloc, log, control, disk)?;
    Ok(Done {
        stored,
        rises,
        count,
    })
}

/// How many key entries the chains of an image have, and how many chains there are.
fn chains(words: &[u64], heads: &[u64]) -> (usize, usize) {
    let (mut entries, mut chains) = (0usize, 0usize);
    for head in heads {
        let mut place = *head as usize;
        if place != 0 {
            chains = chains.saturating_add(1);
        }
        for _ in 0..words.len() {
            if place == 0 || place >= words.len() {
                break;
            }
            entries = entries.saturating_add(1);
            place = words[place] as usize;
        }
    }
    (entries, chains)
}

/// The chains of the image that a commit counts.
fn chains_told(alloc: Global, bytes: &[u8], commit: &Commit) -> Result<String, AllocError> {
    let words = words_of(alloc, bytes, commit.lines)?;
    match checked(alloc, bytes, commit)? {
        Some(checked) => {
            let (entries, chains) = chains(words.as_slice(), checked.heads.as_slice());
            drop(checked);
            format!(in alloc; "{entries} key entries in {chains} chain")
        }
        None => String::from_str(alloc, "no log"),
    }
}

/// The same of the slot that counts.
fn image_told(alloc: Global, bytes: &[u8]) -> Result<String, AllocError> {
    let Some(commit) = counting(alloc, bytes)? else {
        return String::from_str(alloc, "no commit");
    };
    let told = chains_told(alloc, bytes, &commit);
    drop(commit);
    told
}

fn done_told(alloc: Global, done: Result<Done, FlushRefusal>) -> Result<String, AllocError> {
    match done {
        Ok(done) => format!(in alloc; "{done:?}"),
        Err(refusal) => format!(in alloc; "{refusal}"),
    }
}

/// What came of a store that is made in memory.
fn told<R: Threads + Sync>(
    rt: &R,
    alloc: Global,
    disk: &mut MemoryDisk,
) -> Result<String, AllocError> {
    if disk.as_bytes().len() > 0 {
        return String::from_str(alloc, "not empty");
    }
    let (start, log, pass) = opened(alloc, SHAPE)?;
    match made(alloc, SHAPE, start, &log, pass, disk) {
        Ok(mut control) => {
            let done = run(rt, alloc, &log, &mut control, disk);
            drop((log, control));
            done_told(alloc, done)
        }
        Err(refusal) => {
            drop(log);
            format!(in alloc; "{refusal}")
        }
    }
}

#[test]
fn lanes_store_beside_checkpoints(rt: HostRuntime) -> Result<(), Fail> {
    let alloc = rt.alloc();
    let mut disk = MemoryDisk::new(alloc, Bytes::new(alloc), numbers(alloc, &[])?);
    let done = told(&rt, alloc, &mut disk);
    let image = image_told(alloc, disk.as_bytes());
    drop(disk);
    expect(
        &rt,
        done?.as_str(),
        "Done { stored: [200, 200], rises: true, count: 400 }",
    );
    expect(&rt, image?.as_str(), "400 key entries in 1 chain");
    Ok(())
}
