//! Blocks of lanes, one after the other, over a store of one page in memory, and its log that is closed after them.

ghost use Rattle.std.specs.Prelude.{◌≡◌, ◌≤◌, IfOk, OnOk, Some, length, slice_get, true};
ghost use Rattle.fish_lanes.specs.Blocks.{AreLanes};
ghost use Rattle.fish_lanes.specs.declared.lane.Lane.{Lane};
ghost use Rattle.fish_lanes.specs.declared.work.LaneFault.TheVariants as cause;
ghost use Rattle.tests_lanes.specs.Blocks.{IsBetween, IsHeld};

use crate::scripts::{Plain, Script, push_lanes};
use fish_catalog::{Entries, Entry};
use fish_disk::{Disk, SureDisk};
use fish_lanes::{BlockEnd, Lane, LaneFault, OpenGate, run_block};
use fish_recover::{Asked, open_store};
use fish_report::push_item;
use fish_store::Store;
use std::alloc::Global;
use std::fmt::Write;
use std::thread::Threads;
use tests_log::{Cause, closed};

/// What is asked for: a table of one page.
const ASKED: Asked = Asked {
    pages: Some(1),
    bucket_bits: Some(4),
};

/// How many bytes a disk has room for: those before the lines, and several pages.
const ROOM: u64 = 8_388_608;

/// An open store between two blocks, and its disk.
#[derive(Drop)]
pub(crate) struct Open {
    pub(crate) store: Store,
    pub(crate) disk: SureDisk,
}

/// The store on a disk, or a new one on an empty disk.
fn store_of<D: Disk>(alloc: Global, disk: &mut D) -> Result<Store, Cause>
    ensures { IfOk result (IsBetween D.images disk.new) }
{
    match open_store(alloc, ASKED, disk) {
        Ok(opened) => Ok(Store::of_opened(opened)),
        Err(_) => Err(Cause("no store")),
    }
}

/// Opens the store on a disk, between two blocks.
fn open_on(alloc: Global, mut disk: SureDisk) -> Result<Open, Cause>
    ensures { IfOk result (λ o. IsHeld o.disk o.store) }
{
    match store_of(alloc, &mut disk) {
        Ok(store) => Ok(Open { store, disk }),
        Err(fail) => {
            drop(disk);
            Err(fail)
        }
    }
}

/// A new store without definitions, between two blocks.
pub(crate) fn opened(alloc: Global) -> Result<Open, Cause>
    ensures { IfOk result (λ o. IsHeld o.disk o.store) }
{
    open_on(alloc, SureDisk::new(alloc, ROOM)?)
}

/// Drops a store, and opens it again from its disk.
pub(crate) fn opened_again(alloc: Global, held: Open) -> Result<Open, Cause>
    ensures { IfOk result (λ o. IsHeld o.disk o.store) }
{
    let Open { store, disk } = held;
    drop(store);
    open_on(alloc, disk)
}

/// What follows a block, and its lanes.
#[derive(Drop)]
pub(crate) struct Block {
    pub(crate) end: BlockEnd,
    pub(crate) lanes: Vec<Lane>,
}

/// Whether the first lane did all its statements.
fn is_whole(lanes: &[Lane]) -> bool
    ensures { result ≡ true → (x : Lane) × (slice_get lanes.now 0 ≡ Some x) × (x.fault ≡ cause.None) }
{
    match lanes.first() {
        Some(lane) => matches!(lane.fault, LaneFault::None),
        None => false,
    }
}

/// Runs lanes.
fn run_whole<R: Threads + Sync, D: Disk + Send>(
    rt: &R,
    alloc: Global,
    store: &mut Store,
    disk: &mut D,
    lanes: &mut [Lane],
) -> Result<BlockEnd, Cause>
    requires between { IsBetween D.images disk.old store.old }
    requires lanes { AreLanes lanes.old }
    ensures { OnOk result (IsBetween D.images disk.new store.new) }
{
    let end = run_block(rt, alloc, store, disk, lanes, &OpenGate);
    if !is_whole(lanes) {
        return Err(Cause("the first lane stopped"));
    }
    Ok(end)
}

/// Runs a block of a table.
pub(crate) fn run_table<R: Threads + Sync>(
    rt: &R,
    alloc: Global,
    held: &mut Open,
    scripts: &[Script],
) -> Result<Block, Cause>
    requires held { IsHeld held.old.disk held.old.store }
    requires some { 1 ≤ length scripts.now }
    requires few { length scripts.now ≤ 16 }
    ensures { OnOk result (IsHeld held.new.disk held.new.store) }
{
    let mut lanes = Vec::new(alloc);
    let ran = match push_lanes(alloc, scripts, &mut lanes) {
        Ok(()) => run_whole(
            rt,
            alloc,
            &mut held.store,
            &mut held.disk,
            lanes.as_mut_slice(),
        ),
        Err(fail) => Err(fail),
    };
    match ran {
        Ok(end) => Ok(Block { end, lanes }),
        Err(fail) => {
            drop(lanes);
            Err(fail)
        }
    }
}

/// The definition of the name `kind`.
const DEFINING: &[Script] = &[&[Plain::Register("kind", "take kind")]];

/// Registers it.
fn register<R: Threads + Sync>(rt: &R, alloc: Global, held: &mut Open) -> Result<(), Cause>
    requires { IsHeld held.old.disk held.old.store }
    ensures { OnOk result (IsHeld held.new.disk held.new.store) }
{
    let block = run_table(rt, alloc, held, DEFINING)?;
    drop(block);
    Ok(())
}

/// A new store with the definition, between two blocks.
pub(crate) fn defined<R: Threads + Sync>(rt: &R, alloc: Global) -> Result<Open, Cause>
    ensures { IfOk result (λ o. IsHeld o.disk o.store) }
{
    let mut held = opened(alloc)?;
    match register(rt, alloc, &mut held) {
        Ok(()) => Ok(held),
        Err(fail) => {
            drop(held);
            Err(fail)
        }
    }
}

/// A block, and the log that was closed after it.
#[derive(Drop)]
pub(crate) struct Left {
    pub(crate) block: Block,
    pub(crate) entries: Entries,
}

/// Closes a log after a block.
pub(crate) fn close_behind(alloc: Global, held: Open, block: Block) -> Result<Left, Cause>
    requires { IsHeld held.disk held.store }
{
    let Open { store, disk } = held;
    drop(disk);
    let Store {
        log,
        pass,
        registrar,
        file,
    } = store;
    drop((registrar, file));
    match closed(alloc, log, pass) {
        Ok(entries) => Ok(Left { block, entries }),
        Err(fail) => {
            drop(block);
            Err(fail)
        }
    }
}

/// Runs a block over a store, and closes it.
pub(crate) fn ran_over<R: Threads + Sync>(
    rt: &R,
    alloc: Global,
    mut held: Open,
    scripts: &[Script],
) -> Result<Left, Cause>
    requires held { IsHeld held.disk held.store }
    requires some { 1 ≤ length scripts.now }
    requires few { length scripts.now ≤ 16 }
{
    match run_table(rt, alloc, &mut held, scripts) {
        Ok(block) => close_behind(alloc, held, block),
        Err(fail) => {
            drop(held);
            Err(fail)
        }
    }
}

/// Runs a block over a new store with the definition, and closes it.
pub(crate) fn ran<R: Threads + Sync>(
    rt: &R,
    alloc: Global,
    scripts: &[Script],
) -> Result<Left, Cause>
    requires some { 1 ≤ length scripts.now }
    requires few { length scripts.now ≤ 16 }
{
    let held = defined(rt, alloc)?;
    ran_over(rt, alloc, held, scripts)
}

/// Puts the items of a lane after a text.
fn push_lane(alloc: Global, text: &mut String, lane: &Lane) -> Result<(), Cause> {
    write!(text, "lane {}\n", lane.number)?;
    for item in lane.items.as_slice() {
        push_item(alloc, text, item)?;
    }
    Ok(())
}

/// Puts an entry after a text: its lane and its payload.
fn push_entry(text: &mut String, entry: &Entry) -> Result<(), Cause> {
    match entry {
        Entry::Stored { lane, payload, .. } => {
            Ok(write!(text, "{} {}\n", *lane, payload.as_str())?)
        }
        Entry::Void => Ok(text.push_str("void\n")?),
    }
}

/// The items of all lanes of a block.
pub(crate) fn told_lanes(alloc: Global, block: &Block) -> Result<String, Cause> {
    let mut text = String::new(alloc);
    for lane in block.lanes.as_slice() {
        push_lane(alloc, &mut text, lane)?;
    }
    Ok(text)
}

/// The same and the entries of the log.
pub(crate) fn told(alloc: Global, left: &Left) -> Result<String, Cause> {
    let mut text = told_lanes(alloc, &left.block)?;
    for entry in left.entries.as_slice() {
        push_entry(&mut text, entry)?;
    }
    Ok(text)
}
