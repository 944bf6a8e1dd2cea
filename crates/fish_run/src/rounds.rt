//! The rounds of a block: its lanes go on at once in one table, and where one finds it full, in a further round in a
//! new one.

ghost use Rattle.std.specs.Prelude.{◌≡◌, ◌≢◌, ◌≤◌, length, ℕ, List, [], IfErr, IfOk, IsSome, MatchOption, OnOk, Some};
ghost use Rattle.std.specs.Prelude.{None, false, true};
ghost use Rattle.std.specs.List.{list_any};
ghost use Rattle.fish_lanes.specs.Blocks.{AreLanes};
ghost use Rattle.fish_lanes.specs.Leaving.{LeavesLanes, LeavesStore};
ghost use Rattle.fish_lanes.specs.Outcome.{LeaveNone};
ghost use Rattle.fish_lanes.specs.Registering.{registry_of};
ghost use Rattle.fish_outside.specs.Causes.{Rose};
ghost use Rattle.fish_rule.specs.Passes.{view};
ghost use Rattle.fish_lanes.specs.Controlling.{bound_items};
ghost use Rattle.fish_run.specs.Faults.{IsFirstFault};
ghost use Rattle.fish_run.specs.within.Going.{HasStepped, RestOf, StepsLane};
ghost use Rattle.fish_run.specs.within.Turning.{AsksMore, FindNoneFull, IsRenewed, StopsTurn, TurnsAll, TurnsOn};
ghost use Rattle.fish_run.specs.within.Turning.{says_full};
ghost use Rattle.fish_run.specs.Joins.{goes_on};
ghost use Rattle.fish_run.specs.within.Rolls.{StopsRoll};
ghost use Rattle.fish_run.specs.within.Runs.{CanClose, CanGoOn};
ghost use Rattle.fish_run.specs.within.Steps.{AreWholeLanes, Leaves};
ghost use Rattle.fish_store.specs.Points.{Behind};

use crate::fault::RunFault;
use crate::lasting::{Stopped, roll_on};
use crate::saying::{Said, say};
use crate::telling::fault_of;
use fish_disk::Disk;
use fish_lanes::{BlockEnd, Boundary, Gate, Lane, Work, Works, run_block};
use fish_lines::{Begin, left_after};
use fish_report::{Item, Items};
use fish_rule::base;
use fish_store::Store;
use std::alloc::{AllocError, Global};
use std::mem::replace;
use std::thread::Threads;

/// What a round of a block begins with.
#[derive(Drop)]
pub(crate) struct RoundStart {
    /// The store.
    pub store: Store,
    /// How many entries its log has.
    pub from: u32,
    /// Whether its table was begun for this round, since the one before it was full.
    pub fresh: bool,
    /// The boundary that was found once the lanes of the round before had ended.
    pub bound: Option<Boundary>,
}

/// What follows a round of a block.
#[derive(Drop)]
pub(crate) struct Turned {
    /// What the next one begins with.
    pub next: RoundStart,
    /// Where this one ended.
    pub end: BlockEnd,
    /// Whether a lane goes on.
    pub more: bool,
}

/// Runs lanes up to the first fault, round after round, until they have done all that they have: in one more for each
/// table that was full and has an entry.
pub(crate) fn run_turns<R: Threads + Sync, D: Disk + Send, G: Gate + Sync>(
    rt: &R,
    alloc: Global,
    start: RoundStart,
    lanes: &mut [Lane],
    said: &mut [Said],
    disk: &mut D,
    gate: &G,
) -> Result<Turned, Stopped>
    requires go { CanGoOn D.images disk.old start.store start.from }
    requires lanes { AreLanes lanes.old }
    requires many { length lanes.old ≡ length said.old }
    ensures on { IfOk result (TurnsAll D.Disk disk.old start lanes.old said.old disk.new lanes.new said.new) }
    ensures stopped { IfErr result (StopsTurn D.Disk disk.old start lanes.old said.old disk.new) }
    ensures inner { IfErr result (λ s. (s.why ≢ RunFault.Input) × (s.why ≢ RunFault.Output)) }
    ensures rises { D.faults disk.old ≤ D.faults disk.new }
    ensures disk { IfErr result (λ s. s.why ≡ RunFault.Disk → Rose (D.faults disk.old) (D.faults disk.new)) }
{
    let mut start = start;
    loop {
        let turned = run_turn(rt, alloc, start, lanes, said, disk, gate)?;
        let more = turned.more;
        if !more {
            return Ok(turned);
        }
        start = turned.next;
    }
}

/// Runs lanes for a round, keeps what they said, and gives each what it goes on with, in a new table if something of
/// the full one can be committed.
fn run_turn<R: Threads + Sync, D: Disk + Send, G: Gate + Sync>(
    rt: &R,
    alloc: Global,
    start: RoundStart,
    lanes: &mut [Lane],
    said: &mut [Said],
    disk: &mut D,
    gate: &G,
) -> Result<Turned, Stopped>
    requires go { CanGoOn D.images disk.old start.store start.from }
    requires lanes { AreLanes lanes.old }
    requires many { length lanes.old ≡ length said.old }
    ensures on { IfOk result (TurnsOn D.Disk disk.old start lanes.old said.old disk.new lanes.new said.new) }
    ensures stopped { IfErr result (StopsTurn D.Disk disk.old start lanes.old said.old disk.new) }
    ensures inner { IfErr result (λ s. (s.why ≢ RunFault.Input) × (s.why ≢ RunFault.Output)) }
    ensures rises { D.faults disk.old ≤ D.faults disk.new }
    ensures disk { IfErr result (λ s. s.why ≡ RunFault.Disk → Rose (D.faults disk.old) (D.faults disk.new)) }
{
    let mut store = start.store;
    let end = run_round(rt, alloc, &mut store, start.from, lanes, disk, gate);
    match first_fault(lanes) {
        Ok(()) => {}
        Err(why) => {
            return Err(Stopped {
                store: Some(store),
                why,
            });
        }
    }
    let some = end.to > base(&store.log).number;
    let more = go_on(lanes, some);
    let fresh = more & some;
    let next = renew(alloc, store, end.to, fresh, disk)?;
    match step_all(alloc, fresh, start.fresh, start.bound, said, lanes) {
        Ok(()) => Ok(Turned {
            next: RoundStart {
                store: next,
                from: end.to,
                fresh,
                bound: end.bound,
            },
            end,
            more,
        }),
        Err(_) => Err(out_of_memory(next)),
    }
}

/// Fails where a lane stopped at a fault, with that of the first one.
fn first_fault(lanes: &[Lane]) -> Result<(), RunFault>
    ensures whole { OnOk result (AreWholeLanes lanes.now) }
    ensures first { IfErr result (IsFirstFault lanes.now) }
{
    match fault_of(lanes) {
        Some(why) => Err(why),
        None => Ok(()),
    }
}

/// Begins a new table after a log of so many entries, where one is asked for.
fn renew<D: Disk>(
    alloc: Global,
    store: Store,
    from: u32,
    fresh: bool,
    disk: &mut D,
) -> Result<Store, Stopped>
    requires go { CanGoOn D.images disk.old store from }
    ensures next { IfOk result (IsRenewed D.Disk disk.old store from fresh disk.new) }
    ensures stopped { IfErr result (StopsRoll D.Disk disk.old store from disk.new) }
    ensures rises { D.faults disk.old ≤ D.faults disk.new }
    ensures disk { IfErr result (λ s. s.why ≡ RunFault.Disk → Rose (D.faults disk.old) (D.faults disk.new)) }
{
    if fresh {
        roll_on(alloc, store, from, disk)
    } else {
        Ok(store)
    }
}

/// A store with which the run stops, since memory ran out.
pub(crate) fn out_of_memory(store: Store) -> Stopped
    ensures store { result.store ≡ Some store }
    ensures why { result.why ≡ RunFault.Memory }
{
    Stopped {
        store: Some(store),
        why: RunFault::Memory,
    }
}

/// Runs lanes at once after a log of so many entries.
fn run_round<R: Threads + Sync, D: Disk + Send, G: Gate + Sync>(
    rt: &R,
    alloc: Global,
    store: &mut Store,
    from: u32,
    lanes: &mut [Lane],
    disk: &mut D,
    gate: &G,
) -> BlockEnd
    requires go { CanGoOn D.images disk.old store.old from }
    requires lanes { AreLanes lanes.old }
    ensures store { LeavesStore D.Disk disk.old store.old disk.new store.new lanes.new result }
    ensures lanes { LeavesLanes (Behind D.Disk disk.old store.old disk.new) (D.faults disk.old) (D.faults disk.new)
        (view store.old.pass) (view store.new.pass) lanes.old lanes.new }
    ensures close { CanClose store.new }
    ensures go { AreWholeLanes lanes.new → CanGoOn D.images disk.new store.new result.to }
    ensures leaves { Leaves (Behind D.Disk disk.old store.old disk.new) store.new.file.flusher.count
        (view store.old.pass) (view store.new.pass) store.old.registrar store.new.registrar from lanes.new result }
    ensures rises { D.faults disk.old ≤ D.faults disk.new }
{
    run_block(rt, alloc, store, disk, lanes, gate)
}

/// Whether a lane goes on: with what it handed back; and where a new table may be begun, also where it found this one
/// full.
fn go_on(lanes: &[Lane], some: bool) -> bool
    ensures done { result ≡ false → LeaveNone lanes.now }
    ensures left { result ≡ true → some ≡ false → LeaveNone lanes.now → ⊥ }
    ensures full { result ≡ false → some ≡ true → FindNoneFull lanes.now }
    ensures asks { result ≡ true → AsksMore lanes.now }
{
    for lane in lanes {
        if lane.left.len() > 0 || (some && is_full(lane)) {
            return true;
        }
    }
    false
}

/// Whether an item of a lane tells that the table is full.
fn is_full(lane: &Lane) -> bool
    ensures { result ≡ list_any says_full lane.now.items }
{
    lane.items.as_slice().iter().any(|item| says_full(item))
}

/// Whether an item tells that the table is full.
fn says_full(item: &Item) -> bool
    ensures { result ≡ says_full item.now }
{
    matches!(item, Item::IngestFull { .. })
}

/// Keeps what lanes said in a round, and gives each what it goes on with.
fn step_all(
    alloc: Global,
    full: bool,
    fresh: bool,
    bound: Option<Boundary>,
    said: &mut [Said],
    lanes: &mut [Lane],
) -> Result<(), AllocError>
    requires { length lanes.old ≡ length said.old }
    ensures { OnOk result (HasStepped full fresh bound said.old said.new lanes.old lanes.new) }
{
    if lanes.len() == 0 {
        return Ok(());
    }
    let (first_said, other_said) = said.split_at_mut(1);
    let (first, others) = lanes.split_at_mut(1);
    step(alloc, full, fresh, bound, &mut first_said[0], &mut first[0])?;
    step_all(alloc, full, fresh, None, other_said, others)
}

/// Keeps what a lane said in a round, and gives it what it goes on with.
fn step(
    alloc: Global,
    full: bool,
    fresh: bool,
    bound: Option<Boundary>,
    said: &mut Said,
    lane: &mut Lane,
) -> Result<(), AllocError>
    ensures { OnOk result (StepsLane full fresh (bound_items bound) said.old said.new lane.old lane.new) }
{
    let rest = if full { rest_of(alloc, lane)? } else { None };
    let goes = goes_on(lane.works.as_slice());
    let mut works = replace(&mut lane.left, Works::new(alloc));
    match rest {
        Some(work) => works.push_first(work)?,
        None => {}
    }
    lane.works = works;
    let items = replace(&mut lane.items, Items::new(alloc));
    say(&mut said.items, fresh, goes, bound, items)
}

/// Whether the first of these statements goes on with a file.
fn goes_on(works: &[Work]) -> bool
    ensures { result ≡ goes_on works.now }
{
    match works.first() {
        Some(Work::Ingest { begin, .. }) => *begin == Begin::After,
        _ => false,
    }
}

/// The rest of a lane's last file, where its last item says that the table was full.
fn rest_of(alloc: Global, lane: &Lane) -> Result<Option<Work>, AllocError>
    ensures { IfOk result (RestOf lane.now) }
{
    match (lane.works.as_slice().last(), lane.items.as_slice().last()) {
        (
            Some(
                Work::Ingest {
                    form,
                    begin,
                    name,
                    file,
                },
            ),
            Some(
                Item::IngestFull {
                    stored,
                    refused,
                    ..
                },
            ),
        ) => {
            let many = u64::from(*stored) + u64::from(*refused);
            let name = name.again(alloc)?;
            let file = left_after(alloc, *form, *begin, file.as_bytes(), many)?;
            Ok(Some(Work::Ingest {
                form: *form,
                begin: Begin::After,
                name,
                file,
            }))
        }
        _ => Ok(None),
    }
}
