//! Lanes on threads ingest records at once, until the log is full, while the control pass has a record in flight; each
//! bucket's chain is then what the closed log says.
//!
//! All records have 299 words, of header, two key entries, values and payload, so each claim takes 75
//! lines. The 98,304 lines of three pages hold 1,310 claims. That of line 32,700 crosses the first page's
//! end and that of line 65,475 the second's, so two of them are voids.

ghost use Rattle.std.specs.Prelude.{◌≡◌, IfOk, OnOk};
ghost use Rattle.fish_ingest.specs.Preparation.{AreDefs};
ghost use Rattle.fish_ingest.specs.Ingestion.{CanIngest};
ghost use Rattle.fish_rule.specs.within.Keys.{AreActive};
ghost use Rattle.fish_rule.specs.Passes.{IsPassOf, view};
ghost use Rattle.fish_rule.specs.LoadSteps.{IsAlone};
ghost use Rattle.fish_rule.specs.Start.{CanOpen};
ghost use Rattle.fish_rule.specs.Table.{first_view};
ghost use Rattle.tests_log.specs.Lanes.{IsOutOf};
ghost use Rattle.tests_log.specs.Registering.{AreOut};

use crate::cause::Cause;
use crate::expecting::expect;
use crate::flights::{claimed, publish_record};
use crate::lanes::{as_text, store};
use crate::linked::{Linked, links_in, links_of, push_nodes};
use crate::logs::closed;
use crate::nodes::nodes_of;
use crate::openings::{THREE_PAGES, defined};
use crate::seats::{Seat, split_three, take_three};
use fish_catalog::{Entries, Entry};
use fish_epoch::Defs;
use fish_ingest::IngestRefusal;
use fish_psf::ActiveDef;
use fish_rule::{Log, Pass, Start, lane as lane_of, open_log};
use fish_value::{Form, Text};
use fish_walk::settle;
use std::alloc::{AllocError, Global};
use std::fmt::Write;
use std::process::Abort;
use std::test::Fail;
use std::thread::{Threads, for_each_mut};

/// The definitions, by id. Values of both fall into five of the 16 buckets.
const SOURCES: &[&str] = &["take type", "take n"];

/// Writes the payload of a lane's record, by its place in what the lane stores.
fn write_payload(text: &mut String, lane: u8, place: usize) -> Result<(), AllocError> {
    let (kind, n, place) = (10 + place % 20, 10 + place % 7, 10_000 + place % 10_000);
    write!(
        text,
        "{{\"type\":\"t{kind}\",\"n\":{n},\"p\":\"{lane} {place}"
    )?;
    for _ in 0..285 {
        text.push_str(" payload")?;
    }
    text.push_str("\"}")
}

/// That payload.
fn payload_of(alloc: Global, lane: u8, place: usize) -> Result<Text, AllocError> {
    let mut text = String::new(alloc);
    let done = write_payload(&mut text, lane, place);
    as_text(text, done)
}

/// Stores records until the log is full. How many.
fn store_until_full(
    alloc: Global,
    log: &Log,
    pass: &mut Pass,
    defs: &mut Defs,
) -> Result<usize, AllocError>
    requires { CanIngest log.now pass.old defs.old }
    ensures { CanIngest log.now pass.new defs.new }
{
    let mut place = 0;
    for _ in 0..10_000_u32 {
        let payload = payload_of(alloc, lane_of(pass), place)?;
        match store(alloc, log, pass, defs, payload.as_bytes()) {
            Ok(_) => place += 1,
            Err(IngestRefusal::Full { .. }) => return Ok(place),
            Err(_) => return Err(AllocError),
        }
    }
    Err(AllocError)
}

/// The same with definitions and a reader of its own, which are made on the thread.
fn fill_log(alloc: Global, log: &Log, pass: &mut Pass) -> Result<usize, AllocError>
    requires { IsOutOf log.now pass.old }
    ensures { IsOutOf log.now pass.new }
{
    let mut defs = Defs::new(alloc);
    let stored = store_until_full(alloc, log, pass, &mut defs);
    drop(defs);
    stored
}

/// Stores records until the log is full. That memory ran out counts as no record, so that it shows.
fn fill_seat(alloc: Global, log: &Log, seat: &mut Seat)
    requires { IsOutOf log.now seat.old.pass }
    ensures { IsOutOf log.now seat.new.pass }
{
    seat.stored = fill_log(alloc, log, &mut seat.pass).unwrap_or(0);
}

/// All seats do so at once, each on a thread.
fn fill_seats<R: Threads + Sync>(rt: &R, alloc: Global, log: &Log, seats: &mut [Seat])
    requires { AreOut log.now seats.old (λ seat. seat.pass) }
    ensures { AreOut log.now seats.new (λ seat. seat.pass) }
{
    let threads = seats.len();
    for_each_mut(rt, seats, threads, &|_, seat| fill_seat(alloc, log, seat));
}

/// Three lanes fill the log while the control pass has a record in flight. How many records each
/// stored.
fn ingest_by_three<R: Threads + Sync>(
    rt: &R,
    alloc: Global,
    log: &Log,
    control: &mut Pass,
    defs: &[ActiveDef],
) -> Result<[usize; 3], Cause>
    requires pass { IsPassOf log.now control.old }
    requires first { view control.old ≡ first_view log.now.key }
    requires active { AreActive log.now.key.rows.value defs.now }
    requires defs { AreDefs defs.now }
    ensures pass { IsPassOf log.now control.new }
    ensures alone { OnOk result (IsAlone (view control.new)) }
{
    let payload = payload_of(alloc, 1, 0)?;
    let mut seats = split_three(log, control);
    let first = claimed(alloc, log, control, defs, payload.as_bytes());
    drop(payload);
    match first {
        Ok(first) => {
            fill_seats(rt, alloc, log, &mut seats);
            publish_record(log, control, first);
            take_three(log, control, seats)
        }
        Err(error) => {
            drop(seats);
            Err(Cause::from(error))
        }
    }
}

/// The entries that walks down all chains give over all settled numbers, and how many these are.
fn walks(alloc: Global, log: &Log, pass: &mut Pass) -> Result<(Vec<Linked>, u32), Cause>
    requires pass { IsPassOf log.now pass.old }
    requires alone { IsAlone (view pass.old) }
    ensures pass { IsPassOf log.now pass.new }
    ensures alone { IsAlone (view pass.new) }
{
    let mut found = Vec::new(alloc);
    let settled = settle(log, pass).settled;
    for bucket in 0..16 {
        let nodes = nodes_of(alloc, log, pass, bucket, (0, settled))?;
        push_nodes(bucket, nodes.as_slice(), &mut found)?;
    }
    Ok((found, settled))
}

/// What lanes stored, and what walks found of it.
#[derive(Drop)]
struct Seen {
    /// How many records each of the lanes 2 to 4 stored.
    stored: [usize; 3],
    /// What walks down all chains gave.
    nodes: Vec<Linked>,
    /// How many numbers were settled.
    settled: u32,
}

/// The same, and the closed log.
#[derive(Drop)]
struct Left {
    seen: Seen,
    entries: Entries,
}

/// Three lanes fill an open log.
fn fill_open<R: Threads + Sync>(
    rt: &R,
    alloc: Global,
    log: &Log,
    control: &mut Pass,
    defs: &[ActiveDef],
) -> Result<Seen, Cause>
    requires pass { IsPassOf log.now control.old }
    requires first { view control.old ≡ first_view log.now.key }
    requires active { AreActive log.now.key.rows.value defs.now }
    requires defs { AreDefs defs.now }
    ensures pass { IsPassOf log.now control.new }
    ensures alone { OnOk result (IsAlone (view control.new)) }
{
    let stored = ingest_by_three(rt, alloc, log, control, defs)?;
    let (nodes, settled) = walks(alloc, log, control)?;
    Ok(Seen {
        stored,
        nodes,
        settled,
    })
}

/// Closes a log that was filled.
fn close_filled(alloc: Global, log: Log, control: Pass, seen: Seen) -> Result<Left, Cause>
    requires pass { IsPassOf log control }
    requires alone { IsAlone (view control) }
{
    match closed(alloc, log, control) {
        Ok(entries) => Ok(Left { seen, entries }),
        Err(fail) => {
            drop(seen);
            Err(fail)
        }
    }
}

/// Opens a log that begins so, and lets three lanes fill it.
fn filled<R: Threads + Sync>(
    rt: &R,
    alloc: Global,
    start: &Start,
    defs: &[ActiveDef],
) -> Result<Left, Cause>
    requires can { CanOpen THREE_PAGES start.now }
    requires active { AreActive start.now.catalog defs.now }
    requires defs { AreDefs defs.now }
{
    let (log, mut control) = open_log(alloc, THREE_PAGES, start)?;
    match fill_open(rt, alloc, &log, &mut control, defs) {
        Ok(seen) => close_filled(alloc, log, control, seen),
        Err(fail) => {
            drop((log, control));
            Err(fail)
        }
    }
}

/// How many entries a lane stored, where they are its records in order and with nothing lost.
fn stored_in_order(alloc: Global, entries: &Entries, lane: u8) -> Result<usize, Cause> {
    let mut place = 0;
    for entry in entries.as_slice() {
        let Entry::Stored { lane: of, .. } = entry else {
            continue;
        };
        if *of != lane {
            continue;
        }
        let want = Entry::Stored {
            lane,
            form: Form::Json,
            payload: payload_of(alloc, lane, place)?,
        };
        let same = entry.is(&want);
        drop(want);
        if !same {
            return Err(Cause("another record"));
        }
        place += 1;
    }
    Ok(place)
}

/// How many entries each of the lanes 1 to 4 stored.
fn stored_by_each(alloc: Global, entries: &Entries) -> Result<[usize; 4], Cause> {
    let mut stored = [0; 4];
    for place in 0..4 {
        stored[place] = stored_in_order(alloc, entries, place as u8 + 1)?;
    }
    Ok(stored)
}

/// Asserts that the nodes are those of the closed log.
fn expect_chains<R: Abort>(
    rt: &R,
    alloc: Global,
    left: &Left,
    defs: &[ActiveDef],
) -> Result<(), Cause> {
    let links = links_of(alloc, defs, &left.entries)?;
    let chains = links_in(alloc, links.as_slice());
    drop(links);
    let chains = chains?;
    let same = left.seen.nodes.as_slice() == chains.as_slice();
    drop(chains);
    expect(rt, "the chains of the log", &same, &true);
    Ok(())
}

/// Asserts what the lanes left.
fn expect_left<R: Abort>(rt: &R, alloc: Global, left: &Left) -> Result<(), Cause> {
    let [second, third, fourth] = left.seen.stored;
    let stored = stored_by_each(alloc, &left.entries)?;
    expect(rt, "records", &stored, &[1, second, third, fourth]);
    expect(rt, "settled", &left.seen.settled, &1_310);
    expect(rt, "entries", &left.entries.len(), &1_310);
    expect(rt, "nodes", &left.seen.nodes.len(), &2_616);
    Ok(())
}

/// Asserts both.
fn expect_all<R: Abort>(
    rt: &R,
    alloc: Global,
    left: &Left,
    defs: &[ActiveDef],
) -> Result<(), Cause> {
    expect_left(rt, alloc, left)?;
    expect_chains(rt, alloc, left, defs)
}

#[test]
fn three_threads_ingest_at_once(rt: HostRuntime) -> Result<(), Fail> {
    let (start, defs) = defined(rt.alloc(), THREE_PAGES, SOURCES)?;
    let left = filled(&rt, rt.alloc(), &start, defs.as_slice());
    drop(start);
    let done = match left {
        Ok(left) => {
            let done = expect_all(&rt, rt.alloc(), &left, defs.as_slice());
            drop(left);
            done
        }
        Err(fail) => Err(fail),
    };
    drop(defs);
    Ok(done?)
}
