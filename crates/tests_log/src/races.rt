//! Scans while three lanes store records and the control pass registers and ends definitions, each of which scans now
//! and then. What each of them answered is kept, with the closed log.
//!
//! A record of a lane is told by its place: each fifth has no value for any definition, and the others have one of
//! three kinds, and a size from 10 to 39.

ghost use Rattle.std.specs.Prelude.{◌≡◌, ◌∷◌, [], None, OnOk};
ghost use Rattle.std.specs.Thread.{IsSync};
ghost use Rattle.fish_ingest.specs.Ingestion.{CanIngest};
ghost use Rattle.fish_rule.specs.Passes.{IsPassOf, view};
ghost use Rattle.fish_rule.specs.LoadSteps.{IsAlone};
ghost use Rattle.fish_rule.specs.Table.{first_view};
ghost use Rattle.tests_log.specs.Lanes.{IsOutOf};
ghost use Rattle.tests_log.specs.Registering.{AreOut, IsBeside, IsKept};

use crate::cause::Cause;
use crate::lanes::{as_text, store};
use crate::logs::{ONE_PAGE, closed, empty_log};
use crate::openings::FIRST;
use crate::questions::{ASKED, CHANGING, KIND, Kept, ask_at, keep};
use crate::registrations::{begin_beside, end_beside};
use crate::scans::scan_between;
use crate::seats::{Seat, split_beside, take_three};
use fish_catalog::{Catalog, Entries};
use fish_epoch::Defs;
use fish_registry::Registrar;
use fish_rule::{Log, Pass, lane as lane_of};
use fish_scan::{Answer, Ask, ScanRefusal};
use fish_value::Text;
use std::alloc::{AllocError, Global};
use std::fmt::Write;
use std::thread::{Threads, for_each_mut, join_mut};

/// How many records each lane stores, and how many of them between two of its scans.
pub(crate) const RECORDS: usize = 240;

const BETWEEN: usize = 8;

/// How often the control pass ends a definition and registers it anew.
const CHANGES: usize = 18;

/// The kinds of records.
const KINDS: &[&str] = &["a", "b", "c"];

/// A seat, and what the scans of its lane answered.
#[derive(Drop)]
struct Racer {
    seat: Seat,
    kept: Vec<Kept>,
}

/// Writes the payload of a lane's record, by its place in what the lane stores.
fn write_payload(text: &mut String, lane: u8, place: usize) -> Result<(), AllocError> {
    if place % 5 == 4 {
        return write!(text, "{{\"by\":{lane},\"n\":{place}}}");
    }
    let kind = KINDS[place % 3];
    let size = 10 + place % 30;
    write!(
        text,
        "{{\"kind\":\"{kind}\",\"size\":{size},\"by\":{lane},\"n\":{place}}}"
    )
}

/// That payload.
fn payload_of(alloc: Global, lane: u8, place: usize) -> Result<Text, AllocError> {
    let mut text = String::new(alloc);
    let done = write_payload(&mut text, lane, place);
    as_text(text, done)
}

/// Stores the record of a place. Whether it did.
fn store_place(
    alloc: Global,
    log: &Log,
    pass: &mut Pass,
    defs: &mut Defs,
    place: usize,
) -> Result<bool, AllocError>
    requires { CanIngest log.now pass.old defs.old }
    ensures { CanIngest log.now pass.new defs.new }
{
    let payload = payload_of(alloc, lane_of(pass), place)?;
    let stored = store(alloc, log, pass, defs, payload.as_bytes()).is_ok();
    drop(payload);
    Ok(stored)
}

/// A lane scans after so many of its records.
fn scan_at(
    alloc: Global,
    log: &Log,
    pass: &mut Pass,
    defs: &mut Defs,
    stored: usize,
    kept: &mut Vec<Kept>,
) -> Result<(), AllocError>
    requires { CanIngest log.now pass.old defs.old }
    ensures { CanIngest log.now pass.new defs.new }
{
    let asked = stored / BETWEEN % ASKED.len();
    let ask = ask_at(alloc, asked)?;
    let answer = scan_between(alloc, log, pass, defs, &ask);
    drop(ask);
    keep(kept, lane_of(pass), stored, asked, answer)
}

/// Stores the record of a place, and scans after each eighth.
fn step(
    alloc: Global,
    log: &Log,
    pass: &mut Pass,
    defs: &mut Defs,
    place: usize,
    kept: &mut Vec<Kept>,
) -> Result<(), AllocError>
    requires { CanIngest log.now pass.old defs.old }
    ensures { CanIngest log.now pass.new defs.new }
{
    if !store_place(alloc, log, pass, defs, place)? {
        return Err(AllocError);
    }
    let stored = usize::saturating_add(place, 1);
    if stored % BETWEEN != 0 {
        return Ok(());
    }
    scan_at(alloc, log, pass, defs, stored, kept)
}

/// A lane stores its records, and scans now and then. How many it stored before something failed.
fn run_lane(
    alloc: Global,
    log: &Log,
    pass: &mut Pass,
    defs: &mut Defs,
    kept: &mut Vec<Kept>,
) -> usize
    requires { CanIngest log.now pass.old defs.old }
    ensures { CanIngest log.now pass.new defs.new }
{
    for place in 0..RECORDS {
        if step(alloc, log, pass, defs, place, kept).is_err() {
            return place;
        }
    }
    RECORDS
}

/// A seat's pass does so, with definitions of its own, which are made on the thread.
fn run_racer(alloc: Global, log: &Log, racer: &mut Racer)
    requires { IsOutOf log.now racer.old.seat.pass }
    ensures { IsOutOf log.now racer.new.seat.pass }
{
    let mut defs = Defs::new(alloc);
    racer.seat.stored = run_lane(alloc, log, &mut racer.seat.pass, &mut defs, &mut racer.kept);
    drop(defs);
}

/// All racers do so at once, each on a thread.
fn run_all<R: Threads + Sync>(rt: &R, alloc: Global, log: &Log, racers: &mut [Racer])
    requires { AreOut log.now racers.old (λ racer. racer.seat.pass) }
    ensures { AreOut log.now racers.new (λ racer. racer.seat.pass) }
{
    let threads = racers.len();
    for_each_mut(
        rt,
        racers,
        threads,
        &|_, racer| run_racer(alloc, log, racer),
    );
}

/// Scans beside the lanes, with definitions that are read anew.
fn scan_beside(
    alloc: Global,
    log: &Log,
    control: &mut Pass,
    registrar: &Registrar,
    ask: &Ask,
) -> Result<Answer, ScanRefusal>
    requires { IsBeside log.now control.old registrar.now }
    ensures { IsBeside log.now control.new registrar.now }
{
    let mut defs = Defs::new(alloc);
    let answer = scan_between(alloc, log, control, &mut defs, ask);
    drop(defs);
    answer
}

/// The control pass scans at a turn of its own.
fn scan_in_turn(
    alloc: Global,
    log: &Log,
    control: &mut Pass,
    registrar: &Registrar,
    turn: usize,
    kept: &mut Vec<Kept>,
) -> Result<(), Cause>
    requires { IsBeside log.now control.old registrar.now }
    ensures { IsBeside log.now control.new registrar.now }
{
    let asked = turn % ASKED.len();
    let ask = ask_at(alloc, asked)?;
    let answer = scan_beside(alloc, log, control, registrar, &ask);
    drop(ask);
    Ok(keep(kept, 1, 0, asked, answer)?)
}

/// Registers one of the changing definitions, which is ended before from the third turn on.
fn change(
    alloc: Global,
    log: &Log,
    control: &mut Pass,
    registrar: &mut Registrar,
    turn: usize,
) -> Result<(), Cause>
    requires { IsBeside log.now control.old registrar.old }
    ensures { IsBeside log.now control.new registrar.new }
{
    let definition = CHANGING[turn % 2];
    if turn < 2 || end_beside(alloc, log, control, registrar, definition.0)? {
        return begin_beside(alloc, log, control, registrar, definition);
    }
    Err(Cause("not ended"))
}

/// Definitions come and go, and a scan is made after each change.
fn change_all(
    alloc: Global,
    log: &Log,
    control: &mut Pass,
    registrar: &mut Registrar,
    kept: &mut Vec<Kept>,
) -> Result<(), Cause>
    requires { IsBeside log.now control.old registrar.old }
    ensures { IsBeside log.now control.new registrar.new }
{
    for turn in 0..CHANGES {
        change(alloc, log, control, registrar, turn)?;
        scan_in_turn(alloc, log, control, registrar, turn, kept)?;
    }
    Ok(())
}

/// They do so while the lanes store and scan, by an index that begins before the first record.
fn change_beside<R: Threads + Sync>(
    rt: &R,
    alloc: Global,
    log: &Log,
    control: &mut Pass,
    registrar: &mut Registrar,
    racers: &mut [Racer],
    kept: &mut Vec<Kept>,
) -> Result<(), Cause>
    requires beside { IsBeside log.now control.old registrar.old }
    requires racers { AreOut log.now racers.old (λ racer. racer.seat.pass) }
    ensures beside { IsBeside log.now control.new registrar.new }
    ensures racers { AreOut log.now racers.new (λ racer. racer.seat.pass) }
{
    begin_beside(alloc, log, control, registrar, KIND)?;
    let (done, ()) = join_mut(
        rt,
        &mut || change_all(alloc, log, control, registrar, kept),
        &mut || -> ()
            requires { IsSync R.row × AreOut log.now racers.now (λ racer. racer.seat.pass) }
            ensures { AreOut log.entry.now racers.exit.now (λ racer. racer.seat.pass) }
        { run_all(rt, alloc, log, racers) },
    );
    done
}

/// A racer of each seat.
fn racers_of(alloc: Global, log: &Log, seats: [Seat; 3]) -> [Racer; 3]
    requires { AreOut log.now seats (λ seat. seat.pass) }
    ensures { AreOut log.now result (λ racer. racer.seat.pass) }
{
    let [second, third, fourth] = seats;
    [
        racer_of(alloc, log, second),
        racer_of(alloc, log, third),
        racer_of(alloc, log, fourth),
    ]
}

/// The racer of a seat.
fn racer_of(alloc: Global, log: &Log, seat: Seat) -> Racer
    requires { IsOutOf log.now seat.pass }
    ensures { IsOutOf log.now result.seat.pass }
{
    Racer {
        seat,
        kept: Vec::new(alloc),
    }
}

/// What scans answered: those of the control pass, and of lanes 2 to 4.
#[derive(Drop)]
pub(crate) struct Answers {
    pub(crate) control: Vec<Kept>,
    pub(crate) second: Vec<Kept>,
    pub(crate) third: Vec<Kept>,
    pub(crate) fourth: Vec<Kept>,
}

/// What a race left: how many records each lane stored, and what was answered.
#[derive(Drop)]
pub(crate) struct Raced {
    pub(crate) stored: [usize; 3],
    pub(crate) answers: Answers,
}

/// The control pass takes back the seats.
fn take_racers(
    log: &Log,
    control: &mut Pass,
    racers: [Racer; 3],
    kept: Vec<Kept>,
) -> Result<Raced, Cause>
    requires pass { IsPassOf log.now control.old }
    requires racers { AreOut log.now racers (λ racer. racer.seat.pass) }
    requires control { (view control.old).lane ≡ 1 }
    requires idle { (view control.old).flight ≡ None }
    requires out { (view control.old).out ≡ 4 ∷ 3 ∷ 2 ∷ [] }
    ensures pass { IsPassOf log.now control.new }
    ensures alone { OnOk result (IsAlone (view control.new)) }
{
    let [second, third, fourth] = racers;
    let seats = [second.seat, third.seat, fourth.seat];
    let answers = Answers {
        control: kept,
        second: second.kept,
        third: third.kept,
        fourth: fourth.kept,
    };
    match take_three(log, control, seats) {
        Ok(stored) => Ok(Raced { stored, answers }),
        Err(fail) => {
            drop(answers);
            Err(fail)
        }
    }
}

/// Lanes 2 to 4 store and scan while definitions come and go.
fn race<R: Threads + Sync>(
    rt: &R,
    alloc: Global,
    log: &Log,
    control: &mut Pass,
    registrar: &mut Registrar,
) -> Result<Raced, Cause>
    requires kept { IsKept log.now control.old registrar.old }
    requires first { view control.old ≡ first_view log.now.key }
    ensures pass { IsPassOf log.now control.new }
    ensures alone { OnOk result (IsAlone (view control.new)) }
{
    let seats = split_beside(log, control, registrar);
    let mut racers = racers_of(alloc, log, seats);
    let mut kept = Vec::new(alloc);
    match change_beside(rt, alloc, log, control, registrar, &mut racers, &mut kept) {
        Ok(()) => take_racers(log, control, racers, kept),
        Err(fail) => {
            drop((racers, kept));
            Err(fail)
        }
    }
}

/// The same, and the closed log.
#[derive(Drop)]
pub(crate) struct Left {
    pub(crate) raced: Raced,
    pub(crate) entries: Entries,
}

/// Closes a log after a race.
fn close_raced(alloc: Global, log: Log, control: Pass, raced: Raced) -> Result<Left, Cause>
    requires pass { IsPassOf log control }
    requires alone { IsAlone (view control) }
{
    match closed(alloc, log, control) {
        Ok(entries) => Ok(Left { raced, entries }),
        Err(fail) => {
            drop(raced);
            Err(fail)
        }
    }
}

/// A race on a log of its own.
pub(crate) fn raced_log<R: Threads + Sync>(rt: &R, alloc: Global) -> Result<Left, Cause> {
    let (log, mut control) = empty_log(alloc, ONE_PAGE, FIRST)?;
    let mut registrar = Registrar::new(Catalog::new(alloc));
    let raced = race(rt, alloc, &log, &mut control, &mut registrar);
    drop(registrar);
    match raced {
        Ok(raced) => close_raced(alloc, log, control, raced),
        Err(fail) => {
            drop((log, control));
            Err(fail)
        }
    }
}
