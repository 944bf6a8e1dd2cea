//! Definitions that come and go while three or four lanes ingest.

ghost use Rattle.std.specs.Prelude.{◌≡◌, ◌+◌, ◌<◌, ◌≤◌, [], All, IfOk, OnOk};
ghost use Rattle.std.specs.Thread.{IsSync};
ghost use Rattle.bench.specs.Opening.{IsReady};
ghost use Rattle.bench.specs.Registrations.{AreLanes, IsKept};
ghost use Rattle.fish_catalog.specs.Rows.{IsName};
ghost use Rattle.fish_registry.specs.Refusing.{IsSaid};
ghost use Rattle.fish_rule.specs.Passes.{IsPassOf, view};
ghost use Rattle.fish_rule.specs.Table.{first_view};

use crate::definitions::OVER_EVENTS;
use crate::ingests::{IngestLane, SHAPE, lanes_of};
use crate::lanes::{LaneCount, time_lanes};
use fish_catalog::Catalog;
use fish_lang::{Def, parse_def};
use fish_registry::{Poll, Registrar};
use fish_rule::{Log, Pass, Start, open_log, split_pass};
use fish_value::Text;
use std::alloc::{AllocError, Global};
use std::io::Eprint;
use std::thread::{Threads, join_mut, sleep};
use std::time::{Clock, Duration};

/// How often a registration is looked at before the measurement gives up.
const TURNS: u32 = 1_000_000_000;

/// How long the control pass sleeps between two looks, in microseconds: about ten records' time in a lane.
const PAUSE: u64 = 20;

/// The definition that comes and goes: its name and its text.
const PUBLIC: (&str, &str) = ("public", "flag when public = true");

/// How many definitions are registered, and ended again, while the lanes ingest.
#[derive(Clone, Copy)]
pub enum Changes {
    None,
    Hundred,
}

impl Changes {
    /// What the line of the measurement begins with.
    fn word(self) -> &'static str {
        match self {
            Changes::None => "steady",
            Changes::Hundred => "changing",
        }
    }

    fn number(self) -> u16 {
        match self {
            Changes::None => 0,
            Changes::Hundred => 100,
        }
    }
}

/// In how many lanes payloads are ingested, and how many changes the control pass makes beside them.
#[derive(Clone, Copy)]
pub struct Work {
    pub lanes: LaneCount,
    pub changes: Changes,
}

/// Registers the definitions over events in an empty log, and ingests the payloads in the lanes from 2 on, in each as
/// many of them, while the control pass makes its changes. It sleeps by the clock.
pub fn measure_registrations<R: Threads + Sync + Clock + AllocGlobal + Eprint>(
    rt: &R,
    clock: &HostRuntime,
    payloads: &[Text],
    work: Work,
) -> Result<(), AllocError> {
    let alloc = rt.alloc();
    let (log, mut control) = open_empty(alloc)?;
    let mut registrar = Registrar::new(Catalog::new(alloc));
    let measured = ingest_beside(
        rt,
        clock,
        &log,
        &mut control,
        &mut registrar,
        payloads,
        work,
    );
    drop((log, control, registrar));
    measured
}

/// A log without definitions, and its control pass.
fn open_empty(alloc: Global) -> Result<(Log, Pass), AllocError>
    ensures pass { IfOk result (λ r. IsPassOf r.0 r.1) }
    ensures view { IfOk result (λ r. view r.1 ≡ first_view r.0.key) }
    ensures rows { IfOk result (λ r. r.0.key.rows.value ≡ []) }
{
    let start = Start::first(alloc, SHAPE, Catalog::new(alloc))?;
    let opened = open_log(alloc, SHAPE, &start);
    drop(start);
    opened
}

/// The same in a log that was opened.
fn ingest_beside<R: Threads + Sync + Clock + AllocGlobal + Eprint>(
    rt: &R,
    clock: &HostRuntime,
    log: &Log,
    control: &mut Pass,
    registrar: &mut Registrar,
    payloads: &[Text],
    work: Work,
) -> Result<(), AllocError>
    requires { IsKept 1 log.now control.old registrar.old }
{
    let alloc = rt.alloc();
    let count = work.lanes.number();
    let passes = passes_of(alloc, log, control, registrar, count)?;
    let share = payloads.len().div_ceil(usize::from(count));
    let mut lanes = lanes_of(alloc, log, passes, payloads, share)?;
    let measured = match register_all(clock, log, control, registrar) {
        Ok(()) => run_beside(
            rt,
            clock,
            log,
            control,
            registrar,
            lanes.as_mut_slice(),
            work.changes,
        ),
        Err(error) => Err(error),
    };
    drop(lanes);
    measured
}

/// The passes of so many lanes, from lane 2 on.
fn passes_of(
    alloc: Global,
    log: &Log,
    control: &mut Pass,
    registrar: &Registrar,
    count: u8,
) -> Result<Vec<Pass>, AllocError>
    requires kept { IsKept 1 log.now control.old registrar.now }
    requires few { count ≤ 4 }
    ensures passes { IfOk result (λ passes. All (IsReady log.now) passes.items) }
    ensures kept { OnOk result (IsKept 16 log.now control.new registrar.now) }
{
    let mut passes = Vec::new(alloc);
    for number in 1..count + 1 {
        passes.push(next_pass(log, control, registrar, number))?;
    }
    Ok(passes)
}

/// The pass of the next lane.
fn next_pass(log: &Log, control: &mut Pass, registrar: &Registrar, top: u8) -> Pass
    requires kept { IsKept top log.now control.old registrar.now }
    requires few { (1 ≤ top) × (top < 16) }
    ensures ready { IsReady log.now result }
    ensures kept { IsKept (top + 1) log.now control.new registrar.now }
{
    split_pass(log, control, top + 1)
}

/// Registers the definitions over events.
fn register_all(
    clock: &HostRuntime,
    log: &Log,
    control: &mut Pass,
    registrar: &mut Registrar,
) -> Result<(), AllocError>
    requires { IsKept 16 log.now control.old registrar.old }
    ensures { IsKept 16 log.now control.new registrar.new }
{
    for definition in OVER_EVENTS {
        register(clock, log, control, registrar, *definition)?;
    }
    Ok(())
}

/// Registers a definition, and waits until its index begins. What can't be registered fails as if memory ran out.
fn register(
    clock: &HostRuntime,
    log: &Log,
    control: &mut Pass,
    registrar: &mut Registrar,
    definition: (&str, &str),
) -> Result<(), AllocError>
    requires { IsKept 16 log.now control.old registrar.old }
    ensures { IsKept 16 log.now control.new registrar.new }
{
    let (name, source) = definition;
    let name = name_of(clock.alloc(), name)?;
    let def = def_of(clock.alloc(), source)?;
    let begun = begin(log, control, registrar, &name, &def);
    drop(def);
    if begun {
        wait(clock, log, control, registrar);
        return Ok(());
    }
    Err(AllocError)
}

/// A text of 1 to 32 bytes as a name.
fn name_of(alloc: Global, name: &str) -> Result<Text, AllocError>
    ensures { IfOk result IsName }
{
    let name = Text::copy_of(alloc, name)?;
    if name.as_bytes().is_empty() || name.as_bytes().len() > 32 {
        return Err(AllocError);
    }
    Ok(name)
}

/// The definition that a source is.
fn def_of(alloc: Global, source: &str) -> Result<Def, AllocError>
    ensures { IfOk result IsSaid }
{
    match parse_def(alloc, source.as_bytes()) {
        Ok(def) => Ok(def),
        Err(_) => Err(AllocError),
    }
}

/// Registers a definition. Whether it did.
fn begin(log: &Log, control: &mut Pass, registrar: &mut Registrar, name: &Text, def: &Def) -> bool
    requires kept { IsKept 16 log.now control.old registrar.old }
    requires name { IsName name.now }
    requires def { IsSaid def.now }
    ensures { IsKept 16 log.now control.new registrar.new }
{
    registrar.begin(log, control, name, def).is_ok()
}

/// Looks at the lanes. Whether the registration still waits.
fn look(log: &Log, control: &mut Pass, registrar: &mut Registrar) -> bool
    requires { IsKept 16 log.now control.old registrar.old }
    ensures { IsKept 16 log.now control.new registrar.new }
{
    matches!(registrar.poll(log, control), Poll::NotYet { .. })
}

/// Looks at the lanes until the index of the registration that waits begins, and sleeps between two looks, so that the
/// lanes have the cores.
fn wait(clock: &HostRuntime, log: &Log, control: &mut Pass, registrar: &mut Registrar)
    requires { IsKept 16 log.now control.old registrar.old }
    ensures { IsKept 16 log.now control.new registrar.new }
{
    for _ in 0..TURNS {
        if !look(log, control, registrar) {
            return;
        }
        sleep(clock, Duration::from_micros(PAUSE));
    }
}

/// Ends a definition. Whether it did.
fn end(log: &Log, control: &mut Pass, registrar: &mut Registrar, name: &Text) -> bool
    requires { IsKept 16 log.now control.old registrar.old }
    ensures { IsKept 16 log.now control.new registrar.new }
{
    registrar.end(log, control, name).is_ok()
}

/// Registers a definition and ends it again, so often.
fn change(
    clock: &HostRuntime,
    log: &Log,
    control: &mut Pass,
    registrar: &mut Registrar,
    times: u16,
) -> Result<(), AllocError>
    requires { IsKept 16 log.now control.old registrar.old }
    ensures { IsKept 16 log.now control.new registrar.new }
{
    for _ in 0..times {
        register(clock, log, control, registrar, PUBLIC)?;
        let name = name_of(clock.alloc(), PUBLIC.0)?;
        if !end(log, control, registrar, &name) {
            return Err(AllocError);
        }
    }
    Ok(())
}

/// The lanes ingest while the control pass makes the changes.
fn run_beside<R: Threads + Sync + Clock + Eprint>(
    rt: &R,
    clock: &HostRuntime,
    log: &Log,
    control: &mut Pass,
    registrar: &mut Registrar,
    lanes: &mut [IngestLane],
    changes: Changes,
) -> Result<(), AllocError>
    requires kept { IsKept 16 log.now control.old registrar.old }
    requires lanes { AreLanes log.now lanes.old }
{
    let (done, ()) = join_mut(
        rt,
        &mut || -> Result<(), AllocError>
            requires { IsKept 16 log.now control.now registrar.now }
        { change(clock, log, control, registrar, changes.number()) },
        &mut || -> ()
            requires { IsSync R.row × AreLanes log.now lanes.now }
        { time_lanes(rt, changes.word(), "bytes", log, lanes) },
    );
    done
}
