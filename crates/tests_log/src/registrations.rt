//! Definitions that are registered and ended on an open log, by the control pass.

ghost use Rattle.std.specs.Prelude.{◌≡◌};
ghost use Rattle.fish_registry.specs.Changing.{Changes};
ghost use Rattle.fish_rule.specs.Passes.{IsPassOf, view};
ghost use Rattle.fish_rule.specs.SeatSteps.{CanSplitPass, split_left};
ghost use Rattle.tests_log.specs.Lanes.{IsOutOf};
ghost use Rattle.tests_log.specs.Registering.{IsBeside, IsKept, IsWorking};

use crate::cause::Cause;
use crate::lanes::{split_lane, store};
use crate::logs::{name_of, parsed};
use fish_epoch::Defs;
use fish_ingest::IngestRefusal;
use fish_registry::{Poll, RegRefusal, Registrar};
use fish_rule::{Log, Pass};
use std::alloc::Global;

/// How often a registration is looked at before the test gives up: far more than any schedule needs.
const TURNS: u32 = 1_000_000_000;

/// Registers a definition. Its id, or why it was refused.
pub(crate) fn begin(
    alloc: Global,
    log: &Log,
    control: &mut Pass,
    registrar: &mut Registrar,
    name: &str,
    source: &str,
) -> Result<Result<u16, RegRefusal>, Cause>
    requires { IsKept log.now control.old registrar.old }
    ensures kept { IsKept log.now control.new registrar.new }
    ensures changes { Changes (view control.old) (view control.new) }
{
    let name = name_of(alloc, name)?;
    let (def, text) = parsed(alloc, source)?;
    drop(text);
    let begun = registrar.begin(log, control, &name, &def);
    drop(def);
    Ok(begun)
}

/// Ends a definition. Its id and where its index ends, or why it was refused.
pub(crate) fn end(
    alloc: Global,
    log: &Log,
    control: &mut Pass,
    registrar: &mut Registrar,
    name: &str,
) -> Result<Result<(u16, u32), RegRefusal>, Cause>
    requires { IsKept log.now control.old registrar.old }
    ensures kept { IsKept log.now control.new registrar.new }
    ensures changes { Changes (view control.old) (view control.new) }
{
    let name = name_of(alloc, name)?;
    Ok(registrar.end(log, control, &name))
}

/// Looks at the lanes.
pub(crate) fn poll(log: &Log, control: &mut Pass, registrar: &mut Registrar) -> Poll
    requires { IsKept log.now control.old registrar.old }
    ensures kept { IsKept log.now control.new registrar.new }
    ensures changes { Changes (view control.old) (view control.new) }
{
    registrar.poll(log, control)
}

/// Stores a payload beside a registrar. Its number, or why it was not stored.
pub(crate) fn store_kept(
    alloc: Global,
    log: &Log,
    control: &mut Pass,
    registrar: &Registrar,
    defs: &mut Defs,
    payload: &[u8],
) -> Result<u32, IngestRefusal>
    requires { IsWorking log.now control.old registrar.now defs.old }
    ensures { IsWorking log.now control.new registrar.now defs.new }
{
    store(alloc, log, control, defs, payload)
}

/// Registers a definition, of a name and a text. Its id, or why it was refused.
pub(crate) fn begin_between(
    alloc: Global,
    log: &Log,
    control: &mut Pass,
    registrar: &mut Registrar,
    defs: &Defs,
    definition: (&str, &str),
) -> Result<Result<u16, RegRefusal>, Cause>
    requires { IsWorking log.now control.old registrar.old defs.now }
    ensures { IsWorking log.now control.new registrar.new defs.now }
{
    begin(alloc, log, control, registrar, definition.0, definition.1)
}

/// Ends a definition. Its id and where its index ends, or why it was refused.
pub(crate) fn end_between(
    alloc: Global,
    log: &Log,
    control: &mut Pass,
    registrar: &mut Registrar,
    defs: &Defs,
    name: &str,
) -> Result<Result<(u16, u32), RegRefusal>, Cause>
    requires { IsWorking log.now control.old registrar.old defs.now }
    ensures { IsWorking log.now control.new registrar.new defs.now }
{
    end(alloc, log, control, registrar, name)
}

/// Looks at the lanes.
pub(crate) fn poll_between(
    log: &Log,
    control: &mut Pass,
    registrar: &mut Registrar,
    defs: &Defs,
) -> Poll
    requires { IsWorking log.now control.old registrar.old defs.now }
    ensures { IsWorking log.now control.new registrar.new defs.now }
{
    poll(log, control, registrar)
}

/// The pass of a lane, which the control pass gives out. Its registrar keeps what it knows.
pub(crate) fn split_kept(log: &Log, control: &mut Pass, registrar: &Registrar, lane: u8) -> Pass
    requires kept { IsKept log.now control.old registrar.now }
    requires can { CanSplitPass (view control.old) lane }
    ensures kept { IsKept log.now control.new registrar.now }
    ensures left { view control.new ≡ split_left lane (view control.old) }
    ensures out { IsOutOf log.now result }
{
    split_lane(log, control, lane)
}

/// Looks at the lanes.
fn look(log: &Log, control: &mut Pass, registrar: &mut Registrar) -> Poll
    requires { IsBeside log.now control.old registrar.old }
    ensures { IsBeside log.now control.new registrar.new }
{
    poll(log, control, registrar)
}

/// Looks at the lanes until the index of the registration that waits begins.
fn wait(log: &Log, control: &mut Pass, registrar: &mut Registrar) -> Result<(), Cause>
    requires { IsBeside log.now control.old registrar.old }
    ensures { IsBeside log.now control.new registrar.new }
{
    for _ in 0..TURNS {
        match look(log, control, registrar) {
            Poll::Bound { .. } => return Ok(()),
            Poll::Idle => return Err(Cause("none waits")),
            Poll::NotYet { .. } => {}
        }
    }
    Err(Cause("never bound"))
}

/// Registers a definition beside the lanes, of a name and a text, and waits until its index begins.
pub(crate) fn begin_beside(
    alloc: Global,
    log: &Log,
    control: &mut Pass,
    registrar: &mut Registrar,
    definition: (&str, &str),
) -> Result<(), Cause>
    requires { IsBeside log.now control.old registrar.old }
    ensures { IsBeside log.now control.new registrar.new }
{
    if begin(alloc, log, control, registrar, definition.0, definition.1)?.is_err() {
        return Err(Cause("not registered"));
    }
    wait(log, control, registrar)
}

/// Ends the definition of a name beside the lanes. Whether it did.
pub(crate) fn end_beside(
    alloc: Global,
    log: &Log,
    control: &mut Pass,
    registrar: &mut Registrar,
    name: &str,
) -> Result<bool, Cause>
    requires { IsBeside log.now control.old registrar.old }
    ensures { IsBeside log.now control.new registrar.new }
{
    Ok(end(alloc, log, control, registrar, name)?.is_ok())
}
