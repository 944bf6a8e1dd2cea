//! Registrations beside a lane that has a record in flight: one that entered before is waited for, and one that entered
//! after is not.

ghost use Rattle.std.specs.Prelude.{◌≡◌};
ghost use Rattle.fish_ingest.specs.Ingestion.{CanIngest};
ghost use Rattle.fish_rule.specs.Passes.{view};
ghost use Rattle.fish_rule.specs.SeatSteps.{CanSplitPass, split_left};
ghost use Rattle.fish_rule.specs.Table.{first_view};
ghost use Rattle.tests_log.specs.Registering.{IsKept};

use crate::cause::Cause;
use crate::expecting::{expect, expect_text};
use crate::lanes::store;
use crate::logs::{ONE_PAGE, empty_log};
use crate::openings::FIRST;
use crate::registrations::{begin, end, poll, split_kept};
use crate::statements::told_scanned;
use crate::stories::PUSHES;
use fish_catalog::Catalog;
use fish_epoch::Defs;
use fish_ingest::{finish, start};
use fish_registry::{Poll, RegRefusal, Registrar};
use fish_rule::{Log, Pass};
use fish_value::Form;
use std::alloc::Global;
use std::test::Fail;

/// The payload of each record.
const PUSH: &[u8] = b"{\"type\":\"Push\",\"n\":1}";

/// What the control pass finds as it registers a definition while a lane has a record in flight, and after it.
#[derive(Clone, Copy, Debug, PartialEq, Eq)]
struct Seen {
    begun: Result<u16, RegRefusal>,
    flying: Poll,
    number: u32,
    landed: Poll,
    later: Poll,
}

/// Registers a definition while a lane has a record in flight.
fn seen_in_flight(
    alloc: Global,
    log: &Log,
    control: &mut Pass,
    registrar: &mut Registrar,
    other: &mut Pass,
    defs: &mut Defs,
) -> Result<Seen, Cause>
    requires kept { IsKept log.now control.old registrar.old }
    requires other { CanIngest log.now other.old defs.old }
    ensures { IsKept log.now control.new registrar.new }
{
    let Ok(pending) = start(alloc, log, other, defs, Form::Json, PUSH) else {
        return Err(Cause("not started"));
    };
    let begun = begin(alloc, log, control, registrar, "t", "take type");
    let flying = poll(log, control, registrar);
    let number = finish(log, other, pending);
    let landed = poll(log, control, registrar);
    let later = poll(log, control, registrar);
    Ok(Seen {
        begun: begun?,
        flying,
        number,
        landed,
        later,
    })
}

/// The same with lane 2.
fn seen_with_lane(
    alloc: Global,
    log: &Log,
    control: &mut Pass,
    registrar: &mut Registrar,
) -> Result<Seen, Cause>
    requires kept { IsKept log.now control.old registrar.old }
    requires can { CanSplitPass (view control.old) 2 }
    ensures { IsKept log.now control.new registrar.new }
{
    let mut other = split_kept(log, control, registrar, 2);
    let mut defs = Defs::new(alloc);
    let seen = seen_in_flight(alloc, log, control, registrar, &mut other, &mut defs);
    drop((other, defs));
    seen
}

/// What a scan for pushes answers.
fn told_pushes(
    alloc: Global,
    log: &Log,
    control: &mut Pass,
    registrar: &Registrar,
) -> Result<String, Cause>
    requires { IsKept log.now control.old registrar.now }
{
    let mut defs = Defs::new(alloc);
    let text = told_scanned(alloc, log, control, registrar, &mut defs, PUSHES);
    drop(defs);
    text
}

/// What is seen with lane 2, and then by a scan.
fn seen_and_found(
    alloc: Global,
    log: &Log,
    control: &mut Pass,
    registrar: &mut Registrar,
) -> Result<(Seen, String), Cause>
    requires kept { IsKept log.now control.old registrar.old }
    requires can { CanSplitPass (view control.old) 2 }
{
    let seen = seen_with_lane(alloc, log, control, registrar)?;
    Ok((seen, told_pushes(alloc, log, control, registrar)?))
}

#[test]
fn a_lane_in_flight_is_waited_for(rt: HostRuntime) -> Result<(), Fail> {
    let alloc = rt.alloc();
    let (log, mut control) = empty_log(alloc, ONE_PAGE, FIRST)?;
    let mut registrar = Registrar::new(Catalog::new(alloc));
    let seen = seen_and_found(alloc, &log, &mut control, &mut registrar);
    drop((log, control, registrar));
    let (seen, found) = seen?;
    let want = Seen {
        begun: Ok(0),
        flying: Poll::NotYet {
            seat: 2,
            version: 0,
        },
        number: 0,
        landed: Poll::Bound { id: 0, from: 1 },
        later: Poll::Idle,
    };
    expect(&rt, "what was seen", &seen, &want);
    expect_text(
        &rt,
        "a scan behind it",
        found.as_str(),
        "0..1 full 0..1; 0 {\"type\":\"Push\",\"n\":1}",
    );
    Ok(())
}

/// Stores records. How many.
pub(crate) fn store_pushes(
    alloc: Global,
    log: &Log,
    pass: &mut Pass,
    defs: &mut Defs,
    count: usize,
) -> usize
    requires { CanIngest log.now pass.old defs.old }
    ensures { CanIngest log.now pass.new defs.new }
{
    for stored in 0..count {
        if store(alloc, log, pass, defs, PUSH).is_err() {
            return stored;
        }
    }
    count
}

/// A lane between two records: its pass, and the definitions that it read.
#[derive(Drop)]
pub(crate) struct Lane {
    pub(crate) pass: Pass,
    pub(crate) defs: Defs,
}

/// What comes of a registration after 90 records, where one lane enters after it and is in flight, and another stores
/// nine records more.
#[derive(Clone, Copy, Debug, PartialEq, Eq)]
struct Behind {
    before: usize,
    begun: Result<u16, RegRefusal>,
    beside: usize,
    found: Poll,
    ended: Result<(u16, u32), RegRefusal>,
    number: u32,
}

/// Registers a definition after 90 records, before a lane that is in flight.
fn seen_behind(
    alloc: Global,
    log: &Log,
    control: &mut Pass,
    registrar: &mut Registrar,
    second: &mut Lane,
    third: &mut Lane,
) -> Result<Behind, Cause>
    requires kept { IsKept log.now control.old registrar.old }
    requires second { CanIngest log.now second.old.pass second.old.defs }
    requires third { CanIngest log.now third.old.pass third.old.defs }
{
    let before = store_pushes(alloc, log, &mut third.pass, &mut third.defs, 90);
    let begun = begin(alloc, log, control, registrar, "t", "take type")?;
    let lane = &mut second.pass;
    let Ok(pending) = start(alloc, log, lane, &mut second.defs, Form::Json, PUSH) else {
        return Err(Cause("not started"));
    };
    let beside = store_pushes(alloc, log, &mut third.pass, &mut third.defs, 9);
    let found = poll(log, control, registrar);
    let ended = end(alloc, log, control, registrar, "t");
    let number = finish(log, &mut second.pass, pending);
    Ok(Behind {
        before,
        begun,
        beside,
        found,
        ended: ended?,
        number,
    })
}

/// The lane that the control pass gives out, which has read nothing.
pub(crate) fn lane_of(
    alloc: Global,
    log: &Log,
    control: &mut Pass,
    registrar: &Registrar,
    lane: u8,
) -> Lane
    requires kept { IsKept log.now control.old registrar.now }
    requires can { CanSplitPass (view control.old) lane }
    ensures kept { IsKept log.now control.new registrar.now }
    ensures left { view control.new ≡ split_left lane (view control.old) }
    ensures ready { CanIngest log.now result.pass result.defs }
{
    let pass = split_kept(log, control, registrar, lane);
    Lane {
        pass,
        defs: Defs::new(alloc),
    }
}

/// The same with lanes 2 and 3.
fn seen_with_two(
    alloc: Global,
    log: &Log,
    control: &mut Pass,
    registrar: &mut Registrar,
) -> Result<Behind, Cause>
    requires kept { IsKept log.now control.old registrar.old }
    requires first { view control.old ≡ first_view log.now.key }
{
    let mut second = lane_of(alloc, log, control, registrar, 2);
    let mut third = lane_of(alloc, log, control, registrar, 3);
    let seen = seen_behind(alloc, log, control, registrar, &mut second, &mut third);
    drop((second, third));
    seen
}

#[test]
fn a_lane_that_entered_behind_is_not_waited_for(rt: HostRuntime) -> Result<(), Fail> {
    let alloc = rt.alloc();
    let (log, mut control) = empty_log(alloc, ONE_PAGE, FIRST)?;
    let mut registrar = Registrar::new(Catalog::new(alloc));
    let seen = seen_with_two(alloc, &log, &mut control, &mut registrar);
    drop((log, control, registrar));
    let want = Behind {
        before: 90,
        begun: Ok(0),
        beside: 9,
        found: Poll::Bound { id: 0, from: 100 },
        ended: Ok((0, 100)),
        number: 90,
    };
    expect(&rt, "what was seen", &seen?, &want);
    Ok(())
}
