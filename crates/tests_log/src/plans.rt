//! How a scan of lane 2 would read what the lane itself stored, while the control pass does nothing: by the index,
//! since the lane settles what it stored in its own call. Each question is asked on a log of its own.

ghost use Rattle.std.specs.Prelude.{◌≡◌};
ghost use Rattle.fish_ingest.specs.Ingestion.{CanIngest};
ghost use Rattle.fish_rule.specs.Passes.{view};
ghost use Rattle.fish_rule.specs.Table.{first_view};
ghost use Rattle.tests_log.specs.Registering.{IsKept};

use crate::asks::{Question, ask_of};
use crate::cause::Cause;
use crate::expecting::expect_text;
use crate::logs::{ONE_PAGE, empty_log};
use crate::openings::FIRST;
use crate::registrations::{begin, poll};
use crate::rounds::{Lane, lane_of, store_pushes};
use crate::scans::told_explain;
use crate::stories::PUSHES;
use fish_catalog::Catalog;
use fish_registry::{Poll, Registrar};
use fish_rule::{Log, Pass};
use fish_scan::How;
use std::alloc::Global;
use std::test::Fail;

/// What lane 2 asks after its three records, and the plan.
const PLANS: &[(Question, &str)] = &[
    (PUSHES, "0..3 index 0..3 by 0"),
    (
        Question {
            how: How::Index,
            ..PUSHES
        },
        "0..3 index 0..3 by 0",
    ),
    (
        Question {
            from: Some(1),
            to: Some(2),
            ..PUSHES
        },
        "1..2 index 1..2 by 0",
    ),
    (
        Question {
            how: How::Full,
            ..PUSHES
        },
        "0..3 full 0..3",
    ),
];

/// How a scan of the lane would read its range.
fn told_plan(alloc: Global, log: &Log, lane: &mut Lane, question: Question) -> Result<String, Cause>
    requires { CanIngest log.now lane.old.pass lane.old.defs }
{
    let ask = ask_of(alloc, question)?;
    let text = told_explain(alloc, log, &mut lane.pass, &mut lane.defs, &ask);
    drop(ask);
    text
}

/// The same after three records of the lane, by an index that begins before them.
fn told_behind(
    alloc: Global,
    log: &Log,
    control: &mut Pass,
    registrar: &mut Registrar,
    lane: &mut Lane,
    question: Question,
) -> Result<String, Cause>
    requires kept { IsKept log.now control.old registrar.old }
    requires ready { CanIngest log.now lane.old.pass lane.old.defs }
{
    let begun = begin(alloc, log, control, registrar, "t", "take type")?;
    let found = poll(log, control, registrar);
    if begun != Ok(0) || found != (Poll::Bound { id: 0, from: 0 }) {
        return Err(Cause("not registered, or not bound"));
    }
    if store_pushes(alloc, log, &mut lane.pass, &mut lane.defs, 3) != 3 {
        return Err(Cause("not stored"));
    }
    told_plan(alloc, log, lane, question)
}

/// The same with lane 2, which the control pass gives out first.
fn told_by_lane(
    alloc: Global,
    log: &Log,
    control: &mut Pass,
    registrar: &mut Registrar,
    question: Question,
) -> Result<String, Cause>
    requires kept { IsKept log.now control.old registrar.old }
    requires first { view control.old ≡ first_view log.now.key }
{
    let mut lane = lane_of(alloc, log, control, registrar, 2);
    let text = told_behind(alloc, log, control, registrar, &mut lane, question);
    drop(lane);
    text
}

/// The same on a log of its own.
fn told_alone(alloc: Global, question: Question) -> Result<String, Cause> {
    let (log, mut control) = empty_log(alloc, ONE_PAGE, FIRST)?;
    let mut registrar = Registrar::new(Catalog::new(alloc));
    let text = told_by_lane(alloc, &log, &mut control, &mut registrar, question);
    drop((log, control, registrar));
    text
}

#[test]
fn a_lane_settles_what_it_stored(rt: HostRuntime) -> Result<(), Fail> {
    for &(question, want) in PLANS {
        let text = told_alone(rt.alloc(), question)?;
        expect_text(&rt, "a plan of lane 2", text.as_str(), want);
    }
    Ok(())
}
