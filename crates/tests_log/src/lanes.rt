//! Passes of lanes that store payloads.

ghost use Rattle.std.specs.Prelude.{◌≡◌, ◌≤◌, IfOk};
ghost use Rattle.fish_ingest.specs.Ingestion.{CanIngest};
ghost use Rattle.fish_rule.specs.Logs.{Learns};
ghost use Rattle.fish_rule.specs.Passes.{IsPassOf, view};
ghost use Rattle.fish_rule.specs.SeatSteps.{CanSplitPass, split_left, without};
ghost use Rattle.fish_rule.specs.Views.{Among};
ghost use Rattle.tests_log.specs.Lanes.{IsOutOf};

use crate::cause::Cause;
use fish_epoch::Defs;
use fish_ingest::{IngestRefusal, ingest};
use fish_rule::{Log, Pass, in_flight, join_pass, lane as lane_of, split_pass};
use fish_value::{Form, Text};
use std::alloc::{AllocError, Global};

/// The pass of a lane, which the control pass gives out.
pub(crate) fn split_lane(log: &Log, control: &mut Pass, number: u8) -> Pass
    requires pass { IsPassOf log.now control.old }
    requires can { CanSplitPass (view control.old) number }
    ensures pass { IsPassOf log.now control.new }
    ensures left { view control.new ≡ split_left number (view control.old) }
    ensures out { IsOutOf log.now result }
{
    split_pass(log, control, number)
}

/// A payload that was written.
pub(crate) fn as_text(text: String, done: Result<(), AllocError>) -> Result<Text, AllocError> {
    match done {
        Ok(()) => Ok(Text::from_string(text)),
        Err(error) => {
            drop(text);
            Err(error)
        }
    }
}

/// Stores a payload in a form. Its number, or why it was not stored.
pub(crate) fn store_as(
    alloc: Global,
    log: &Log,
    pass: &mut Pass,
    defs: &mut Defs,
    form: Form,
    payload: &[u8],
) -> Result<u32, IngestRefusal>
    requires { CanIngest log.now pass.old defs.old }
    ensures ready { CanIngest log.now pass.new defs.new }
    ensures lane { (view pass.new).lane ≡ (view pass.old).lane }
    ensures out { (view pass.new).out ≡ (view pass.old).out }
    ensures rows { (view pass.new).rows ≡ (view pass.old).rows }
    ensures control_words { (view pass.new).control_words ≡ (view pass.old).control_words }
    ensures round { (view pass.new).round ≡ (view pass.old).round }
    ensures learns { Learns (view pass.old) (view pass.new) }
{
    ingest(alloc, log, pass, defs, form, payload)
}

/// Stores a payload in JSON. Its number, or why it was not stored.
pub(crate) fn store(
    alloc: Global,
    log: &Log,
    pass: &mut Pass,
    defs: &mut Defs,
    payload: &[u8],
) -> Result<u32, IngestRefusal>
    requires { CanIngest log.now pass.old defs.old }
    ensures ready { CanIngest log.now pass.new defs.new }
    ensures lane { (view pass.new).lane ≡ (view pass.old).lane }
    ensures out { (view pass.new).out ≡ (view pass.old).out }
    ensures rows { (view pass.new).rows ≡ (view pass.old).rows }
    ensures control_words { (view pass.new).control_words ≡ (view pass.old).control_words }
    ensures round { (view pass.new).round ≡ (view pass.old).round }
    ensures learns { Learns (view pass.old) (view pass.new) }
{
    store_as(alloc, log, pass, defs, Form::Json, payload)
}

/// The control pass takes back a lane.
pub(crate) fn take_back(log: &Log, control: &mut Pass, other: Pass, lane: u8) -> Result<(), Cause>
    requires pass { IsPassOf log.now control.old }
    requires other { IsOutOf log.now other }
    requires control { (view control.old).lane ≡ 1 }
    requires out { Among lane (view control.old).out }
    requires above { 2 ≤ lane }
    ensures pass { IsPassOf log.now control.new }
    ensures kept { ((view control.new).lane ≡ 1) × ((view control.new).flight ≡ (view control.old).flight) }
    ensures left { IfOk result (λ _. (view control.new).out ≡ without lane (view control.old).out) }
{
    if lane_of(&other) != lane || in_flight(&other).is_some() {
        return Err(Cause("not the lane, or a record in flight"));
    }
    join_pass(log, control, other);
    Ok(())
}
