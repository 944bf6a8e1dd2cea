//! The seats of lanes 2 to 4, which the control pass gives out to threads and takes back.

ghost use Rattle.std.specs.Prelude.{◌≡◌, ◌≤◌, ◌∷◌, [], None, IfOk, OnOk};
ghost use Rattle.fish_ingest.specs.Ingestion.{CanStart};
ghost use Rattle.fish_rule.specs.LoadSteps.{IsAlone};
ghost use Rattle.fish_rule.specs.Passes.{IsPassOf, view};
ghost use Rattle.fish_rule.specs.SeatSteps.{CanSplitPass, split_left, without};
ghost use Rattle.fish_rule.specs.Table.{first_view};
ghost use Rattle.fish_rule.specs.Views.{Among};
ghost use Rattle.tests_log.specs.Lanes.{IsOutOf};
ghost use Rattle.tests_log.specs.Registering.{AreOut, IsBeside, IsKept};

use crate::cause::Cause;
use crate::lanes::{split_lane, take_back};
use fish_registry::Registrar;
use fish_rule::{Log, Pass};

/// A pass on its thread, and how many records it stored.
#[derive(Drop)]
pub(crate) struct Seat {
    pub(crate) pass: Pass,
    pub(crate) stored: usize,
}

/// The seat of a lane, which the control pass gives out.
fn split_seat(log: &Log, control: &mut Pass, lane: u8) -> Seat
    requires pass { IsPassOf log.now control.old }
    requires can { CanSplitPass (view control.old) lane }
    ensures pass { IsPassOf log.now control.new }
    ensures left { view control.new ≡ split_left lane (view control.old) }
    ensures seat { IsOutOf log.now result.pass }
{
    let pass = split_lane(log, control, lane);
    Seat { pass, stored: 0 }
}

/// The seats of lanes 2 to 4.
pub(crate) fn split_three(log: &Log, control: &mut Pass) -> [Seat; 3]
    requires pass { IsPassOf log.now control.old }
    requires first { view control.old ≡ first_view log.now.key }
    ensures pass { IsPassOf log.now control.new }
    ensures left { view control.new ≡ split_left 4 (split_left 3 (split_left 2 (view control.old))) }
    ensures control { ((view control.new).lane ≡ 1) × ((view control.new).flight ≡ None) }
    ensures start { CanStart (view control.new) }
    ensures out { (view control.new).out ≡ 4 ∷ 3 ∷ 2 ∷ [] }
    ensures seats { AreOut log.now result (λ seat. seat.pass) }
{
    let second = split_seat(log, control, 2);
    let third = split_seat(log, control, 3);
    let fourth = split_seat(log, control, 4);
    [second, third, fourth]
}

/// The same beside a registrar, which keeps what it knows.
pub(crate) fn split_beside(log: &Log, control: &mut Pass, registrar: &Registrar) -> [Seat; 3]
    requires kept { IsKept log.now control.old registrar.now }
    requires first { view control.old ≡ first_view log.now.key }
    ensures beside { IsBeside log.now control.new registrar.now }
    ensures seats { AreOut log.now result (λ seat. seat.pass) }
{
    split_three(log, control)
}

/// The control pass takes back a seat. How many records were stored there.
fn take_seat(log: &Log, control: &mut Pass, seat: Seat, lane: u8) -> Result<usize, Cause>
    requires pass { IsPassOf log.now control.old }
    requires seat { IsOutOf log.now seat.pass }
    requires control { (view control.old).lane ≡ 1 }
    requires out { Among lane (view control.old).out }
    requires above { 2 ≤ lane }
    ensures pass { IsPassOf log.now control.new }
    ensures kept { ((view control.new).lane ≡ 1) × ((view control.new).flight ≡ (view control.old).flight) }
    ensures left { IfOk result (λ _. (view control.new).out ≡ without lane (view control.old).out) }
{
    let Seat { pass, stored } = seat;
    take_back(log, control, pass, lane)?;
    Ok(stored)
}

/// The control pass takes back lanes 2 to 4. How many records each stored.
pub(crate) fn take_three(
    log: &Log,
    control: &mut Pass,
    seats: [Seat; 3],
) -> Result<[usize; 3], Cause>
    requires pass { IsPassOf log.now control.old }
    requires seats { AreOut log.now seats (λ seat. seat.pass) }
    requires control { (view control.old).lane ≡ 1 }
    requires idle { (view control.old).flight ≡ None }
    requires out { (view control.old).out ≡ 4 ∷ 3 ∷ 2 ∷ [] }
    ensures pass { IsPassOf log.now control.new }
    ensures alone { OnOk result (IsAlone (view control.new)) }
{
    let [second, third, fourth] = seats;
    let second = take_seat(log, control, second, 2)?;
    let third = take_seat(log, control, third, 3)?;
    let fourth = take_seat(log, control, fourth, 4)?;
    Ok([second, third, fourth])
}
