//! The passes of the lanes after the first: the control pass gives each its own, and takes them back.

ghost use Rattle.std.specs.Prelude.{◌≡◌, length};
ghost use Rattle.fish_lanes.specs.within.Blocks.{AreJoined, AreSeated, CanGive, CanTake, HasGiven, HasSeat};
ghost use Rattle.fish_lanes.specs.within.Blocks.{HasTakenLane};
ghost use Rattle.fish_lanes.specs.within.Blocks.{HasTakenAll, WasTaken, WereTaken};
ghost use Rattle.fish_rule.specs.Passes.{IsPassOf, view};
ghost use Rattle.fish_rule.specs.SeatSteps.{CanSplitPass, split_left, split_right};

use crate::lane::{Lane, LanePass};
use fish_rule::{Log, Pass, join_pass, split_pass};

/// Gives a lane its pass.
fn give(log: &Log, control: &mut Pass, lane: &mut Lane)
    requires pass { IsPassOf log.now control.old }
    requires can { CanSplitPass (view control.old) lane.old.number }
    ensures pass { IsPassOf log.now control.new }
    ensures left { view control.new ≡ split_left lane.old.number (view control.old) }
    ensures seat { HasSeat log.now (split_right lane.old.number (view control.old)) lane.old lane.new }
{
    let pass = split_pass(log, control, lane.number);
    lane.seat = Some(LanePass { pass });
}

/// Gives each lane its pass.
pub(crate) fn give_all(log: &Log, control: &mut Pass, lanes: &mut [Lane])
    requires pass { IsPassOf log.now control.old }
    requires can { CanGive (view control.old) lanes.old }
    ensures pass { IsPassOf log.now control.new }
    ensures given { HasGiven (view control.old) (view control.new) (length lanes.old) }
    ensures seated { AreSeated log.now (view control.old) lanes.old lanes.new }
{
    for i in 0..lanes.len() {
        give(log, control, &mut lanes[i]);
    }
}

/// Takes back the pass of a lane.
fn take_back(log: &Log, control: &mut Pass, lane: &mut Lane)
    requires pass { IsPassOf log.now control.old }
    requires can { CanTake log.now (view control.old) lane.old }
    ensures pass { IsPassOf log.now control.new }
    ensures taken { HasTakenLane (view control.old) (view control.new) lane.old }
    ensures lane { WasTaken lane.old lane.new }
{
    let Some(LanePass { pass }) = lane.seat.take() else {
        unreachable!()
    };
    join_pass(log, control, pass);
}

/// Takes back the pass of each lane.
pub(crate) fn take_all(log: &Log, control: &mut Pass, lanes: &mut [Lane])
    requires pass { IsPassOf log.now control.old }
    requires can { AreJoined log.now (view control.old) lanes.old }
    ensures pass { IsPassOf log.now control.new }
    ensures taken { HasTakenAll (view control.old) (view control.new) lanes.old (length lanes.old) }
    ensures lanes { WereTaken lanes.old lanes.new }
{
    for i in 0..lanes.len() {
        take_back(log, control, &mut lanes[i]);
    }
}
