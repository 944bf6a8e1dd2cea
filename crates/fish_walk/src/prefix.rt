//! The stable prefix of the log: the numbers below the settled one, all published and no marks.

ghost use Rattle.std.specs.Prelude.{◌≡◌, ◌≤◌, [], min};
ghost use Rattle.fish_rule.specs.Passes.{IsPassOf, view};
ghost use Rattle.fish_rule.specs.LoadSteps.{CanRaiseSettled, IsAlone};
ghost use Rattle.fish_walk.specs.Looks.{HasOpens, IsTailCount};
ghost use Rattle.fish_walk.specs.Settling.{EndsAt, HasLoadedCount, HasTail, IsEnd, IsMark};
ghost use Rattle.fish_walk.specs.within.Settling.{AreSettled, CanSettle, OnlyLooks, OnlyRaises};
ghost use Rattle.fish_walk.specs.Settling.{OnlySettles, SettlesAt};

use crate::found::{count_now, look};
use crate::outcome::Look;
use fish_rule::{Log, Pass, base, load_settled, raise_settled};

/// How far the log is settled, and how many numbers are claimed.
#[derive(Clone, Copy, Debug, PartialEq, Eq)]
pub struct Settled {
    /// Every number below is published, and no mark.
    pub settled: u32,
    /// How many numbers are claimed, all below the log's first included.
    pub count: u32,
}

/// Raises the settled number over the published numbers after it, up to the first one that is
/// unfinished or a mark, and answers how far it came. Takes two loads, one more for each number that
/// it looks at, and at most one raise.
pub fn settle(log: &Log, pass: &mut Pass) -> Settled
    requires pass { IsPassOf log.now pass.old }
    ensures pass { IsPassOf log.now pass.new }
    ensures settles { OnlySettles (view pass.old) (view pass.new) }
    ensures rises { (view pass.old).learned.settled ≤ result.settled }
    ensures settled { result.settled ≤ (view pass.new).learned.settled }
    ensures count { HasLoadedCount (view pass.old) (view pass.new) result.count }
    ensures stops { SettlesAt IsEnd (view pass.old) (view pass.new) result.settled result.count }
    ensures alone { IsAlone (view pass.old)
        → SettlesAt IsMark (view pass.old) (view pass.new) result.settled result.count }
    ensures tail { HasTail (view pass.new) result.count }
    ensures opens { HasOpens (view pass.new) result.count [] }
    ensures ends { IsAlone (view pass.old) → EndsAt (view pass.new) result.settled result.count }
    ensures rests { IsAlone (view pass.old) → IsTailCount result.count (view pass.old).tail }
{
    let known = load_settled(log, pass);
    let count = count_now(log, pass);
    let first = base(log).number.max(known as u32);
    let settled = settled_up_to(log, pass, first, count);
    raise_to(log, pass, known, u64::from(settled));
    Settled { settled, count }
}

/// The first number from here on that is unfinished or a mark, or the count where there is none.
fn settled_up_to(log: &Log, pass: &mut Pass, first: u32, count: u32) -> u32
    requires pass { IsPassOf log.now pass.old }
    requires can { CanSettle (view pass.old) first count }
    ensures pass { IsPassOf log.now pass.new }
    ensures looked { OnlyLooks (view pass.old) (view pass.new) }
    ensures from { min first count ≤ result }
    ensures settled { AreSettled (view pass.new) first result }
    ensures stops { SettlesAt IsEnd (view pass.old) (view pass.new) result count }
    ensures alone { IsAlone (view pass.old) → SettlesAt IsMark (view pass.old) (view pass.new) result count }
    ensures ends { IsAlone (view pass.old) → EndsAt (view pass.new) result count }
{
    for number in first..count {
        match look(log, pass, number) {
            Look::Unfinished | Look::Overflow => return number,
            Look::Void | Look::Stored => {}
        }
    }
    count
}

/// Raises the settled number to at least this one, by one step, unless it is known to be so high.
fn raise_to(log: &Log, pass: &mut Pass, known: u64, number: u64)
    requires pass { IsPassOf log.now pass.old }
    requires can { CanRaiseSettled (view pass.old) number }
    requires known { (view pass.old).learned.settled ≡ known }
    ensures pass { IsPassOf log.now pass.new }
    ensures raised { OnlyRaises (view pass.old) (view pass.new) number }
{
    if known < number {
        raise_settled(log, pass, number);
    }
}
