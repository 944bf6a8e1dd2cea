//! How far a scan looks: the settled number, the count, and what stands at the numbers between.

ghost use Rattle.std.specs.Prelude.{◌≡◌, ◌≢◌, ◌<◌, ◌≤◌, ◌++◌, [], ◌∷◌, OnOk, IfOk};
ghost use Rattle.fish_rule.specs.Logs.{KnowsMark};
ghost use Rattle.fish_rule.specs.Passes.{IsPassOf, view};
ghost use Rattle.fish_rule.specs.LoadSteps.{IsAlone};
ghost use Rattle.fish_rule.specs.Views.{Among};
ghost use Rattle.fish_scan.specs.within.Reach.{AreLooks, IsCutAt, IsReach, IsReached};
ghost use Rattle.fish_walk.specs.Looks.{HasOpens, IsLookAt, with_look};
ghost use Rattle.fish_walk.specs.Settling.{OnlySettles};
ghost use Rattle.fish_walk.specs.within.Settling.{OnlyLooks};
ghost use Rattle.fish_walk.specs.declared.outcome.Look.TheVariants.{Overflow, Unfinished};

use fish_rule::{Log, Pass, base};
use fish_value::Numbers;
use fish_walk::{Look, Settled, look, settle};
use std::alloc::{AllocError, Global};

/// The numbers that a scan reads.
#[derive(Drop)]
pub(crate) struct Reach {
    pub from: u32,
    pub to: u32,
    /// Every number below is published, and no mark.
    pub settled: u32,
    /// From here on up to `to`, what stood at each number.
    pub first: u32,
    pub looks: Vec<Look>,
    /// The numbers among them that weren't published.
    pub opens: Numbers,
}

/// How far a scan that is asked for the numbers from one on, up to another or as far as any are claimed, may look:
/// up to the first mark. Takes the loads of settling, one for each number of the range that isn't settled, and one
/// where the range begins after the number at which the settled ones stop.
pub(crate) fn find_reach(
    alloc: Global,
    log: &Log,
    pass: &mut Pass,
    from: u32,
    to: Option<u32>,
) -> Result<Reach, AllocError>
    requires pass { IsPassOf log.now pass.old }
    ensures pass { IsPassOf log.now pass.new }
    ensures settles { OnlySettles (view pass.old) (view pass.new) }
    ensures reach { IfOk result (IsReach (view pass.old) (view pass.new) from to) }
{
    let Settled { settled, count } = settle(log, pass);
    let stop = base(log).number.max(settled);
    let end = cut_end(log, pass, stop, from, to.unwrap_or(count).min(count));
    let first = stop.max(from).min(end);
    let mut looks = Vec::new(alloc);
    let mut opens = Numbers::new(alloc);
    look_on(log, pass, first, end, count, &mut looks, &mut opens)?;
    let to = first + looks.len() as u32;
    Ok(Reach {
        from: from.min(to),
        to,
        settled,
        first,
        looks,
        opens,
    })
}

/// The end of a range, or the number at which the settled ones stop where this is a mark before the range: nothing
/// of the log is after it.
fn cut_end(log: &Log, pass: &mut Pass, stop: u32, from: u32, end: u32) -> u32
    requires pass { IsPassOf log.now pass.old }
    requires above { (view pass.old).about.number ≤ stop }
    requires counted { end ≤ (view pass.old).learned.count }
    ensures pass { IsPassOf log.now pass.new }
    ensures only { OnlyLooks (view pass.old) (view pass.new) }
    ensures cut { IsCutAt (view pass.new) stop from end result }
    ensures alone { IsAlone (view pass.old) → stop < from → KnowsMark (view pass.new) stop → result ≤ stop }
{
    if from <= stop || end <= stop {
        return end;
    }
    match look(log, pass, stop) {
        Look::Overflow => stop,
        Look::Unfinished | Look::Void | Look::Stored => end,
    }
}

/// Looks at the numbers from one on, up to an end or the first mark, and keeps what stood at each.
fn look_on(
    log: &Log,
    pass: &mut Pass,
    first: u32,
    end: u32,
    count: u32,
    looks: &mut Vec<Look>,
    opens: &mut Numbers,
) -> Result<(), AllocError>
    requires pass { IsPassOf log.now pass.old }
    requires above { first < end → (view pass.old).about.number ≤ first }
    requires known { count ≤ (view pass.old).learned.count }
    requires fresh { HasOpens (view pass.old) count [] }
    requires ordered { first ≤ end }
    requires counted { end ≤ count }
    requires looks { looks.old.items ≡ [] }
    requires opens { opens.old ≡ [] }
    ensures pass { IsPassOf log.now pass.new }
    ensures only { OnlyLooks (view pass.old) (view pass.new) }
    ensures looks { OnOk result (AreLooks (view pass.old) (view pass.new) first end count looks.new.items opens.new) }
    ensures closed { OnOk result (IsAlone (view pass.old) → opens.new ≡ []) }
{
    for number in first..end {
        let seen = look(log, pass, number);
        match seen {
            Look::Overflow => return Ok(()),
            Look::Unfinished | Look::Void | Look::Stored => keep(looks, opens, number, seen)?,
        }
    }
    Ok(())
}

/// Keeps what stood at a number, and the number where it is open.
fn keep(
    looks: &mut Vec<Look>,
    opens: &mut Numbers,
    number: u32,
    seen: Look,
) -> Result<(), AllocError>
    ensures looks { OnOk result (looks.new.items ≡ looks.old.items ++ seen ∷ []) }
    ensures opens { OnOk result (opens.new ≡ with_look number seen opens.old) }
{
    if seen == Look::Unfinished {
        opens.push(number)?;
    }
    looks.push(seen)?;
    Ok(())
}

/// What stands at a number of the range that is in the table: it was looked at, or is settled and looked at here.
pub(crate) fn seen_at(log: &Log, pass: &mut Pass, reach: &Reach, number: u32) -> Look
    requires pass { IsPassOf log.now pass.old }
    requires reached { IsReached (view pass.old) reach.now }
    requires base { (view pass.old).about.number ≤ number }
    requires from { reach.now.from ≤ number }
    requires to { number < reach.now.to }
    ensures pass { IsPassOf log.now pass.new }
    ensures only { OnlyLooks (view pass.old) (view pass.new) }
    ensures seen { IsLookAt (view pass.new) number result }
    ensures unmarked { result ≢ Overflow }
    ensures unfinished { result ≡ Unfinished → Among number reach.now.opens }
    ensures finished { result ≢ Unfinished → ¬ Among number reach.now.opens }
{
    if number < reach.first {
        return look(log, pass, number);
    }
    reach.looks[(number - reach.first) as usize]
}
