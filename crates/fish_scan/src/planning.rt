//! How the numbers of a range are read.

ghost use Rattle.std.specs.Prelude.{◌≤◌, IfErr, IfOk};
ghost use Rattle.fish_catalog.specs.Listing.{IsListing};
ghost use Rattle.fish_rule.specs.Passes.{IsPassOf, view};
ghost use Rattle.fish_scan.specs.within.Intervals.{OnlyBoundaries};
ghost use Rattle.fish_scan.specs.Scans.{IsCovered, IsPlan};
ghost use Rattle.fish_scan.specs.within.Scans.{IsPlanRefused};

use crate::ask::How;
use crate::intervals::load_intervals;
use crate::reach::Reach;
use crate::refusal::ScanRefusal;
use fish_catalog::Listed;
use fish_plan::{Plan, full, plan};
use fish_rule::{Log, Pass};
use std::alloc::{AllocError, Global};

/// The plan of a range in the way that is asked for, where a definition's text is this one. Refused where the index is
/// asked for and misses a settled number.
pub(crate) fn find_plan(
    alloc: Global,
    log: &Log,
    pass: &mut Pass,
    rows: &[Listed],
    text: &[u8],
    how: How,
    reach: &Reach,
) -> Result<Plan, ScanRefusal>
    requires pass { IsPassOf log.now pass.old }
    requires rows { IsListing rows.now }
    requires ordered { reach.now.from ≤ reach.now.to }
    requires settled { reach.now.settled ≤ (view pass.old).learned.settled }
    ensures pass { IsPassOf log.now pass.new }
    ensures only { OnlyBoundaries (view pass.old) (view pass.new) }
    ensures plan { IfOk result (IsPlan (view pass.old) (view pass.new) rows.now text.now how reach.now.from
        reach.now.settled reach.now.to) }
    ensures refused { IfErr result (IsPlanRefused (view pass.old) (view pass.new) rows.now text.now how reach.now.from
        reach.now.settled reach.now.to) }
{
    match how {
        How::Full => Ok(full(alloc, reach.from, reach.to)?),
        How::Auto => Ok(plan_by(alloc, log, pass, rows, text, reach)?),
        How::Index => {
            let plan = plan_by(alloc, log, pass, rows, text, reach)?;
            if let Some(gap) = plan.uncovered(reach.settled) {
                drop(plan);
                return Err(ScanRefusal::NotCovered {
                    from: gap.from,
                    to: gap.to,
                });
            }
            Ok(plan)
        }
    }
}

/// The plan of a range by the intervals of the rows with a text.
fn plan_by(
    alloc: Global,
    log: &Log,
    pass: &mut Pass,
    rows: &[Listed],
    text: &[u8],
    reach: &Reach,
) -> Result<Plan, AllocError>
    requires pass { IsPassOf log.now pass.old }
    requires rows { IsListing rows.now }
    requires ordered { reach.now.from ≤ reach.now.to }
    requires settled { reach.now.settled ≤ (view pass.old).learned.settled }
    ensures pass { IsPassOf log.now pass.new }
    ensures only { OnlyBoundaries (view pass.old) (view pass.new) }
    ensures plan { IfOk result (IsCovered (view pass.old) (view pass.new) rows.now text.now reach.now.from
        reach.now.settled reach.now.to) }
{
    let intervals = load_intervals(alloc, log, pass, rows, text)?;
    plan(
        alloc,
        reach.from,
        reach.settled,
        reach.to,
        intervals.as_slice(),
    )
}
