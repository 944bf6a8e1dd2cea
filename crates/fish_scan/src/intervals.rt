//! Between which numbers the index of a definition is complete, by the boundary words of its rows.

ghost use Rattle.std.specs.Prelude.{◌≡◌, ◌<◌, IfOk, OnOk};
ghost use Rattle.fish_catalog.specs.Listing.{IsListing};
ghost use Rattle.fish_rule.specs.Passes.{IsPassOf, view};
ghost use Rattle.fish_scan.specs.Intervals.{AreListedIntervals};
ghost use Rattle.fish_scan.specs.within.Intervals.{AddsInterval, IsTaken, OnlyBoundaries};

use fish_catalog::{Interval, Intervals, Listed};
use fish_rule::{Log, Pass, load_boundary};
use std::alloc::{AllocError, Global};

/// The intervals of the rows with a text, by id: of each one whose index has begun, two loads. A row whose
/// index hasn't begun takes one and has none.
pub(crate) fn load_intervals(
    alloc: Global,
    log: &Log,
    pass: &mut Pass,
    rows: &[Listed],
    text: &[u8],
) -> Result<Intervals, AllocError>
    requires pass { IsPassOf log.now pass.old }
    requires rows { IsListing rows.now }
    ensures pass { IsPassOf log.now pass.new }
    ensures only { OnlyBoundaries (view pass.old) (view pass.new) }
    ensures intervals { IfOk result (AreListedIntervals (view pass.old) (view pass.new) rows.now text.now) }
{
    let mut intervals = Intervals::new(alloc);
    for row in rows {
        add_interval(log, pass, row, text, &mut intervals)?;
    }
    Ok(intervals)
}

/// Puts the interval of a row after others, if the row has the text and its index has begun.
fn add_interval(
    log: &Log,
    pass: &mut Pass,
    row: &Listed,
    text: &[u8],
    intervals: &mut Intervals,
) -> Result<(), AllocError>
    requires pass { IsPassOf log.now pass.old }
    requires few { row.now.id < 256 }
    ensures pass { IsPassOf log.now pass.new }
    ensures only { OnlyBoundaries (view pass.old) (view pass.new) }
    ensures added { OnOk result (AddsInterval (view pass.old) (view pass.new) row.now text.now intervals.old
        intervals.new) }
{
    if row.def.as_bytes() != text {
        return Ok(());
    }
    if let Some(interval) = load_interval(log, pass, row.id) {
        intervals.push(interval)?;
    }
    Ok(())
}

/// The interval of a row, if its index has begun.
fn load_interval(log: &Log, pass: &mut Pass, id: u16) -> Option<Interval>
    requires pass { IsPassOf log.now pass.old }
    requires few { id < 256 }
    ensures pass { IsPassOf log.now pass.new }
    ensures only { OnlyBoundaries (view pass.old) (view pass.new) }
    ensures taken { IsTaken (view pass.old) (view pass.new) id result }
{
    let from = load_boundary(log, pass, u64::from(id), 0);
    if from == 0 {
        return None;
    }
    let to = load_boundary(log, pass, u64::from(id), 1);
    Some(Interval {
        id,
        from: (from - 1) as u32,
        to: if to == 0 { None } else { Some((to - 1) as u32) },
    })
}
