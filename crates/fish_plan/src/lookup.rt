//! What intervals say of a number, by one walk over them.

ghost use Rattle.std.specs.Prelude.{◌≡◌, ◌↔◌, ◌-◌, ◌<◌, IsTrue};
ghost use Rattle.fish_plan.specs.Intervals.{Holds, IsAhead, IsHeldBy};
ghost use Rattle.fish_plan.specs.within.Next.{IsLowEnd, IsOldestOf, KeepsLowEnd, KeepsOldest};

use fish_catalog::Interval;

/// The oldest interval that holds a number, and none where none holds it.
pub(crate) fn oldest(intervals: &[Interval], number: u32) -> Option<Interval>
    ensures { IsOldestOf intervals.now number result }
{
    let mut found = None;
    for interval in intervals {
        found = older(found, interval, number);
    }
    found
}

/// One interval more.
fn older(found: Option<Interval>, interval: &Interval, number: u32) -> Option<Interval>
    ensures { KeepsOldest number found interval.now result }
{
    if !holds(interval, number) {
        return found;
    }
    match found {
        Some(first) if is_ahead(&first, interval) => found,
        _ => Some(*interval),
    }
}

/// Whether an interval holds a number.
fn holds(interval: &Interval, number: u32) -> bool
    ensures { IsTrue result ↔ Holds interval.now number }
{
    if number < interval.from {
        return false;
    }
    match interval.to {
        Some(to) => number < to,
        None => true,
    }
}

/// Whether an interval is as old as another one, or older.
fn is_ahead(interval: &Interval, other: &Interval) -> bool
    ensures { IsTrue result ↔ IsAhead interval.now other.now }
{
    interval.from < other.from || (interval.from == other.from && interval.id <= other.id)
}

/// The number up to which the intervals reach below `end`, where none reaches it, or `from` where that is
/// greater.
pub(crate) fn low_end(intervals: &[Interval], from: u32, end: u32) -> u32
    requires range { from < end }
    requires none { ¬ IsHeldBy intervals.now (end - 1) }
    ensures { IsLowEnd intervals.now from end result }
{
    let mut low = from;
    for interval in intervals {
        low = raised(low, interval, end);
    }
    low
}

/// One interval more.
fn raised(low: u32, interval: &Interval, end: u32) -> u32
    ensures { KeepsLowEnd end low interval.now result }
{
    match interval.to {
        Some(to) if interval.from < to && low < to && to < end => to,
        _ => low,
    }
}
