//! What a lane hands back: the statements that it hasn't begun when it stops since it found the log full.

ghost use Rattle.std.specs.Prelude.{◌≡◌, [], length};
ghost use Rattle.fish_lanes.specs.within.Full.{IsHandedBack};
ghost use Rattle.fish_lanes.specs.Spans.{answers};

use crate::work::{LaneFault, Works};
use fish_report::{Item, Items};

/// Takes the statements away from a lane that have no item yet, where it met no fault. Where memory runs out they stay,
/// and that is its fault.
pub(crate) fn hand_back(
    works: &mut Works,
    left: &mut Works,
    items: &Items,
    fault: LaneFault,
) -> LaneFault
    requires none { left.old ≡ [] }
    ensures { IsHandedBack works.old (length (answers items.now)) fault works.new left.new result }
{
    let LaneFault::None = fault else {
        return fault;
    };
    let done = answered(items.as_slice());
    if works.len() <= done {
        return LaneFault::None;
    }
    match works.split_off(done) {
        Ok(rest) => {
            *left = rest;
            LaneFault::None
        }
        Err(_) => LaneFault::Memory,
    }
}

/// How many of the items answer a statement each.
fn answered(items: &[Item]) -> usize
    ensures { result ≡ length (answers items.now) }
{
    let mut many: usize = 0;
    for item in items {
        if let Item::Bound { .. } = item {
            continue;
        }
        many += 1;
    }
    many
}
