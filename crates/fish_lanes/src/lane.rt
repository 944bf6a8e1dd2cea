//! A lane of a block.

ghost use Rattle.std.specs.Prelude.{◌≡◌, [], None};
ghost use Rattle.fish_lanes.specs.declared.work.LaneFault.TheVariants as cause;

use crate::work::{LaneFault, Works};
use fish_report::Items;
use fish_rule::Pass;
use std::alloc::Global;

/// The pass of a lane.
#[derive(Drop)]
pub struct LanePass {
    pub pass: Pass,
}

/// A lane of a block: its statements, and what became of them.
#[derive(Drop)]
pub struct Lane {
    /// From 1 on.
    pub number: u8,
    pub works: Works,
    pub items: Items,
    pub fault: LaneFault,
    /// The statements that it handed back, since it found the log full before it began them.
    pub left: Works,
    /// Its pass, while the block runs.
    pub seat: Option<LanePass>,
}

impl Lane {
    /// A lane with no statement yet.
    pub fn new(alloc: Global, number: u8) -> Lane
        ensures number { result.number ≡ number }
        ensures works { result.works ≡ [] }
        ensures items { result.items ≡ [] }
        ensures fault { result.fault ≡ cause.None }
        ensures left { result.left ≡ [] }
        ensures seat { result.seat ≡ None }
    {
        Lane {
            number,
            works: Works::new(alloc),
            items: Items::new(alloc),
            fault: LaneFault::None,
            left: Works::new(alloc),
            seat: None,
        }
    }
}
