//! How the control pass looks at the lanes, and where an index begins once it has looked at all.

ghost use Rattle.std.specs.Prelude.{◌≡◌, IfSome, IsNone};
ghost use Rattle.fish_registry.specs.Changing.{IsAtTail};
ghost use Rattle.fish_registry.specs.Knowing.{IsAwaited};
ghost use Rattle.fish_registry.specs.Looking.{at_lane};
ghost use Rattle.fish_registry.specs.within.Looking.{HasBound, IsOlderLane, Looks};
ghost use Rattle.fish_rule.specs.Passes.{IsPassOf, view};
ghost use Rattle.fish_rule.specs.LoadSteps.{IsAlone};
ghost use Rattle.fish_rule.specs.declared.view.Epoch.TheVariants.{Out};

use crate::registrar::Waiting;
use fish_layout::MAX_LANE;
use fish_rule::{Log, Pass, check_lane, load_bound, store_from};

/// A lane whose pass is entered at an older version than a registration's.
#[derive(Clone, Copy)]
pub(crate) struct Older {
    pub(crate) lane: u8,
    pub(crate) version: u16,
}

/// Looks at the lanes that were not yet looked at, up to the first one that is at an older version.
pub(crate) fn first_older(log: &Log, pass: &mut Pass, waiting: Waiting) -> Option<Older>
    requires pass { IsPassOf log.now pass.old }
    requires waits { IsAwaited (view pass.old) waiting }
    ensures pass { IsPassOf log.now pass.new }
    ensures looks { Looks (view pass.old) (view pass.new) }
    ensures older { IfSome result (IsOlderLane (view pass.old) waiting (view pass.new)) }
    ensures clear { IsNone result → IsAwaited (view pass.new) (at_lane waiting 17) }
    ensures alone { IsAlone (view pass.old) → (view pass.old).epoch ≡ Out → IsNone result }
{
    for lane in waiting.lane..=MAX_LANE {
        let word = check_lane(log, pass, lane);
        if word != 0 && word <= waiting.version {
            return Some(Older {
                lane,
                version: (word - 1) as u16,
            });
        }
    }
    None
}

/// The index of a registration begins at the count of the log, once all lanes were looked at.
pub(crate) fn bind(log: &Log, pass: &mut Pass, waiting: Waiting) -> u32
    requires pass { IsPassOf log.now pass.old }
    requires control { (view pass.old).lane ≡ 1 }
    requires clear { IsAwaited (view pass.old) (at_lane waiting 17) }
    ensures pass { IsPassOf log.now pass.new }
    ensures bound { HasBound (view pass.old) waiting (view pass.new) result }
    ensures alone { IsAlone (view pass.old) → IsAtTail (view pass.old) result }
{
    let from = load_bound(log, pass).number;
    store_from(log, pass, u64::from(waiting.id), from);
    from as u32
}
