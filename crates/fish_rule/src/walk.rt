//! The walk that a pass keeps: plain words, which no step reads or writes.

ghost use Rattle.std.specs.Prelude.{◌≡◌};
ghost use Rattle.fish_rule.specs.Passes.{IsPassOf, view, walk_of};
ghost use Rattle.fish_rule.specs.declared.table.Log.{Log};

use crate::table::{Pass, Walk};

/// No walk: what a pass begins with.
pub(crate) const NO_WALK: Walk = Walk {
    bucket: 0,
    from: 0,
    to: 0,
    given: 0,
    place: 0,
};

/// The walk that a pass keeps.
pub fn kept_walk(pass: &Pass) -> Walk
    ensures { result ≡ walk_of pass.now }
{
    pass.walk
}

/// Keeps a walk in place of the one before.
pub fn keep_walk(pass: &mut Pass, walk: Walk)
    ensures walk { walk_of pass.new ≡ walk }
    ensures view { view pass.new ≡ view pass.old }
    ensures pass { (log : Log) → IsPassOf log pass.old → IsPassOf log pass.new }
{
    pass.walk = walk;
}
