//! One key entry into its chain.
//!
//! A chain goes down: from its head, the newest entry of a bucket, each first word is the place of
//! the next older one, or 0. The record in flight may be older than records that others linked
//! meanwhile, so its entry goes in at the head or below a higher entry.

ghost use Rattle.std.specs.Prelude.{◌≡◌, ◌<◌, ℕ, Some};
ghost use Rattle.fish_chain.specs.Links.{CanLink, IsLinked};
ghost use Rattle.fish_chain.specs.within.Links.{CanLinkBelow, Tried};
ghost use Rattle.fish_rule.specs.ChainSteps.{own_place};
ghost use Rattle.fish_rule.specs.Passes.{IsPassOf, view};
ghost use Rattle.fish_rule.specs.declared.view.Flight.{Flight};

use fish_layout::place_of;
use fish_rule::{
    Log, Pass, aim_entry, in_flight, load_head, load_previous, splice_entry, swing_head,
};

/// Puts key entry `key` of the record in flight into its chain: a load, a store and an exchange where
/// no other pass links into the bucket meanwhile and no newer entry is linked there. No memory.
pub fn link(log: &Log, pass: &mut Pass, key: u16, bucket: u32)
    requires pass { IsPassOf log.now pass.old }
    requires view { (f : Flight) × CanLink (view pass.old) f key bucket }
    ensures pass { IsPassOf log.now pass.new }
    ensures linked { (f : Flight) → (view pass.old).flight ≡ Some f
        → IsLinked (view pass.old) f bucket (view pass.new) }
{
    let Some(region) = in_flight(pass) else {
        unreachable!()
    };
    let place = place_of(region.line, u64::from(key));
    let Some(mut above) = swing_up(log, pass, u64::from(bucket), place) else {
        return;
    };
    while let Some(next) = splice_up(log, pass, above, place) {
        above = next;
    }
}

/// Makes the own entry the head, unless the head is above it: then answers the head.
fn swing_up(log: &Log, pass: &mut Pass, bucket: u64, place: u64) -> Option<u64>
    requires pass { IsPassOf log.now pass.old }
    requires view { (f : Flight) × CanLink (view pass.old) f f.linked bucket × (place ≡ own_place f) }
    ensures pass { IsPassOf log.now pass.new }
    ensures tried { (f : Flight) → (view pass.old).flight ≡ Some f
        → Tried (view pass.old) f bucket result (view pass.new) }
{
    let mut head = load_head(log, pass, bucket);
    while head < place {
        aim_entry(log, pass, place, head);
        let found = swing_head(log, pass, bucket, head, place);
        if found == head {
            return None;
        }
        head = found;
    }
    Some(head)
}

/// Puts the own entry in below a higher one, unless the next one is above it too: then answers that.
fn splice_up(log: &Log, pass: &mut Pass, above: u64, place: u64) -> Option<u64>
    requires pass { IsPassOf log.now pass.old }
    requires view { (f : Flight) × ((b : ℕ) × CanLinkBelow (view pass.old) f b above place) }
    ensures pass { IsPassOf log.now pass.new }
    ensures tried { (f : Flight) → (b : ℕ) → CanLinkBelow (view pass.old) f b above place
        → Tried (view pass.old) f b result (view pass.new) }
    ensures lower { (next : ℕ) → result ≡ Some next → next < above }
{
    let mut previous = load_previous(log, pass, above);
    while previous < place {
        aim_entry(log, pass, place, previous);
        let found = splice_entry(log, pass, above, previous, place);
        if found == previous {
            return None;
        }
        previous = found;
    }
    Some(previous)
}
