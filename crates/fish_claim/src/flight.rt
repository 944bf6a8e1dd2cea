//! The words of a record in flight, and its publication.

ghost use Rattle.std.specs.Prelude.{◌≡◌};
ghost use Rattle.fish_claim.specs.Fills.{CanFill, IsFilled, filled_view, with_words};
ghost use Rattle.fish_rule.specs.Passes.{IsPassOf, view};
ghost use Rattle.fish_rule.specs.SpaceSteps.{CanPublishRegion, after_publish_region, flight_kind};
ghost use Rattle.fish_rule.specs.declared.view.Flight.{Flight};
ghost use Rattle.fish_rule.specs.declared.view.Kind.TheVariants.{Stored};

use fish_rule::{Log, Pass, in_flight, publish_region, region_index, store_at};

/// Stores all words of the record in flight, in order.
pub fn fill(log: &Log, pass: &mut Pass, body: &[u64])
    requires pass { IsPassOf log.now pass.old }
    requires view { (f : Flight) × CanFill (view pass.old) f body.now }
    ensures pass { IsPassOf log.now pass.new }
    ensures view { (f : Flight) → (view pass.old).flight ≡ Some f
        → view pass.new ≡ filled_view (view pass.old) f body.now }
    ensures filled { (f : Flight) → (view pass.old).flight ≡ Some f → IsFilled (view pass.new) (with_words f body.now) }
{
    let Some(region) = in_flight(pass) else {
        unreachable!()
    };
    let first = region_index(log, &region);
    for (offset, word) in body.iter().enumerate() {
        store_at(log, pass, first, offset as u64, *word);
    }
}

/// Publishes the record in flight, and answers its number.
pub fn publish(log: &Log, pass: &mut Pass) -> u32
    requires pass { IsPassOf log.now pass.old }
    requires view { (f : Flight) × CanPublishRegion (view pass.old) f × (flight_kind (view pass.old) f ≡ Stored) }
    ensures pass { IsPassOf log.now pass.new }
    ensures view { (f : Flight) → (view pass.old).flight ≡ Some f → view pass.new ≡ after_publish_region (view pass.old)
        f }
    ensures number { (f : Flight) → (view pass.old).flight ≡ Some f → result ≡ f.number }
{
    let Some(region) = in_flight(pass) else {
        unreachable!()
    };
    publish_region(log, pass, &region);
    region.number as u32
}
