//! One atomic step each, on the boundaries of indices: how the control pass finds the number at which an index
//! begins, how it sets where one begins and ends, and how any pass learns that.

ghost use Rattle.std.specs.Prelude.{◌≡◌, ◌≤◌, ℕ, [], Some};
ghost use Rattle.fish_rule.specs.BoundarySteps.{CanLoadBound, CanLoadBoundary, CanStoreFrom, CanStoreTo, IsLane};
ghost use Rattle.fish_rule.specs.BoundarySteps.{after_load_bound, after_load_boundary, after_check_lane};
ghost use Rattle.fish_rule.specs.BoundarySteps.{after_store_from, after_store_to};
ghost use Rattle.fish_rule.specs.Parts.{RestsAt};
ghost use Rattle.fish_rule.specs.Passes.{IsPassOf, view};
ghost use Rattle.fish_rule.specs.LoadSteps.{IsAlone};
ghost use Rattle.fish_rule.specs.World.{high, low};
ghost use Rattle.fish_rule.specs.Registry.{row_at};
ghost use Rattle.fish_rule.specs.Views.{Among};
ghost use Rattle.fish_rule.specs.declared.view.Epoch.TheVariants.{Out};
ghost use Rattle.fish_rule.specs.declared.view.RegistryWord.{RegistryWord};
ghost use Rattle.fish_rule.specs.declared.view.Round.{Round};

use crate::area::{ROWS, epoch_index};
use crate::step_kinds::{CheckLane, LoadBound, LoadBoundary, StoreFrom, StoreTo};
use crate::table::{Log, Pass};
use crate::view::Position;
use crate::word::position_in;

/// Loads the epoch word of a lane: 0, or one more than the version at which its pass is entered. A control pass that is
/// out, while no lane is, finds 0.
pub fn check_lane(log: &Log, pass: &mut Pass, lane: u8) -> u64
    requires pass { IsPassOf log.now pass.old }
    requires lane { IsLane lane }
    ensures pass { IsPassOf log.now pass.new }
    ensures view { view pass.new ≡ after_check_lane (view pass.old) lane result }
    ensures few { result ≤ 513 }
    ensures alone { IsAlone (view pass.old) → (view pass.old).epoch ≡ Out → result ≡ 0 }
{
    let index = epoch_index(lane);
    log.table.shared.load::<CheckLane>(&mut pass.seat, index)
}

/// Loads the tail after the last lane: its count is where the index of the registration that waits begins.
pub fn load_bound(log: &Log, pass: &mut Pass) -> Position
    requires pass { IsPassOf log.now pass.old }
    requires view { (o : Round) × CanLoadBound (view pass.old) o }
    ensures pass { IsPassOf log.now pass.new }
    ensures view { (o : Round) → (view pass.old).round ≡ Some o → (x : ℕ)
        × (view pass.new ≡ after_load_bound (view pass.old) o x) × (result.number ≡ high x) × (result.line ≡ low x) }
    ensures rests { (view pass.old).lane ≡ 1 → (view pass.old).out ≡ [] → RestsAt result.number result.line
        (view pass.old).tail }
    ensures counted { (view pass.old).learned.count ≤ result.number }
{
    let found = log.table.shared.load::<LoadBound>(&mut pass.seat, 0);
    position_in(found)
}

/// Stores where the index of the registration that waits begins.
pub fn store_from(log: &Log, pass: &mut Pass, id: u64, from: u64)
    requires pass { IsPassOf log.now pass.old }
    requires view { (o : Round) × CanStoreFrom (view pass.old) o from × (o.id ≡ id) }
    ensures pass { IsPassOf log.now pass.new }
    ensures view { (o : Round) → (view pass.old).round ≡ Some o → view pass.new ≡ after_store_from (view pass.old) o
        from }
{
    let index = ROWS + id * 39;
    log.table
        .shared
        .store::<StoreFrom>(&mut pass.seat, index as usize, from + 1);
}

/// Stores where the index of an active row ends.
pub fn store_to(log: &Log, pass: &mut Pass, id: u64, to: u64)
    requires pass { IsPassOf log.now pass.old }
    requires view { CanStoreTo (view pass.old) id to }
    ensures pass { IsPassOf log.now pass.new }
    ensures view { view pass.new ≡ after_store_to (view pass.old) id to }
{
    let index = ROWS + id * 39 + 1;
    log.table
        .shared
        .store::<StoreTo>(&mut pass.seat, index as usize, to + 1);
}

/// Loads a boundary of a row, where its index begins or where it ends: 0 for none, or one more than the number.
pub fn load_boundary(log: &Log, pass: &mut Pass, id: u64, place: u64) -> u64
    requires pass { IsPassOf log.now pass.old }
    requires boundary { CanLoadBoundary id place }
    ensures pass { IsPassOf log.now pass.new }
    ensures view { view pass.new ≡ after_load_boundary (view pass.old) id place result }
    ensures few { result ≤ 268435456 }
    ensures known { (x : RegistryWord) → Among x (view pass.old).learned.words → x.index ≡ row_at id place
        → result ≡ x.value }
{
    let index = ROWS + id * 39 + place;
    log.table
        .shared
        .load::<LoadBoundary>(&mut pass.seat, index as usize)
}
