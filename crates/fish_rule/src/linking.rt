//! The atomic steps on heads and on the first words of key entries, and loads of their second words.
//!
//! A chain goes down: from its head, the newest entry of a bucket, each first word is the place of
//! the next older one, and last the head that the bucket had at the start. Heads and first words only
//! rise.

ghost use Rattle.std.specs.Prelude.{◌≡◌, ◌≢◌, ◌*◌, ◌<◌, ◌≤◌, ℕ, Some};
ghost use Rattle.fish_rule.specs.ChainSteps.{CanAimEntry, CanLoadHead, CanSpliceEntry, CanSwingHead, HasNode};
ghost use Rattle.fish_rule.specs.ChainSteps.{PreviousRises, HeadRises, after_aim_entry, after_load_head};
ghost use Rattle.fish_rule.specs.ChainSteps.{after_load_node, after_load_previous, after_splice_entry};
ghost use Rattle.fish_rule.specs.ChainSteps.{after_swing_head, own_place};
ghost use Rattle.fish_rule.specs.Parts.{first_head};
ghost use Rattle.fish_rule.specs.Passes.{IsPassOf, view};
ghost use Rattle.fish_rule.specs.declared.view.Flight.{Flight};

use crate::area::{HEADS, word_index};
use crate::step_kinds::{AimEntry, LoadHead, LoadNode, LoadPrevious, SpliceEntry, SwingHead};
use crate::table::{Log, Pass};

/// Loads the head of a bucket: the place of its newest linked entry, or the head that it had at the
/// start.
pub fn load_head(log: &Log, pass: &mut Pass, bucket: u64) -> u64
    requires pass { IsPassOf log.now pass.old }
    requires view { CanLoadHead (view pass.old) bucket }
    ensures pass { IsPassOf log.now pass.new }
    ensures view { view pass.new ≡ after_load_head (view pass.old) bucket result }
    ensures rises { HeadRises (view pass.old) bucket result }
    ensures first { result ≤ log.now.key.line * 4 → result ≡ first_head log.now.key bucket }
{
    log.table
        .shared
        .load::<LoadHead>(&mut pass.seat, (HEADS + bucket) as usize)
}

/// Loads the first word of a linked entry: the place of the next older one of its bucket, or the head
/// that the bucket had at the start.
pub fn load_previous(log: &Log, pass: &mut Pass, place: u64) -> u64
    requires pass { IsPassOf log.now pass.old }
    requires node { (b : ℕ) × HasNode (view pass.old) b place }
    ensures pass { IsPassOf log.now pass.new }
    ensures view { (b : ℕ) → HasNode (view pass.old) b place
        → view pass.new ≡ after_load_previous (view pass.old) b place result }
    ensures rises { PreviousRises (view pass.old) place result }
    ensures less { result < place }
    ensures first { (b : ℕ) → HasNode (view pass.old) b place → result ≤ log.now.key.line * 4
        → result ≡ first_head log.now.key b }
{
    let index = word_index(log, place);
    log.table.shared.load::<LoadPrevious>(&mut pass.seat, index)
}

/// Loads the second word of a linked entry: the number of its record, its definition, and which of
/// the record's entries it is.
pub fn load_node(log: &Log, pass: &mut Pass, place: u64) -> u64
    requires pass { IsPassOf log.now pass.old }
    requires node { (b : ℕ) × HasNode (view pass.old) b place }
    ensures pass { IsPassOf log.now pass.new }
    ensures view { view pass.new ≡ after_load_node (view pass.old) place result }
{
    let index = word_index(log, place + 1);
    log.table.shared.load::<LoadNode>(&mut pass.seat, index)
}

/// Stores the place that the own next entry is to lead to.
pub fn aim_entry(log: &Log, pass: &mut Pass, place: u64, previous: u64)
    requires pass { IsPassOf log.now pass.old }
    requires view { (f : Flight) × CanAimEntry (view pass.old) f × (place ≡ own_place f) }
    ensures pass { IsPassOf log.now pass.new }
    ensures view { (f : Flight) → (view pass.old).flight ≡ Some f
        → view pass.new ≡ after_aim_entry (view pass.old) f previous }
{
    let index = word_index(log, place);
    log.table
        .shared
        .store::<AimEntry>(&mut pass.seat, index, previous);
}

/// Makes the own next entry the head of its bucket, where the head is as expected.
pub fn swing_head(log: &Log, pass: &mut Pass, bucket: u64, expected: u64, place: u64) -> u64
    requires pass { IsPassOf log.now pass.old }
    requires view { (f : Flight) × CanSwingHead (view pass.old) f bucket expected × (place ≡ own_place f) }
    ensures pass { IsPassOf log.now pass.new }
    ensures view { (f : Flight) → (view pass.old).flight ≡ Some f
        → view pass.new ≡ after_swing_head (view pass.old) f bucket expected result }
    ensures rises { HeadRises (view pass.old) bucket result }
    ensures other { result ≢ place }
{
    log.table
        .shared
        .compare_exchange::<SwingHead>(&mut pass.seat, (HEADS + bucket) as usize, expected, place)
}

/// Puts the own next entry in below a higher one, where that one's first word is as expected.
pub fn splice_entry(log: &Log, pass: &mut Pass, above: u64, expected: u64, place: u64) -> u64
    requires pass { IsPassOf log.now pass.old }
    requires view { (f : Flight) × ((b : ℕ) × CanSpliceEntry (view pass.old) f b above expected
        × (place ≡ own_place f)) }
    ensures pass { IsPassOf log.now pass.new }
    ensures view { (f : Flight) → (b : ℕ) → (view pass.old).flight ≡ Some f → HasNode (view pass.old) b above
        → view pass.new ≡ after_splice_entry (view pass.old) f b above expected result }
    ensures rises { PreviousRises (view pass.old) above result }
    ensures less { result < above }
    ensures other { result ≢ place }
{
    let index = word_index(log, above);
    log.table
        .shared
        .compare_exchange::<SpliceEntry>(&mut pass.seat, index, expected, place)
}
