//! What a number is found to be, and how many there are.

ghost use Rattle.std.specs.Prelude.{◌≡◌, ◌≢◌, ◌<◌, ◌≤◌, ℕ, []};
ghost use Rattle.fish_rule.specs.Passes.{IsPassOf, view};
ghost use Rattle.fish_rule.specs.LoadSteps.{CanLookAt, IsAlone, after_load_tail, after_look_at};
ghost use Rattle.fish_rule.specs.Table.{Sees};
ghost use Rattle.fish_rule.specs.World.{high};
ghost use Rattle.fish_walk.specs.Looks.{HasOpens, IsEntryLook, IsLookAt, IsTailCount, KeepsOpens, look_of_word};
ghost use Rattle.fish_walk.specs.declared.outcome.Look.TheVariants.{Unfinished};

use crate::outcome::{Look, told_by};
use fish_rule::{Log, Pass, load_tail, look_at};

/// What became of a number, by one load of its directory word.
pub fn look(log: &Log, pass: &mut Pass, number: u32) -> Look
    requires pass { IsPassOf log.now pass.old }
    requires view { CanLookAt (view pass.old) number }
    ensures pass { IsPassOf log.now pass.new }
    ensures view { (lines word : ℕ) × (view pass.new ≡ after_look_at (view pass.old) number lines word)
        × (result ≡ look_of_word word) }
    ensures alone { IsAlone (view pass.old) → result ≢ Unfinished }
    ensures sees { (word : ℕ) × Sees (view pass.old) number word × (result ≡ look_of_word word) }
    ensures settled { number < (view pass.old).learned.settled → IsEntryLook result }
    ensures found { IsLookAt (view pass.new) number result }
    ensures opens { KeepsOpens (view pass.old) (view pass.new) number result }
{
    told_by(look_at(log, pass, u64::from(number)))
}

/// How many numbers are claimed, by one load of the tail.
pub fn count_now(log: &Log, pass: &mut Pass) -> u32
    requires { IsPassOf log.now pass.old }
    ensures pass { IsPassOf log.now pass.new }
    ensures view { (x : ℕ) × (view pass.new ≡ after_load_tail (view pass.old) x) × (result ≡ high x) }
    ensures counted { (view pass.old).learned.count ≤ result }
    ensures settled { (view pass.old).learned.settled ≤ result }
    ensures opens { HasOpens (view pass.new) result [] }
    ensures rests { (view pass.old).lane ≡ 1 → (view pass.old).out ≡ [] → IsTailCount result (view pass.old).tail }
{
    load_tail(log, pass).number as u32
}
