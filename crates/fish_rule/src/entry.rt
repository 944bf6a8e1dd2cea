//! What stands at a number that is published, read word by word.

ghost use Rattle.std.specs.Prelude.{◌≡◌, ◌≢◌, ◌+◌, ◌-◌, ◌*◌, ◌^◌, ◌<◌, ◌≤◌, ◌++◌, ℕ, List, IfOk, OnErr, OnOk, length};
ghost use Rattle.std.specs.Prelude.{slice_index};
ghost use Rattle.std.specs.Vec.{vec_capacity, vec_len};
ghost use Rattle.fish_layout.specs.Header.{keys_of};
ghost use Rattle.fish_rule.specs.Logs.{Extends, HasMoreWords};
ghost use Rattle.fish_rule.specs.within.Logs.{IsWordRead};
ghost use Rattle.fish_rule.specs.Passes.{IsPassOf, view};
ghost use Rattle.fish_rule.specs.LoadSteps.{CanReadWord};
ghost use Rattle.fish_rule.specs.Views.{Among};
ghost use Rattle.fish_rule.specs.declared.view.Found.{Found};
ghost use Rattle.fish_rule.specs.declared.view.Kind.TheVariants.{Mark};

use crate::space::read_word;
use crate::table::{Log, Pass};
use fish_layout::{keys_in, lines_in};
use std::alloc::{AllocError, Global};

/// Puts all words of the published region at a line after those that a vector holds, and answers how many of them
/// were loaded. Words that a splice may still change, the first ones of key entries, are put as 0 and not loaded.
/// Out of memory, the vector holds what it held.
pub fn read_region(
    log: &Log,
    pass: &mut Pass,
    line: u64,
    words: &mut Vec<u64>,
) -> Result<u64, AllocError>
    requires pass { IsPassOf log.now pass.old }
    requires found { (f : Found) × Among f (view pass.old).learned.found × (f.line ≡ line) × (f.kind ≢ Mark) }
    ensures pass { IsPassOf log.now pass.new }
    ensures extends { Extends (view pass.old) (view pass.new) }
    ensures words { OnOk result (HasMoreWords (view pass.old) (view pass.new) line words.old.items words.new.items) }
    ensures loads { IfOk result (λ loads. (view pass.new).clock.loads ≡ (view pass.old).clock.loads + loads) }
    ensures few { IfOk result (λ loads. loads + length words.old.items ≤ length words.new.items) }

    ensures refused { OnErr result (words.new.items ≡ words.old.items) }
{
    let header = read_word(log, pass, line, 0);
    let keys = u64::from(keys_in(header));
    let size = lines_in(header) * 4;
    let behind = (3 * keys + 1).min(size);
    words.reserve(size as usize)?;
    words.push_reserved(header);
    let mut loads = 1;
    for offset in 1..behind {
        let word = read_body_word(log, pass, line, keys, offset);
        loads += u64::from(word.is_some());
        words.push_reserved(word.unwrap_or(0));
    }
    read_rest(log, pass, line, behind, size, words);
    Ok(loads + (size - behind))
}

/// Puts the words of a region from one on up to another after those that were read. Most words of a record are read
/// here, so nothing is asked of each.
fn read_rest(log: &Log, pass: &mut Pass, line: u64, from: u64, to: u64, words: &mut Vec<u64>)
    requires pass { IsPassOf log.now pass.old }
    requires read { (f : Found) × (f.line ≡ line)
        × ((i : ℕ) → from ≤ i → i < to → CanReadWord (view pass.old) f i) }
    requires ordered { from ≤ to }
    requires room { vec_len words.old + (to - from) ≤ vec_capacity words.old }
    ensures pass { IsPassOf log.now pass.new }
    ensures extends { Extends (view pass.old) (view pass.new) }
    ensures words { (more : List ℕ) × (words.new.items ≡ words.old.items ++ more) × (length more ≡ to - from)
        × ((i : ℕ) → i < length more
        → Among (record { place = line * 4 + (from + i); value = slice_index more i }) (view pass.new).learned.known) }
    ensures loads { (view pass.new).clock.loads ≡ (view pass.old).clock.loads + (to - from) }
{
    for offset in from..to {
        words.push_reserved(read_word(log, pass, line, offset));
    }
}

/// A word after the header, or none where it is the first one of a key entry.
fn read_body_word(log: &Log, pass: &mut Pass, line: u64, keys: u64, offset: u64) -> Option<u64>
    requires pass { IsPassOf log.now pass.old }
    requires keys { keys < 2 ^ 9 }
    requires found { (f : Found) × Among f (view pass.old).learned.found × (f.line ≡ line) × (f.kind ≢ Mark)
        × (offset < f.lines * 4) }
    requires header { (h : ℕ) × Among (record { place = line * 4; value = h }) (view pass.old).learned.known
        × (keys ≡ keys_of h) }
    ensures pass { IsPassOf log.now pass.new }
    ensures read { IsWordRead (view pass.old) (view pass.new) keys line offset result }
{
    if offset <= 3 * keys && offset % 3 == 1 {
        return None;
    }
    Some(read_word(log, pass, line, offset))
}
