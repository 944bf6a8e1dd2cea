//! The value of a key entry, compared with one that is asked for by the stored words alone.

ghost use Rattle.std.specs.Prelude.{◌≡◌, ◌↔◌, ◌+◌, ◌*◌, ◌<◌, ◌≤◌, ◌^◌, ℕ, IsTrue, length};
ghost use Rattle.fish_chain.specs.Values.{HasRecord, HasValue, IsNodeGiven};
ghost use Rattle.fish_chain.specs.within.Values.{AreBytesIn, AreBytesOf, HasBytes};
ghost use Rattle.fish_chain.specs.within.Values.{IsWordIn, SaysBytes};
ghost use Rattle.fish_rule.specs.Logs.{Extends};
ghost use Rattle.fish_rule.specs.Passes.{IsPassOf, view};
ghost use Rattle.fish_rule.specs.LoadSteps.{CanReadWord};
ghost use Rattle.fish_rule.specs.Views.{Among};
ghost use Rattle.fish_rule.specs.ChainFacts.{Always};
ghost use Rattle.fish_rule.specs.declared.view.Found.{Found};

use crate::walk::Node;
use fish_layout::{keys_in, kind_in, offset_in, size_in};
use fish_psf::Steps;
use fish_rule::{Log, Pass, line_of_word, look_at, read_word};
use fish_value::Value;
use std::sync::ledger::Ledger;

/// Whether a key entry that a walk gave has a value. The record is one that the pass has counted. Loads the record's
/// header, the entry's third word, and words of the value up to the first that differs: at most 35. No memory.
pub fn node_has<L: Ledger>(
    log: &Log,
    pass: &mut Pass,
    node: &Node,
    value: &Value,
    loads: &mut Steps<L>,
) -> bool
    requires pass { IsPassOf log.now pass.old }
    requires counted { node.now.number < (view pass.old).learned.count }
    requires node { IsNodeGiven (view pass.old) node.now }
    ensures pass { IsPassOf log.now pass.new }
    ensures extends { Extends (view pass.old) (view pass.new) }
    ensures has { IsTrue result → HasRecord (view pass.new) node.now.number
        × Always (view pass.new) (HasValue node.now.number node.now.key value.now) }
    ensures lacks { ¬ IsTrue result
        → Always (view pass.new) (λ k w. ¬ HasValue node.now.number node.now.key value.now k w) }
    ensures counted { loads.new + (view pass.old).clock.loads ≡ loads.old + (view pass.new).clock.loads }
    ensures few { loads.new ≤ loads.old + 35 }
{
    match value {
        Value::Bool(truth) => has_bytes(log, pass, node, 0, &[u8::from(*truth)], loads),
        Value::Int(number) => {
            // a number that is read is within its type
            let number = *number;
            has_bytes(log, pass, node, 1, &number.to_le_bytes(), loads)
        }
        Value::Text(text) => has_bytes(log, pass, node, 2, text.as_bytes(), loads),
    }
}

/// Whether the value of an entry has this kind and these bytes.
fn has_bytes<L: Ledger>(
    log: &Log,
    pass: &mut Pass,
    node: &Node,
    kind: u64,
    bytes: &[u8],
    loads: &mut Steps<L>,
) -> bool
    requires pass { IsPassOf log.now pass.old }
    requires counted { node.now.number < (view pass.old).learned.count }
    requires node { IsNodeGiven (view pass.old) node.now }
    ensures pass { IsPassOf log.now pass.new }
    ensures extends { Extends (view pass.old) (view pass.new) }
    ensures has { IsTrue result → HasRecord (view pass.new) node.now.number
        × Always (view pass.new) (SaysBytes node.now.number node.now.key kind bytes.now) }
    ensures lacks { ¬ IsTrue result
        → Always (view pass.new) (λ k w. ¬ SaysBytes node.now.number node.now.key kind bytes.now k w) }
    ensures counted { loads.new + (view pass.old).clock.loads ≡ loads.old + (view pass.new).clock.loads }
    ensures few { loads.new ≤ loads.old + 35 }
{
    let number = node.number;
    let line = line_of_word(look_at(log, pass, u64::from(number)));
    let header = load(log, pass, number, line, 0, loads);
    let third = load(log, pass, number, line, 3 * u64::from(node.key) + 3, loads);
    if kind_in(third) != kind || size_in(third) != bytes.len() {
        return false;
    }
    let first = 24 * u64::from(keys_in(header)) + 8 + offset_in(third) as u64;
    are_bytes(log, pass, number, line, first, bytes, loads)
}

/// Whether bytes of a record, from one on, are these. One load for each word that they lie in, up to the first
/// that differs.
fn are_bytes<L: Ledger>(
    log: &Log,
    pass: &mut Pass,
    number: u32,
    line: u64,
    first: u64,
    bytes: &[u8],
    loads: &mut Steps<L>,
) -> bool
    requires pass { IsPassOf log.now pass.old }
    requires bytes { HasBytes (view pass.old) number line first (length bytes.now) }
    requires few { (first < 2 ^ 20) × (length bytes.now < 2 ^ 9) }
    ensures pass { IsPassOf log.now pass.new }
    ensures extends { Extends (view pass.old) (view pass.new) }
    ensures are { IsTrue result → Always (view pass.new) (AreBytesIn number first bytes.now (length bytes.now)) }
    ensures other { ¬ IsTrue result
        → Always (view pass.new) (λ k w. ¬ AreBytesIn number first bytes.now (length bytes.now) k w) }
    ensures counted { loads.new + (view pass.old).clock.loads ≡ loads.old + (view pass.new).clock.loads }
    ensures few { 8 * loads.new ≤ 8 * loads.old + length bytes.now + 14 }
{
    let mut done = 0;
    while done < bytes.len() {
        let place = first + done as u64;
        let word = load(log, pass, number, line, place / 8, loads);
        let end = bytes.len().min(done + 8 - (place % 8) as usize);
        if !has_bytes_from(word, first, bytes, done, end) {
            return false;
        }
        done = end;
    }
    true
}

/// Whether a word has these bytes from one on up to another, each at its place after the record's first byte.
fn has_bytes_from(word: u64, first: u64, bytes: &[u8], from: usize, to: usize) -> bool
    requires few { (first < 2 ^ 20) × (length bytes.now < 2 ^ 9) }
    requires within { (from ≤ to) × (to ≤ length bytes.now) }
    ensures { IsTrue result ↔ AreBytesOf word first bytes.now from to }
{
    let stored = word.to_le_bytes();
    for place in from..to {
        if stored[((first + place as u64) % 8) as usize] != bytes[place] {
            return false;
        }
    }
    true
}

/// Loads a word of a record, and counts that.
fn load<L: Ledger>(
    log: &Log,
    pass: &mut Pass,
    number: u32,
    line: u64,
    offset: u64,
    loads: &mut Steps<L>,
) -> u64
    requires pass { IsPassOf log.now pass.old }
    requires read { (f : Found) × CanReadWord (view pass.old) f offset × (f.line ≡ line) × (f.number ≡ number) }
    ensures pass { IsPassOf log.now pass.new }
    ensures extends { Extends (view pass.old) (view pass.new) }
    ensures word { Always (view pass.new) (IsWordIn number offset result) }
    ensures known { Among (record { place = line * 4 + offset; value = result }) (view pass.new).learned.known }
    ensures loads { loads.new ≡ loads.old + 1 }
    ensures counted { (view pass.new).clock.loads ≡ (view pass.old).clock.loads + 1 }
{
    loads.tick();
    read_word(log, pass, line, offset)
}
