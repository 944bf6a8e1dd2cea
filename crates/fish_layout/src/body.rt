//! The words of a record as one value.

ghost use Rattle.std.specs.Prelude.{◌≡◌, ◌+◌, ◌*◌, ◌<◌, ◌^◌, ℕ, length, slice_index};
ghost use Rattle.fish_layout.specs.Body.{IsBody};
ghost use Rattle.fish_layout.specs.within.Cleared.{IsNumberWord};
ghost use Rattle.fish_layout.specs.within.Entry.{renumbered};
ghost use Rattle.fish_layout.specs.declared.parts.BodyParts.{BodyParts};

use crate::word::{keys_in, renumber};
use std::marker::Model;

/// The words of a record. Contracts see the list of them.
#[derive(Debug, Drop)]
pub struct Body {
    words: Vec<u64>,
}

impl Model for Body {
    ghost use Rattle.std.specs.Prelude.{ℕ, List};

    ghost Value = { List ℕ };

    ghost view = { λ b. b.words.items };
}

impl Body {
    /// The record that words are, which are not copied.
    pub(crate) fn of_words(words: Vec<u64>) -> Body
        ensures { result ≡ words.items }
    {
        Body { words }
    }

    /// The words.
    pub fn as_slice(&self) -> &[u64]
        ensures { result.now ≡ self.now }
    {
        self.words.as_slice()
    }

    /// How many there are.
    pub fn len(&self) -> usize
        ensures { result ≡ length self.now }
    {
        self.words.len()
    }
}

/// Gives a record another number: that of the claim which it is stored under. Takes no memory, and
/// one step for each key entry.
pub fn set_number(body: &mut Body, number: u32)
    requires body { (p : BodyParts) × IsBody p body.old }
    requires number { number < 2 ^ 28 }
    ensures { (p : BodyParts) → IsBody p body.old → IsBody (record p { number = number }) body.new }
{
    let keys = keys_in(body.words[0]) as usize;
    renumber_keys(&mut body.words, keys, number);
}

/// Gives the key entries of a record another number.
fn renumber_keys(words: &mut Vec<u64>, keys: usize, number: u32)
    requires few { keys < 2 ^ 9 }
    requires room { 3 * keys < length words.old.items }
    requires number { number < 2 ^ 28 }
    ensures len { length words.new.items ≡ length words.old.items }
    ensures others { (i : ℕ) → ¬ (IsNumberWord keys i) → slice_index words.new.items i ≡ slice_index words.old.items i }
    ensures entries { (i : ℕ) → IsNumberWord keys i →
        slice_index words.new.items i ≡ renumbered (slice_index words.old.items i) number }
{
    for position in 0..keys {
        let at = 2 + 3 * position;
        words[at] = renumber(words[at], number);
    }
}
