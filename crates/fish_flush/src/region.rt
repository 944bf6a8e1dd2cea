//! Settled regions of the log, copied with the previous nodes that they have in an image.

ghost use Rattle.std.specs.Prelude.{◌≡◌, ◌<◌, ◌≤◌, ◌+◌, ◌*◌, ◌++◌, ℕ, length, take};
ghost use Rattle.fish_image.specs.Stands.{words_in};
ghost use Rattle.fish_rule.specs.Logs.{Extends};
ghost use Rattle.fish_rule.specs.Passes.{IsPassOf, view};
ghost use Rattle.fish_flush.specs.within.Filling.{IsCopied, region_words};

use crate::linking::link;
use crate::loading::{find_region, load_region};
use byteorder::{ByteOrder, LittleEndian};
use fish_rule::{Log, Pass};

/// Copies the words of the region of a settled number to the start of a slice, with the previous nodes that the heads
/// give, and puts its key entries into the heads. It answers how many words they are.
pub(crate) fn copy_region(
    log: &Log,
    pass: &mut Pass,
    number: u32,
    heads: &mut Vec<u64>,
    words: &mut [u64],
) -> usize
    requires pass { IsPassOf log.now pass.old }
    requires from { log.now.key.number ≤ number }
    requires settled { number < (view pass.old).learned.settled }
    requires counted { number < (view pass.old).learned.count }
    requires some { 0 < length heads.old.items }
    requires room { region_words ≤ length words.old }
    ensures pass { IsPassOf log.now pass.new }
    ensures extends { Extends (view pass.old) (view pass.new) }
    ensures size { length words.new ≡ length words.old }
    ensures heads { length heads.new.items ≡ length heads.old.items }
    ensures copied { IsCopied (view pass.new) number heads.old.items heads.new.items result words.new }
{
    let line = find_region(log, pass, number);
    let size = load_region(log, pass, line, words);
    link(heads, line, &mut words[..size]);
    size
}

/// Puts words over bytes from a place on, each lowest byte first.
pub(crate) fn put_words(bytes: &mut Vec<u8>, from: usize, words: &[u64])
    requires within { from + 8 * length words.now ≤ length bytes.old.items }
    requires whole { (n : ℕ) × (from ≡ 8 * n) }
    ensures size { length bytes.new.items ≡ length bytes.old.items }
    ensures words { words_in (take (from + 8 * length words.now) bytes.new.items)
        ≡ words_in (take from bytes.old.items) ++ words.now }
{
    LittleEndian::write_u64_into(words, bytes.slice_mut(from..from + 8 * words.len()));
}
