//! The words of a published region, loaded from the table to the start of a slice.

ghost use Rattle.std.specs.Prelude.{◌≡◌, ◌≢◌, ◌<◌, ◌≤◌, length, take};
ghost use Rattle.fish_rule.specs.Logs.{Extends, HasWords};
ghost use Rattle.fish_rule.specs.Passes.{IsPassOf, view};
ghost use Rattle.fish_rule.specs.Views.{Among};
ghost use Rattle.fish_rule.specs.declared.view.Found.{Found};
ghost use Rattle.fish_rule.specs.declared.view.Kind.TheVariants.{Mark};
ghost use Rattle.fish_flush.specs.within.Filling.{region_words};
ghost use Rattle.fish_flush.specs.within.Reading.{IsLooked};

use fish_layout::{keys_in, lines_in};
use fish_rule::{Log, Pass, line_of_word, look_at, read_word};

/// Finds the line at which the region of a settled number begins.
pub(crate) fn find_region(log: &Log, pass: &mut Pass, number: u32) -> u64
    requires pass { IsPassOf log.now pass.old }
    requires from { log.now.key.number ≤ number }
    requires settled { number < (view pass.old).learned.settled }
    requires counted { number < (view pass.old).learned.count }
    ensures pass { IsPassOf log.now pass.new }
    ensures extends { Extends (view pass.old) (view pass.new) }
    ensures looked { (f : Found) × IsLooked (view pass.new) number result f }
{
    line_of_word(look_at(log, pass, u64::from(number)))
}

/// Loads the words of the published region at a line, and answers how many they are. Words that a splice may still
/// change, the first ones of key entries, are not loaded: at their places stands what stood there.
pub(crate) fn load_region(log: &Log, pass: &mut Pass, line: u64, words: &mut [u64]) -> usize
    requires pass { IsPassOf log.now pass.old }
    requires found { (f : Found) × Among f (view pass.old).learned.found × (f.line ≡ line) × (f.kind ≢ Mark) }
    requires room { region_words ≤ length words.old }
    ensures pass { IsPassOf log.now pass.new }
    ensures extends { Extends (view pass.old) (view pass.new) }
    ensures size { length words.new ≡ length words.old }
    ensures within { result ≤ length words.new }
    ensures words { (f : Found) → Among f (view pass.old).learned.found → f.line ≡ line → f.kind ≢ Mark
        → HasWords (view pass.new) f (take result words.new) }
{
    let header = read_word(log, pass, line, 0);
    words[0] = header;
    let size = lines_in(header) * 4;
    let behind = (3 * u64::from(keys_in(header)) + 1).min(size);
    for offset in 1..behind {
        if offset % 3 != 1 {
            words[offset as usize] = read_word(log, pass, line, offset);
        }
    }
    // Most words are read here, so nothing is asked of each.
    for offset in behind..size {
        words[offset as usize] = read_word(log, pass, line, offset);
    }
    size as usize
}
