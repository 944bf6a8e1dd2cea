//! How the control pass makes an operation: it stores the words of the next row, or where an index ends, and the
//! operation, and raises the version.

ghost use Rattle.std.specs.Prelude.{◌≡◌, ◌<◌, length};
ghost use Rattle.fish_registry.specs.Changing.{IsAtTail};
ghost use Rattle.fish_registry.specs.within.Rows.{HasDrafted, HasEnded, HasAddedRow, HasTailed, MayEndRow, MayMake};
ghost use Rattle.fish_registry.specs.within.Rows.{MayRegisterRow};
ghost use Rattle.fish_rule.specs.LoadSteps.{IsAlone};
ghost use Rattle.fish_rule.specs.Passes.{IsPassOf, view};

use fish_catalog::{CatRow, ROW_WORDS, row_words};
use fish_layout::{end_word, register_word};
use fish_rule::{Log, Pass, define_operation, define_row_word, load_tail, raise_version, store_to};

/// Registers the next row: makes the next version, in which it is active.
pub(crate) fn register_row(log: &Log, pass: &mut Pass, row: &CatRow, version: u64)
    requires pass { IsPassOf log.now pass.old }
    requires make { MayMake (view pass.old) version }
    requires row { MayRegisterRow (view pass.old) row.now }
    ensures pass { IsPassOf log.now pass.new }
    ensures registered { HasAddedRow (view pass.old) row.now (view pass.new) }
{
    let id = u64::from(row.id);
    define_row(log, pass, id, &row_words(row));
    define_operation(log, pass, version, register_word(id));
    raise_version(log, pass, version);
}

/// Stores the words of a row as those of the next one, after its boundaries, which stay none.
fn define_row(log: &Log, pass: &mut Pass, id: u64, words: &[u64; ROW_WORDS])
    requires pass { IsPassOf log.now pass.old }
    requires control { (view pass.old).lane ≡ 1 }
    requires id { id ≡ length (view pass.old).rows }
    requires room { id < 256 }
    ensures pass { IsPassOf log.now pass.new }
    ensures drafted { HasDrafted (view pass.old) words.now 39 (view pass.new) }
{
    for position in 2..ROW_WORDS {
        define_row_word(log, pass, id, position as u64, words[position]);
    }
}

/// The count of the log, by a load of the tail.
pub(crate) fn count_tail(log: &Log, pass: &mut Pass) -> u32
    requires pass { IsPassOf log.now pass.old }
    ensures pass { IsPassOf log.now pass.new }
    ensures view { HasTailed (view pass.old) (view pass.new) result }
    ensures alone { IsAlone (view pass.old) → IsAtTail (view pass.old) result }
{
    load_tail(log, pass).number as u32
}

/// Ends an active row: its index ends at a number, and then the next version is made, in which it is not active.
pub(crate) fn end_row(log: &Log, pass: &mut Pass, id: u16, to: u32, version: u64)
    requires pass { IsPassOf log.now pass.old }
    requires make { MayMake (view pass.old) version }
    requires row { MayEndRow (view pass.old) id to }
    ensures pass { IsPassOf log.now pass.new }
    ensures ended { HasEnded (view pass.old) id to (view pass.new) }
{
    store_to(log, pass, u64::from(id), u64::from(to));
    define_operation(log, pass, version, end_word(u64::from(id)));
    raise_version(log, pass, version);
}
