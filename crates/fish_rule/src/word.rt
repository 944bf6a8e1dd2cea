//! The tail word and directory words: a line in the low 36 bits, and above it a number, or the code
//! of a kind.

ghost use Rattle.std.specs.Prelude.{◌≡◌, ◌+◌, ◌*◌, ◌<◌};
ghost use Rattle.fish_rule.specs.Regions.{dir_word};
ghost use Rattle.fish_rule.specs.LoadSteps.{kind_told};
ghost use Rattle.fish_rule.specs.World.{high, low};

use crate::view::{Kind, Position};

/// One in the bits above the line.
pub(crate) const ONE: u64 = 68_719_476_736;

/// The tail word at a number and a line.
pub(crate) fn tail_word(number: u64, line: u64) -> u64
    requires { (number < 268435456) × (line < 68719476736) }
    ensures { result ≡ number * 68719476736 + line }
{
    number * ONE + line
}

/// Where a tail word says that the next record goes.
#[tactic(auto, unfolding(crate::specs::World::high, crate::specs::World::low))]
pub(crate) fn position_in(tail: u64) -> Position
    ensures number { result.number ≡ high tail }
    ensures line { result.line ≡ low tail }
{
    Position {
        number: tail / ONE,
        line: tail % ONE,
    }
}

/// The directory word of a region.
pub(crate) fn directory_word(kind: Kind, line: u64) -> u64
    requires { line < 68719476736 }
    ensures { result ≡ dir_word kind line }
{
    match kind {
        Kind::Stored => line + ONE,
        Kind::Void => line + 2 * ONE,
        Kind::Mark => line + 3 * ONE,
    }
}

/// The kind that a directory word tells.
pub fn kind_of_word(word: u64) -> Kind
    ensures { result ≡ kind_told (high word) }
{
    match word / ONE {
        1 => Kind::Stored,
        2 => Kind::Void,
        _ => Kind::Mark,
    }
}

/// The line that a directory word tells.
#[tactic(auto, unfolding(crate::specs::World::low))]
pub fn line_of_word(word: u64) -> u64
    ensures { result ≡ low word }
{
    word % ONE
}
