//! What a number was found to be.

ghost use Rattle.std.specs.Prelude.{◌≡◌};
ghost use Rattle.fish_walk.specs.Looks.{look_of_word};

use fish_rule::{Kind, kind_of_word};

/// What a number was found to be.
#[derive(Clone, Copy, Debug, PartialEq, Eq)]
pub enum Look {
    /// Its record isn't published.
    Unfinished,
    /// The padding at a page's end.
    Void,
    /// A record.
    Stored,
    /// A claim past the log's end.
    Overflow,
}

/// What a directory word tells.
pub(crate) fn told_by(word: u64) -> Look
    ensures { result ≡ look_of_word word }
{
    if word == 0 {
        return Look::Unfinished;
    }
    match kind_of_word(word) {
        Kind::Stored => Look::Stored,
        Kind::Void => Look::Void,
        Kind::Mark => Look::Overflow,
    }
}
