//! All words of a log's lines at once.

ghost use Rattle.std.specs.Prelude.{IfErr, IfOk};
ghost use Rattle.fish_image.specs.Checking.{HasChecked, IsImageCause};
ghost use Rattle.fish_image.specs.Commits.{IsWithin};

use crate::checker::Checker;
use crate::refusal::ImageRefusal;
use fish_catalog::{Checked, Commit};
use std::alloc::Global;

/// Holds all words of a log's lines to a commit.
pub fn check_image(alloc: Global, words: &[u64], c: &Commit) -> Result<Checked, ImageRefusal>
    requires { IsWithin c.now }
    ensures found { IfOk result (HasChecked c.now words.now) }
    ensures damaged { IfErr result (IsImageCause c.now words.now) }
{
    let mut checker = Checker::new(alloc, c)?;
    match checker.feed(words) {
        Ok(()) => checker.finish(),
        Err(refusal) => {
            drop(checker);
            Err(refusal)
        }
    }
}
