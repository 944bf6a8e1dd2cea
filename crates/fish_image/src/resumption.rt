//! Going on where the words of an image stopped.

ghost use Rattle.std.specs.Prelude.{◌≡◌, ◌++◌, ◌<◌, List, ℕ, IfOk};
ghost use Rattle.fish_catalog.specs.declared.commit.Commit.{Commit};
ghost use Rattle.fish_image.specs.Checking.{Seen};
ghost use Rattle.fish_image.specs.Progress.{IsAt};
ghost use Rattle.fish_image.specs.Reached.{Reached};
ghost use Rattle.fish_image.specs.Steps.{StopsReading};
ghost use Rattle.fish_image.specs.Terms.{AreTermsOf};

use crate::advance::advance;
use crate::progress::Progress;
use crate::terms::Terms;
use fish_read::RecordReader;
use std::alloc::{AllocError, Global};

/// Where the words of an image stopped.
#[derive(Debug, Drop)]
pub(crate) struct Resumed {
    /// How far they were read.
    pub at: Progress,
    /// Those that no region took.
    pub left: Vec<u64>,
    /// How many leading entries agree, where no other will.
    pub damaged: Option<u32>,
}

/// Goes on with more words after those that were left.
pub(crate) fn resume(
    alloc: Global,
    terms: &Terms,
    reader: &mut RecordReader,
    at: &Progress,
    left: &[u64],
    words: &[u64],
) -> Result<Resumed, AllocError>
    requires real { (c : Commit) × (w : List ℕ) × AreTermsOf c terms.now × StopsReading c w left.now at.now }
    requires wanted { at.now.number < terms.now.count }
    ensures { IfOk result (λ r. (c : Commit) (w : List ℕ) → AreTermsOf c terms.now → StopsReading c w left.now at.now
        → Seen r.damaged c (w ++ words.now) r.left.items r.at) }
{
    let all = joined(alloc, left, words)?;
    let mut next = again(alloc, at)?;
    let advanced = advance(alloc, terms, reader, &mut next, all.as_slice())?;
    let rest = Vec::from_slice(alloc, &all[advanced.used..])?;
    Ok(Resumed {
        at: next,
        left: rest,
        damaged: advanced.damaged,
    })
}

/// Words and others after them.
fn joined(alloc: Global, left: &[u64], words: &[u64]) -> Result<Vec<u64>, AllocError>
    ensures { IfOk result (λ all. all.items ≡ left.now ++ words.now) }
{
    let mut all = Vec::from_slice(alloc, left)?;
    all.extend_from_slice(words)?;
    Ok(all)
}

/// A copy of how far words were read.
fn again(alloc: Global, at: &Progress) -> Result<Progress, AllocError>
    ensures { IfOk result (λ copy. (c : Commit) (s : Reached) → IsAt c s at.now → IsAt c s copy) }
{
    let heads = Vec::from_slice(alloc, at.heads.as_slice())?;
    let starts = Vec::from_slice(alloc, at.starts.as_slice())?;
    Ok(Progress {
        number: at.number,
        line: at.line,
        page: at.page,
        heads,
        starts,
    })
}
