//! Reading the regions that words begin with, one after the other.

ghost use Rattle.std.specs.Prelude.{◌≡◌, ◌↔◌, ◌+◌, ◌*◌, ◌^◌, ◌<◌, ◌≤◌, List, ℕ, IfOk, IsTrue, drop, length};
ghost use Rattle.fish_catalog.specs.declared.commit.Commit.{Commit};
ghost use Rattle.fish_image.specs.Progress.{IsAt};
ghost use Rattle.fish_image.specs.Reached.{Reached};
ghost use Rattle.fish_image.specs.Steps.{HasCome};
ghost use Rattle.fish_image.specs.within.Steps.{LeavesProgress, IsReading, Stepped};
ghost use Rattle.fish_image.specs.Terms.{AreTermsOf};

use crate::progress::Progress;
use crate::region::take_region;
use crate::step::Step;
use crate::terms::Terms;
use fish_layout::lines_in;
use fish_read::RecordReader;
use std::alloc::{AllocError, Global};

/// How far words were read.
#[derive(Clone, Copy, Debug)]
pub(crate) struct Advanced {
    /// How many of them the regions take that were read.
    pub used: usize,
    /// How many leading entries agree, where what follows them is no region of the log.
    pub damaged: Option<u32>,
}

/// Reads the region at the front of words.
fn step(
    alloc: Global,
    terms: &Terms,
    reader: &mut RecordReader,
    at: &mut Progress,
    rest: &[u64],
) -> Result<Step, AllocError>
    requires { IsReading terms.now at.old }
    ensures { IfOk result (λ step. (c : Commit) (s : Reached) → AreTermsOf c terms.now → IsAt c s at.old
        → Stepped step c s rest.now at.new) }
{
    if rest.is_empty() {
        return Ok(Step::Waits);
    }
    let lines = lines_in(rest[0]);
    if !is_within(terms, at.line, lines) {
        return Ok(Step::Damaged);
    }
    let words = 4 * lines as usize;
    if rest.len() < words {
        return Ok(Step::Waits);
    }
    if take_region(alloc, terms, reader, at, &rest[..words])? {
        Ok(Step::Took(words))
    } else {
        Ok(Step::Damaged)
    }
}

/// Whether a region has lines, and ends within those that were committed.
fn is_within(terms: &Terms, line: u64, lines: u64) -> bool
    requires { lines < 2 ^ 16 }
    ensures { IsTrue result ↔ ((1 ≤ lines) × (line + lines ≤ terms.now.lines)) }
{
    if lines == 0 || terms.lines < lines {
        return false;
    }
    line <= terms.lines - lines
}

/// Reads all regions that words begin with.
pub(crate) fn advance(
    alloc: Global,
    terms: &Terms,
    reader: &mut RecordReader,
    at: &mut Progress,
    words: &[u64],
) -> Result<Advanced, AllocError>
    requires { IsReading terms.now at.old }
    ensures used { IfOk result (λ a. a.used ≤ length words.now) }
    ensures all { IfOk result (λ a. (c : Commit) (w : List ℕ) (s : Reached) → AreTermsOf c terms.now → HasCome c w s
        at.old → words.now ≡ drop (4 * s.line) w → LeavesProgress a.damaged c w (drop a.used words.now) at.new) }
{
    let mut used = 0;
    for number in at.number..terms.count {
        match step(alloc, terms, reader, at, &words[used..])? {
            Step::Took(count) => used += count,
            Step::Waits => {
                return Ok(Advanced {
                    used,
                    damaged: None,
                });
            }
            Step::Damaged => {
                return Ok(Advanced {
                    used,
                    damaged: Some(number),
                });
            }
        }
    }
    Ok(Advanced {
        used,
        damaged: None,
    })
}
