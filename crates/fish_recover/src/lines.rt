//! The lines of a log, held to a commit a page at a time.

ghost use Rattle.std.specs.Prelude.{◌≡◌, ◌+◌, ◌*◌, ◌≤◌, ℕ, List, IfErr, IfOk, IfSome, OnOk, length};
ghost use Rattle.fish_catalog.specs.declared.commit.Commit.{Commit as Told};
ghost use Rattle.fish_disk.specs.Content.{StillReads, part};
ghost use Rattle.fish_disk.specs.Crash.{LeavesOnly};
ghost use Rattle.fish_image.specs.Checking.{HasChecked, HasSeen, IsChecker};
ghost use Rattle.fish_image.specs.Commits.{IsWithin};
ghost use Rattle.fish_image.specs.Stands.{words_in as all_words};
ghost use Rattle.fish_slots.specs.Offsets.{lines_at};
ghost use Rattle.fish_recover.specs.Choosing.{HasOpenCause};
ghost use Rattle.fish_recover.specs.Opening.{AreLinesRead};
ghost use Rattle.fish_recover.specs.within.Opening.{HasReadLines, IsLinesCause, IsOutside, IsPieceCause, IsSameRefusal};
ghost use Rattle.fish_recover.specs.within.Opening.{first_words};
ghost use Rattle.fish_recover.specs.Opening.{pages_of};

use crate::bytes::zeros;
use crate::refusal::OpenRefusal;
use fish_catalog::{Checked, Commit};
use fish_disk::Disk;
use fish_image::{Checker, ImageRefusal, words_in};
use fish_layout::{LINE_BYTES, LINES_AT, PAGE_LINES};
use std::alloc::Global;

/// Holds the lines of a store to its commit. One call of the disk for each page.
pub(crate) fn check_lines<D: Disk>(
    alloc: Global,
    disk: &mut D,
    commit: &Commit,
) -> Result<Checked, OpenRefusal>
    requires { IsWithin commit.now }
    ensures found { IfOk result (λ checked. IfSome (D.content disk.new)
        (λ c. HasChecked commit.now (first_words commit.now.lines c) checked)) }
    ensures read { IfOk result (AreLinesRead commit.now) }
    ensures refused { IfErr result (λ e. IfSome (D.content disk.new)
        (λ c. IsLinesCause commit.now (first_words commit.now.lines c) e)) }
    ensures content { StillReads (D.content disk.old) (D.content disk.new) }
    ensures crash { LeavesOnly D.images D.since D.moment disk.old disk.new (D.images disk.old) }
    ensures calls { D.moment disk.new ≤ D.moment disk.old + pages_of commit.now.lines }

    ensures cause { HasOpenCause (D.faults disk.old) (D.faults disk.new) result }
{
    let mut checker = Checker::new(alloc, commit)?;
    let mut line = 0;
    while line < commit.lines {
        let count = PAGE_LINES.min(commit.lines - line);
        match feed_lines(alloc, disk, &mut checker, line, count) {
            Ok(()) => line += count,
            Err(refusal) => {
                drop(checker);
                return Err(refusal);
            }
        }
    }
    match checker.finish() {
        Ok(checked) => Ok(checked),
        Err(refusal) => Err(refusal_of(refusal)),
    }
}

/// Gives the next lines to the checker. One call of the disk.
fn feed_lines<D: Disk>(
    alloc: Global,
    disk: &mut D,
    checker: &mut Checker,
    line: u64,
    count: u64,
) -> Result<(), OpenRefusal>
    requires checker { IsChecker checker.old }
    requires few { line ≤ 68719176736 }
    requires page { count ≤ 32768 }
    ensures fed { IfOk result (λ _. (commit : Told) → IfSome (D.content disk.new) (λ c.
        HasSeen commit checker.old (first_words line c) → HasSeen commit checker.new (first_words (line + count) c))) }
    ensures read { OnOk result ((commit : Told)
        → HasReadLines commit checker.old line → HasReadLines commit checker.new (line + count)) }
    ensures refused { IfErr result (λ e. (commit : Told) → IfSome (D.content disk.new) (λ c.
        HasSeen commit checker.old (first_words line c) → IsPieceCause commit (first_words (line + count) c) e)) }
    ensures checker { IsChecker checker.new }
    ensures content { StillReads (D.content disk.old) (D.content disk.new) }
    ensures crash { LeavesOnly D.images D.since D.moment disk.old disk.new (D.images disk.old) }
    ensures calls { D.moment disk.new ≤ D.moment disk.old + 1 }
    ensures cause { HasOpenCause (D.faults disk.old) (D.faults disk.new) result }
{
    match read_words(alloc, disk, line, count) {
        Ok(words) => match checker.feed(words.as_slice()) {
            Ok(()) => Ok(()),
            Err(refusal) => Err(refusal_of(refusal)),
        },
        Err(refusal) => Err(refusal),
    }
}

/// The words of lines, as far as the file has them. One call of the disk.
fn read_words<D: Disk>(
    alloc: Global,
    disk: &mut D,
    line: u64,
    count: u64,
) -> Result<Vec<u64>, OpenRefusal>
    requires few { line ≤ 68719176736 }
    requires page { count ≤ 32768 }
    ensures words { IfOk result (λ words. IfSome (D.content disk.new)
        (λ c. words.items ≡ all_words (part (lines_at + 32 * line) (32 * count) c))) }
    ensures read { IfOk result (λ words. (b : List ℕ) × (length b ≤ 32 * count) × (words.items ≡ all_words b)) }
    ensures refused { IfErr result IsOutside }
    ensures content { StillReads (D.content disk.old) (D.content disk.new) }
    ensures crash { LeavesOnly D.images D.since D.moment disk.old disk.new (D.images disk.old) }
    ensures calls { D.moment disk.new ≤ D.moment disk.old + 1 }
    ensures cause { HasOpenCause (D.faults disk.old) (D.faults disk.new) result }
{
    let mut bytes = zeros(alloc, (LINE_BYTES * count) as usize)?;
    let read = disk.read(LINES_AT + LINE_BYTES * line, &mut bytes)?;
    let words = words_in(alloc, &bytes[..read])?;
    Ok(words)
}

/// The same refusal, of a store.
fn refusal_of(refusal: ImageRefusal) -> OpenRefusal
    ensures { IsSameRefusal refusal result }
{
    match refusal {
        ImageRefusal::Damaged { number } => OpenRefusal::Damaged { number },
        ImageRefusal::OutOfMemory => OpenRefusal::OutOfMemory,
    }
}
