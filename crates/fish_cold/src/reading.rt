//! Reading a page from the file: one call of the disk.

ghost use Rattle.std.specs.Prelude.{◌≡◌, ◌+◌, ◌/◌, ◌%◌, ◌≤◌, Some, IfErr, IfOk, IfSome, length};
ghost use Rattle.fish_catalog.specs.declared.page_start.PageStart.{PageStart as Start};
ghost use Rattle.fish_disk.specs.Content.{StillReads};
ghost use Rattle.fish_disk.specs.Crash.{LeavesOnly};
ghost use Rattle.fish_layout.specs.Pages.{page_of};
ghost use Rattle.fish_cold.specs.Caching.{HasDiskCause, IsPageIn};
ghost use Rattle.fish_cold.specs.within.Caching.{IsColdUndamaged};
ghost use Rattle.fish_cold.specs.Pages.{page_words};

use crate::page::{Page, regions_of};
use crate::refusal::ColdRefusal;
use crate::starts::start_in;
use fish_catalog::PageStart;
use fish_disk::Disk;
use fish_image::words_in;
use fish_layout::{LINE_BYTES, LINES_AT, PAGE_BYTES, PAGE_LINES};
use std::alloc::{AllocError, Global};

/// A page, as far as it lies below a line. One call of the disk.
pub(crate) fn read_page<D: Disk>(
    alloc: Global,
    disk: &mut D,
    end: u64,
    starts: &[PageStart],
    page: u64,
) -> Result<Page, ColdRefusal>
    requires few { end ≤ 68719176736 }
    requires within { page ≤ page_of end }
    ensures page { IfOk result (λ p. IfSome (D.content disk.new) (λ c. IsPageIn end starts.now c page p)) }
    ensures content { StillReads (D.content disk.old) (D.content disk.new) }
    ensures crash { LeavesOnly D.images D.since D.moment disk.old disk.new (D.images disk.old) }
    ensures one { D.moment disk.new ≤ D.moment disk.old + 1 }

    ensures cause { HasDiskCause (D.faults disk.old) (D.faults disk.new) result }
    ensures whole { IfErr result IsColdUndamaged }
{
    let words = read_words(alloc, disk, end, page)?;
    let first = first_line(start_in(starts, page));
    let regions = regions_of(alloc, words.as_slice(), first)?;
    Ok(Page { words, regions })
}

/// The line in its page at which the first region begins, or the one past the page's end.
fn first_line(start: Option<PageStart>) -> u64
    ensures { (s : Start) → start ≡ Some s → result ≡ s.line % 32768 }
{
    match start {
        Some(start) => start.line % PAGE_LINES,
        None => PAGE_LINES,
    }
}

/// The words of a page, as far as they lie below a line.
fn read_words<D: Disk>(
    alloc: Global,
    disk: &mut D,
    end: u64,
    page: u64,
) -> Result<Vec<u64>, ColdRefusal>
    requires few { end ≤ 68719176736 }
    requires within { page ≤ page_of end }
    ensures words { IfOk result (λ words. IfSome (D.content disk.new) (λ c. words.items ≡ page_words end page c)) }
    ensures content { StillReads (D.content disk.old) (D.content disk.new) }
    ensures crash { LeavesOnly D.images D.since D.moment disk.old disk.new (D.images disk.old) }
    ensures one { D.moment disk.new ≤ D.moment disk.old + 1 }
    ensures cause { HasDiskCause (D.faults disk.old) (D.faults disk.new) result }
    ensures whole { IfErr result IsColdUndamaged }
{
    let lines = PAGE_LINES.min(end - PAGE_LINES * page);
    let mut bytes = zeros(alloc, (LINE_BYTES * lines) as usize)?;
    let count = disk.read(LINES_AT + PAGE_BYTES * page, &mut bytes)?;
    let words = words_in(alloc, &bytes[..count])?;
    Ok(words)
}

/// So many zero bytes.
fn zeros(alloc: Global, count: usize) -> Result<Vec<u8>, AllocError>
    ensures { IfOk result (λ bytes. length bytes.items ≡ count) }
{
    vec![in alloc; 0; count]
}
