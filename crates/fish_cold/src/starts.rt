//! Which page start belongs to a number, and which to a page.

ghost use Rattle.std.specs.Prelude.{◌≡◌, IfOk, OnOk, Some};
ghost use Rattle.fish_catalog.specs.declared.page_start.PageStart.{PageStart as Start};
ghost use Rattle.fish_cold.specs.Starts.{IsStartIn, IsStartOf, with_start, with_starts};

use fish_catalog::{PageStart, PageStarts, page_after};
use fish_layout::page_of;
use std::alloc::{AllocError, Global};

/// The last page start that isn't after a number.
pub(crate) fn start_of(starts: &[PageStart], number: u32) -> Option<PageStart>
    ensures { (start : Start) → IsStartOf starts.now number start → result ≡ Some start }
{
    let behind = starts.partition_point(|start| start.number <= number);
    if behind == 0 {
        return None;
    }
    Some(starts[behind - 1])
}

/// The last page start that isn't after a page: that of the page, if it has one.
pub(crate) fn start_in(starts: &[PageStart], page: u64) -> Option<PageStart>
    ensures { (start : Start) → IsStartIn starts.now page start → result ≡ Some start }
{
    let behind = starts.partition_point(|start| page_of(start.line) <= page);
    if behind == 0 {
        return None;
    }
    Some(starts[behind - 1])
}

/// Page starts, and those of others that are of pages after theirs.
pub(crate) fn joined(
    alloc: Global,
    starts: &[PageStart],
    more: &[PageStart],
) -> Result<PageStarts, AllocError>
    ensures { IfOk result (λ all. all ≡ with_starts starts.now more.now) }
{
    let mut all = copied(alloc, starts)?;
    for start in more {
        add(&mut all, start)?;
    }
    Ok(all)
}

/// A copy of page starts.
fn copied(alloc: Global, starts: &[PageStart]) -> Result<PageStarts, AllocError>
    ensures { IfOk result (λ all. all ≡ starts.now) }
{
    let mut all = PageStarts::new(alloc);
    for start in starts {
        all.push(*start)?;
    }
    Ok(all)
}

/// Puts a start after the others, if it is that of a page after theirs.
fn add(all: &mut PageStarts, start: &PageStart) -> Result<(), AllocError>
    ensures { OnOk result (all.new ≡ with_start all.old start.now) }
{
    if page_after(all.as_slice()) <= page_of(start.line) {
        all.push(*start)?;
    }
    Ok(())
}
