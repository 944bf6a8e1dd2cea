//! Where the pages of a log begin to hold regions.

ghost use Rattle.std.specs.Prelude.{◌≡◌};
ghost use Rattle.fish_catalog.specs.PageStarts.{page_after as next_page};

use fish_layout::page_of;
use fish_value::Sequence;

/// The first region that begins in a page of 32,768 lines.
#[derive(Clone, Copy, Debug, PartialEq, Eq)]
pub struct PageStart {
    /// The region's number.
    pub number: u32,
    /// Its first line.
    pub line: u64,
}

/// The page starts of a log, by number.
pub type PageStarts = Sequence<PageStart>;

/// The page after the last one that holds a region.
pub fn page_after(starts: &[PageStart]) -> u64
    ensures { result ≡ next_page starts.now }
{
    let last = starts.len().saturating_sub(1);
    match starts.get(last).copied() {
        Some(start) => page_of(start.line) + 1,
        None => 0,
    }
}
