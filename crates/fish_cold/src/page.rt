//! One page of the log's lines, as words, and where its regions begin.

ghost use Rattle.std.specs.Prelude.{◌≡◌, ℕ, IfOk};
ghost use Rattle.fish_cold.specs.Regions.{AreRegions};

use fish_layout::{LINE_WORDS, lines_in};
use std::alloc::{AllocError, Global};

/// A page of the log's lines below the base.
#[derive(Drop)]
pub(crate) struct Page {
    /// Its words, as many as the file has.
    pub words: Vec<u64>,
    /// The lines at which its regions begin, counted from the page's first.
    pub regions: Vec<u64>,
}

/// The lines at which the regions of a page begin, of which the first begins at a line. The words after the
/// first region that has no lines are not looked at.
pub(crate) fn regions_of(alloc: Global, words: &[u64], first: u64) -> Result<Vec<u64>, AllocError>
    ensures { IfOk result (λ regions. AreRegions words.now first regions.items) }
{
    let mut regions = Vec::new(alloc);
    let mut line = first;
    while line < words.len() as u64 / LINE_WORDS {
        regions.push(line)?;
        let lines = lines_in(words[(LINE_WORDS * line) as usize]);
        if lines == 0 {
            return Ok(regions);
        }
        line += lines;
    }
    Ok(regions)
}
