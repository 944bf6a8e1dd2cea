//! How far the words of a log were read, and what was found by then.

use fish_catalog::PageStart;

/// How far the words of a log were read.
#[derive(Debug, Drop)]
pub(crate) struct Progress {
    /// The next number.
    pub number: u32,
    /// The next line.
    pub line: u64,
    /// The first page in which no region begins yet.
    pub page: u64,
    /// The place of the newest key entry of each bucket, or 0.
    pub heads: Vec<u64>,
    /// Where pages begin to hold regions.
    pub starts: Vec<PageStart>,
}
