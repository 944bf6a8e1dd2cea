//! What a commit of a store tells, and what was found as its log was checked.

use crate::catalog::Catalog;
use crate::page_start::PageStarts;
use fish_value::Numbers64;

/// The newest format of a store file.
pub const NEWEST_FORMAT: u8 = 2;

/// The most rows that are active at once in a store file of format 1.
pub const MAX_ACTIVE_AT_FIRST: usize = 16;

/// What a commit of a store tells beside the words of its log.
#[derive(Debug, Drop)]
pub struct Commit {
    /// The format of its slot, 1 or 2. Nothing that it tells depends on it.
    pub format: u8,
    /// 0, 1 or 2: the turn of the commit before, and one more, modulo 3.
    pub turn: u8,
    /// How many pages a table of the log has.
    pub pages: u16,
    /// It has as many buckets as two to this power.
    pub bucket_bits: u8,
    /// How many entries the log has.
    pub count: u32,
    /// How many lines they take.
    pub lines: u64,
    /// The definitions.
    pub rows: Catalog,
}

/// What was found as the words of a log were checked.
#[derive(Debug, Drop)]
pub struct Checked {
    /// The place of the newest key entry of each bucket, or 0.
    pub heads: Numbers64,
    /// The first region that begins in each page.
    pub starts: PageStarts,
}
