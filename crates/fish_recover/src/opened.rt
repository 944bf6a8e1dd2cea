//! A store that is open.

use fish_catalog::Catalog;
use fish_cold::Cold;
use fish_flush::Flusher;
use fish_rule::{Log, Pass};

/// A store that is open: a log whose table begins where the last commit ends.
#[derive(Drop)]
pub struct Opened {
    /// The log.
    pub log: Log,
    /// Its control pass.
    pub pass: Pass,
    /// What is kept of the last commit.
    pub flusher: Flusher,
    /// The definitions, cut to the commit's count.
    pub catalog: Catalog,
    /// The records below the table's base.
    pub cold: Cold,
    /// Whether the store was made, since the disk was empty.
    pub made: bool,
    /// How many records it holds.
    pub count: u32,
}
