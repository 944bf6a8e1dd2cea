//! Passes with what they keep: the control pass that commits, and those that store beside it.

use fish_epoch::Defs;
use fish_flush::Flusher;
use fish_rule::{Pass, Start};

/// The control pass of a log.
#[derive(Drop)]
pub struct Control {
    pub pass: Pass,
    /// What the log began with.
    pub start: Start,
    /// The definitions that the pass read.
    pub defs: Defs,
    /// What it keeps of the last commit.
    pub flusher: Flusher,
}

/// A pass on its thread, and how many records it stored.
#[derive(Drop)]
pub struct Seat {
    pub pass: Pass,
    pub stored: usize,
}
