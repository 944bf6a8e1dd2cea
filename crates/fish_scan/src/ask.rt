//! What a scan is asked, and what it answers. Numbers are those of records; `to` is the first after.

use fish_plan::Plan;
use fish_value::{Numbers, Rows, Text, Value};

/// How the numbers of a range are to be read.
#[derive(Clone, Copy)]
pub enum How {
    /// By the index where it is complete, and else one by one.
    Auto,
    /// The same, and not at all where the index misses a settled number.
    Index,
    /// One by one.
    Full,
}

/// Which records a scan is to find.
#[derive(Drop)]
pub struct Ask {
    /// The name of a definition. Of several it means the newest, active or not.
    pub name: Text,
    /// The value that the definition has.
    pub value: Value,
    /// The first number, or none for 0.
    pub from: Option<u32>,
    /// The first number after, or none for all that is claimed.
    pub to: Option<u32>,
    pub how: How,
}

/// The records of a range.
#[derive(Drop)]
pub struct Answer {
    pub from: u32,
    pub to: u32,
    /// The numbers of the range that weren't published when the scan looked, ascending.
    pub opens: Numbers,
    /// The records, newest first.
    pub rows: Rows,
    /// How the range was read.
    pub plan: Plan,
}

/// How a range would be read.
#[derive(Drop)]
pub struct Explained {
    pub from: u32,
    pub to: u32,
    pub plan: Plan,
}
