//! A key entry of an older record.

use fish_value::Value;

/// A key entry of an older record.
#[derive(Drop)]
pub struct ColdNode {
    /// The record's number.
    pub number: u32,
    /// Where the entry is, in words from the log's start.
    pub place: u64,
    /// The definition that gave its value.
    pub id: u16,
    /// Which of the record's entries it is.
    pub key: u16,
    /// The place of the next older entry of its bucket, or 0.
    pub prev: u64,
    /// Its value.
    pub value: Value,
}
