//! One record that a scan found, and the list of them.

use crate::sequence::Sequence;
use crate::text::Text;

/// A record that was found.
#[derive(Debug, Drop)]
pub struct Row {
    /// Its place in the order of claims, from 0.
    pub number: u32,
    /// Its bytes as they were stored.
    pub payload: Text,
}

/// The records that were found, in order.
pub type Rows = Sequence<Row>;
