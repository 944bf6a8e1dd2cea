//! The older records of a store, read from its file a page at a time, through a cache of 16 pages.
//!
//! A log in memory begins at a base. What is below it is in the file alone, and never changes
//! there. Nothing here writes, and no shared word is touched.
#![tactic(auto)]

mod cold;
mod decoding;
mod law;
mod node;
mod page;
mod reading;
mod refusal;
mod starts;

pub use cold::Cold;
pub use law::{chains_lead_down, entries_are_carried, keys_are_carried};
pub use node::ColdNode;
pub use refusal::ColdRefusal;
