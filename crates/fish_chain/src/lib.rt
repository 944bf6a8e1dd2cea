//! The chains of key entries: how a record's entries get into them, and how a pass walks down one.
//!
//! A place counts the words of 64 bits from the log's start. Nothing here takes memory, and every
//! shared word is touched by `fish_rule` alone.
#![tactic(auto)]

mod chain;
mod value;
mod walk;

pub use chain::link;
pub use value::node_has;
pub use walk::{Node, walk_next, walk_rest, walk_start};
