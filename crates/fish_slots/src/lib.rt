//! Two slots and two gates, by which one commit of a store file takes the place of another at once.
//!
//! A commit's body goes into the slot that is closed, and is synced; then one byte opens its gate, and
//! another closes the old one. Each call here is one such step. Whatever a crash leaves of it, a gate
//! that stands open has a synced body and synced lines.
#![tactic(auto)]

mod offsets;
mod slot;

pub use offsets::{BODIES_AT, SLOT_BYTES};
pub use slot::{Gates, begin, best, close_old, open_gate, seal};
