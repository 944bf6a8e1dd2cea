//! The record that a pass stores: its claim, its words and its publication.
//!
//! A line has 32 bytes, which are four words. Nothing here takes memory, and every shared word is
//! touched by `fish_rule` alone.
#![tactic(auto)]

mod claimed;
mod flight;

pub use claimed::{Claimed, claim};
pub use flight::{fill, publish};
