//! What a pass finds in the log: how many numbers there are, what became of each, and the entries.
//!
//! Nothing here changes a shared word but the settled number, and every one is touched by `fish_rule`
//! alone.
#![tactic(auto)]

mod found;
mod outcome;
mod prefix;
mod reading;

pub use found::{count_now, look};
pub use outcome::Look;
pub use prefix::{Settled, settle};
pub use reading::read_entry;
