//! Which part of a range of numbers is read by an index and which is read whole: plain values, before
//! anything of the log is read.
#![tactic(auto)]

mod cover;
mod law;
mod lookup;
mod pieces;

pub use cover::{full, plan};
pub use law::law_cover;
pub use pieces::{Piece, Plan, Stretch};
