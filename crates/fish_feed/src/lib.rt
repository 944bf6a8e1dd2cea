//! The statements of a block's lanes with their files, which are read in parts as the lanes come to them.
#![tactic(auto)]

mod building;
mod part;
mod queue;

pub use building::open_lanes;
pub use part::{AT_ONCE, OpenFile, Part, close_file, open_file, read_part};
pub use queue::{Queue, close, give, has_more};
