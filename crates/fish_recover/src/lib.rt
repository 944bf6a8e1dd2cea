//! Opening a store: which slot counts, and that its lines stand for a log.
//!
//! What is found is held to its commit before anything is written. Then the older gate is closed, where both are open,
//! and a table begins where the commit ends.
#![tactic(auto)]

mod bytes;
mod choosing;
mod finding;
mod law;
mod lines;
mod opened;
mod refusal;
mod resting;
mod store;
mod table;

pub use finding::{Found, find_store};
pub use law::{causes_exclude, stores_open};
pub use opened::Opened;
pub use refusal::{Asked, OpenRefusal};
pub use store::open_store;
pub use table::begin_table;
