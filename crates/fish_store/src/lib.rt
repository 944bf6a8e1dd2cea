//! An open store: the log with its control pass and its registrar, and what is kept of the file, and how moments of it
//! go on.
#![tactic(auto)]

mod file;
mod law;
mod rolling;
mod store;

pub use file::StoreFile;
pub use law::{law_carried, law_sound};
pub use store::Store;
