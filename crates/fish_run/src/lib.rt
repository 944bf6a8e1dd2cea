//! Runs of scripts: a script's blocks on one log, and what they write.
#![tactic(auto)]

mod fault;
mod lasting;
mod parts;
mod rounds;
mod running;
mod saying;
mod telling;

pub use fault::RunFault;
pub use running::{Ran, run_script};
