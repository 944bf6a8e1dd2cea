//! What the program does: one command, from its words to what it writes and the end of the run.
//!
//! [`run`] is the top call. The program gives it the words of its process, the files of the system and standard output,
//! and ends as its [`Outcome`] says. A test gives it words, files and an output in memory.
#![tactic(auto)]

mod command;
mod fault;
mod law;
mod outcome;
mod parts;
mod sample;
mod script;
mod selection;

pub use command::{run, run_gated};
pub use fault::Fault;
pub use law::law_runs_keep;
pub use outcome::Outcome;
