//! Command lines: which words are a command of the program, and what they ask for.
//!
//! `clap` reads the words, and nothing is copied but what a command keeps.
#![tactic(auto)]

mod command;
mod law;
mod line;
mod options;
mod parse;
mod refusal;
mod request;

pub use command::{Command, Run, Sample, Select};
pub use law::law_one_outcome;
pub use parse::parse_command;
pub use refusal::{CommandRefusal, UsageCause};
