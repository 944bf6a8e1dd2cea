//! The definition language: what a user registers, from its text and back.
//!
//! Contracts see a definition as `definition_of` gives it: without the places in memory of its parts.
#![tactic(auto)]

mod condition;
mod definition;
mod fault;
mod finish;
mod law;
mod parse;
mod position;
mod print;
mod state;
mod token;

pub use definition::{Cond, Def, Op};
pub use law::{cuts_the_longest, has_one_outcome, has_one_reading, lexes_the_pieces, reads_back};
pub use parse::{LangRefusal, MAX_CANONICAL, MAX_SOURCE, parse_def};
pub use print::print_def;
