//! Tests of the log over the public calls of its crates: what no clause says, with expected values
//! that are worked out by hand from the rules or by another program.
#![tactic(auto)]

#[cfg(test)]
mod answers;
mod asks;
#[cfg(test)]
mod bases;
#[cfg(test)]
mod bodies;
mod cause;
#[cfg(test)]
mod chains;
#[cfg(test)]
mod claims;
#[cfg(test)]
mod definitions;
#[cfg(test)]
mod entries;
#[cfg(test)]
mod epochs;
#[cfg(test)]
mod expecting;
#[cfg(test)]
mod flights;
#[cfg(test)]
mod lanes;
#[cfg(test)]
mod linked;
mod logs;
#[cfg(test)]
mod nodes;
#[cfg(test)]
mod openings;
#[cfg(test)]
mod payloads;
#[cfg(test)]
mod plans;
#[cfg(test)]
mod questions;
#[cfg(test)]
mod races;
#[cfg(test)]
mod refusals;
#[cfg(test)]
mod registrations;
#[cfg(test)]
mod rounds;
#[cfg(test)]
mod scans;
#[cfg(test)]
mod seats;
#[cfg(test)]
mod settling;
#[cfg(test)]
mod statements;
#[cfg(test)]
mod stories;
#[cfg(test)]
mod threads;

pub use asks::{Question, Wanted, ask_of};
pub use cause::Cause;
pub use logs::{ONE_PAGE, closed, empty_log, name_of, parsed};
