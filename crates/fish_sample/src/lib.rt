//! A sample: a store in memory that four lanes fill at once with records made from their numbers, and what its scans
//! count.
#![tactic(auto)]

mod asking;
mod filling;
mod items;
mod opening;
mod printing;
mod running;
mod share;
mod summary;

pub use printing::{SampleFault, sample};
