//! Tests of the store file: disks, slots and gates, making a store, checkpoints, and images, over the public calls of
//! the crates below.
#![tactic(auto)]

#[cfg(test)]
mod across;
#[cfg(test)]
mod beside;
#[cfg(test)]
mod bodies;
#[cfg(test)]
mod checkpoints;
#[cfg(test)]
mod commits;
#[cfg(test)]
mod crashes;
#[cfg(test)]
mod creations;
#[cfg(test)]
mod disks;
#[cfg(test)]
mod explained;
#[cfg(test)]
mod flushing;
#[cfg(test)]
mod going_on;
#[cfg(test)]
mod images;
#[cfg(test)]
mod many_pages;
#[cfg(test)]
mod older;
#[cfg(test)]
mod openings;
mod passes;
#[cfg(test)]
mod reopened;
#[cfg(test)]
mod stored;
#[cfg(test)]
mod system;
#[cfg(test)]
mod told;

pub use passes::{Control, Seat};
