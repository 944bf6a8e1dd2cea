//! Tests of lanes over the public calls of their crate: what no clause says, with expected
//! values that are worked out by hand from the rules.
#![tactic(auto)]

#[cfg(test)]
mod blocks;
#[cfg(test)]
mod changes;
#[cfg(test)]
mod contention;
#[cfg(test)]
mod expecting;
#[cfg(test)]
mod full;
#[cfg(test)]
mod reopened;
#[cfg(test)]
mod running;
#[cfg(test)]
mod scripts;
