//! Tests of whole commands, over the calls that the program makes: how each ends and what is written, with expected
//! values that are worked out by hand from the rules.
#![tactic(auto)]

#[cfg(test)]
mod commands;
#[cfg(test)]
mod expecting;
#[cfg(test)]
mod gates;
#[cfg(test)]
mod holds;
#[cfg(test)]
mod outside;
#[cfg(test)]
mod parts;
#[cfg(test)]
mod rolls;
#[cfg(test)]
mod samples;
#[cfg(test)]
mod stores;
