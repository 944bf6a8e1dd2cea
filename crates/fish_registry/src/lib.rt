//! How the control pass registers definitions and ends them while lanes ingest.
//!
//! A registration raises the version first. Then the control pass looks at the lanes, again and again, until none is
//! entered at an older version; the count of the log at that moment is where the index begins, since from there on
//! each record has the keys of the new version. An end works the other way round: the count comes first, and then the
//! version. Nobody waits. Every shared word is touched by `fish_rule` alone.
#![tactic(auto)]

mod looking;
mod outcome;
mod registrar;
mod rows;

pub use outcome::{Poll, RegRefusal};
pub use registrar::Registrar;
