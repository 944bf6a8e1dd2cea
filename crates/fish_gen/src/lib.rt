//! The records of a sample: a large valid input that is made from a number alone.
#![tactic(auto)]

mod sample;

pub use sample::sample_record;
