//! The whole log of a store, over the tables that hold it one after the other: what may be in the end, and what of it
//! is certain by what a pass knows. Definitions and laws alone; no call of the program needs them.
#![tactic(auto)]

mod law;

pub use law::law_whole;
