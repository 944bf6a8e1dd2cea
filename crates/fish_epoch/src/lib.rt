//! Versions: how a pass enters the registry's version and leaves, and which definitions a version has.
//!
//! A pass that is entered at a version tells every other so by its epoch word. Every shared word is
//! touched by `fish_rule` alone.
#![tactic(auto)]

mod definitions;
mod entering;
mod rows;

pub use definitions::{Defs, Known};
pub use entering::{enter, leave};
