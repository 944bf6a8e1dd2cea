//! What `select` answers for a file of either form, from its parts: each line or row is evaluated as it comes.
#![tactic(auto)]

mod found;
mod lines;
mod rows;
mod selection;

pub use found::{Found, SelectRefusal};
pub use selection::{Query, begin_select, end_select, select_part};
