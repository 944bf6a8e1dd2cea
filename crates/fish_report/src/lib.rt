//! What a run reports, item by item, the text of each item, and how it is written.
#![tactic(auto)]

mod head;
mod item;
mod parts;
mod refusals;
mod statements;
mod text;
mod writing;

pub use item::{DeregisterCause, Item, Items, RegisterCause, Report, ScanCause};
pub use text::{push_item, report_text};
pub use writing::{WriteRefusal, write_items};
