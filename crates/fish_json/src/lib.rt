//! Records in JSON: one object a line (RFC 8259), read once and looked into by paths.
//!
//! What a file's lines are, which of them are records, and what a record has at a path are
//! definitions on bytes, in `specs/`. The calls here read one line's bytes.
#![tactic(auto)]

mod line;
mod nodes;
mod number;
mod reader;
mod record;
mod row;

pub use fish_value::MAX_PAYLOAD;
pub use line::{cut_line, without_carriage_return};
pub use reader::JsonReader;
pub use record::{JsonRecord, RecordRefusal};
pub use row::JsonRow;
