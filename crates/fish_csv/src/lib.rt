//! Records in CSV: rows of fields between commas and quotes (RFC 4180), read once and looked into by
//! columns.
//!
//! What a file's rows are, which of them are records, and what a record has at a path are
//! definitions on bytes, in `specs/`.
#![tactic(auto)]

mod bytes;
mod column;
mod file;
mod machine;
mod reader;
mod record;
mod text;
mod write;

pub use file::{CsvRefusal, CsvRows, RowTexts, rows};
pub use fish_value::{MAX_FILE, MAX_PAYLOAD};
pub use reader::{CsvReader, CsvRow};
pub use record::{CsvRecord, CsvRecordRefusal};
