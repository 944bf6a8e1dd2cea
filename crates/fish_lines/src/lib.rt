//! The lines of files, and the records that a file has, whatever pieces its bytes come in.
//!
//! What a file's lines and records are is defined on the whole list of its bytes, in `specs/` and in
//! those of `fish_json` and `fish_csv`. Nothing here looks into a record.
#![tactic(auto)]

mod file;
mod found;
mod line;
mod lines;
mod open_line;
mod resuming;
mod splitter;
mod texts;

pub use file::records;
pub use found::{Records, RecordsRefusal};
pub use lines::Lines;
pub use resuming::{Begin, left_after};
pub use splitter::{Line, LineList, Splitter, lines_of_pieces};
pub use texts::{RecordText, RecordTexts};
