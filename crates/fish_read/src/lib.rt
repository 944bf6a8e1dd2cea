//! Reading payloads of either form with memory that is kept.
#![tactic(auto)]

mod reader;

pub use reader::{RecordReader, RecordRow};
