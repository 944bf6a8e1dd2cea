//! The outside: what a program reads from and writes to, as traits that say what is left, what is
//! there and what was written, and count their faults.
//!
//! Everything above talks to these traits. [`MemoryHost`] and its kin stand in for the outside and
//! fail by a plan, [`SureHost`] and its kin never fail, and [`FileHost`] and [`OutSink`] are the
//! trusted edge: a few lines over real files and standard output, which tell nothing of content.
#![tactic(auto)]

mod bounded;
mod fault;
mod file;
mod heap;
mod host;
mod memory;
mod output;
mod plan;
mod reading;
mod sink;
mod source;
mod sure;
mod sure_sink;

pub use bounded::BoundedBytes;
pub use fault::{Failed, FeedRefusal};
pub use file::{FileFeed, FileHost};
pub use heap::keep_freed_memory;
pub use host::Host;
pub use memory::{HostFile, HostFiles, MemoryHost, MemorySink, MemorySource};
pub use output::OutSink;
pub use plan::FaultPlan;
pub use reading::{CHUNK, read_file, read_more, zeros};
pub use sink::{Sink, write_whole};
pub use source::Source;
pub use sure::{SureHost, SureSource};
pub use sure_sink::SureSink;
