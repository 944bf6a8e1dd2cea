//! The words of the command line, and why nothing was measured.

use std::alloc::{AllocError, AllocFailed};
use std::env;
use std::rt::Env;

/// Why a measurement ended early, or wasn't made.
#[derive(Clone, Copy)]
pub enum Failure {
    /// The words ask for no measurement.
    Words,
    /// The file can't be read, or isn't one of records.
    Events,
    /// Memory ran out.
    OutOfMemory,
}

impl From<AllocError> for Failure {
    fn from(_: AllocError) -> Self {
        Failure::OutOfMemory
    }
}

impl From<AllocFailed<String>> for Failure {
    fn from(_: AllocFailed<String>) -> Self {
        Failure::OutOfMemory
    }
}

impl Failure {
    /// The line for standard error.
    pub fn message(self) -> &'static str {
        match self {
            Failure::Words =>
                "usage: bench log | bench image | bench ingest FILE | bench registrations FILE | bench scans FILE | bench checkpoint FILE PATH | bench older FILE PATH",
            Failure::Events => "bench: the file can't be read as events",
            Failure::OutOfMemory => "bench: out of memory",
        }
    }
}

/// The words of the command line, without the program's name.
pub fn words_of<R: Env + AllocGlobal>(rt: &R) -> Result<Vec<String>, Failure> {
    let Ok(args) = env::args(rt) else {
        return Err(Failure::Words);
    };
    let mut words = Vec::new(rt.alloc());
    for word in args.skip(1) {
        words.push(word)?;
    }
    Ok(words)
}
