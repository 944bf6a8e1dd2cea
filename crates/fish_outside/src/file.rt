//! Real files: the trusted edge for input. Nothing is told of their content.
//!
//! Each call of the system that fails is counted. A read that a signal interrupts has taken nothing
//! and is tried again, since the standard library leaves that to its caller.

ghost use Rattle.std.specs.Prelude.{◌≡◌, ◌≤◌, None, length, IfSome};

use crate::fault::{Failed, FeedRefusal};
use crate::host::Host;
use crate::source::Source;
use fish_value::Text;
use std::alloc::Global;
use std::fs;
use std::fs::File;
use std::io::{ErrorKind, Read};
use std::rt::Files;

/// How often a read is tried that signals interrupt.
const TRIES: u32 = 64;

/// The files of the system, by path.
#[derive(Drop)]
pub struct FileHost<R: Files<File = File> + Clone + Drop + Send> {
    rt: R,
    faults: u64,
}

/// A file of the system that is being read.
#[derive(Drop)]
pub struct FileFeed {
    file: File,
    faults: u64,
}

impl<R: Files<File = File> + Clone + Drop + Send> FileHost<R> {
    /// The host of the files that a runtime reaches.
    pub fn new(rt: R) -> FileHost<R>
        ensures { ⟦<FileHost<R> as Host>⟧.faults result ≡ 0 }
    {
        FileHost { rt, faults: 0 }
    }

    /// How often a call or a feed that came back has failed, up to the largest number of 64 bits.
    pub fn faults(&self) -> u64
        ensures { result ≡ ⟦<FileHost<R> as Host>⟧.faults self.now }
    {
        self.faults
    }
}

impl<R: Files<File = File> + Clone + Drop + Send> Host for FileHost<R> {
    type Feed = FileFeed;

    ghost files = { λ _. None };

    ghost faults = { λ host. host.faults };

    /// Opens a file. Where the system refuses that, a fault is counted.
    fn feed(&mut self, _alloc: Global, name: &Text) -> Result<FileFeed, FeedRefusal> {
        match fs::open(&self.rt, name.as_str()) {
            Ok(file) => Ok(FileFeed { file, faults: 0 }),
            Err(_) => {
                self.faults = self.faults.saturating_add(1);
                Err(FeedRefusal::Failed)
            }
        }
    }

    /// Adds the faults of a feed that came back.
    fn done(&mut self, feed: FileFeed) {
        self.faults = self.faults.saturating_add(feed.faults);
    }
}

impl Source for FileFeed {
    ghost left = { λ _. None };

    ghost faults = { λ feed. feed.faults };

    /// Reads from the file. What isn't read in the end is one fault.
    fn read(&mut self, buf: &mut [u8]) -> Result<usize, Failed> {
        if let Some(count) = read_some(&mut self.file, buf) {
            return Ok(count);
        }
        self.faults = self.faults.saturating_add(1);
        Err(Failed)
    }
}

/// Reads once without an interruption, if that comes within the tries.
fn read_some(file: &mut File, buf: &mut [u8]) -> Option<usize>
    ensures { IfSome result (λ n. n ≤ length buf.new) }
{
    for _ in 0..TRIES {
        match file.read(buf) {
            Ok(count) => return Some(count),
            Err(error) if error.kind() == ErrorKind::Interrupted => {}
            Err(_) => return None,
        }
    }
    None
}
