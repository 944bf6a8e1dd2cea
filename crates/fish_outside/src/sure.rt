//! A source and a host in memory that never fail.

ghost use Rattle.std.specs.Prelude.{◌≡◌, Some, min, length, take};
ghost use Rattle.fish_outside.specs.Memory.{sure_files_of};

use crate::fault::{Failed, FeedRefusal};
use crate::host::Host;
use crate::memory::{HostFiles, find_file};
use crate::source::Source;
use fish_value::{Bytes, Text};
use std::alloc::Global;
use std::marker::Model;

/// Bytes in memory, given in order. Contracts see those that are left.
#[derive(Debug, Drop)]
pub struct SureSource {
    bytes: Bytes,
    at: usize,
}

impl Model for SureSource {
    ghost use Rattle.std.specs.Prelude.{◌≤◌, ℕ, List, drop, length};

    ghost Value = { List ℕ };

    ghost view = { λ s. drop s.at s.bytes };

    ghost invariant = { λ s. s.at ≤ length s.bytes };
}

impl SureSource {
    /// A source of these bytes.
    pub fn new(bytes: Bytes) -> SureSource
        ensures { result ≡ bytes }
    {
        SureSource { bytes, at: 0 }
    }
}

impl Source for SureSource {
    ghost left = { λ s. Some s };

    ghost faults = { λ _. 0 };

    /// Gives the next bytes, as many as fit.
    fn read(&mut self, buf: &mut [u8]) -> Result<usize, Failed> {
        let (_, rest) = self.bytes.as_bytes().split_at(self.at);
        let count = copy_front(rest, buf);
        self.at += count;
        Ok(count)
    }
}

/// Copies as many bytes as there are and fit, and answers how many.
fn copy_front(from: &[u8], buf: &mut [u8]) -> usize
    ensures count { result ≡ min (length from.now) (length buf.old) }
    ensures copied { take result buf.new ≡ take result from.now }
{
    let count = from.len().min(buf.len());
    buf[..count].copy_from_slice(&from[..count]);
    count
}

/// Files in memory, where every name that isn't among them is that of an empty file.
#[derive(Debug, Drop)]
pub struct SureHost {
    /// The files. Of two with one name the first counts, and their plans of faults don't.
    pub files: HostFiles,
}

impl SureHost {
    /// A host of these files.
    pub fn new(files: HostFiles) -> SureHost
        ensures { result ≡ record { files = files } }
    {
        SureHost { files }
    }
}

impl Host for SureHost {
    type Feed = SureSource;

    ghost files = { λ host. Some (sure_files_of host.files) };

    ghost faults = { λ _. 0 };

    /// A feed of the file of that name, or of no bytes.
    fn feed(&mut self, alloc: Global, name: &Text) -> Result<SureSource, FeedRefusal> {
        match find_file(self.files.as_slice(), name) {
            Some(file) => Ok(SureSource::new(file.bytes.again(alloc)?)),
            None => Ok(SureSource::new(Bytes::new(alloc))),
        }
    }

    /// A feed that never fails has no faults to add.
    fn done(&mut self, _feed: SureSource) {}
}
