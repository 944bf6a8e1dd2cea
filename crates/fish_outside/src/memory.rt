//! The outside in memory that fails by a plan.

ghost use Rattle.std.specs.Prelude.{◌≡◌, ◌≤◌, ◌↔◌, [], Some, length, is_err, option_copied, option_map, IfOk, IsErr, IsErrOf, IsTrue};
ghost use Rattle.std.specs.Str.{bytes_eq};
ghost use Rattle.fish_outside.specs.Causes.{counted_on, HasCause};
ghost use Rattle.fish_outside.specs.Content.{Reads, Writes};
ghost use Rattle.fish_outside.specs.Memory.{plan_after_call, file_of, files_of, is_planned, new_plan};

use crate::fault::{Failed, FeedRefusal};
use crate::host::Host;
use crate::plan::FaultPlan;
use crate::sink::Sink;
use crate::source::Source;
use crate::sure::SureSource;
use fish_value::{Bytes, Numbers64, Sequence, Text};
use std::alloc::{AllocError, Global};

/// Bytes in memory, given in order by reads of which some fail.
#[derive(Debug, Drop)]
pub struct MemorySource {
    /// The bytes that are left.
    pub rest: SureSource,
    /// The reads that are to fail.
    pub plan: FaultPlan,
}

impl MemorySource {
    /// A source of these bytes, whose reads of these numbers, from 0, fail.
    pub fn new(bytes: Bytes, fails: Numbers64) -> MemorySource
        ensures { result ≡ record { rest = bytes; plan = new_plan fails } }
    {
        MemorySource {
            rest: SureSource::new(bytes),
            plan: FaultPlan::new(fails),
        }
    }
}

impl Source for MemorySource {
    ghost left = { λ source. Some source.rest };

    ghost faults = { λ source. source.plan.faults };

    /// Fails where the plan says so, and else gives the next bytes.
    fn read(&mut self, buf: &mut [u8]) -> Result<usize, Failed>
        ensures bound { IfOk result (λ n. n ≤ length buf.new) }
        ensures bytes { Reads (Some self.old.rest) (Some self.new.rest) result buf.new }

        ensures cause { HasCause self.old.plan.faults self.new.plan.faults result }
        ensures planned { is_err result ≡ is_planned self.old.plan }
        ensures counted { self.new.plan ≡ plan_after_call self.old.plan (is_err result) }
    {
        self.plan.call()?;
        self.rest.read(buf)
    }
}

/// A file of a host in memory.
#[derive(Debug, Drop)]
pub struct HostFile {
    /// Its name.
    pub name: Text,
    /// What stands in it.
    pub bytes: Bytes,
    /// The numbers, from 0, of the reads of a feed of it that are to fail.
    pub fails: Numbers64,
}

/// The files of a host in memory. Of two with one name the first counts.
pub type HostFiles = Sequence<HostFile>;

/// The first file of a name. One comparison of names for each file before it.
pub(crate) fn find_file<'a>(files: &'a [HostFile], name: &Text) -> Option<&'a HostFile>
    ensures { option_copied result ≡ file_of files.now name.now }
{
    files.iter().find(|file| has_name(file, name))
}

/// Whether a file has a name.
fn has_name(file: &HostFile, name: &Text) -> bool
    ensures { result ≡ bytes_eq file.now.name name.now }
{
    file.name.as_str() == name.as_str()
}

/// Files in memory, of which some calls of `feed` and some reads fail.
#[derive(Debug, Drop)]
pub struct MemoryHost {
    /// The files.
    pub files: HostFiles,
    /// The calls of `feed` that are to fail.
    pub plan: FaultPlan,
}

impl MemoryHost {
    /// A host of these files, whose calls of `feed` of these numbers, from 0, fail.
    pub fn new(files: HostFiles, fails: Numbers64) -> MemoryHost
        ensures { result ≡ record { files = files; plan = new_plan fails } }
    {
        MemoryHost {
            files,
            plan: FaultPlan::new(fails),
        }
    }
}

impl Host for MemoryHost {
    ghost use Rattle.fish_outside.specs.within.MemoryFeed.{feed_of, is_refused};

    type Feed = MemorySource;

    ghost files = { λ host. Some (files_of host.files) };

    ghost faults = { λ host. host.plan.faults };

    /// Fails where the plan says so or no file has the name, and else copies the file.
    fn feed(&mut self, alloc: Global, name: &Text) -> Result<MemorySource, FeedRefusal>
        ensures feed { IfOk result (λ feed.
            option_map feed_of (file_of self.old.files name.now) ≡ Some feed) }
        ensures files { self.new.files ≡ self.old.files }

        ensures failed { IsErrOf result FeedRefusal.Failed ↔ IsTrue (is_refused self.old name.now) }
        ensures counted { self.new.plan ≡ plan_after_call self.old.plan (is_refused self.old name.now) }
    {
        self.plan.call()?;
        let Some(file) = find_file(self.files.as_slice(), name) else {
            self.plan.fault();
            return Err(FeedRefusal::Failed);
        };
        let bytes = file.bytes.again(alloc)?;
        let fails = numbers_again(alloc, file.fails.as_slice())?;
        Ok(MemorySource::new(bytes, fails))
    }

    /// Adds the faults of a feed that came back.
    fn done(&mut self, feed: MemorySource)
        ensures files { self.new.files ≡ self.old.files }
        ensures counted { self.new.plan ≡ record self.old.plan {
          faults = counted_on self.old.plan.faults feed.plan.faults;
        } }
    {
        self.plan.faults = self.plan.faults.saturating_add(feed.plan.faults);
    }
}

/// A second copy of numbers.
fn numbers_again(alloc: Global, numbers: &[u64]) -> Result<Numbers64, AllocError>
    ensures { IfOk result (λ copy. copy ≡ numbers.now) }
{
    let mut copy = Numbers64::new(alloc);
    for number in numbers {
        copy.push(*number)?;
    }
    Ok(copy)
}

/// Keeps what is written in memory. Writes fail by plan, and where memory runs out.
#[derive(Debug, Drop)]
pub struct MemorySink {
    /// All that was written.
    pub bytes: Bytes,
    /// The writes that are to fail.
    pub plan: FaultPlan,
}

impl MemorySink {
    /// A sink with nothing written, whose writes of these numbers, from 0, fail. Takes no memory.
    pub fn new(alloc: Global, fails: Numbers64) -> MemorySink
        ensures { result ≡ record { bytes = []; plan = new_plan fails } }
    {
        MemorySink {
            bytes: Bytes::new(alloc),
            plan: FaultPlan::new(fails),
        }
    }

    /// All that was written.
    pub fn as_bytes(&self) -> &[u8]
        ensures { result.now ≡ self.now.bytes }
    {
        self.bytes.as_bytes()
    }
}

impl Sink for MemorySink {
    ghost written = { λ sink. Some sink.bytes };

    ghost faults = { λ sink. sink.plan.faults };

    /// Fails where the plan says so or memory runs out, and else takes the whole piece.
    fn write(&mut self, piece: &[u8]) -> Result<usize, Failed>
        ensures bound { IfOk result (λ n. n ≤ length piece.now) }
        ensures bytes { Writes (Some self.old.bytes) (Some self.new.bytes) result piece.now }

        ensures cause { HasCause self.old.plan.faults self.new.plan.faults result }
        ensures planned { IsTrue (is_planned self.old.plan) → IsErr result }
        ensures counted { self.new.plan ≡ plan_after_call self.old.plan (is_err result) }
    {
        self.plan.call()?;
        match self.bytes.append(piece) {
            Ok(()) => Ok(piece.len()),
            Err(_) => Err(self.plan.fault()),
        }
    }
}
