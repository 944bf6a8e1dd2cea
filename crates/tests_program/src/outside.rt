//! Words, files, a disk and an output in memory, and how a command over them is told.

use fish_disk::MemoryDisk;
use fish_outside::{HostFile, HostFiles, MemoryHost, MemorySink};
use fish_program::Outcome;
use fish_value::{Bytes, Numbers64, Text, Texts};
use std::alloc::{AllocError, Global};

/// A file by its name and its text.
pub(crate) fn file_of(alloc: Global, name: &str, text: &str) -> Result<HostFile, AllocError> {
    Ok(HostFile {
        name: Text::copy_of(alloc, name)?,
        bytes: Bytes::copy_of(alloc, text.as_bytes())?,
        fails: Numbers64::new(alloc),
    })
}

/// The host of a script by the name `script` and of other files, one of whose feeds may fail.
pub(crate) fn host_of(
    alloc: Global,
    script: &str,
    texts: &[(&str, &str)],
    fails: Option<u64>,
) -> Result<MemoryHost, AllocError> {
    let mut files = HostFiles::new(alloc);
    files.push(file_of(alloc, "script", script)?)?;
    for (name, text) in texts {
        files.push(file_of(alloc, name, text)?)?;
    }
    Ok(MemoryHost::new(files, numbers_of(alloc, fails)?))
}

/// The output, one of whose writes may fail.
pub(crate) fn sink_of(alloc: Global, fails: Option<u64>) -> Result<MemorySink, AllocError> {
    Ok(MemorySink::new(alloc, numbers_of(alloc, fails)?))
}

/// The disk with these bytes, one of whose calls may fail.
pub(crate) fn disk_of(
    alloc: Global,
    bytes: &[u8],
    fails: Option<u64>,
) -> Result<MemoryDisk, AllocError> {
    let bytes = Bytes::copy_of(alloc, bytes)?;
    Ok(MemoryDisk::new(alloc, bytes, numbers_of(alloc, fails)?))
}

/// A number as a list, where there is one.
fn numbers_of(alloc: Global, number: Option<u64>) -> Result<Numbers64, AllocError> {
    let mut numbers = Numbers64::new(alloc);
    if let Some(number) = number {
        numbers.push(number)?;
    }
    Ok(numbers)
}

/// The words of a line, each with a bar after it.
pub(crate) fn words_of(alloc: Global, line: &str) -> Result<Texts, AllocError> {
    let mut words = Texts::new(alloc);
    for word in line.split_terminator('|') {
        words.push(Text::copy_of(alloc, word)?)?;
    }
    Ok(words)
}

/// How a command ended: its status, its fault, whether something was refused, how many entries the log has that it
/// left; and what was written.
pub(crate) fn content_in(
    alloc: Global,
    outcome: &Outcome,
    out: &MemorySink,
) -> Result<String, AllocError> {
    let entries = match &outcome.remains {
        Some(remains) => (remains.base as usize).saturating_add(remains.log.len()),
        None => 0,
    };
    let written = Text::from_bytes(alloc, out.as_bytes())?;
    let text = match &written {
        Some(text) => text.as_str(),
        None => "no text",
    };
    let (status, fault, refused) = (outcome.status, outcome.fault, outcome.refused);
    format!(in alloc; "{status} {fault} {refused} {entries}\n{text}")
}
