//! A real file: the trusted edge. Nothing is told of its content.
//!
//! Each call of the system that fails is counted. A read that a signal interrupts has taken nothing
//! and is tried again, since the standard library leaves that to its caller.

ghost use Rattle.std.specs.Prelude.{◌≡◌, ◌≤◌, Some, length, IfOk, IfSome};
ghost use Rattle.fish_outside.specs.Causes.{HasCause};
ghost use Rattle.fish_disk.specs.Content.{no_content};

use crate::disk::Disk;
use fish_outside::Failed;
use fish_value::Text;
use std::fs::{File, OpenOptions};
use std::io::ErrorKind;
use std::os::unix::fs::FileExt;
use std::rt::Files;

/// How often a read is tried that signals interrupt.
const TRIES: u32 = 64;

/// A file of the system. It is opened at the first call, and made if it isn't there. One that another
/// disk has open, here or in another process, is not opened: the call fails.
#[derive(Drop)]
pub struct FileDisk<R: Files<File = File> + Clone + Drop + Send> {
    rt: R,
    path: Text,
    file: Option<File>,
    faults: u64,
}

impl<R: Files<File = File> + Clone + Drop + Send> FileDisk<R> {
    /// The file at a path that a runtime reaches.
    pub fn at(rt: R, path: Text) -> FileDisk<R>
        ensures { ⟦<FileDisk<R> as Disk>⟧.faults result ≡ 0 }
    {
        FileDisk {
            rt,
            path,
            file: None,
            faults: 0,
        }
    }

    /// How often a call has failed, up to the largest number of 64 bits.
    pub fn faults(&self) -> u64
        ensures { result ≡ ⟦<FileDisk<R> as Disk>⟧.faults self.now }
    {
        self.faults
    }
}

impl<R: Files<File = File> + Clone + Drop + Send> Disk for FileDisk<R> {
    ghost use Rattle.std.specs.Prelude.{is_some, true};
    ghost use Rattle.std.proofs.Common.{ap};

    ghost content = { λ _. no_content };

    ghost images = { λ _ c. no_content ≡ Some c };

    ghost moment = { λ _. 0 };

    ghost since = { λ _ _ c. no_content ≡ Some c };

    ghost keeps_past = { true };

    ghost faults = { λ disk. disk.faults };

    ghost counts_now = { λ _ _ _ _ now. now };

    ghost only_now = { λ _ _ now. now };

    ghost fewer_later = { λ _ _ _ _ _ now. now };

    ghost as_read = { λ _ _ now. now };

    ghost told = { λ _ _ now. ap is_some now };

    fn read(&mut self, at: u64, buf: &mut [u8]) -> Result<usize, Failed> {
        let count = read_from(&self.rt, &self.path, &mut self.file, at, buf);
        counted(&mut self.faults, count)
    }

    fn write_at(&mut self, at: u64, piece: &[u8]) -> Result<(), Failed> {
        let done = write_to(&self.rt, &self.path, &mut self.file, at, piece);
        counted(&mut self.faults, done)
    }

    fn sync(&mut self) -> Result<(), Failed> {
        let done = sync_all(&self.rt, &self.path, &mut self.file);
        counted(&mut self.faults, done)
    }

    fn length(&mut self) -> Result<u64, Failed> {
        let length = length_of(&self.rt, &self.path, &mut self.file);
        counted(&mut self.faults, length)
    }
}

/// Counts a fault where a call of the system gave nothing.
fn counted<T: Drop>(faults: &mut u64, done: Option<T>) -> Result<T, Failed>
    ensures same { IfOk result (λ value. done ≡ Some value) }
    ensures cause { HasCause faults.old faults.new result }
{
    match done {
        Some(value) => Ok(value),
        None => {
            *faults = faults.saturating_add(1);
            Err(Failed)
        }
    }
}

/// The file, which is opened where it isn't yet.
fn opened<'a, R: Files<File = File>>(
    rt: &R,
    path: &Text,
    file: &'a mut Option<File>,
) -> Option<&'a File> {
    if file.is_none() {
        *file = open(rt, path);
    }
    file.as_ref()
}

fn open<R: Files<File = File>>(rt: &R, path: &Text) -> Option<File> {
    match OpenOptions::new()
        .read(true)
        .write(true)
        .create(true)
        .open(rt, path.as_str())
    {
        Ok(file) => alone(file),
        Err(_) => None,
    }
}

/// The file with the lock of it, or nothing where another handle has that. The system takes the lock
/// back when the handle goes, and so when the process ends, however it does.
fn alone(file: File) -> Option<File> {
    match file.try_lock() {
        Ok(()) => Some(file),
        Err(_) => None,
    }
}

fn read_from<R: Files<File = File>>(
    rt: &R,
    path: &Text,
    file: &mut Option<File>,
    at: u64,
    buf: &mut [u8],
) -> Option<usize>
    ensures { IfSome result (λ n. n ≤ length buf.new) }
{
    read_all(opened(rt, path, file)?, at, buf)
}

/// Reads until the buffer is full or the file ends.
fn read_all(file: &File, at: u64, buf: &mut [u8]) -> Option<usize>
    ensures { IfSome result (λ n. n ≤ length buf.new) }
{
    let mut count = 0;
    while count < buf.len() {
        let offset = at.checked_add(count as u64)?;
        let more = read_some(file, offset, &mut buf[count..])?;
        if more == 0 {
            break;
        }
        count += more;
    }
    Some(count)
}

fn read_some(file: &File, at: u64, buf: &mut [u8]) -> Option<usize>
    ensures { IfSome result (λ n. n ≤ length buf.new) }
{
    for _ in 0..TRIES {
        match file.read_at(buf, at) {
            Ok(count) => return Some(count),
            Err(error) if error.kind() == ErrorKind::Interrupted => {}
            Err(_) => return None,
        }
    }
    None
}

fn write_to<R: Files<File = File>>(
    rt: &R,
    path: &Text,
    file: &mut Option<File>,
    at: u64,
    piece: &[u8],
) -> Option<()> {
    match opened(rt, path, file)?.write_all_at(piece, at) {
        Ok(()) => Some(()),
        Err(_) => None,
    }
}

fn sync_all<R: Files<File = File>>(rt: &R, path: &Text, file: &mut Option<File>) -> Option<()> {
    match opened(rt, path, file)?.sync_all() {
        Ok(()) => Some(()),
        Err(_) => None,
    }
}

fn length_of<R: Files<File = File>>(rt: &R, path: &Text, file: &mut Option<File>) -> Option<u64> {
    match opened(rt, path, file)?.metadata() {
        Ok(metadata) => Some(metadata.len()),
        Err(_) => None,
    }
}
