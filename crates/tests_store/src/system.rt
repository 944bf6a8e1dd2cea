//! A real file, of which nothing is proved: made at the first call, written, read and found again.

use crate::told::{expect, put_bytes};
use fish_disk::{Disk, FileDisk};
use fish_value::Text;
use std::alloc::AllocError;
use std::fmt::Write;
use std::test::Fail;
use std::{env, fs, process};

/// A path in the folder for files that don't stay, by a name that no other process and no other test has.
fn new_path(rt: &HostRuntime, test: &str) -> Result<Text, Fail> {
    let folder = env::temp_dir(rt)?;
    let id = process::id(rt.process());
    let path = format!(in rt.alloc(); "{}/fish_disk_{id}_{test}", folder.as_path().display())?;
    Ok(Text::from_string(path))
}

/// What the length, a write, another over its end, a sync and the length answer.
fn written(rt: &HostRuntime, disk: &mut FileDisk<HostRuntime>) -> Result<String, AllocError> {
    let empty = disk.length();
    let first = disk.write_at(0, b"abcd");
    let second = disk.write_at(3, b"xyz");
    let synced = disk.sync();
    let length = disk.length();
    format!(in rt.alloc(); "{empty:?} {first:?} {second:?} {synced:?} {length:?} ")
}

/// What a read of four bytes from the third on answers, and one past the end.
fn put_read(
    rt: &HostRuntime,
    told: &mut String,
    disk: &mut FileDisk<HostRuntime>,
) -> Result<(), AllocError> {
    let mut buf = *b"....";
    let count = disk.read(2, &mut buf);
    put_bytes(told, &buf)?;
    let behind = disk.read(9, &mut buf);
    write!(told, " {count:?} {behind:?}")
}

/// What a new disk at a path answers.
fn told_first(rt: &HostRuntime, path: &Text) -> Result<String, AllocError> {
    let mut disk = FileDisk::at(*rt, path.again(rt.alloc())?);
    let told = written(rt, &mut disk);
    drop(disk);
    told
}

/// Puts after it what a second disk there answers, and how often that has failed.
fn put_second(rt: &HostRuntime, told: &mut String, path: &Text) -> Result<(), AllocError> {
    let mut disk = FileDisk::at(*rt, path.again(rt.alloc())?);
    let done = put_read(rt, told, &mut disk);
    let faults = disk.faults();
    drop(disk);
    done?;
    write!(told, " {faults}")
}

#[test]
fn keeps_bytes(rt: HostRuntime) -> Result<(), Fail> {
    let path = new_path(&rt, "bytes")?;
    let mut told = told_first(&rt, &path)?;
    put_second(&rt, &mut told, &path)?;
    fs::remove_file(&rt, path.as_str())?;
    expect(
        &rt,
        told.as_str(),
        "Ok(0) Ok(()) Ok(()) Ok(()) Ok(6) cxyz Ok(4) Ok(0) 0",
    );
    Ok(())
}

/// Puts after it what the length of a new disk at a path answers.
fn put_length(rt: &HostRuntime, told: &mut String, path: &Text) -> Result<(), AllocError> {
    let mut disk = FileDisk::at(*rt, path.again(rt.alloc())?);
    let length = disk.length();
    drop(disk);
    write!(told, "{length:?} ")
}

/// Puts after it what a disk's length answers, and before that, what one of a second disk there does.
fn put_both(rt: &HostRuntime, told: &mut String, path: &Text) -> Result<(), AllocError> {
    let mut disk = FileDisk::at(*rt, path.again(rt.alloc())?);
    let length = disk.length();
    let done = put_length(rt, told, path);
    drop(disk);
    done?;
    write!(told, "{length:?} ")
}

/// Of two disks at one file the second is refused while the first is there.
#[test]
fn keeps_a_second_disk_out(rt: HostRuntime) -> Result<(), Fail> {
    let path = new_path(&rt, "both")?;
    let mut told = String::new(rt.alloc());
    put_both(&rt, &mut told, &path)?;
    put_length(&rt, &mut told, &path)?;
    fs::remove_file(&rt, path.as_str())?;
    expect(&rt, told.as_str(), "Err(Failed) Ok(0) Ok(0) ");
    Ok(())
}

/// A path in a folder that isn't there: each call fails and counts.
#[test]
fn counts_faults(rt: HostRuntime) -> Result<(), Fail> {
    let path = Text::copy_of(rt.alloc(), "/no/such/folder/file")?;
    let mut disk = FileDisk::at(rt, path);
    let length = disk.length();
    let synced = disk.sync();
    let faults = disk.faults();
    drop(disk);
    let told = format!(in rt.alloc(); "{length:?} {synced:?} {faults}")?;
    expect(&rt, told.as_str(), "Err(Failed) Err(Failed) 2");
    Ok(())
}
