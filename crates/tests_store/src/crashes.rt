//! What a crash leaves of a disk in memory, by the choice that `pick` makes for each write after the last sync.

use crate::told::{expect_all, numbers, put_bytes};
use fish_disk::{Disk, MemoryDisk};
use fish_value::Bytes;
use std::alloc::{AllocError, Global};
use std::test::Fail;

/// `pick`, and what is left of the bytes `abcd`: over which `WX` was put at 1 and synced, then `pq` at 0 and `stuv`
/// at 3. A point stands for a foreign byte.
const PICKS: &[(u64, &str)] = &[
    (0, "aWXd"),
    (1, "pWXd"),
    (2, "pqXd"),
    (3, "..Xd"),
    (4, "aWXst"),
    (8, "aWXstuv"),
    (12, "aWX...."),
    (10, "pqXstuv"),
    (15, "..X...."),
];

fn disk_of(alloc: Global) -> Result<MemoryDisk, AllocError> {
    let bytes = Bytes::copy_of(alloc, b"abcd")?;
    let fails = numbers(alloc, &[])?;
    Ok(MemoryDisk::new(alloc, bytes, fails))
}

/// A call that fails in ample memory is told by the bytes.
fn write_all(disk: &mut MemoryDisk) {
    if disk.as_bytes().len() == 4 {
        let _ = disk.write_at(1, b"WX");
        let _ = disk.sync();
    }
    let _ = disk.write_at(0, b"pq");
    if disk.as_bytes().len() == 4 {
        let _ = disk.write_at(3, b"stuv");
    }
}

fn left_told(alloc: Global, left: &MemoryDisk) -> Result<String, AllocError> {
    let mut told = String::new(alloc);
    for byte in left.as_bytes() {
        put_bytes(&mut told, &[if *byte == 1 { b'.' } else { *byte }])?;
    }
    Ok(told)
}

fn crash_told(alloc: Global, pick: &u64) -> Result<String, AllocError> {
    let mut disk = disk_of(alloc)?;
    write_all(&mut disk);
    let left = disk.crashed(alloc, *pick);
    drop(disk);
    let left = left?;
    let told = left_told(alloc, &left);
    drop(left);
    told
}

#[test]
fn crashes(rt: HostRuntime) -> Result<(), Fail> {
    expect_all(&rt, rt.alloc(), PICKS, crash_told)?;
    Ok(())
}
