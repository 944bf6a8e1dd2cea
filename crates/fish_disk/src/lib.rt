//! A disk of bytes, and what a crash may leave of it.
//!
//! Between two syncs a crash may leave any bytes in each range that was written and past the old end;
//! all other bytes stay. [`Disk`] says so in its contract, moment by moment. [`MemoryDisk`] stands in
//! for a disk, fails by a plan and shows what a crash leaves, [`SureDisk`] never fails, and
//! [`FileDisk`] is the trusted edge over a real file, which tells nothing of content.
#![tactic(auto)]

mod call;
mod copy;
mod disk;
mod file;
mod memory;
mod sure;
mod synced;

pub use call::{Call, Calls};
pub use disk::Disk;
pub use file::FileDisk;
pub use memory::MemoryDisk;
pub use sure::SureDisk;
pub use synced::write_synced;
