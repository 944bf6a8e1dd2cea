//! The calls of a disk, as a disk in memory keeps them.

use fish_value::{Bytes, Sequence};

/// What a call did to the disk.
#[derive(Debug, Drop)]
pub enum Call {
    /// It wrote a piece, or tried to.
    Write {
        /// Where its first byte went.
        at: u64,
        /// The bytes.
        piece: Bytes,
        /// All bytes of the disk before it.
        before: Bytes,
    },
    /// It brought this content to the disk.
    Sync {
        /// All bytes of the disk.
        content: Bytes,
    },
    /// It changed nothing: a read, a call for the length, or a sync that failed.
    Other,
}

/// Calls in the order in which they came.
pub type Calls = Sequence<Call>;
