//! The limits that hold for more than one crate. `specs/Limits` has them for contracts.

/// The most bytes that a payload may have.
pub const MAX_PAYLOAD: usize = 524_288;

/// The most bytes that a file read as a whole may have.
pub const MAX_FILE: usize = 67_108_864;

/// The most bytes of a name.
pub const MAX_NAME: usize = 32;

/// The greatest lane. Lanes count from 1.
pub const MAX_LANE: u8 = 16;
