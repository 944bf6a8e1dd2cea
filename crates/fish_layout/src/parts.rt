//! The parts of a record.

use fish_value::{Form, Sequence, Text, Value};

/// The most key entries.
pub const MAX_KEYS: u16 = 256;

/// The greatest version of the registry.
pub const MAX_VERSION: u16 = 512;

/// One indexed property of a record: a definition with the value that it gives.
#[derive(Debug, Drop)]
pub struct KeyPart {
    /// The place of the next older key entry in its bucket, or 0.
    pub prev: u64,
    /// The definition.
    pub id: u16,
    /// Its value of this record.
    pub value: Value,
}

/// Properties in order.
pub type KeyParts = Sequence<KeyPart>;

/// What a record says of itself, beside its properties and its payload.
#[derive(Clone, Copy, Debug, PartialEq, Eq)]
pub struct BodyHead {
    pub form: Form,
    /// The lane that stored it, from 1 on.
    pub lane: u8,
    /// The version of the registry under which it was stored.
    pub version: u16,
    /// Its place in the order of claims.
    pub number: u32,
}

/// All that stands in the words of a record.
#[derive(Debug, Drop)]
pub struct BodyParts {
    pub form: Form,
    /// The lane that stored it, from 1 on.
    pub lane: u8,
    /// The version of the registry under which it was stored.
    pub version: u16,
    /// Its place in the order of claims.
    pub number: u32,
    /// Its indexed properties, by id, at most 256. No two have one id and one value.
    pub keys: KeyParts,
    pub payload: Text,
}
