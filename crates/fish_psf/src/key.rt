//! The values that a record has under the active definitions.

use fish_lang::Def;
use fish_value::{Sequence, Value};

/// A definition that is active, under its id.
#[derive(Debug, Drop)]
pub struct ActiveDef {
    pub id: u16,
    pub def: Def,
}

/// The value that an active definition gives for a record.
#[derive(Debug, Drop)]
pub struct KeyValue {
    /// The definition's id.
    pub id: u16,
    pub value: Value,
}

/// The values of a record, in the order of the definitions.
pub type Keys = Sequence<KeyValue>;
