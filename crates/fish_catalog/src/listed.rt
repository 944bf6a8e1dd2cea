//! A definition as a version of the registry has it.

use fish_value::Bytes;

/// A definition as a version of the registry has it: without the positions where its index begins and
/// ends.
#[derive(Debug, Drop)]
pub struct Listed {
    /// Its number among all rows, from 0 on.
    pub id: u16,
    /// What users call it.
    pub name: Bytes,
    /// Its canonical text.
    pub def: Bytes,
    /// Whether records of that version are indexed by it.
    pub active: bool,
}
