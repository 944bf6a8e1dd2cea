//! One row of the catalogue: a definition under its name, and where its index begins and ends.

ghost use Rattle.std.specs.Prelude.{◌≡◌, ◌↔◌, IsTrue};
ghost use Rattle.fish_catalog.specs.Covering.{Covers};
ghost use Rattle.fish_catalog.specs.Rows.{IsActive, IsName, is_active};

use fish_value::{MAX_NAME, Text};

/// Whether a text can be a name: it has 1 to 32 bytes.
pub fn is_name(name: &Text) -> bool
    ensures { IsTrue result ↔ IsName name.now }
{
    let len = name.as_bytes().len();
    1 <= len && len <= MAX_NAME
}

/// A definition that was registered.
#[derive(Debug, Drop)]
pub struct CatRow {
    /// Its number among all rows, from 0 on.
    pub id: u16,
    /// What users call it.
    pub name: Text,
    /// Its canonical text.
    pub def: Text,
    /// The first record of its index, or none where the index hasn't begun.
    pub from: Option<u32>,
    /// The first record after its index, or none where the row is active.
    pub to: Option<u32>,
}

impl CatRow {
    /// Whether records that come are still indexed by it, or will be.
    pub fn is_active(&self) -> bool
        ensures value { result ≡ is_active self.now }
        ensures active { IsTrue result ↔ IsActive self.now }
    {
        self.to.is_none()
    }

    /// Whether its index covers a record.
    pub fn covers(&self, number: u32) -> bool
        ensures { IsTrue result ↔ Covers self.now number }
    {
        let Some(from) = self.from else {
            return false;
        };
        match self.to {
            Some(to) => from <= number && number < to,
            None => from <= number,
        }
    }
}
