//! What a record has at a path, and the two forms that a record can have.

ghost use Rattle.std.specs.Prelude.{◌≡◌, IfOk};
ghost use Rattle.fish_value.specs.Seen.{field_seen};

use crate::text::Text;
use std::alloc::{AllocError, Global};

/// The form of a record's bytes.
#[derive(Clone, Copy, Debug, PartialEq, Eq)]
pub enum Form {
    /// A line of a file in JSON Lines: one JSON object (RFC 8259).
    Json,
    /// A row of a file in CSV (RFC 4180).
    Csv,
}

/// What a record has at a path.
#[derive(Debug, Drop)]
pub enum Field {
    /// Nothing.
    Missing,
    /// JSON's `null`.
    Null,
    /// A truth value.
    Bool(bool),
    /// A whole number of 64 bits.
    Int(i64),
    /// A text of any length.
    Text(Text),
    /// An object, an array, or a number that is no `Int`.
    Other,
}

/// The same without memory of its own: a text is borrowed from the record or from its reader.
#[derive(Clone, Copy)]
pub enum FieldView<'a> {
    /// Nothing.
    Missing,
    /// JSON's `null`.
    Null,
    /// A truth value.
    Bool(bool),
    /// A whole number of 64 bits.
    Int(i64),
    /// A text of any length.
    Text(&'a str),
    /// An object, an array, or a number that is no `Int`.
    Other,
}

impl<'a> FieldView<'a> {
    /// The field that owns its text, which is copied.
    pub fn to_field(self, alloc: Global) -> Result<Field, AllocError>
        ensures { IfOk result (λ field. field ≡ field_seen self.entry) }
    {
        match self {
            FieldView::Missing => Ok(Field::Missing),
            FieldView::Null => Ok(Field::Null),
            FieldView::Bool(truth) => Ok(Field::Bool(truth)),
            FieldView::Int(number) => Ok(Field::Int(number)),
            FieldView::Text(text) => Ok(Field::Text(Text::copy_of(alloc, text)?)),
            FieldView::Other => Ok(Field::Other),
        }
    }
}
