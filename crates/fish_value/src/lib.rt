//! Values, fields, paths and the lists that every other crate hands on, with their texts.
//!
//! Contracts see a [`Text`] and [`Bytes`] as the list of their bytes, and each list type as the list
//! of its elements. JSON is read and strings are written as JSON through `json` alone.
#![tactic(auto)]

mod bare_word;
mod bytes;
mod field;
mod json;
mod limits;
mod number;
mod path;
mod row;
mod sequence;
mod text;
mod value;
mod value_text;

pub use bare_word::is_bare_word;
pub use bytes::Bytes;
pub use field::{Field, FieldView, Form};
pub use json::{json_text, read_json};
pub use limits::{MAX_FILE, MAX_LANE, MAX_NAME, MAX_PAYLOAD};
pub use number::read_int;
pub use path::Path;
pub use row::{Row, Rows};
pub use sequence::{Fields, Numbers, Numbers64, Sequence, Texts, Values};
pub use text::Text;
pub use value::Value;
pub use value_text::{MAX_VALUE, print_value, read_value};
