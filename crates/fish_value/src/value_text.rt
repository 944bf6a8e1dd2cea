//! Values as text: how a user writes one.

ghost use Rattle.std.specs.Prelude.{◌≡◌, IfOk};
ghost use Rattle.fish_value.specs.ValueText.{is_quoted, string_value, text_value, value_print, value_text};
ghost use Rattle.fish_value.specs.Json.{reading};

use crate::json::{json_text, read_json};
use crate::number::read_int;
use crate::text::Text;
use crate::value::Value;
use std::alloc::{AllocError, Global};

/// The most bytes that a text may have as a value.
pub const MAX_VALUE: usize = 256;

/// A value as text: `true`, `false`, the decimal, or the JSON string that `serde_json` writes.
pub fn print_value(alloc: Global, v: &Value) -> Result<Text, AllocError>
    ensures { IfOk result (λ text. text ≡ value_print v.now) }
{
    match v {
        Value::Bool(true) => Text::copy_of(alloc, "true"),
        Value::Bool(false) => Text::copy_of(alloc, "false"),
        Value::Int(n) => Ok(Text::from_string(n.to_string(alloc)?)),
        Value::Text(s) => json_text(alloc, s),
    }
}

/// The value that a text stands for: `true`, `false`, a whole number as [`read_int`] takes it, or a
/// JSON string of at most 256 bytes when read. There is none for any other text.
///
/// [`read_int`]: crate::read_int
#[tactic(auto, unfolding(crate::specs::ValueText::value_text))]
pub fn read_value(alloc: Global, b: &[u8]) -> Result<Option<Value>, AllocError>
    ensures { IfOk result (λ value. value ≡ value_text b.now) }
{
    if b == b"true".as_slice() {
        return Ok(Some(Value::Bool(true)));
    }
    if b == b"false".as_slice() {
        return Ok(Some(Value::Bool(false)));
    }
    if let Some(number) = read_int(b) {
        return Ok(Some(Value::Int(number)));
    }
    if !is_quoted(b) {
        return Ok(None);
    }
    read_string(alloc, b)
}

/// A JSON string has no blanks round it, which `serde_json` would pass over.
fn is_quoted(b: &[u8]) -> bool
    ensures { result ≡ is_quoted b.now }
{
    b.len() > 1 && b[0] == b'"' && b[b.len() - 1] == b'"'
}

fn read_string(alloc: Global, b: &[u8]) -> Result<Option<Value>, AllocError>
    ensures { IfOk result (λ value. value ≡ string_value (reading b.now)) }
{
    match read_json(alloc, b)? {
        Some(serde_json::Value::String(s)) => {
            if s.len() <= MAX_VALUE {
                Ok(Some(Value::Text(Text::from_string(s))))
            } else {
                Ok(None)
            }
        }
        _ => Ok(None),
    }
}
