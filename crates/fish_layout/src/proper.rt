//! Which parts a record may have, as a test.

ghost use Rattle.std.specs.Prelude.{◌↔◌, ◌≤◌, IsTrue, IsUtf8, length};
ghost use Rattle.fish_layout.specs.Body.{AreProperKeys, IsApart, IsProper, IsProperValue};

use crate::parts::{BodyParts, KeyPart, MAX_KEYS, MAX_VERSION};
use fish_value::{MAX_LANE, MAX_PAYLOAD, MAX_VALUE, Text, Value};

/// Whether a record may have these parts.
pub(crate) fn is_proper(parts: &BodyParts) -> bool
    ensures { IsTrue result ↔ IsProper parts.now }
{
    1 <= parts.lane
        && parts.lane <= MAX_LANE
        && parts.version <= MAX_VERSION
        && parts.number < 0x1000_0000
        && has_text(&parts.payload, MAX_PAYLOAD)
        && parts.keys.len() <= usize::from(MAX_KEYS)
        && are_proper_keys(parts.keys.as_slice())
}

/// Whether a text has at most so many bytes.
fn has_text(text: &Text, most: usize) -> bool
    ensures { IsTrue result ↔ ((length text.now ≤ most) × IsUtf8 text.now) }
{
    text.as_bytes().len() <= most
}

/// Whether the ids of keys don't descend, and are below 256, and their values are proper, and those of one
/// id differ. Takes one pass where no two ids are the same.
fn are_proper_keys(keys: &[KeyPart]) -> bool
    ensures { IsTrue result ↔ AreProperKeys 0 keys.now }
{
    let mut least = 0;
    let mut rest = keys;
    while let [key, behind @ ..] = rest {
        if key.id < least
            || key.id >= 256
            || !is_proper_value(&key.value)
            || !is_apart(key, behind)
        {
            return false;
        }
        least = key.id;
        rest = behind;
    }
    true
}

/// Whether none of the entries after one has its id and its value. Looks at those of its id, which come first.
#[tactic(auto, using(crate::proofs::Apart::apart_above))]
fn is_apart(key: &KeyPart, others: &[KeyPart]) -> bool
    ensures { AreProperKeys key.now.id others.now → (IsTrue result ↔ IsApart key.now others.now) }
{
    let mut rest = others;
    while let [other, behind @ ..] = rest {
        if other.id != key.id {
            return true;
        }
        if other.value.is(&key.value) {
            return false;
        }
        rest = behind;
    }
    true
}

/// Whether a record may have this value.
fn is_proper_value(value: &Value) -> bool
    ensures { IsTrue result ↔ IsProperValue value.now }
{
    match value {
        Value::Bool(_) => true,
        Value::Int(number) => {
            // a number that is read is within its type
            let _number = *number;
            true
        }
        Value::Text(text) => has_text(text, MAX_VALUE),
    }
}
