//! Words as key entries.

ghost use Rattle.std.specs.Prelude.{◌≡◌, ◌+◌, ◌*◌, ◌<◌, ◌≤◌, ◌^◌, Bool, ℤ, IfOk, IfSome};
ghost use Rattle.std.specs.Prelude.{ℕ, IsTrue, IsUtf8, Some, drop, length, slice_index_or, take};
ghost use Rattle.fish_layout.specs.Bytes.{bytes_in, words_for as words_for_bytes};
ghost use Rattle.fish_layout.specs.Entry.{value_kind, value_offset, value_size};
ghost use Rattle.fish_layout.specs.Body.{IsBody, IsProperValue, values_of};
ghost use Rattle.fish_layout.specs.Values.{kind_code, value_bytes};
ghost use Rattle.fish_layout.specs.declared.parts.BodyParts.{BodyParts};
ghost use Rattle.fish_layout.specs.declared.parts.KeyPart.{KeyPart};
ghost use Rattle.fish_value.specs.Number.{fits_i64};
ghost use Rattle.fish_value.specs.declared.value.Value.{Value};

use crate::parts::{KeyPart, KeyParts};
use crate::read::read_bytes;
use crate::word::{id_in, keys_in, kind_in, offset_in, size_in};
use crate::write::words_for;
use fish_value::{Sequence, Text, Value};
use std::alloc::{AllocError, Global};

/// So many key entries of words, with values from these bytes, or none where an entry can be none.
pub(crate) fn read_keys(
    alloc: Global,
    words: &[u64],
    count: usize,
    values: &[u8],
) -> Result<Option<KeyParts>, AllocError>
    requires few { count < 2 ^ 9 }
    requires room { 3 * count < length words.now }
    ensures keys { IfOk result (λ o. (p : BodyParts) → IsBody p words.now → count ≡ length p.keys →
        values.now ≡ values_of p.keys → o ≡ Some p.keys) }
    ensures count { IfOk result (λ o. IfSome o (λ ks. length ks ≡ count)) }
{
    let mut keys = Sequence::new(alloc);
    for position in 0..count {
        let Some(key) = read_key(alloc, words, position, values)? else {
            return Ok(None);
        };
        keys.push(key)?;
    }
    Ok(Some(keys))
}

/// The key entry at a position, or none where the words can be none.
fn read_key(
    alloc: Global,
    words: &[u64],
    position: usize,
    values: &[u8],
) -> Result<Option<KeyPart>, AllocError>
    requires few { position < 2 ^ 9 }
    requires room { 3 * position + 3 < length words.now }
    ensures { IfOk result (λ o. (p : BodyParts) (k : KeyPart) → IsBody p words.now → values.now ≡ values_of p.keys →
        position < length p.keys → k ≡ slice_index_or p.keys position k → o ≡ Some k) }
{
    let at = 1 + 3 * position;
    let third = words[at + 2];
    let from = offset_in(third);
    let end = from + size_in(third);
    if values.len() < end {
        return Ok(None);
    }
    let Some(value) = read_value(alloc, kind_in(third), &values[from..end])? else {
        return Ok(None);
    };
    Ok(Some(KeyPart {
        prev: words[at],
        id: id_in(words[at + 1]),
        value,
    }))
}

/// The key entry at a position of what may be a record, or none where the words are no record that has it. Of the
/// words it reads the header, the three of the entry, and those in which its value lies: 37 at most.
pub fn find_key(
    alloc: Global,
    words: &[u64],
    position: usize,
) -> Result<Option<KeyPart>, AllocError>
    ensures { IfOk result (λ o. (p : BodyParts) (k : KeyPart) → IsBody p words.now → position < length p.keys
        → k ≡ slice_index_or p.keys position k → o ≡ Some k) }
{
    if words.is_empty() {
        return Ok(None);
    }
    let keys = usize::from(keys_in(words[0]));
    if keys <= position || words.len() <= 3 * keys {
        return Ok(None);
    }
    let at = 1 + 3 * position;
    let third = words[at + 2];
    let Some(value) = find_value(alloc, &words[1 + 3 * keys..], third)? else {
        return Ok(None);
    };
    Ok(Some(KeyPart {
        prev: words[at],
        id: id_in(words[at + 1]),
        value,
    }))
}

/// The value at which the third word of a key entry points, among the words after all key entries, or none where
/// there can be none.
fn find_value(alloc: Global, words: &[u64], third: u64) -> Result<Option<Value>, AllocError>
    ensures { IfOk result (λ o. (v : Value) (n : ℕ) → IsProperValue v → value_kind third ≡ kind_code v
        → value_offset third + value_size third ≤ n → words_for_bytes n ≤ length words.now
        → take (value_size third) (drop (value_offset third) (bytes_in words.now n)) ≡ value_bytes v → o ≡ Some v) }
{
    let first = offset_in(third) / 8;
    let skip = offset_in(third) % 8;
    let end = skip + size_in(third);
    if words.len() < first + words_for(end) {
        return Ok(None);
    }
    let bytes = read_bytes(alloc, &words[first..], end)?;
    read_value(alloc, kind_in(third), &bytes[skip..])
}

/// The value of a kind with these bytes, or none where there can be none.
fn read_value(alloc: Global, kind: u64, bytes: &[u8]) -> Result<Option<Value>, AllocError>
    ensures { IfOk result (λ o. (v : Value) → IsProperValue v → kind ≡ kind_code v →
        bytes.now ≡ value_bytes v → o ≡ Some v) }
{
    match kind {
        0 => Ok(read_truth(bytes)),
        1 => Ok(read_number(bytes)),
        2 => read_text(alloc, bytes),
        _ => Ok(None),
    }
}

/// The truth value with these bytes.
fn read_truth(bytes: &[u8]) -> Option<Value>
    ensures { (b : Bool) → bytes.now ≡ value_bytes (Value.Bool b) → result ≡ Some (Value.Bool b) }
{
    if bytes.is_empty() {
        return None;
    }
    Some(Value::Bool(bytes[0] == 1))
}

/// The whole number with these bytes.
fn read_number(bytes: &[u8]) -> Option<Value>
    ensures { (n : ℤ) → IsTrue (fits_i64 n) → bytes.now ≡ value_bytes (Value.Int n) → result ≡ Some (Value.Int n) }
{
    let (chunk, _) = bytes.split_first_chunk::<8>()?;
    Some(Value::Int(i64::from_le_bytes(*chunk)))
}

/// The text with these bytes.
fn read_text(alloc: Global, bytes: &[u8]) -> Result<Option<Value>, AllocError>
    ensures { IfOk result (λ o. IsUtf8 bytes.now → o ≡ Some (Value.Text bytes.now)) }
{
    match Text::from_bytes(alloc, bytes)? {
        Some(text) => Ok(Some(Value::Text(text))),
        None => Ok(None),
    }
}
