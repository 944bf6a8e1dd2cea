//! Parts as words: the encoding of a record.

ghost use Rattle.std.specs.Prelude.{◌≡◌, ◌+◌, ◌<◌, ◌≤◌, ◌^◌, ◌++◌, ◌∷◌, [], IfOk, OnOk, length, slice_index};
ghost use Rattle.fish_layout.specs.Body.{AreProperKeys, IsProper, IsProperValue, body_header};
ghost use Rattle.fish_layout.specs.Body.{body_lines, body_words, entry_word, key_words, parts_of};
ghost use Rattle.fish_layout.specs.Body.{value_word, values_of, words_after_head};
ghost use Rattle.std.specs.Int.{from_le_bytes};
ghost use Rattle.std.specs.Int.Width.{w64};
ghost use Rattle.fish_layout.specs.Bytes.{words_for as words_for_bytes, words_of_bytes};
ghost use Rattle.fish_layout.specs.Values.{kind_code, value_bytes};
ghost use Rattle.fish_layout.specs.declared.parts.BodyHead.{BodyHead};

use crate::body::Body;
use crate::header::Header;
use crate::parts::{BodyHead, BodyParts, KeyPart};
use crate::word::{pack_entry, pack_header, pack_value};
use fish_value::Value;
use smallvec::SmallVec;
use std::alloc::{AllocError, Global};

/// The bytes of a record's values. A few take no memory of their own.
type ValueBytes = SmallVec<u8, 64>;

/// The words of a record with these parts. They are taken from memory once, all together.
pub fn body_of(alloc: Global, parts: &BodyParts) -> Result<Body, AllocError>
    requires { IsProper parts.now }
    ensures { IfOk result (λ body. body ≡ body_words parts.now) }
{
    let head = BodyHead {
        form: parts.form,
        lane: parts.lane,
        version: parts.version,
        number: parts.number,
    };
    body_from(alloc, head, parts.keys.as_slice(), parts.payload.as_bytes())
}

/// The same from a head, key entries and the payload's bytes, which are copied into the words alone.
pub fn body_from(
    alloc: Global,
    head: BodyHead,
    keys: &[KeyPart],
    payload: &[u8],
) -> Result<Body, AllocError>
    requires { IsProper (parts_of head keys.now payload.now) }
    ensures { IfOk result (λ body. body ≡ body_words (parts_of head keys.now payload.now)) }
{
    let lines = count_lines(keys, payload);
    let mut words = Vec::with_capacity(alloc, lines * 4)?;
    words.push(header_word_of(head, keys, payload, lines))?;
    push_words(alloc, &mut words, head, keys, payload)?;
    words.resize(lines * 4, 0)?;
    Ok(Body::of_words(words))
}

/// How many lines a record takes.
fn count_lines(keys: &[KeyPart], payload: &[u8]) -> usize
    requires { (head : BodyHead) × IsProper (parts_of head keys.now payload.now) }
    ensures value { (head : BodyHead) → result ≡ body_lines (parts_of head keys.now payload.now) }
    ensures fits { result ≤ 18625 }
{
    let words = 1 + 3 * keys.len() + words_for(value_len(keys)) + words_for(payload.len());
    (words + 3) / 4
}

/// How many words hold so many bytes.
pub(crate) fn words_for(bytes: usize) -> usize
    requires { bytes < 2 ^ 32 }
    ensures { result ≡ words_for_bytes bytes }
{
    (bytes + 7) / 8
}

/// How many bytes the values of keys have together.
fn value_len(keys: &[KeyPart]) -> usize
    requires few { length keys.now ≤ 256 }
    requires keys { AreProperKeys 0 keys.now }
    ensures value { result ≡ length (values_of keys.now) }
    ensures fits { result ≤ 65536 }
{
    let mut bytes = 0;
    for key in keys {
        bytes += byte_len(&key.value);
    }
    bytes
}

/// How many bytes a value has.
fn byte_len(value: &Value) -> usize
    ensures { result ≡ length (value_bytes value.now) }
{
    match value {
        Value::Bool(_) => 1,
        Value::Int(_) => 8,
        Value::Text(text) => text.as_bytes().len(),
    }
}

/// The header of a record.
fn header_word_of(head: BodyHead, keys: &[KeyPart], payload: &[u8], lines: usize) -> u64
    requires proper { IsProper (parts_of head keys.now payload.now) }
    requires lines { lines ≡ body_lines (parts_of head keys.now payload.now) }
    ensures { result ≡ body_header (parts_of head keys.now payload.now) }
{
    let header = Header {
        lines: lines as u64,
        form: Some(head.form),
        keys: keys.len() as u16,
        lane: head.lane,
        version: head.version,
        length: payload.len() as u32,
    };
    pack_header(head.form, &header)
}

/// Puts the words after the header after the others, without the padding.
fn push_words(
    alloc: Global,
    words: &mut Vec<u64>,
    head: BodyHead,
    keys: &[KeyPart],
    payload: &[u8],
) -> Result<(), AllocError>
    requires { IsProper (parts_of head keys.now payload.now) }
    ensures { OnOk result (words.new.items ≡ words.old.items
        ++ words_after_head (parts_of head keys.now payload.now)) }
{
    push_keys(words, head.number, keys)?;
    push_values(alloc, words, keys)?;
    push_bytes(words, payload)
}

/// Puts the words of key entries after the others.
fn push_keys(words: &mut Vec<u64>, number: u32, keys: &[KeyPart]) -> Result<(), AllocError>
    requires number { number < 2 ^ 28 }
    requires few { length keys.now ≤ 256 }
    requires keys { AreProperKeys 0 keys.now }
    ensures { OnOk result (words.new.items ≡ words.old.items ++ key_words number 0 0 keys.now) }
{
    let mut offset = 0;
    for (position, key) in keys.iter().enumerate() {
        push_key(words, key, pack_entry(number, key.id, position), offset)?;
        offset += byte_len(&key.value);
    }
    Ok(())
}

/// Puts the three words of a key entry after the others.
fn push_key(
    words: &mut Vec<u64>,
    key: &KeyPart,
    entry: u64,
    offset: usize,
) -> Result<(), AllocError>
    requires value { IsProperValue key.now.value }
    requires offset { offset < 2 ^ 18 }
    ensures { OnOk result (words.new.items ≡ words.old.items ++
        (key.now.prev ∷ entry ∷ value_word key.now.value offset ∷ [])) }
{
    words.push(key.prev)?;
    words.push(entry)?;
    words.push(pack_value(code_of_kind(&key.value), byte_len(&key.value), offset))?;
    Ok(())
}

/// The code of a value's kind.
fn code_of_kind(value: &Value) -> u64
    ensures value { result ≡ kind_code value.now }
    ensures fits { result < 3 }
{
    match value {
        Value::Bool(_) => 0,
        Value::Int(_) => 1,
        Value::Text(_) => 2,
    }
}

/// Puts the words of the values of keys after the others.
fn push_values(alloc: Global, words: &mut Vec<u64>, keys: &[KeyPart]) -> Result<(), AllocError>
    ensures { OnOk result (words.new.items ≡ words.old.items ++ words_of_bytes (values_of keys.now)) }
{
    let mut bytes = SmallVec::new(alloc);
    for key in keys {
        push_value(&mut bytes, &key.value)?;
    }
    push_bytes(words, bytes.as_slice())
}

/// Puts the bytes of a value after the others.
fn push_value(bytes: &mut ValueBytes, value: &Value) -> Result<(), AllocError>
    ensures { OnOk result (bytes.new.items ≡ bytes.old.items ++ value_bytes value.now) }
{
    match value {
        Value::Bool(truth) => bytes.extend_from_slice(&[u8::from(*truth)]),
        Value::Int(number) => bytes.extend_from_slice(&number.to_le_bytes()),
        Value::Text(text) => bytes.extend_from_slice(text.as_bytes()),
    }
}

/// Puts bytes as words after the others, the last one padded with zero bytes.
fn push_bytes(words: &mut Vec<u64>, bytes: &[u8]) -> Result<(), AllocError>
    ensures { OnOk result (words.new.items ≡ words.old.items ++ words_of_bytes bytes.now) }
{
    let (chunks, rest) = bytes.as_chunks::<8>();
    words.extend(
        chunks
            .iter()
            .map(|chunk: &[u8; 8]| u64::from_le_bytes(*chunk)),
    )?;
    if rest.is_empty() {
        return Ok(());
    }
    words.push(last_word(rest))?;
    Ok(())
}

/// The word of the last bytes, with zero bytes after them.
fn last_word(bytes: &[u8]) -> u64
    ensures { result ≡ from_le_bytes w64 bytes.now }
{
    u64::from_le_bytes([
        byte_at(bytes, 0),
        byte_at(bytes, 1),
        byte_at(bytes, 2),
        byte_at(bytes, 3),
        byte_at(bytes, 4),
        byte_at(bytes, 5),
        byte_at(bytes, 6),
        byte_at(bytes, 7),
    ])
}

/// The byte at a position, or 0 past the end.
fn byte_at(bytes: &[u8], position: usize) -> u8
    ensures { result ≡ slice_index bytes.now position }
{
    bytes.get(position).copied().unwrap_or(0)
}
