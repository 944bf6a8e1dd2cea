//! Words as parts: the decoding of a record.

ghost use Rattle.std.specs.Prelude.{◌≡◌, ◌+◌, ◌*◌, ◌/◌, ◌<◌, ◌≤◌, ◌^◌, ◌↔◌, IfOk, IfSome};
ghost use Rattle.std.specs.Prelude.{IsSome, IsTrue, IsUtf8, MatchOption, Some, length};
ghost use Rattle.fish_layout.specs.Body.{IsBody, IsProperValue, values_of};
ghost use Rattle.fish_layout.specs.Bytes.{bytes_in, words_for as words_for_bytes};
ghost use Rattle.fish_layout.specs.Payloads.{IsPayloadOf};
ghost use Rattle.fish_layout.specs.Values.{kind_code, value_bytes};
ghost use Rattle.fish_layout.specs.declared.parts.BodyParts.{BodyParts};
ghost use Rattle.fish_value.specs.declared.value.Value.{Value};

use crate::keys::read_keys;
use crate::outline::outline_of;
use crate::parts::BodyParts;
use crate::proper::is_proper;
use crate::word::number_in;
use crate::write::{body_of, words_for};
use byteorder::{ByteOrder, LittleEndian};
use fish_value::{Form, Text};
use std::alloc::{AllocError, Global};

/// A record's payload, with its lane and its form.
#[derive(Debug, Drop)]
pub struct Payload {
    /// The lane that stored the record.
    pub lane: u8,
    /// The form of the payload.
    pub form: Form,
    pub payload: Text,
}

/// The lane, the form and the payload of a record. Of its key entries only the last one's third
/// word is read, which says where the payload begins.
pub fn read_payload(alloc: Global, words: &[u64]) -> Result<Payload, AllocError>
    requires { (p : BodyParts) × IsBody p words.now }
    ensures lane { IfOk result (λ r. (p : BodyParts) → IsBody p words.now → r.lane ≡ p.lane) }
    ensures form { IfOk result (λ r. (p : BodyParts) → IsBody p words.now → r.form ≡ p.form) }
    ensures payload { IfOk result (λ r. (p : BodyParts) → IsBody p words.now → r.payload ≡ p.payload) }
{
    let Some(outline) = outline_of(words) else {
        unreachable!()
    };
    let payload = read_bytes(alloc, &words[outline.payload_at()..], outline.payload)?;
    Ok(Payload {
        lane: outline.lane,
        form: outline.form,
        payload: text_of(payload),
    })
}

/// The text that bytes are. They aren't looked at.
fn text_of(bytes: Vec<u8>) -> Text
    requires { IsUtf8 bytes.items }
    ensures { result ≡ bytes.items }
{
    Text::from_string(unsafe { String::from_utf8_unchecked(bytes) })
}

/// The lane, the form and the payload of what may be a record, or none where the words are no record. It
/// reads as `read_payload` does, but asks nothing of the words: of those that are no record it may answer
/// anything.
pub fn find_payload(alloc: Global, words: &[u64]) -> Result<Option<Payload>, AllocError>
    ensures { IfOk result (λ o. MatchOption o (¬ ((p : BodyParts) × IsBody p words.now))
        (λ r. (p : BodyParts) → IsBody p words.now → IsPayloadOf p r)) }
{
    let Some(outline) = outline_of(words) else {
        return Ok(None);
    };
    let Some(payload) = read_text(alloc, &words[outline.payload_at()..], outline.payload)? else {
        return Ok(None);
    };
    Ok(Some(Payload {
        lane: outline.lane,
        form: outline.form,
        payload,
    }))
}

/// The parts of the record that words are, or none where they are no record. The number of a
/// record with no key stands nowhere in its words, and is given as 0; of words that `body_of` made
/// all other parts come back as they were.
pub fn read_body(alloc: Global, words: &[u64]) -> Result<Option<BodyParts>, AllocError>
    ensures parts { IfOk result (λ o.
        MatchOption o (¬ ((p : BodyParts) × IsBody p words.now)) (λ p. IsBody p words.now)) }
    ensures number { IfOk result (λ o. IfSome o (λ p. length p.keys ≡ 0 → p.number ≡ 0)) }
    ensures back { IfOk result (λ o.
        (p : BodyParts) → IsBody p words.now → (length p.keys ≡ 0 → p.number ≡ 0) → o ≡ Some p) }
{
    let Some(parts) = read_parts(alloc, words)? else {
        return Ok(None);
    };
    if is_body(alloc, &parts, words)? {
        Ok(Some(parts))
    } else {
        Ok(None)
    }
}

/// The one candidate for the parts of a record with these words.
fn read_parts(alloc: Global, words: &[u64]) -> Result<Option<BodyParts>, AllocError>
    ensures found { IfOk result (λ o. (p : BodyParts) → IsBody p words.now →
        (c : BodyParts) × (o ≡ Some c) × IsBody c words.now) }
    ensures number { IfOk result (λ o. IfSome o (λ p. length p.keys ≡ 0 → p.number ≡ 0)) }
{
    let Some(outline) = outline_of(words) else {
        return Ok(None);
    };
    let values = read_bytes(alloc, &words[outline.values_at()..], outline.values)?;
    let Some(keys) = read_keys(alloc, words, outline.keys, values.as_slice())? else {
        return Ok(None);
    };
    let Some(payload) = read_text(alloc, &words[outline.payload_at()..], outline.payload)? else {
        return Ok(None);
    };
    Ok(Some(BodyParts {
        form: outline.form,
        lane: outline.lane,
        version: outline.version,
        number: number_of(words, outline.keys),
        keys,
        payload,
    }))
}

/// The record's number, by its first key entry, or 0 where it has none.
fn number_of(words: &[u64], keys: usize) -> u32
    requires { 3 * keys < length words.now }
    ensures fits { result < 2 ^ 28 }
    ensures none { keys ≡ 0 → result ≡ 0 }
    ensures value { (p : BodyParts) → IsBody p words.now → keys ≡ length p.keys → 0 < keys → result ≡ p.number }
{
    if keys == 0 { 0 } else { number_in(words[2]) }
}

/// Whether words are a record with these parts.
fn is_body(alloc: Global, parts: &BodyParts, words: &[u64]) -> Result<bool, AllocError>
    ensures { IfOk result (λ same. IsTrue same ↔ IsBody parts.now words.now) }
{
    if !is_proper(parts) {
        return Ok(false);
    }
    let body = body_of(alloc, parts)?;
    Ok(body.as_slice() == words)
}

/// The text that stands at the front of words, or none where its bytes are not UTF-8.
fn read_text(alloc: Global, words: &[u64], len: usize) -> Result<Option<Text>, AllocError>
    requires few { len < 2 ^ 20 }
    requires room { words_for_bytes len ≤ length words.now }
    ensures value { IfOk result (λ o. IfSome o (λ t. t ≡ bytes_in words.now len)) }
    ensures text { IfOk result (λ o. IsSome o ↔ IsUtf8 (bytes_in words.now len)) }
{
    let bytes = read_bytes(alloc, words, len)?;
    if simdutf8::basic::from_utf8(&bytes).is_err() {
        return Ok(None);
    }
    Ok(Some(text_of(bytes)))
}

/// So many bytes from the front of words.
pub(crate) fn read_bytes(alloc: Global, words: &[u64], len: usize) -> Result<Vec<u8>, AllocError>
    requires few { len < 2 ^ 20 }
    requires room { words_for_bytes len ≤ length words.now }
    ensures { IfOk result (λ b. b.items ≡ bytes_in words.now len) }
{
    let used = &words[..words_for(len)];
    let mut bytes = vec![in alloc; 0; used.len() * 8]?;
    LittleEndian::write_u64_into(used, &mut bytes);
    bytes.truncate(len);
    Ok(bytes)
}
