//! How the words of a record are divided, by its header and its last key entry alone.

ghost use Rattle.std.specs.Prelude.{◌≡◌, ◌+◌, ◌*◌, ◌<◌, ◌^◌, MatchOption, length, slice_index};
ghost use Rattle.fish_layout.specs.Body.{IsBody, values_of};
ghost use Rattle.fish_layout.specs.Bytes.{words_for as words_for_bytes};
ghost use Rattle.fish_layout.specs.Header.{form_code};
ghost use Rattle.fish_value.specs.declared.field.Form.{Form};
ghost use Rattle.fish_layout.specs.within.Outline.{HasRoom, IsOutline};
ghost use Rattle.fish_layout.specs.declared.parts.BodyParts.{BodyParts};

use crate::word::{form_in, keys_in, lane_in, length_in, offset_in, size_in, version_in};
use crate::write::words_for;
use fish_value::Form;

/// What the header and the last key entry of a record say.
#[derive(Clone, Copy, Debug)]
pub(crate) struct Outline {
    /// The form of the payload.
    pub form: Form,
    /// The lane that stored the record.
    pub lane: u8,
    /// The version under which it was stored.
    pub version: u16,
    /// How many key entries it has.
    pub keys: usize,
    /// How many bytes their values have together.
    pub values: usize,
    /// How many bytes the payload has.
    pub payload: usize,
}

impl Outline {
    /// The word at which the values begin.
    pub fn values_at(&self) -> usize
        requires { self.now.keys < 2 ^ 9 }
        ensures { result ≡ 1 + 3 * self.now.keys }
    {
        1 + 3 * self.keys
    }

    /// The word at which the payload begins.
    pub fn payload_at(&self) -> usize
        requires keys { self.now.keys < 2 ^ 9 }
        requires values { self.now.values < 2 ^ 19 }
        ensures { result ≡ 1 + 3 * self.now.keys + words_for_bytes self.now.values }
    {
        self.values_at() + words_for(self.values)
    }
}

/// How a record is divided, or none where the words are too few for any.
pub(crate) fn outline_of(words: &[u64]) -> Option<Outline>
    ensures { MatchOption result (¬ ((p : BodyParts) × IsBody p words.now))
        (λ o. HasRoom o words.now × ((p : BodyParts) → IsBody p words.now → IsOutline p o)) }
{
    if words.is_empty() {
        return None;
    }
    let header = words[0];
    let Some(form) = form_of_code(form_in(header)) else {
        return None;
    };
    let keys = keys_in(header) as usize;
    if words.len() < 1 + 3 * keys {
        return None;
    }
    let outline = Outline {
        form,
        lane: lane_in(header),
        version: version_in(header),
        keys,
        values: values_len(words, keys),
        payload: length_in(header) as usize,
    };
    if words.len() < outline.payload_at() + words_for(outline.payload) {
        return None;
    }
    Some(outline)
}

/// The form with a code, if there is one.
fn form_of_code(code: u64) -> Option<Form>
    ensures { MatchOption result ((f : Form) → ¬ (form_code f ≡ code)) (λ f. (g : Form) → form_code g ≡ code → f ≡ g) }
{
    match code {
        0 => Some(Form::Json),
        1 => Some(Form::Csv),
        _ => None,
    }
}

/// How many bytes the values of a record have, by its last key entry.
fn values_len(words: &[u64], keys: usize) -> usize
    requires room { 3 * keys < length words.now }
    requires few { keys < 2 ^ 9 }
    ensures fits { result < 2 ^ 19 }
    ensures value { (p : BodyParts) → IsBody p words.now → keys ≡ length p.keys → result ≡ length (values_of p.keys) }
{
    if keys == 0 {
        return 0;
    }
    let last = words[3 * keys];
    offset_in(last) + size_in(last)
}
