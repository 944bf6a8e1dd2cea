//! Reads records one after another, each over a tape of its text, with memory that is kept.

ghost use Rattle.std.specs.Prelude.{◌≡◌, ◌≢◌, ◌<◌, ◌≤◌, length, Some, None, IfOk, IfErr, OnOk, IsSome, IsErrOf, is_some, MatchOption};
ghost use Rattle.serde_json.specs.Data.{Data};
ghost use Rattle.serde_json.specs.Read.{read as read_text};
ghost use Rattle.fish_value.specs.Json.{reading};
ghost use Rattle.fish_value.specs.Limits.{longest_payload};
ghost use Rattle.fish_json.specs.Reading.{if_object, record_of};
ghost use Rattle.fish_json.specs.Row.{row_contents};
ghost use Rattle.fish_json.specs.Tape.{data_at};
ghost use Rattle.fish_json.specs.within.Tape.{StandsForData};

use crate::nodes::fits;
use crate::record::RecordRefusal;
use crate::row::JsonRow;
use fish_value::MAX_PAYLOAD;
use json::{Element, Scratch, Tape};
use std::alloc::{AllocError, Global};

/// Reads records, and keeps its memory from one to the next.
#[derive(Drop)]
pub struct JsonReader {
    scratch: Scratch,
}

impl JsonReader {
    /// A reader that has no memory yet.
    pub fn new(alloc: Global) -> JsonReader {
        JsonReader {
            scratch: Scratch::new(alloc),
        }
    }

    /// Reads the object that bytes are, as [`JsonRecord::read`] does, in about a third of its time.
    /// The reader reads the next record once the row is let go.
    ///
    /// [`JsonRecord::read`]: crate::JsonRecord::read
    #[tactic(auto, unfolding(crate::specs::Reading::record_of))]
    pub fn read<'a>(&'a mut self, alloc: Global, b: &'a [u8]) -> Result<JsonRow<'a>, RecordRefusal>
        ensures ok { IfOk result (λ found. record_of b.now ≡ Some (row_contents found)) }

        ensures length { OnOk result (length b.now ≤ longest_payload) }
        ensures too_long { IsErrOf result RecordRefusal.TooLong → longest_payload < length b.now }
        ensures not_json { IsErrOf result RecordRefusal.NotJson
            → (length b.now ≤ longest_payload) × (reading b.now ≡ None) }
        ensures not_object { IsErrOf result RecordRefusal.NotObject
            → (length b.now ≤ longest_payload) × IsSome (reading b.now) × (record_of b.now ≡ None) }
        ensures none { IfErr result (λ e. e ≢ RecordRefusal.OutOfMemory → record_of b.now ≡ None) }
    {
        if b.len() > MAX_PAYLOAD {
            return Err(RecordRefusal::TooLong);
        }
        let Some(text) = text_of(b) else {
            return Err(RecordRefusal::NotJson);
        };
        let Some(tape) = tape_of(alloc, text, &mut self.scratch)? else {
            return Err(RecordRefusal::NotJson);
        };
        if !is_object(&tape.root()) {
            return Err(RecordRefusal::NotObject);
        }
        Ok(JsonRow::of_tape(tape))
    }
}

/// The text that bytes are.
#[tactic(auto, using(fish_value::proofs::JsonLemmas::reading_of_text, fish_value::proofs::JsonLemmas::reading_of_other))]
fn text_of(b: &[u8]) -> Option<&str>
    ensures { MatchOption result (reading b.now ≡ None) (λ text. reading b.now ≡ read_text text.now) }
{
    simdutf8::basic::from_utf8(b).ok()
}

/// The tape of a text that `serde_json` reads.
fn tape_of<'a>(
    alloc: Global,
    text: &'a str,
    scratch: &'a mut Scratch,
) -> Result<Option<Tape<'a>>, AllocError>
    ensures { IfOk result (λ o. MatchOption o (read_text text.now ≡ None)
        (λ tape. IsSome (data_at tape) × (read_text text.now ≡ data_at tape))) }
{
    match Tape::parse(text, scratch, Vec::new(alloc)) {
        Ok(tape) => {
            if fits(tape.nodes()) {
                Ok(Some(tape))
            } else {
                Ok(None)
            }
        }
        Err(json::Error::Invalid) => Ok(None),
        // A record is no longer than a tape's text may be, so what is left is that memory ran out.
        Err(_) => Err(AllocError),
    }
}

/// Whether a value is an object.
fn is_object(value: &Element<'_, '_>) -> bool
    ensures { (d : Data) → StandsForData value.now d → result ≡ is_some (if_object d) }
{
    value.members().is_some()
}
