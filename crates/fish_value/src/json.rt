//! The one door to `serde_json`: every JSON text is read here, and every JSON string is written here.

ghost use Rattle.std.specs.Prelude.{◌≡◌, IfOk, option_map};
ghost use Rattle.serde_json.specs.View.{view};
ghost use Rattle.fish_value.specs.Json.{quoted, reading};

use crate::text::Text;
use std::alloc::{AllocError, Global};

/// The JSON that bytes are (RFC 8259), or `None` where they are not UTF-8 or not JSON.
///
/// Objects and arrays nest at most 127 deep, of equal names in an object the last counts, and a
/// number outside the range of a double is refused, as `serde_json` has it.
#[tactic(auto, using(crate::proofs::JsonLemmas::reading_of_text, crate::proofs::JsonLemmas::reading_of_other))]
pub fn read_json(alloc: Global, b: &[u8]) -> Result<Option<serde_json::Value>, AllocError>
    ensures { IfOk result (λ found. option_map view found ≡ reading b.now) }
{
    let Ok(text) = simdutf8::basic::from_utf8(b) else {
        return Ok(None);
    };
    match serde_json::Value::from_str(alloc, text) {
        Ok(value) => Ok(Some(value)),
        Err(error) => {
            if error.is_memory() {
                Err(AllocError)
            } else {
                Ok(None)
            }
        }
    }
}

/// A text as a JSON string, with its quotation marks and escapes.
#[tactic(auto, unfolding(crate::specs::Json::quoted))]
pub fn json_text(alloc: Global, s: &Text) -> Result<Text, AllocError>
    ensures { IfOk result (λ text. text ≡ quoted s.now) }
{
    let value = serde_json::Value::try_from_str(alloc, s.as_str())?;
    Ok(Text::from_string(value.to_string(alloc)?))
}
