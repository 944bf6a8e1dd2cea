//! The names of definitions and of files, as words of a line.

ghost use Rattle.std.specs.Prelude.{◌≡◌, true, IfOk};
ghost use Rattle.std.specs.List.{list_all};
ghost use Rattle.fish_value.specs.BareWord.{is_bare_word};
ghost use Rattle.fish_value.specs.ValueText.{is_quoted};
ghost use Rattle.fish_script.specs.ScriptLine.{file_word, is_name, is_name_byte};

use fish_value::{MAX_NAME, Text, is_bare_word, read_json};
use std::alloc::{AllocError, Global};

/// The file that a word names: a bare word, or a JSON string that isn't empty.
#[tactic(auto, unfolding(crate::specs::ScriptLine::file_word))]
pub(crate) fn read_file(alloc: Global, word: &[u8]) -> Result<Option<Text>, AllocError>
    ensures { IfOk result (λ file. file ≡ file_word word.now) }
{
    if is_bare_word(word) {
        return Ok(Some(bare_text(alloc, word)?));
    }
    if !is_quoted(word) {
        return Ok(None);
    }
    match read_json(alloc, word)? {
        Some(serde_json::Value::String(s)) => {
            if s.is_empty() {
                Ok(None)
            } else {
                Ok(Some(Text::from_string(s)))
            }
        }
        _ => Ok(None),
    }
}

/// Whether a word begins and ends with a quotation mark.
fn is_quoted(w: &[u8]) -> bool
    ensures { result ≡ is_quoted w.now }
{
    w.len() > 1 && w[0] == b'"' && w[w.len() - 1] == b'"'
}

/// Whether a word can be a name.
#[tactic(auto, unfolding(crate::specs::ScriptLine::is_name))]
pub(crate) fn is_name(w: &[u8]) -> bool
    ensures { result ≡ is_name w.now }
{
    !w.is_empty() && w.len() <= MAX_NAME && has_name_bytes(w) && !w[0].is_ascii_digit()
}

fn has_name_bytes(w: &[u8]) -> bool
    ensures { result ≡ list_all is_name_byte w.now }
{
    w.iter().all(|c| is_name_byte(*c))
}

fn is_name_byte(c: u8) -> bool
    ensures { result ≡ is_name_byte c }
{
    c.is_ascii_alphanumeric() || c == b'_'
}

/// The text of a name.
pub(crate) fn name_text(alloc: Global, w: &[u8]) -> Result<Text, AllocError>
    requires { is_name w.now ≡ true }
    ensures { IfOk result (λ text. text ≡ w.now) }
{
    match Text::from_bytes(alloc, w)? {
        Some(text) => Ok(text),
        // Its bytes are ASCII.
        None => unreachable!(),
    }
}

/// The text of a bare word.
fn bare_text(alloc: Global, w: &[u8]) -> Result<Text, AllocError>
    requires { is_bare_word w.now ≡ true }
    ensures { IfOk result (λ text. text ≡ w.now) }
{
    match Text::from_bytes(alloc, w)? {
        Some(text) => Ok(text),
        // Its bytes are ASCII.
        None => unreachable!(),
    }
}
