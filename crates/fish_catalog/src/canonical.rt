//! Which texts a row may keep.

ghost use Rattle.std.specs.Prelude.{◌≡◌, ◌≢◌, ◌↔◌, IfOk, IsTrue, false};
ghost use Rattle.fish_catalog.specs.Canonical.{IsCanonical};
ghost use Rattle.fish_lang.specs.Canonical.{definition_text};
ghost use Rattle.fish_lang.specs.Definition.{definition_of};
ghost use Rattle.fish_lang.specs.Language.{IsAccepted};

use fish_lang::{Def, LangRefusal, parse_def, print_def};
use fish_value::Text;
use std::alloc::{AllocError, Global};

/// Whether a text is the canonical one of a definition that some source is: what it is read as is
/// written as this text again.
pub fn is_canonical(alloc: Global, text: &Text) -> Result<bool, AllocError>
    ensures { IfOk result (λ canonical. IsTrue canonical ↔ IsCanonical text.now) }
{
    match parse_def(alloc, text.as_bytes()) {
        Ok(def) => is_written(alloc, def, text),
        Err(refusal) => refused(refusal),
    }
}

/// The definition that a canonical text is, which is written as this text again.
pub fn parse_canonical(alloc: Global, text: &[u8]) -> Result<Def, AllocError>
    requires { IsCanonical text.now }
    ensures read { IfOk result (λ def. IsAccepted text.now (definition_of def)) }
    ensures written { IfOk result (λ def. definition_text (definition_of def) ≡ text.now) }
{
    // a canonical text is a definition, so only memory can fail
    let Ok(def) = parse_def(alloc, text) else {
        return Err(AllocError);
    };
    Ok(def)
}

/// A text that is no definition isn't canonical; where memory runs out, that says nothing of it.
fn refused(refusal: LangRefusal) -> Result<bool, AllocError>
    ensures { IfOk result (λ canonical. (canonical ≡ false) × (refusal ≢ LangRefusal.OutOfMemory)) }
{
    match refusal {
        LangRefusal::OutOfMemory => Err(AllocError),
        _ => Ok(false),
    }
}

/// Whether a definition is written as this text.
fn is_written(alloc: Global, def: Def, text: &Text) -> Result<bool, AllocError>
    ensures { IfOk result (λ same. IsTrue same ↔ (definition_text (definition_of def) ≡ text.now)) }
{
    let written = print_def(alloc, &def);
    drop(def);
    Ok(written?.is(text))
}
