//! Laws of the language. The functions do nothing; their contracts are the laws.

ghost use Rattle.std.specs.Prelude.{◌≡◌, ℕ, List, Result};
ghost use Rattle.fish_lang.specs.Canonical.{definition_text};
ghost use Rattle.fish_lang.specs.Definition.{Definition};
ghost use Rattle.fish_lang.specs.Language.{IsAccepted, IsOutcome};
ghost use Rattle.fish_lang.specs.Pieces.{IsCut, tokens_in};
ghost use Rattle.fish_lang.specs.Token.{tokens};
ghost use Rattle.fish_lang.specs.declared.parse.LangRefusal.{LangRefusal};

/// A source is cut into pieces, which are its blanks and the texts of its tokens: in order they are the
/// source, and each is the longest that can stand where it begins. A string ends at the first quote that
/// no odd run of backslashes precedes.
pub fn cuts_the_longest()
    ensures { (b : List ℕ) → (pieces : List (List ℕ)) × IsCut b pieces }
{}

/// The tokens of a source are those of such pieces, each at the position of its first byte.
pub fn lexes_the_pieces()
    ensures { (b : List ℕ) (pieces : List (List ℕ)) → IsCut b pieces → tokens b ≡ tokens_in 0 pieces }
{}

/// A source is a definition or is refused, in one way alone.
pub fn has_one_outcome()
    ensures some { (b : List ℕ) → (r : Result Definition LangRefusal) × IsOutcome b r }
    ensures one { (b : List ℕ) (r s : Result Definition LangRefusal) → IsOutcome b r → IsOutcome b s → r
        ≡ s }
{}

/// A source has one reading.
pub fn has_one_reading()
    ensures { (b : List ℕ) (d e : Definition) → IsAccepted b d → IsAccepted b e → d ≡ e }
{}

/// The canonical text of a definition that a source is, is that definition too.
pub fn reads_back()
    ensures { (b : List ℕ) (d : Definition) → IsAccepted b d → IsAccepted (definition_text d) d }
{}
