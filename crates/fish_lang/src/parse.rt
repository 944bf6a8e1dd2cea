//! Definitions from their text.

ghost use Rattle.std.specs.Prelude.{◌≡◌, Result, Ok, Err, IfOk};
ghost use Rattle.fish_lang.specs.Definition.{Definition, definition_of};
ghost use Rattle.fish_lang.specs.within.Machine.{start};
ghost use Rattle.fish_lang.specs.Token.{tokens};
ghost use Rattle.fish_lang.specs.within.Views.{state_view};
ghost use Rattle.fish_lang.specs.Outcome.{Gives};
ghost use Rattle.fish_lang.specs.within.Outcome.{run, turn, unless_fault, unless_long, outcome};
ghost use Rattle.fish_lang.specs.Language.{IsOutcome, UnlessMemory};
ghost use Rattle.fish_lang.specs.declared.parse.LangRefusal.{LangRefusal};

use crate::definition::Def;
use crate::fault::{Fault, fault_at};
use crate::finish::finish;
use crate::print::print_def;
use crate::state::{State, advance};
use crate::token::{Placed, tokens_of};
use std::alloc::{AllocError, Global};
use std::error::Error;
use std::fmt;

/// The most bytes of a source.
pub const MAX_SOURCE: usize = 4_096;

/// The most bytes of a canonical text.
pub const MAX_CANONICAL: usize = 255;

/// Why a text is no definition.
#[derive(Clone, Copy, Debug, PartialEq, Eq)]
pub enum LangRefusal {
    /// No definition begins with the tokens up to this one, or the tokens end early.
    Unexpected {
        /// The first byte of the token, or the length of the text.
        at: u64,
    },
    /// A `(` or `not` that makes the nesting 17.
    TooDeep {
        /// Its first byte.
        at: u64,
    },
    /// The text has over 4,096 bytes, or the canonical text over 255.
    TooLong {
        /// How many it has.
        length: u64,
    },
    /// A number outside an `i64`.
    NumberTooLarge {
        /// Its first byte.
        at: u64,
    },
    /// A width of 0.
    ZeroWidth {
        /// Its first byte.
        at: u64,
    },
    /// Memory ran out.
    OutOfMemory,
}

/// Why it is none, and where.
impl fmt::Display for LangRefusal {
    ghost use Rattle.std.specs.Prelude.{Some};
    ghost use Rattle.fish_lang.specs.RefusalText.{lang_refusal_text};

    ghost output = { λ refusal. Some (lang_refusal_text refusal) };

    fn fmt<W: fmt::Write>(&self, f: &mut fmt::Formatter<W>) -> fmt::Result {
        match self {
            LangRefusal::Unexpected { at } => write!(f, "unexpected at {at}"),
            LangRefusal::TooDeep { at } => write!(f, "too deep at {at}"),
            LangRefusal::TooLong { length } => write!(f, "too long {length}"),
            LangRefusal::NumberTooLarge { at } => write!(f, "number too large at {at}"),
            LangRefusal::ZeroWidth { at } => write!(f, "zero width at {at}"),
            LangRefusal::OutOfMemory => write!(f, "out of memory"),
        }
    }
}

impl Error for LangRefusal {}

impl From<AllocError> for LangRefusal {
    ghost use Rattle.fish_lang.specs.declared.parse.LangRefusal.TheVariants.{OutOfMemory};

    ghost from_gives = { λ _ refusal. refusal ≡ OutOfMemory };

    /// Want of memory is a refusal of its own.
    fn from(_: AllocError) -> Self {
        LangRefusal::OutOfMemory
    }
}

/// The definition that a text is.
pub fn parse_def(alloc: Global, b: &[u8]) -> Result<Def, LangRefusal>
    // What is answered is what the language says.
    ensures answer { UnlessMemory definition_of result (IsOutcome b.now) }
    // What the language says is answered.
    ensures only { (due : Result Definition LangRefusal) → IsOutcome b.now due → Gives definition_of result due }
{
    answer(alloc, b)
}

/// The same by the machine of the parser.
#[tactic(auto, unfolding(crate::specs::within::Outcome::outcome))]
fn answer(alloc: Global, b: &[u8]) -> Result<Def, LangRefusal>
    ensures { Gives definition_of result (outcome b.now) }
{
    let length = b.len() as u64;
    if b.len() > MAX_SOURCE {
        return Err(LangRefusal::TooLong { length });
    }
    let found = tokens_of(alloc, b)?;
    match definition(alloc, found, length) {
        Ok(def) => unless_long(alloc, def),
        Err(refusal) => Err(refusal),
    }
}

/// The definition, unless its canonical text is too long.
fn unless_long(alloc: Global, def: Def) -> Result<Def, LangRefusal>
    ensures { Gives definition_of result (unless_long (definition_of def)) }
{
    match print_def(alloc, &def) {
        Ok(text) => {
            let length = text.as_bytes().len();
            if length > MAX_CANONICAL {
                drop(def);
                return Err(LangRefusal::TooLong {
                    length: length as u64,
                });
            }
            Ok(def)
        }
        Err(error) => {
            drop(def);
            Err(LangRefusal::from(error))
        }
    }
}

/// The definition that tokens are, of a text that ends at a position.
fn definition(alloc: Global, found: Vec<Placed>, end: u64) -> Result<Def, LangRefusal>
    ensures { Gives definition_of result (run start found.items end) }
{
    let mut state = State::Start;
    for placed in found {
        match next(alloc, state, placed) {
            Ok(next) => state = next,
            Err(refusal) => return Err(refusal),
        }
    }
    match finish(alloc, state)? {
        Some(def) => Ok(def),
        None => Err(LangRefusal::Unexpected { at: end }),
    }
}

/// Where a token leads, or why it is refused.
fn next(alloc: Global, state: State, placed: Placed) -> Result<State, LangRefusal>
    ensures { Gives state_view result (turn (state_view state) placed) }
{
    let Placed { token, at } = placed;
    let fault = fault_at(&state, &token);
    match advance(alloc, state, token)? {
        Some(next) => unless(fault, next, at),
        None => Err(LangRefusal::Unexpected { at }),
    }
}

/// The next state, unless the token is refused in its position.
fn unless(fault: Option<Fault>, next: State, at: u64) -> Result<State, LangRefusal>
    ensures { result ≡ unless_fault fault next at }
{
    match fault {
        None => Ok(next),
        Some(Fault::TooDeep) => Err(LangRefusal::TooDeep { at }),
        Some(Fault::NumberTooLarge) => Err(LangRefusal::NumberTooLarge { at }),
        Some(Fault::ZeroWidth) => Err(LangRefusal::ZeroWidth { at }),
    }
}
