//! Tokens that fit in their position and are refused there.

ghost use Rattle.std.specs.Prelude.{◌≡◌};
ghost use Rattle.fish_lang.specs.within.Moves.{fault_at, nests, number_of_token, width_of};
ghost use Rattle.fish_lang.specs.within.Views.{state_view};

use crate::position::nests_less;
use crate::state::State;
use crate::token::{Keyword, Token};

/// Why a token that fits is refused.
#[derive(Clone, Copy, Debug, PartialEq, Eq)]
pub enum Fault {
    /// It makes the nesting 17.
    TooDeep,
    /// It is a number outside an `i64`.
    NumberTooLarge,
    /// It is a width of 0.
    ZeroWidth,
}

/// Why a token that fits is refused, if it is.
pub fn fault_at(state: &State, token: &Token) -> Option<Fault>
    ensures { result ≡ fault_at (state_view state.now) token.now }
{
    match state {
        State::Operand(_, position) => {
            if nests(token) && !nests_less(position, 16) {
                Some(Fault::TooDeep)
            } else {
                None
            }
        }
        State::Literal(_, _, _, _) => number_of(token),
        State::Width(_) => width_of(token),
        _ => None,
    }
}

/// Whether a token opens one nesting more.
fn nests(token: &Token) -> bool
    ensures { result ≡ nests token.now }
{
    matches!(token, Token::Keyword(Keyword::Not) | Token::Open)
}

/// The fault of a literal: a number outside an `i64`.
fn number_of(token: &Token) -> Option<Fault>
    ensures { result ≡ number_of_token token.now }
{
    match token {
        Token::Number { value: None, .. } => Some(Fault::NumberTooLarge),
        _ => None,
    }
}

/// The fault of a width: a number outside an `i64`, or 0.
fn width_of(token: &Token) -> Option<Fault>
    ensures { result ≡ width_of token.now }
{
    match token {
        Token::Number { value: None, .. } => Some(Fault::NumberTooLarge),
        Token::Number { value: Some(0), .. } => Some(Fault::ZeroWidth),
        _ => None,
    }
}
