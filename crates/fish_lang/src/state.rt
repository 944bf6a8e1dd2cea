//! What the parser knows between two tokens, and where a token leads.

ghost use Rattle.std.specs.Prelude.{◌≡◌, ◌++◌, ◌∷◌, [], Option, option_map, IfOk};
ghost use Rattle.fish_lang.specs.within.Machine as machine;
ghost use Rattle.fish_lang.specs.within.Moves as moves;
ghost use Rattle.fish_lang.specs.within.Views.{head_view, owner_view, steps_so_far, state_view};

use crate::condition::{behind_test, from_joint, from_literal, from_operand, from_prefix};
use crate::definition::{Cond, Op};
use crate::position::{Joint, Operand, Whole};
use crate::token::{Keyword, Token};
use fish_value::{Path, Text};
use std::alloc::{AllocError, Global};

/// What stands before a condition, without `when`.
#[derive(Drop)]
pub enum Head {
    Take(Path),
    Each(Path),
    Bucket(Path, i64),
    Flag,
}

/// What a path is part of.
#[derive(Drop)]
pub enum Owner {
    Take,
    Each,
    Bucket,
    /// A test, by where it stands.
    Test(Head, Operand),
}

/// What comes next, and what is known so far.
#[derive(Drop)]
pub enum State {
    /// Nothing was read.
    Start,
    /// `when`, after `flag`.
    Flag,
    /// A step, after those of the path so far.
    Step(Owner, Option<Path>),
    /// What follows a step.
    BehindStep(Owner, Path),
    /// The number after `by`.
    Width(Path),
    /// What follows that number.
    BehindWidth(Path, i64),
    /// An operand of a condition.
    Operand(Head, Operand),
    /// The literal of a comparison.
    Literal(Head, Operand, Path, Op),
    /// The string after `starts`.
    Prefix(Head, Operand, Path),
    /// What follows a part of an `or`.
    BehindOperand(Head, Joint, Cond),
}

/// Where a token leads, or `None` where it does not fit.
pub fn advance(alloc: Global, state: State, token: Token) -> Result<Option<State>, AllocError>
    ensures { IfOk result
        (λ next. option_map state_view next ≡ moves.advance (state_view state) token) }
{
    match state {
        State::Start => Ok(from_start(token)),
        State::Flag => Ok(from_head(Head::Flag, token)),
        State::Step(owner, path) => from_step(alloc, owner, path, token),
        State::BehindStep(owner, path) => from_path(alloc, owner, path, token),
        State::Width(path) => Ok(from_width(path, token)),
        State::BehindWidth(path, width) => Ok(from_head(Head::Bucket(path, width), token)),
        State::Operand(head, position) => from_operand(alloc, head, position, token),
        State::Literal(head, position, path, op) => from_literal(
            alloc, head, position, path, op, token,
        ),
        State::Prefix(head, position, path) => from_prefix(alloc, head, position, path, token),
        State::BehindOperand(head, joint, cond) => from_joint(alloc, head, joint, cond, token),
    }
}

/// The first word says what a definition takes.
fn from_start(token: Token) -> Option<State>
    ensures { option_map state_view result ≡ moves.from_start token }
{
    match token {
        Token::Keyword(Keyword::Take) => Some(State::Step(Owner::Take, None)),
        Token::Keyword(Keyword::Each) => Some(State::Step(Owner::Each, None)),
        Token::Keyword(Keyword::Bucket) => Some(State::Step(Owner::Bucket, None)),
        Token::Keyword(Keyword::Flag) => Some(State::Flag),
        _ => None,
    }
}

/// `when` begins a condition.
fn from_head(head: Head, token: Token) -> Option<State>
    ensures { option_map state_view result ≡ moves.from_head (head_view head) token }
{
    match token {
        Token::Keyword(Keyword::When) => {
            Some(State::Operand(head, Operand::InJoint(Joint::InWhole(Whole::Top))))
        }
        _ => None,
    }
}

/// A name or a string is a step.
fn from_step(
    alloc: Global,
    owner: Owner,
    path: Option<Path>,
    token: Token,
) -> Result<Option<State>, AllocError>
    ensures { IfOk result
        (λ next. option_map state_view next
        ≡ option_map (λ s. machine.behind_step (owner_view owner) (steps_so_far path ++ s ∷ []))
        (moves.name_of token)) }
{
    match name_of(token) {
        Some(step) => match longer(alloc, path, step) {
            Ok(path) => Ok(Some(State::BehindStep(owner, path))),
            Err(error) => {
                drop(owner);
                Err(error)
            }
        },
        None => {
            drop((owner, path));
            Ok(None)
        }
    }
}

/// A path with one more step.
fn longer(alloc: Global, path: Option<Path>, step: Text) -> Result<Path, AllocError>
    ensures { IfOk result (λ p. p ≡ steps_so_far path ++ step ∷ []) }
{
    match path {
        None => Ok(Path::new(alloc, step)),
        Some(mut path) => {
            path.push(step)?;
            Ok(path)
        }
    }
}

/// The step that a token is, if it is one.
fn name_of(token: Token) -> Option<Text>
    ensures { result ≡ moves.name_of token }
{
    match token {
        Token::Ident(s) => Some(s),
        Token::Str(s) => Some(s),
        other => {
            drop(other);
            None
        }
    }
}

/// A dot leads on to a further step, any other token after the path.
fn from_path(
    alloc: Global,
    owner: Owner,
    path: Path,
    token: Token,
) -> Result<Option<State>, AllocError>
    ensures { IfOk result
        (λ next. option_map state_view next ≡ moves.from_path (owner_view owner) path token) }
{
    match token {
        Token::Dot => Ok(Some(State::Step(owner, Some(path)))),
        token => behind_path(alloc, owner, path, token),
    }
}

/// What follows a path, by what it is part of.
fn behind_path(
    alloc: Global,
    owner: Owner,
    path: Path,
    token: Token,
) -> Result<Option<State>, AllocError>
    ensures { IfOk result
        (λ next. option_map state_view next ≡ moves.behind_path (owner_view owner) path token) }
{
    match owner {
        Owner::Take => Ok(from_head(Head::Take(path), token)),
        Owner::Each => Ok(from_head(Head::Each(path), token)),
        Owner::Bucket => Ok(behind_bucket(path, token)),
        Owner::Test(head, position) => behind_test(alloc, head, position, path, token),
    }
}

/// `by` leads to the width of a bucket.
fn behind_bucket(path: Path, token: Token) -> Option<State>
    ensures { option_map state_view result ≡ moves.behind_bucket path token }
{
    match token {
        Token::Keyword(Keyword::By) => Some(State::Width(path)),
        _ => None,
    }
}

/// A number without a minus is a width.
fn from_width(path: Path, token: Token) -> Option<State>
    ensures { option_map state_view result ≡ moves.from_width path token }
{
    match token {
        Token::Number {
            negative: false,
            value,
        } => { Some(State::BehindWidth(path, value.unwrap_or(0))) }
        _ => None,
    }
}
