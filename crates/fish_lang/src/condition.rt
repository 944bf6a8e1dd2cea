//! The states of a condition: what stands before its next test, and where a token leads from there.

ghost use Rattle.std.specs.Prelude.{◌≡◌, ◌∷◌, [], Option, Some, option_map, IfOk};
ghost use Rattle.fish_lang.specs.Definition.{formula_of, both, compares, begins};
ghost use Rattle.fish_lang.specs.within.Machine as machine;
ghost use Rattle.fish_lang.specs.within.Moves as moves;
ghost use Rattle.fish_lang.specs.within.Views.{whole_view, joint_view, operand_view, head_view, state_view};

use crate::definition::{Cond, Op};
use crate::position::{Joint, Operand, Whole};
use crate::state::{Head, Owner, State};
use crate::token::{Keyword, Token};
use fish_value::{Path, Text, Value};
use std::alloc::{AllocError, Global};

/// A sign of comparison, `exists` or `starts` makes a test of a path.
pub fn behind_test(
    alloc: Global,
    head: Head,
    position: Operand,
    path: Path,
    token: Token,
) -> Result<Option<State>, AllocError>
    ensures { IfOk result
        (λ next. option_map state_view next
        ≡ moves.behind_test (head_view head) (operand_view position) path token) }
{
    match token {
        Token::Compare(op) => Ok(Some(State::Literal(head, position, path, op))),
        Token::Keyword(Keyword::Exists) => {
            Ok(Some(complete(alloc, head, position, Cond::Exists { path })?))
        }
        Token::Keyword(Keyword::Starts) => Ok(Some(State::Prefix(head, position, path))),
        other => {
            drop((other, head, position, path));
            Ok(None)
        }
    }
}

/// `not` and `(` go one deeper, and a step begins a test.
pub fn from_operand(
    alloc: Global,
    head: Head,
    position: Operand,
    token: Token,
) -> Result<Option<State>, AllocError>
    ensures { IfOk result
        (λ next. option_map state_view next
        ≡ moves.from_operand (head_view head) (operand_view position) token) }
{
    match token {
        Token::Keyword(Keyword::Not) => {
            match Box::new(alloc, position) {
                Ok(position) => Ok(Some(State::Operand(head, Operand::UnderNot(position)))),
                Err(error) => {
                    drop(head);
                    Err(AllocError::from(error))
                }
            }
        }
        Token::Open => match Box::new(alloc, position) {
            Ok(position) => {
                let group = Whole::Group(position);
                Ok(Some(State::Operand(head, Operand::InJoint(Joint::InWhole(group)))))
            }
            Err(error) => {
                drop(head);
                Err(AllocError::from(error))
            }
        },
        Token::Ident(s) => Ok(Some(in_test(alloc, head, position, s))),
        Token::Str(s) => Ok(Some(in_test(alloc, head, position, s))),
        other => {
            drop((other, head, position));
            Ok(None)
        }
    }
}

/// After the first step of a test.
fn in_test(alloc: Global, head: Head, position: Operand, step: Text) -> State
    ensures { state_view result
        ≡ machine.behind_step (machine.of_test (head_view head) (operand_view position)) (step ∷ []) }
{
    State::BehindStep(Owner::Test(head, position), Path::new(alloc, step))
}

/// A literal completes a comparison.
pub fn from_literal(
    alloc: Global,
    head: Head,
    position: Operand,
    path: Path,
    op: Op,
    token: Token,
) -> Result<Option<State>, AllocError>
    ensures { IfOk result
        (λ next. option_map state_view next
        ≡ option_map (λ v. machine.complete (head_view head) (operand_view position) (compares path op v))
        (moves.value_of_token token)) }
{
    match value_of(token) {
        Some(literal) => {
            let cond = Cond::Compare { path, op, literal };
            Ok(Some(complete(alloc, head, position, cond)?))
        }
        None => {
            drop((head, position, path));
            Ok(None)
        }
    }
}

/// A number outside an `i64` is refused, so it does not matter what stands for it.
fn value_of(token: Token) -> Option<Value>
    ensures { result ≡ moves.value_of_token token }
{
    match token {
        Token::Keyword(Keyword::True) => Some(Value::Bool(true)),
        Token::Keyword(Keyword::False) => Some(Value::Bool(false)),
        Token::Number { value, .. } => Some(Value::Int(value.unwrap_or(0))),
        Token::Str(s) => Some(Value::Text(s)),
        other => {
            drop(other);
            None
        }
    }
}

/// A string completes a test of how a text begins.
pub fn from_prefix(
    alloc: Global,
    head: Head,
    position: Operand,
    path: Path,
    token: Token,
) -> Result<Option<State>, AllocError>
    ensures { IfOk result
        (λ next. option_map state_view next
        ≡ option_map (λ s. machine.complete (head_view head) (operand_view position) (begins path s))
        (moves.text_of_token token)) }
{
    match token {
        Token::Str(prefix) => {
            let cond = Cond::Starts { path, prefix };
            Ok(Some(complete(alloc, head, position, cond)?))
        }
        other => {
            drop((other, head, position, path));
            Ok(None)
        }
    }
}

/// After an operand, which completes a `not` and an `and` before it.
fn complete(alloc: Global, head: Head, position: Operand, cond: Cond) -> Result<State, AllocError>
    ensures { IfOk result
        (λ next. state_view next
        ≡ machine.complete (head_view head) (operand_view position) (formula_of cond)) }
{
    match position {
        Operand::InJoint(joint) => Ok(State::BehindOperand(head, joint, cond)),
        Operand::BehindAnd(front, joint) => match both_of(alloc, front, cond) {
            Ok(both) => Ok(State::BehindOperand(head, joint, both)),
            Err(error) => {
                drop((head, joint));
                Err(error)
            }
        },
        Operand::UnderNot(outer) => match Box::new(alloc, cond) {
            Ok(cond) => complete(alloc, head, Box::into_inner(outer), Cond::Not(cond)),
            Err(error) => {
                drop((head, outer));
                Err(AllocError::from(error))
            }
        },
    }
}

/// Two conditions joined by `and`.
fn both_of(alloc: Global, front: Cond, cond: Cond) -> Result<Cond, AllocError>
    ensures { IfOk result (λ a. formula_of a ≡ both (formula_of front) (formula_of cond)) }
{
    match Box::new(alloc, front) {
        Ok(front) => match Box::new(alloc, cond) {
            Ok(cond) => Ok(Cond::And(front, cond)),
            Err(error) => {
                drop(front);
                Err(AllocError::from(error))
            }
        },
        Err(error) => {
            drop(cond);
            Err(AllocError::from(error))
        }
    }
}

/// `and`, `or` and `)` join or end what was read.
pub fn from_joint(
    alloc: Global,
    head: Head,
    joint: Joint,
    cond: Cond,
    token: Token,
) -> Result<Option<State>, AllocError>
    ensures { IfOk result
        (λ next. option_map state_view next
        ≡ moves.from_joint (head_view head) (joint_view joint) (formula_of cond) token) }
{
    match token {
        Token::Keyword(Keyword::And) => {
            Ok(Some(State::Operand(head, Operand::BehindAnd(cond, joint))))
        }
        Token::Keyword(Keyword::Or) => match or_with(alloc, joint, cond) {
            Ok((whole, cond)) => {
                let joint = Joint::BehindOr(cond, whole);
                Ok(Some(State::Operand(head, Operand::InJoint(joint))))
            }
            Err(error) => {
                drop(head);
                Err(error)
            }
        },
        Token::Close => match or_with(alloc, joint, cond) {
            Ok((whole, cond)) => close(alloc, head, whole, cond),
            Err(error) => {
                drop(head);
                Err(error)
            }
        },
        other => {
            drop((other, head, joint, cond));
            Ok(None)
        }
    }
}

/// The condition that ends with a part of an `or`, and where it stands.
pub fn or_with(alloc: Global, joint: Joint, cond: Cond) -> Result<(Whole, Cond), AllocError>
    ensures whole { IfOk result (λ r. whole_view r.0 ≡ machine.whole_of (joint_view joint)) }
    ensures cond { IfOk result
        (λ r. formula_of r.1 ≡ machine.or_with (joint_view joint) (formula_of cond)) }
{
    match joint {
        Joint::InWhole(whole) => Ok((whole, cond)),
        Joint::BehindOr(front, whole) => {
            let either = Cond::Or(Box::new(alloc, front)?, Box::new(alloc, cond)?);
            Ok((whole, either))
        }
    }
}

/// `)` ends a group.
fn close(alloc: Global, head: Head, whole: Whole, cond: Cond) -> Result<Option<State>, AllocError>
    ensures { IfOk result
        (λ next. option_map state_view next
        ≡ moves.close (head_view head) (whole_view whole) (formula_of cond)) }
{
    match whole {
        Whole::Top => {
            drop((head, cond));
            Ok(None)
        }
        Whole::Group(position) => Ok(Some(complete(alloc, head, Box::into_inner(position), cond)?)),
    }
}
