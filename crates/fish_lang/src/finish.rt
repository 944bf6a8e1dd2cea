//! Definitions at the end of the tokens.

ghost use Rattle.std.specs.Prelude.{◌≡◌, option_map, IfOk};
ghost use Rattle.fish_lang.specs.Definition.{formula_of, definition_of};
ghost use Rattle.fish_lang.specs.within.Machine as machine;
ghost use Rattle.fish_lang.specs.within.Moves as moves;
ghost use Rattle.fish_lang.specs.within.Views.{whole_view, joint_view, head_view, owner_view, state_view};

use crate::condition::or_with;
use crate::definition::{Cond, Def};
use crate::position::{Joint, Whole};
use crate::state::{Head, Owner, State};
use fish_value::Path;
use std::alloc::{AllocError, Global};

/// The definition that ends here, or `None` where none does.
pub fn finish(alloc: Global, state: State) -> Result<Option<Def>, AllocError>
    ensures { IfOk result (λ def. option_map definition_of def ≡ moves.finish (state_view state)) }
{
    match state {
        State::BehindStep(owner, path) => Ok(taken(owner, path)),
        State::BehindWidth(path, width) => Ok(Some(Def::Bucket {
            path,
            width,
            when: None,
        })),
        State::BehindOperand(head, joint, cond) => ended_with(alloc, head, joint, cond),
        other => {
            drop(other);
            Ok(None)
        }
    }
}

/// The definition that ends after a path, which `take` alone may.
fn taken(owner: Owner, path: Path) -> Option<Def>
    ensures { option_map definition_of result
        ≡ moves.finish (machine.behind_step (owner_view owner) path) }
{
    match owner {
        Owner::Take => Some(Def::Take { path, when: None }),
        Owner::Each => Some(Def::Each { path, when: None }),
        other => {
            drop((other, path));
            None
        }
    }
}

/// The definition that ends after a part of an `or`.
fn ended_with(
    alloc: Global,
    head: Head,
    joint: Joint,
    cond: Cond,
) -> Result<Option<Def>, AllocError>
    ensures { IfOk result
        (λ def. option_map definition_of def
        ≡ moves.finish (machine.behind_operand (head_view head) (joint_view joint) (formula_of cond))) }
{
    let (whole, cond) = or_with(alloc, joint, cond)?;
    Ok(ended(head, whole, cond))
}

/// The definition that ends with a whole condition, where no group is open.
fn ended(head: Head, whole: Whole, cond: Cond) -> Option<Def>
    ensures { option_map definition_of result
        ≡ moves.definition_at (head_view head) (whole_view whole) (formula_of cond) }
{
    match whole {
        Whole::Top => Some(definition_with(head, cond)),
        Whole::Group(position) => {
            drop((position, head, cond));
            None
        }
    }
}

/// The definition that a condition completes.
fn definition_with(head: Head, cond: Cond) -> Def
    ensures { definition_of result ≡ moves.definition_with (head_view head) (formula_of cond) }
{
    match head {
        Head::Each(path) => Def::Each {
            path,
            when: Some(cond),
        },
        Head::Take(path) => Def::Take {
            path,
            when: Some(cond),
        },
        Head::Bucket(path, width) => Def::Bucket {
            path,
            width,
            when: Some(cond),
        },
        Head::Flag => Def::Flag { when: cond },
    }
}
