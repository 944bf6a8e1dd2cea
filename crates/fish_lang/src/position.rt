//! Positions in a condition: what stands before a position, as far as it is not closed.

ghost use Rattle.std.specs.Prelude.{◌≡◌, nat_lt};
ghost use Rattle.fish_lang.specs.within.Machine.{nesting, joint_nesting, whole_nesting};
ghost use Rattle.fish_lang.specs.within.Views.{operand_view, joint_view, whole_view};

use crate::definition::Cond;

/// Where a whole condition stands.
#[derive(Drop)]
#[cycle(position)]
pub enum Whole {
    /// After `when`.
    Top,
    /// In parentheses.
    Group(Box<Operand>),
}

/// Where a part of an `or` stands.
#[derive(Drop)]
#[cycle(position)]
pub enum Joint {
    /// At its front.
    InWhole(Whole),
    /// After a condition and `or`.
    BehindOr(Cond, Whole),
}

/// Where a part of an `and` stands.
#[derive(Drop)]
#[cycle(position)]
pub enum Operand {
    /// At its front.
    InJoint(Joint),
    /// After a condition and `and`.
    BehindAnd(Cond, Joint),
    /// After `not`.
    UnderNot(Box<Operand>),
}

/// Whether fewer than `most` `(` and `not` are open.
#[cycle(nests)]
pub fn nests_less(position: &Operand, most: u8) -> bool
    ensures { result ≡ nat_lt (nesting (operand_view position.now)) most }
{
    match position {
        Operand::InJoint(joint) => joint_nests_less(joint, most),
        Operand::BehindAnd(_, joint) => joint_nests_less(joint, most),
        Operand::UnderNot(outer) => most > 0 && nests_less(outer, most - 1),
    }
}

/// The same of what stands before a part of an `or`.
#[cycle(nests)]
fn joint_nests_less(joint: &Joint, most: u8) -> bool
    ensures { result ≡ nat_lt (joint_nesting (joint_view joint.now)) most }
{
    match joint {
        Joint::InWhole(whole) => whole_nests_less(whole, most),
        Joint::BehindOr(_, whole) => whole_nests_less(whole, most),
    }
}

/// The same of what stands before a whole condition.
#[cycle(nests)]
fn whole_nests_less(whole: &Whole, most: u8) -> bool
    ensures { result ≡ nat_lt (whole_nesting (whole_view whole.now)) most }
{
    match whole {
        Whole::Top => most > 0,
        Whole::Group(outer) => most > 0 && nests_less(outer, most - 1),
    }
}
