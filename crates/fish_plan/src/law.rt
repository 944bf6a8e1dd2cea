//! What follows of every plan. No call of the program needs it.

ghost use Rattle.fish_plan.specs.Laws.{EachInOne, FullIsPlan, HeldIsIndexed, IndexInside, OnePlan};

/// A range has one plan at most, and each of its numbers is in one piece. An index piece lies in the
/// interval that it is read by; below the settled number each number that an interval holds is read by an
/// index.
///
/// Its contract is that law.
pub fn law_cover()
    ensures one { OnePlan }
    ensures each { EachInOne }
    ensures inside { IndexInside }
    ensures held { HeldIsIndexed }
    ensures full { FullIsPlan }
{}
