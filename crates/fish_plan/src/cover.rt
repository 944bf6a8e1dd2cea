//! The plan of a range: from the top down, a piece for each stretch that is read in one way.

ghost use Rattle.std.specs.Prelude.{◌≡◌, ◌≤◌, ◌<◌, IfOk};
ghost use Rattle.fish_plan.specs.Cover.{IsCover};
ghost use Rattle.fish_plan.specs.within.Next.{IsNextPiece};
ghost use Rattle.fish_plan.specs.Pieces.{one_full};

use crate::lookup::{low_end, oldest};
use crate::pieces::{Piece, Plan};
use fish_catalog::Interval;
use fish_value::Sequence;
use std::alloc::{AllocError, Global};

/// How the numbers of a range are read, where an index holds in these intervals and the log is settled
/// below a number. Each piece takes one walk over the intervals, and a piece ends at the range's end, at
/// settled or at the end or beginning of an interval.
pub fn plan(
    alloc: Global,
    from: u32,
    settled: u32,
    to: u32,
    intervals: &[Interval],
) -> Result<Plan, AllocError>
    requires { from ≤ to }
    ensures { IfOk result (λ plan. IsCover plan from settled to intervals.now) }
{
    let mut pieces = Sequence::new(alloc);
    let bound = from.max(settled.min(to));
    if bound < to {
        pieces.push(Piece::Full { from: bound, to })?;
    }
    let mut end = bound;
    while from < end {
        let piece = next_piece(from, end, intervals);
        pieces.push(piece)?;
        end = piece.from();
    }
    Ok(Plan::of(pieces))
}

/// The whole range as one piece that is looked at number by number; none where it is empty.
pub fn full(alloc: Global, from: u32, to: u32) -> Result<Plan, AllocError>
    ensures { IfOk result (λ plan. plan ≡ one_full from to) }
{
    let mut one = Sequence::new(alloc);
    if from < to {
        one.push(Piece::Full { from, to })?;
    }
    Ok(Plan::of(one))
}

/// The piece that ends at a number, of what is left of a range below settled.
fn next_piece(from: u32, end: u32, intervals: &[Interval]) -> Piece
    requires { from < end }
    ensures { IsNextPiece intervals.now from end result }
{
    match oldest(intervals, end - 1) {
        Some(interval) => Piece::Index {
            id: interval.id,
            from: interval.from.max(from),
            to: end,
        },
        None => Piece::Full {
            from: low_end(intervals, from, end),
            to: end,
        },
    }
}
