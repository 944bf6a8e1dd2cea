//! Plans of ranges, worked out by hand: how each number is read, newest first.

ghost use Rattle.std.specs.Prelude.{◌≤◌};

use crate::expecting::expect_all;
use fish_catalog::{Interval, Intervals};
use fish_plan::{Piece, Plan, full, plan};
use std::alloc::{AllocError, Global};
use std::test::Fail;

/// Ids, and where an interval begins and ends.
type Row = (u16, u32, Option<u32>);

/// Where a range begins, where the log is settled, where the range ends, and intervals.
type Case = (u32, u32, u32, &'static [Row]);

/// Cases, their pieces, and the first full piece below settled.
const PLANS: &[(Case, &str)] = &[
    // an index that is active, and a log that is not settled to its end
    (
        (0, 90, 100, &[(0, 40, None)]),
        "full 90..100 index 40..90 by 0 full 0..40; gap 0..40",
    ),
    (
        (0, 10, 10, &[(3, 2, Some(8)), (1, 2, None)]),
        "index 2..10 by 1 full 0..2; gap 0..2",
    ),
    ((0, 10, 10, &[(0, 5, Some(5))]), "full 0..10; gap 0..10"),
    ((5, 5, 5, &[]), "; none"),
    ((5, 9, 5, &[(0, 0, None)]), "; none"),
    ((4, 9, 9, &[]), "full 4..9; gap 4..9"),
    // settled below the range, at its ends, and past it
    ((3, 0, 8, &[(0, 0, None)]), "full 3..8; none"),
    ((3, 3, 8, &[(0, 0, None)]), "full 3..8; none"),
    (
        (3, 4, 8, &[(0, 0, None)]),
        "full 4..8 index 3..4 by 0; none",
    ),
    (
        (3, 7, 8, &[(0, 0, None)]),
        "full 7..8 index 3..7 by 0; none",
    ),
    ((3, 8, 8, &[(0, 0, None)]), "index 3..8 by 0; none"),
    ((3, 90, 8, &[(0, 0, None)]), "index 3..8 by 0; none"),
    // full pieces on both sides of settled
    ((0, 6, 9, &[(0, 6, None)]), "full 6..9 full 0..6; gap 0..6"),
    ((0, 6, 9, &[]), "full 6..9 full 0..6; gap 0..6"),
    // intervals that touch, that leave a number out, and that reach out of the range
    (
        (0, 9, 9, &[(0, 0, Some(4)), (1, 4, None)]),
        "index 4..9 by 1 index 0..4 by 0; none",
    ),
    (
        (0, 9, 9, &[(0, 0, Some(3)), (1, 4, None)]),
        "index 4..9 by 1 full 3..4 index 0..3 by 0; gap 3..4",
    ),
    (
        (2, 9, 8, &[(0, 0, Some(3)), (1, 5, Some(20))]),
        "index 5..8 by 1 full 3..5 index 2..3 by 0; gap 3..5",
    ),
    (
        (2, 9, 8, &[(0, 0, Some(2)), (1, 8, Some(9))]),
        "full 2..8; gap 2..8",
    ),
    // nested ones and ones that overlap: the oldest that holds the last number
    (
        (0, 9, 9, &[(4, 1, None), (2, 3, Some(6))]),
        "index 1..9 by 4 full 0..1; gap 0..1",
    ),
    (
        (0, 9, 9, &[(4, 1, Some(6)), (2, 3, None)]),
        "index 3..9 by 2 index 1..3 by 4 full 0..1; gap 0..1",
    ),
    (
        (0, 9, 9, &[(4, 5, None), (2, 3, Some(8)), (1, 2, Some(5))]),
        "index 5..9 by 4 index 2..5 by 1 full 0..2; gap 0..2",
    ),
    // ties, in either order
    (
        (0, 9, 9, &[(7, 2, None), (5, 2, None), (6, 2, None)]),
        "index 2..9 by 5 full 0..2; gap 0..2",
    ),
    (
        (0, 9, 9, &[(5, 2, Some(8)), (7, 2, None)]),
        "index 2..9 by 7 full 0..2; gap 0..2",
    ),
    // empty intervals end no full piece
    (
        (
            0,
            9,
            9,
            &[(0, 7, Some(7)), (1, 2, Some(4)), (2, 4, Some(4))],
        ),
        "full 4..9 index 2..4 by 1 full 0..2; gap 4..9",
    ),
    // one number, and the greatest numbers
    ((0, 1, 1, &[(0, 0, Some(1))]), "index 0..1 by 0; none"),
    (
        (
            4_294_967_290,
            4_294_967_295,
            4_294_967_295,
            &[(255, 4_294_967_294, None)],
        ),
        "index 4294967294..4294967295 by 255 full 4294967290..4294967294; gap 4294967290..4294967294",
    ),
];

/// Ranges as one piece.
const WHOLE: &[((u32, u32), &str)] = &[
    ((0, 4_294_967_295), "full 0..4294967295; none"),
    ((7, 8), "full 7..8; none"),
    ((8, 8), "; none"),
    ((9, 8), "; none"),
];

fn put_piece(alloc: Global, told: &mut String, piece: &Piece) -> Result<(), AllocError> {
    let (from, to) = (piece.from(), piece.to());
    let text = match piece {
        Piece::Index { id, .. } => format!(in alloc; " index {from}..{to} by {id}")?,
        Piece::Full { .. } => format!(in alloc; " full {from}..{to}")?,
    };
    told.push_str(text.as_str())
}

/// The pieces, and the first full one below a number.
fn plan_told(alloc: Global, plan: &Plan, settled: u32) -> Result<String, AllocError> {
    let mut told = String::new(alloc);
    for piece in plan.pieces() {
        put_piece(alloc, &mut told, piece)?;
    }
    let pieces = told.as_str().trim_start();
    match plan.uncovered(settled) {
        Some(gap) => format!(in alloc; "{pieces}; gap {}..{}", gap.from, gap.to),
        None => format!(in alloc; "{pieces}; none"),
    }
}

fn intervals_of(alloc: Global, rows: &[(u16, u32, Option<u32>)]) -> Result<Intervals, AllocError> {
    let mut intervals = Intervals::new(alloc);
    for &(id, from, to) in rows {
        intervals.push(Interval { id, from, to })?;
    }
    Ok(intervals)
}

fn planned(alloc: Global, case: &Case) -> Result<String, AllocError> {
    let (from, settled, to, rows) = *case;
    let intervals = intervals_of(alloc, rows)?;
    if to < from {
        return String::from_str(alloc, "turned round");
    }
    let plan = plan(alloc, from, settled, to, intervals.as_slice())?;
    plan_told(alloc, &plan, settled)
}

#[test]
fn plans(rt: HostRuntime) -> Result<(), Fail> {
    expect_all(&rt, rt.alloc(), PLANS, planned)?;
    Ok(())
}

fn whole(alloc: Global, range: &(u32, u32)) -> Result<String, AllocError> {
    let plan = full(alloc, range.0, range.1)?;
    plan_told(alloc, &plan, 0)
}

#[test]
fn whole_ranges(rt: HostRuntime) -> Result<(), Fail> {
    expect_all(&rt, rt.alloc(), WHOLE, whole)?;
    Ok(())
}
