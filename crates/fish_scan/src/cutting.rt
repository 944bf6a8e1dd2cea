//! The pieces of a plan are cut where the table begins: what is below is read from the file.

ghost use Rattle.std.specs.Prelude.{◌≡◌, ◌++◌, [], IfOk, OnOk};
ghost use Rattle.std.specs.List.{cons_option};
ghost use Rattle.fish_scan.specs.Cutting.{above_of, below_of, piece_with_ends, pieces_above, pieces_below};

use fish_plan::Piece;
use std::alloc::{AllocError, Global};

/// What of the pieces is on each side of a number.
#[derive(Drop)]
pub(crate) struct Cut {
    /// What is at or past it.
    pub above: Vec<Piece>,
    /// What is below it.
    pub below: Vec<Piece>,
}

/// The pieces are cut at a number.
pub(crate) fn cut_at(alloc: Global, pieces: &[Piece], base: u32) -> Result<Cut, AllocError>
    ensures above { IfOk result (λ cut. cut.above.items ≡ pieces_above base pieces.now) }
    ensures below { IfOk result (λ cut. cut.below.items ≡ pieces_below base pieces.now) }
{
    let mut above = Vec::new(alloc);
    let mut below = Vec::new(alloc);
    for piece in pieces {
        add_part(part_from(piece, base), &mut above)?;
        add_part(part_before(piece, base), &mut below)?;
    }
    Ok(Cut { above, below })
}

/// Puts a part after the others, if it is one.
fn add_part(part: Option<Piece>, cut: &mut Vec<Piece>) -> Result<(), AllocError>
    ensures { OnOk result (cut.new.items ≡ cut.old.items ++ cons_option part []) }
{
    if let Some(part) = part {
        cut.push(part)?;
    }
    Ok(())
}

/// What of a piece is at or past a number, if anything is.
fn part_from(piece: &Piece, base: u32) -> Option<Piece>
    ensures { result ≡ above_of base piece.now }
{
    if piece.to() <= base {
        return None;
    }
    let (from, to) = (piece.from().max(base), piece.to());
    Some(with_ends(piece, from, to))
}

/// What of a piece is below a number, if anything is.
fn part_before(piece: &Piece, base: u32) -> Option<Piece>
    ensures { result ≡ below_of base piece.now }
{
    if base <= piece.from() {
        return None;
    }
    let (from, to) = (piece.from(), piece.to().min(base));
    Some(with_ends(piece, from, to))
}

/// The piece with other ends.
fn with_ends(piece: &Piece, from: u32, to: u32) -> Piece
    ensures { result ≡ piece_with_ends piece.now from to }
{
    match piece {
        Piece::Index { id, .. } => Piece::Index { id: *id, from, to },
        Piece::Full { .. } => Piece::Full { from, to },
    }
}
