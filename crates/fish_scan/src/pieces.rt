//! A range is read piece by piece, newest first.

ghost use Rattle.std.specs.Prelude.{◌≡◌, ◌+◌, ◌≤◌, OnOk};
ghost use Rattle.fish_lang.specs.Definition.{definition_of};
ghost use Rattle.fish_plan.specs.Pieces.{Fill, piece_from, piece_to};
ghost use Rattle.fish_rule.specs.Logs.{Extends};
ghost use Rattle.fish_rule.specs.Passes.{IsPassOf, view};
ghost use Rattle.fish_scan.specs.Parses.{HasParsed};
ghost use Rattle.fish_scan.specs.within.Parses.{HasParsedPiece};
ghost use Rattle.fish_scan.specs.within.Pieces.{AreReadable, IsReadable, full_numbers, full_size};
ghost use Rattle.fish_scan.specs.within.Reach.{IsReached, first_in};
ghost use Rattle.fish_scan.specs.within.Reading.{Adds};
ghost use Rattle.fish_scan.specs.within.Work.{ArePiecesWork, IsPieceWork};

use crate::indexed::read_indexed;
use crate::matching::Query;
use crate::reading::read_stretch;
use fish_plan::{Piece, Stretch};
use fish_psf::Steps;
use fish_read::RecordReader;
use fish_rule::{Log, Pass};
use fish_value::Rows;
use std::alloc::{AllocError, Global};
use std::sync::ledger::Ledger;

/// Puts the records of the pieces, which fill what of the range is in the table, that have the value after the rows,
/// newest first.
pub(crate) fn read_pieces<P: Ledger, L: Ledger>(
    alloc: Global,
    log: &Log,
    pass: &mut Pass,
    reader: &mut RecordReader,
    query: &Query,
    pieces: &[Piece],
    rows: &mut Rows,
    parses: &mut Steps<P>,
    loads: &mut Steps<L>,
) -> Result<(), AllocError>
    requires pass { IsPassOf log.now pass.old }
    requires reached { IsReached (view pass.old) query.now.reach }
    requires fill { Fill pieces.now (first_in log.now.key query.now.reach) query.now.reach.to }
    requires readable { AreReadable (view pass.old) (definition_of query.now.def) query.now.reach pieces.now }
    ensures pass { IsPassOf log.now pass.new }
    ensures extends { Extends (view pass.old) (view pass.new) }
    ensures rows { OnOk result (Adds (view pass.new) (definition_of query.now.def) query.now.value
        (first_in log.now.key query.now.reach) query.now.reach.to query.now.reach.opens rows.old rows.new) }
    ensures parses { OnOk result (HasParsed (view pass.new) query.now.reach.opens pieces.now
        (first_in log.now.key query.now.reach) query.now.reach.to parses.old parses.new) }
    ensures few { parses.new ≤ parses.old + full_numbers pieces.now }
    ensures loads { OnOk result (ArePiecesWork (view pass.old) (view pass.new) query.now.value query.now.reach.opens
        rows.new pieces.now loads.old loads.new) }
{
    for piece in pieces {
        read_piece(alloc, log, pass, reader, query, piece, rows, parses, loads)?;
    }
    Ok(())
}

/// Puts the records of a piece that have the value after the rows, newest first.
fn read_piece<P: Ledger, L: Ledger>(
    alloc: Global,
    log: &Log,
    pass: &mut Pass,
    reader: &mut RecordReader,
    query: &Query,
    piece: &Piece,
    rows: &mut Rows,
    parses: &mut Steps<P>,
    loads: &mut Steps<L>,
) -> Result<(), AllocError>
    requires pass { IsPassOf log.now pass.old }
    requires reached { IsReached (view pass.old) query.now.reach }
    requires base { (view pass.old).about.number ≤ piece_from piece.now }
    requires readable { IsReadable (view pass.old) (definition_of query.now.def) query.now.reach piece.now }
    ensures pass { IsPassOf log.now pass.new }
    ensures extends { Extends (view pass.old) (view pass.new) }
    ensures rows { OnOk result (Adds (view pass.new) (definition_of query.now.def) query.now.value
        (piece_from piece.now) (piece_to piece.now) query.now.reach.opens rows.old rows.new) }
    ensures parses { OnOk result (HasParsedPiece (view pass.new) query.now.reach.opens piece.now parses.old
        parses.new) }
    ensures few { parses.new ≤ parses.old + full_size piece.now }
    ensures loads { OnOk result (IsPieceWork (view pass.old) (view pass.new) query.now.value query.now.reach.opens
        rows.new piece.now loads.old loads.new) }
{
    let stretch = Stretch {
        from: piece.from(),
        to: piece.to(),
    };
    match piece {
        Piece::Index { id, .. } => {
            read_indexed(alloc, log, pass, query, *id, &stretch, rows, loads)
        }
        Piece::Full { .. } => {
            read_stretch(
                alloc, log, pass, reader, query, &stretch, rows, parses, loads,
            )
        }
    }
}
