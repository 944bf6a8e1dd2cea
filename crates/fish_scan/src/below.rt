//! The part of a range below the base is read from the file piece by piece, newest first.

ghost use Rattle.std.specs.Prelude.{◌≡◌, ◌+◌, ◌≤◌, IfErr, OnOk};
ghost use Rattle.fish_cold.specs.within.Caching.{IsColdUndamaged};
ghost use Rattle.fish_cold.specs.Carries.{CarriesTable};
ghost use Rattle.fish_lang.specs.Definition.{definition_of};
ghost use Rattle.fish_plan.specs.Pieces.{Fill, piece_from};
ghost use Rattle.fish_rule.specs.Logs.{Extends};
ghost use Rattle.fish_rule.specs.Passes.{IsPassOf, view};
ghost use Rattle.fish_scan.specs.within.Below.{HasReadBelow, HasReadPiece};
ghost use Rattle.fish_scan.specs.Colder.{IsBelow, StaysCold};
ghost use Rattle.fish_scan.specs.within.Colder.{IsDamageIn, IsFaultOf};
ghost use Rattle.fish_scan.specs.within.Cutting.{AreOlderReadable, IsOlderReadable, last_below};

use crate::chained::read_chain;
use crate::matching::Query;
use crate::older::read_older;
use fish_cold::{Cold, ColdRefusal};
use fish_disk::Disk;
use fish_plan::{Piece, Stretch};
use fish_psf::Steps;
use fish_read::RecordReader;
use fish_rule::{Log, Pass};
use fish_value::Rows;
use std::alloc::Global;
use std::sync::ledger::Ledger;

/// Puts the records of the pieces, which fill what of the range is below the base, that have the value after the rows,
/// newest first.
pub(crate) fn read_below<D: Disk, P: Ledger, L: Ledger>(
    alloc: Global,
    log: &Log,
    pass: &mut Pass,
    reader: &mut RecordReader,
    query: &Query,
    pieces: &[Piece],
    cold: &mut Cold,
    disk: &mut D,
    rows: &mut Rows,
    parses: &mut Steps<P>,
    loads: &mut Steps<L>,
) -> Result<(), ColdRefusal>
    requires pass { IsPassOf log.now pass.old }
    requires base { IsBelow log.now.key cold.old }
    requires fill { Fill pieces.now query.now.reach.from (last_below log.now.key query.now.reach) }
    requires readable { AreOlderReadable (view pass.old) (definition_of query.now.def) log.now.key.number pieces.now }
    ensures pass { IsPassOf log.now pass.new }
    ensures extends { Extends (view pass.old) (view pass.new) }
    ensures cold { StaysCold D.Disk cold.old cold.new disk.old disk.new }
    ensures read { OnOk result ((h : CarriesTable (D.content disk.new) log.now.key cold.old) → HasReadBelow h.prior
        (view pass.old) (view pass.new) (definition_of query.now.def) query.now.value pieces.now query.now.reach.from
        (last_below log.now.key query.now.reach) rows.old rows.new parses.old parses.new loads.old loads.new) }

    ensures fault { IsFaultOf (D.faults disk.old) (D.faults disk.new) result }
    ensures damage { IfErr result (IsDamageIn query.now.reach.from log.now.key.number) }
    ensures whole { (h : CarriesTable (D.content disk.new) log.now.key cold.old) → IfErr result IsColdUndamaged }
{
    for piece in pieces {
        read_older_piece(
            alloc, log, pass, reader, query, piece, cold, disk, rows, parses, loads,
        )?;
    }
    Ok(())
}

/// Puts the records of a piece below the base that have the value after the rows, newest first.
fn read_older_piece<D: Disk, P: Ledger, L: Ledger>(
    alloc: Global,
    log: &Log,
    pass: &mut Pass,
    reader: &mut RecordReader,
    query: &Query,
    piece: &Piece,
    cold: &mut Cold,
    disk: &mut D,
    rows: &mut Rows,
    parses: &mut Steps<P>,
    loads: &mut Steps<L>,
) -> Result<(), ColdRefusal>
    requires pass { IsPassOf log.now pass.old }
    requires base { IsBelow log.now.key cold.old }
    requires readable { IsOlderReadable (view pass.old) (definition_of query.now.def) log.now.key.number piece.now }
    ensures pass { IsPassOf log.now pass.new }
    ensures extends { Extends (view pass.old) (view pass.new) }
    ensures cold { StaysCold D.Disk cold.old cold.new disk.old disk.new }
    ensures read { OnOk result ((h : CarriesTable (D.content disk.new) log.now.key cold.old) → HasReadPiece h.prior
        (view pass.old) (view pass.new) (definition_of query.now.def) query.now.value piece.now rows.old rows.new
        parses.old parses.new loads.old loads.new) }

    ensures fault { IsFaultOf (D.faults disk.old) (D.faults disk.new) result }
    ensures damage { IfErr result (IsDamageIn (piece_from piece.now) log.now.key.number) }
    ensures whole { (h : CarriesTable (D.content disk.new) log.now.key cold.old) → IfErr result IsColdUndamaged }
{
    let stretch = Stretch {
        from: piece.from(),
        to: piece.to(),
    };
    match piece {
        Piece::Index { id, .. } => {
            read_chain(log, pass, query, *id, &stretch, cold, disk, rows, loads)
        }
        Piece::Full { .. } => {
            read_older(
                alloc, reader, query, &stretch, cold, disk, rows, parses, loads,
            )
        }
    }
}
