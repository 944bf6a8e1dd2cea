//! Numbers that are looked at one by one: each record is read once.

ghost use Rattle.std.specs.Prelude.{◌≡◌, ◌+◌, ◌<◌, ◌≤◌, ◌*◌, OnOk};
ghost use Rattle.fish_lang.specs.Definition.{definition_of};
ghost use Rattle.fish_rule.specs.Logs.{Extends};
ghost use Rattle.fish_rule.specs.Passes.{IsPassOf, view};
ghost use Rattle.fish_rule.specs.LoadSteps.{CanLookAt};
ghost use Rattle.fish_rule.specs.Views.{Among};
ghost use Rattle.fish_rule.specs.declared.view.Kind.TheVariants.{Stored};
ghost use Rattle.fish_scan.specs.within.Reach.{IsReached};
ghost use Rattle.fish_plan.specs.declared.pieces.Piece.TheVariants.{Full};
ghost use Rattle.fish_scan.specs.within.Parses.{HasParsedPiece};
ghost use Rattle.fish_scan.specs.within.Reading.{Adds};
ghost use Rattle.fish_scan.specs.within.Work.{IsFullWork};
ghost use Rattle.fish_walk.specs.Looks.{HasFound};

use crate::matching::{Query, matching};
use crate::reach::seen_at;
use fish_plan::Stretch;
use fish_psf::Steps;
use fish_read::RecordReader;
use fish_rule::{Log, Pass};
use fish_value::{Row, Rows};
use fish_walk::{Look, read_entry};
use std::alloc::{AllocError, Global};
use std::sync::ledger::Ledger;

/// Puts the records of a stretch that have the value after the rows, newest first. Looks at every number, and
/// reads each record once.
pub(crate) fn read_stretch<P: Ledger, L: Ledger>(
    alloc: Global,
    log: &Log,
    pass: &mut Pass,
    reader: &mut RecordReader,
    query: &Query,
    stretch: &Stretch,
    rows: &mut Rows,
    parses: &mut Steps<P>,
    loads: &mut Steps<L>,
) -> Result<(), AllocError>
    requires pass { IsPassOf log.now pass.old }
    requires reached { IsReached (view pass.old) query.now.reach }
    requires base { (view pass.old).about.number ≤ stretch.now.from }
    requires from { query.now.reach.from ≤ stretch.now.from }
    requires some { stretch.now.from ≤ stretch.now.to }
    requires to { stretch.now.to ≤ query.now.reach.to }
    ensures pass { IsPassOf log.now pass.new }
    ensures extends { Extends (view pass.old) (view pass.new) }
    ensures rows { OnOk result (Adds (view pass.new) (definition_of query.now.def) query.now.value stretch.now.from
        stretch.now.to query.now.reach.opens rows.old rows.new) }
    ensures parses { OnOk result (HasParsedPiece (view pass.new) query.now.reach.opens
        (Full stretch.now.from stretch.now.to) parses.old parses.new) }
    ensures few { parses.new + stretch.now.from ≤ parses.old + stretch.now.to }
    ensures loads { OnOk result (IsFullWork (view pass.old) (view pass.new) query.now.reach.opens stretch.now.from
        stretch.now.to loads.old loads.new) }
{
    let mut number = stretch.to;
    while number > stretch.from {
        number -= 1;
        read_at(alloc, log, pass, reader, query, number, rows, parses, loads)?;
    }
    Ok(())
}

/// Puts what stands at a number of the range after the rows, if it is a record that has the value.
fn read_at<P: Ledger, L: Ledger>(
    alloc: Global,
    log: &Log,
    pass: &mut Pass,
    reader: &mut RecordReader,
    query: &Query,
    number: u32,
    rows: &mut Rows,
    parses: &mut Steps<P>,
    loads: &mut Steps<L>,
) -> Result<(), AllocError>
    requires pass { IsPassOf log.now pass.old }
    requires reached { IsReached (view pass.old) query.now.reach }
    requires base { (view pass.old).about.number ≤ number }
    requires from { query.now.reach.from ≤ number }
    requires to { number < query.now.reach.to }
    ensures pass { IsPassOf log.now pass.new }
    ensures extends { Extends (view pass.old) (view pass.new) }
    ensures row { OnOk result (Adds (view pass.new) (definition_of query.now.def) query.now.value number (number + 1)
        query.now.reach.opens rows.old rows.new) }
    ensures parses { OnOk result (HasParsedPiece (view pass.new) query.now.reach.opens (Full number (number + 1))
        parses.old parses.new) }
    ensures few { parses.new ≤ parses.old + 1 }
    ensures loads { OnOk result (IsFullWork (view pass.old) (view pass.new) query.now.reach.opens number (number + 1)
        loads.old loads.new) }
{
    match seen_at(log, pass, &query.reach, number) {
        Look::Stored => read_number(alloc, log, pass, reader, query, number, rows, parses, loads),
        Look::Void | Look::Unfinished | Look::Overflow => Ok(()),
    }
}

/// Puts the record at a number after the rows, if it has the value.
fn read_number<P: Ledger, L: Ledger>(
    alloc: Global,
    log: &Log,
    pass: &mut Pass,
    reader: &mut RecordReader,
    query: &Query,
    number: u32,
    rows: &mut Rows,
    parses: &mut Steps<P>,
    loads: &mut Steps<L>,
) -> Result<(), AllocError>
    requires pass { IsPassOf log.now pass.old }
    requires look { CanLookAt (view pass.old) number }
    requires stored { HasFound (view pass.old) number Stored }
    requires finished { ¬ Among number query.now.reach.opens }
    ensures pass { IsPassOf log.now pass.new }
    ensures extends { Extends (view pass.old) (view pass.new) }
    ensures row { OnOk result (Adds (view pass.new) (definition_of query.now.def) query.now.value number (number + 1)
        query.now.reach.opens rows.old rows.new) }
    ensures parses { OnOk result (HasParsedPiece (view pass.new) query.now.reach.opens (Full number (number + 1))
        parses.old parses.new) }
    ensures few { parses.new ≤ parses.old + 1 }
    ensures loads { OnOk result (IsFullWork (view pass.old) (view pass.new) query.now.reach.opens number (number + 1)
        loads.old loads.new) }
{
    let entry = read_entry(alloc, log, pass, number, loads)?;
    if let Some(payload) = matching(alloc, reader, query, entry, parses)? {
        rows.push(Row { number, payload })?;
    }
    Ok(())
}
