//! A scan whose range may begin below the table: what is older is read from the store's file.

ghost use Rattle.std.specs.Prelude.{◌≤◌, ℕ, IfErr, IfOk, IfSome, OnOk};
ghost use Rattle.fish_cold.specs.within.Caching.{IsColdUndamaged};
ghost use Rattle.fish_cold.specs.Carries.{CarriesTable};
ghost use Rattle.fish_epoch.specs.Definitions.{IsDefsOf};
ghost use Rattle.fish_lang.specs.Definition.{definition_of};
ghost use Rattle.fish_plan.specs.Pieces.{Fill};
ghost use Rattle.fish_rule.specs.Logs.{Extends};
ghost use Rattle.fish_rule.specs.Passes.{IsPassOf, view};
ghost use Rattle.fish_rule.specs.Views.{Among};
ghost use Rattle.fish_scan.specs.Across.{IsAnswerWith, IsRefusedWith, IsUndamagedScan};
ghost use Rattle.fish_scan.specs.within.Across.{HasReadAcross};
ghost use Rattle.fish_scan.specs.Colder.{IsBelow, IsScanFault, StaysCold};
ghost use Rattle.fish_scan.specs.within.Colder.{IsDamageIn, IsFaultOf};
ghost use Rattle.fish_scan.specs.within.Pieces.{AreReadable};
ghost use Rattle.fish_scan.specs.within.Reach.{IsReached};
ghost use Rattle.fish_scan.specs.Scans.{IsExplained, OnlyScans};

use crate::ask::{Answer, Ask};
use crate::below::read_below;
use crate::cutting::cut_at;
use crate::matching::Query;
use crate::pieces::read_pieces;
use crate::refusal::ScanRefusal;
use crate::scanning::{answer_of, plan_scan};
use fish_cold::{Cold, ColdRefusal};
use fish_disk::Disk;
use fish_epoch::Defs;
use fish_plan::Piece;
use fish_psf::Steps;
use fish_read::RecordReader;
use fish_rule::{Log, Pass, base};
use fish_value::Rows;
use std::alloc::Global;
use std::sync::ledger::Ledger;

/// The same as [`scan`](crate::scan), for a range that may begin below the log's first number: what is older is read
/// from the disk that carries the log. What is at or past the first number is read from the log, as `scan` reads it.
///
/// The pieces of the plan are cut at the first number. Below it each record of a full piece is parsed exactly once, and
/// takes one load for each of its words; an index piece takes two for each entry of the value's bucket in the log, 38
/// for each one in the file of a number at or above its first, one for each word of the records that it gives, and
/// three more.
///
/// It is never refused for a range that begins below the log. `DiskFault` and `Damaged` come last: the disk failed, or
/// what it has below the first number is no log.
pub fn scan_with<D: Disk, P: Ledger, L: Ledger>(
    alloc: Global,
    log: &Log,
    pass: &mut Pass,
    defs: &mut Defs,
    ask: &Ask,
    cold: &mut Cold,
    disk: &mut D,
    parses: &mut Steps<P>,
    loads: &mut Steps<L>,
) -> Result<Answer, ScanRefusal>
    requires pass { IsPassOf log.now pass.old }
    requires defs { IsDefsOf (view pass.old) defs.old }
    requires base { IsBelow log.now.key cold.old }
    ensures pass { IsPassOf log.now pass.new }
    ensures only { OnlyScans (view pass.old) (view pass.new) }
    ensures defs { IsDefsOf (view pass.new) defs.new }
    ensures cold { StaysCold D.Disk cold.old cold.new disk.old disk.new }
    ensures explained { IfOk result (λ a. IsExplained (view pass.old) (view pass.new) defs.new.known ask.now a.from a.to
        a.opens a.plan) }
    ensures opened { IfOk result (λ a. (n : ℕ) → Among n a.opens → (view pass.new).about.number ≤ n) }
    ensures answer { IfOk result (λ answer. (h : CarriesTable (D.content disk.new) log.now.key cold.old) → IsAnswerWith
        h (view pass.old) (view pass.new) defs.new.known ask.now answer parses.old parses.new loads.old loads.new) }
    ensures kept { CarriesTable (D.content disk.old) log.now.key cold.old
        → IfSome (D.content disk.new) (λ _. CarriesTable (D.content disk.new) log.now.key cold.new) }

    ensures refused { IfErr result (IsRefusedWith (view pass.old) (view pass.new) defs.new.known ask.now) }
    ensures fault { IsScanFault (D.faults disk.old) (D.faults disk.new) result }
    ensures whole { (h : CarriesTable (D.content disk.new) log.now.key cold.old) → IfErr result IsUndamagedScan }
{
    let planned = plan_scan(alloc, log, pass, &mut defs.known, ask)?;
    let mut rows = Rows::new(alloc);
    let read = read_across(
        alloc,
        log,
        pass,
        &mut defs.reader,
        &planned.query,
        planned.plan.pieces(),
        cold,
        disk,
        &mut rows,
        parses,
        loads,
    );
    match read {
        Ok(()) => Ok(answer_of(planned, rows)),
        Err(refusal) => {
            drop(planned);
            drop(rows);
            Err(ScanRefusal::from(refusal))
        }
    }
}

/// Puts the records of the pieces, which fill the range, that have the value after the rows, newest first: those in the
/// table, and after them the older ones.
fn read_across<D: Disk, P: Ledger, L: Ledger>(
    alloc: Global,
    log: &Log,
    pass: &mut Pass,
    reader: &mut RecordReader,
    query: &Query,
    pieces: &[Piece],
    cold: &mut Cold,
    disk: &mut D,
    rows: &mut Rows,
    parses: &mut Steps<P>,
    loads: &mut Steps<L>,
) -> Result<(), ColdRefusal>
    requires pass { IsPassOf log.now pass.old }
    requires base { IsBelow log.now.key cold.old }
    requires reached { IsReached (view pass.old) query.now.reach }
    requires fill { Fill pieces.now query.now.reach.from query.now.reach.to }
    requires readable { AreReadable (view pass.old) (definition_of query.now.def) query.now.reach pieces.now }
    ensures pass { IsPassOf log.now pass.new }
    ensures extends { Extends (view pass.old) (view pass.new) }
    ensures cold { StaysCold D.Disk cold.old cold.new disk.old disk.new }
    ensures read { OnOk result ((h : CarriesTable (D.content disk.new) log.now.key cold.old) → HasReadAcross h
        (view pass.old) (view pass.new) query.now pieces.now rows.old rows.new parses.old parses.new loads.old
        loads.new) }

    ensures fault { IsFaultOf (D.faults disk.old) (D.faults disk.new) result }
    ensures damage { IfErr result (IsDamageIn query.now.reach.from log.now.key.number) }
    ensures whole { (h : CarriesTable (D.content disk.new) log.now.key cold.old) → IfErr result IsColdUndamaged }
{
    let cut = cut_at(alloc, pieces, base(log).number)?;
    read_pieces(
        alloc,
        log,
        pass,
        reader,
        query,
        cut.above.as_slice(),
        rows,
        parses,
        loads,
    )?;
    read_below(
        alloc,
        log,
        pass,
        reader,
        query,
        cut.below.as_slice(),
        cold,
        disk,
        rows,
        parses,
        loads,
    )
}
