//! Scans of a pass between two records, and what they answer as texts.

ghost use Rattle.std.specs.Prelude.{◌≡◌, ◌<◌};
ghost use Rattle.fish_epoch.specs.Definitions.{IsDefsOf};
ghost use Rattle.fish_ingest.specs.Ingestion.{CanIngest};
ghost use Rattle.fish_psf.specs.Blanks.{IsBlankOf};
ghost use Rattle.fish_rule.specs.Passes.{IsPassOf, view};
ghost use Rattle.fish_scan.specs.Scans.{OnlyScans};

use crate::cause::Cause;
use fish_epoch::Defs;
use fish_plan::{Piece, Plan};
use fish_psf::Steps;
use fish_rule::{Log, Pass};
use fish_scan::{Answer, Ask, Explained, ScanRefusal, explain, scan};
use std::alloc::{AllocError, Global};
use std::fmt::Write;
use std::marker::Brand;
use std::sync::ledger::{Blank, Ledger};

/// What a scan answers, with counters of two blanks.
fn scanned<P: Ledger, L: Ledger>(
    alloc: Global,
    parses: Blank,
    loads: Blank,
    log: &Log,
    pass: &mut Pass,
    defs: &mut Defs,
    ask: &Ask,
) -> Result<Answer, ScanRefusal>
    requires parses { IsBlankOf P.name P.parts parses }
    requires loads { IsBlankOf L.name L.parts loads }
    requires pass { IsPassOf log.now pass.old }
    requires defs { IsDefsOf (view pass.old) defs.old }
    ensures pass { IsPassOf log.now pass.new }
    ensures only { OnlyScans (view pass.old) (view pass.new) }
    ensures defs { IsDefsOf (view pass.new) defs.new }
{
    let mut parses = Steps::<P>::new(parses);
    let mut loads = Steps::<L>::new(loads);
    scan(alloc, log, pass, defs, ask, &mut parses, &mut loads)
}

/// What a scan answers a pass between two records.
pub(crate) fn scan_between(
    alloc: Global,
    log: &Log,
    pass: &mut Pass,
    defs: &mut Defs,
    ask: &Ask,
) -> Result<Answer, ScanRefusal>
    requires { CanIngest log.now pass.old defs.old }
    ensures ready { CanIngest log.now pass.new defs.new }
    ensures only { OnlyScans (view pass.old) (view pass.new) }
{
    scanned::<Brand, Brand>(alloc, Blank::new(1), Blank::new(1), log, pass, defs, ask)
}

/// How a scan between two records would read its range.
fn explain_between(
    alloc: Global,
    log: &Log,
    pass: &mut Pass,
    defs: &mut Defs,
    ask: &Ask,
) -> Result<Explained, ScanRefusal>
    requires { CanIngest log.now pass.old defs.old }
    ensures ready { CanIngest log.now pass.new defs.new }
    ensures only { OnlyScans (view pass.old) (view pass.new) }
{
    explain(alloc, log, pass, defs, ask)
}

/// A piece of a plan as a text after others.
fn push_piece(text: &mut String, piece: Piece) -> Result<(), Cause> {
    match piece {
        Piece::Index { id, from, to } => Ok(write!(text, " index {from}..{to} by {id}")?),
        Piece::Full { from, to } => Ok(write!(text, " full {from}..{to}")?),
    }
}

/// A plan as a text: its range and its pieces, newest first.
fn told_plan(alloc: Global, from: u32, to: u32, plan: &Plan) -> Result<String, Cause> {
    let mut text = format!(in alloc; "{from}..{to}")?;
    for piece in plan.pieces() {
        push_piece(&mut text, *piece)?;
    }
    Ok(text)
}

/// An answer as a text: its plan, and its records.
fn told_answer(alloc: Global, answer: &Answer) -> Result<String, Cause> {
    let mut text = told_plan(alloc, answer.from, answer.to, &answer.plan)?;
    for row in answer.rows.as_slice() {
        write!(text, "; {} {}", row.number, row.payload.as_str())?;
    }
    Ok(text)
}

/// What a scan answers, as a text.
pub(crate) fn told_scan(
    alloc: Global,
    log: &Log,
    pass: &mut Pass,
    defs: &mut Defs,
    ask: &Ask,
) -> Result<String, Cause>
    requires { CanIngest log.now pass.old defs.old }
    ensures ready { CanIngest log.now pass.new defs.new }
    ensures only { OnlyScans (view pass.old) (view pass.new) }
{
    match scan_between(alloc, log, pass, defs, ask) {
        Ok(answer) => {
            let text = told_answer(alloc, &answer);
            drop(answer);
            text
        }
        Err(refusal) => Ok(format!(in alloc; "{refusal}")?),
    }
}

/// How a scan would read its range, as a text.
pub(crate) fn told_explain(
    alloc: Global,
    log: &Log,
    pass: &mut Pass,
    defs: &mut Defs,
    ask: &Ask,
) -> Result<String, Cause>
    requires { CanIngest log.now pass.old defs.old }
    ensures ready { CanIngest log.now pass.new defs.new }
    ensures only { OnlyScans (view pass.old) (view pass.new) }
{
    match explain_between(alloc, log, pass, defs, ask) {
        Ok(explained) => {
            let text = told_plan(alloc, explained.from, explained.to, &explained.plan);
            drop(explained);
            text
        }
        Err(refusal) => Ok(format!(in alloc; "{refusal}")?),
    }
}
