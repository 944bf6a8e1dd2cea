//! Scans, and how they would be answered.

ghost use Rattle.std.specs.Prelude.{◌≡◌, ◌≤◌, List, ℕ, IfErr, IfOk, MatchOption};
ghost use Rattle.fish_catalog.specs.Canonical.{IsCanonical};
ghost use Rattle.fish_epoch.specs.Definitions.{IsDefsOf, IsKnownOf};
ghost use Rattle.fish_rule.specs.Passes.{IsPassOf, view};
ghost use Rattle.fish_scan.specs.Parses.{HasParsed};
ghost use Rattle.fish_scan.specs.Scans.{AreEmptyEnds, IsAnswer, IsAsked, IsEmptyAsk, IsExplained};
ghost use Rattle.fish_scan.specs.within.Scans.{IsCold, IsPlannedScan, IsQuery};
ghost use Rattle.fish_scan.specs.Scans.{IsRefused, IsUnplanned, OnlyPlans, OnlyScans};
ghost use Rattle.fish_scan.specs.Work.{IsWork};
ghost use Rattle.fish_scan.specs.declared.refusal.ScanRefusal.TheVariants.{OutOfMemory};

use crate::ask::{Answer, Ask, Explained};
use crate::matching::Query;
use crate::naming::newest;
use crate::pieces::read_pieces;
use crate::planning::find_plan;
use crate::reach::{Reach, find_reach};
use crate::refusal::ScanRefusal;
use fish_catalog::parse_canonical;
use fish_epoch::{Defs, Known};
use fish_plan::{Plan, Stretch};
use fish_psf::Steps;
use fish_rule::{Log, Pass, base, load_version};
use fish_value::Rows;
use std::alloc::{AllocError, Global};
use std::sync::ledger::Ledger;

/// What is known before a record is read.
#[derive(Drop)]
pub(crate) struct PlannedScan {
    pub query: Query,
    pub plan: Plan,
}

/// The records of a range on which a definition has a value, newest first: exactly those of the answer's range, less
/// the numbers that it names as open. The name means its newest definition in the version that is loaded first,
/// active or not; `defs` then has that version.
///
/// Each stored record of the plan's full pieces that isn't open is parsed exactly once, as `parses` counts, and nothing
/// else is; it takes one load and one for each of its words. An index piece takes at most 38 loads for each entry of
/// the value's bucket at or above its first number, one for each word of the records that it gives, and two more.
///
/// Refused, in this order, where no definition of that version has the name, where both ends are asked for and no
/// number lies between, where the index is asked for and misses a settled number, and where the range begins below
/// the log's first number. Want of memory may come in place of each of these.
pub fn scan<P: Ledger, L: Ledger>(
    alloc: Global,
    log: &Log,
    pass: &mut Pass,
    defs: &mut Defs,
    ask: &Ask,
    parses: &mut Steps<P>,
    loads: &mut Steps<L>,
) -> Result<Answer, ScanRefusal>
    requires pass { IsPassOf log.now pass.old }
    requires defs { IsDefsOf (view pass.old) defs.old }
    ensures pass { IsPassOf log.now pass.new }
    ensures only { OnlyScans (view pass.old) (view pass.new) }
    ensures defs { IsDefsOf (view pass.new) defs.new }
    ensures answer { IfOk result (IsAnswer (view pass.old) (view pass.new) defs.new.known ask.now) }
    ensures refused { IfErr result (IsRefused (view pass.old) (view pass.new) defs.new.known ask.now) }
    ensures parses { IfOk result (λ answer. HasParsed (view pass.new) answer.opens answer.plan answer.from answer.to
        parses.old parses.new) }
    ensures loads { IfOk result (λ answer. IsWork (view pass.old) (view pass.new) ask.now.value answer loads.old
        loads.new) }
{
    let planned = plan_scan_in_table(alloc, log, pass, &mut defs.known, ask)?;
    let mut rows = Rows::new(alloc);
    let read = read_pieces(
        alloc,
        log,
        pass,
        &mut defs.reader,
        &planned.query,
        planned.plan.pieces(),
        &mut rows,
        parses,
        loads,
    );
    match read {
        Ok(()) => Ok(answer_of(planned, rows)),
        Err(refusal) => {
            drop(planned);
            drop(rows);
            Err(ScanRefusal::from(refusal))
        }
    }
}

/// The answer to what was planned, with the rows that were read.
pub(crate) fn answer_of(planned: PlannedScan, rows: Rows) -> Answer
    ensures { let reach = planned.query.reach in
        result ≡ record { from = reach.from; to = reach.to; opens = reach.opens; rows = rows; plan = planned.plan } }
{
    let PlannedScan { query, plan } = planned;
    let Query { def, value, reach } = query;
    drop(def);
    drop(value);
    let Reach {
        from,
        to,
        looks,
        opens,
        ..
    } = reach;
    drop(looks);
    Answer {
        from,
        to,
        opens,
        rows,
        plan,
    }
}

/// How a scan would read its range, which may begin below the log's first number, as for
/// [`scan_with`](crate::scan_with), and with the same refusals but for that. No record is read, and no word of the log
/// is loaded.
pub fn explain(
    alloc: Global,
    log: &Log,
    pass: &mut Pass,
    defs: &mut Defs,
    ask: &Ask,
) -> Result<Explained, ScanRefusal>
    requires pass { IsPassOf log.now pass.old }
    requires defs { IsDefsOf (view pass.old) defs.old }
    ensures pass { IsPassOf log.now pass.new }
    ensures only { OnlyPlans (view pass.old) (view pass.new) }
    ensures defs { IsDefsOf (view pass.new) defs.new }
    ensures explained { IfOk result (λ e. (opens : List ℕ) × IsExplained (view pass.old) (view pass.new) defs.new.known
        ask.now e.from e.to opens e.plan) }
    ensures refused { IfErr result (IsUnplanned (view pass.old) (view pass.new) defs.new.known ask.now) }
{
    let planned = plan_scan(alloc, log, pass, &mut defs.known, ask)?;
    Ok(explained_of(planned))
}

/// How what was planned would be read.
fn explained_of(planned: PlannedScan) -> Explained
    ensures { let reach = planned.query.reach in result ≡ record {
      from = reach.from;
      to = reach.to;
      plan = planned.plan;
    } }
{
    let PlannedScan { query, plan } = planned;
    let Query { def, value, reach } = query;
    drop(def);
    drop(value);
    let (from, to) = (reach.from, reach.to);
    drop(reach);
    Explained { from, to, plan }
}

/// What is known before a record is read, where the range doesn't begin below the log's first number.
fn plan_scan_in_table(
    alloc: Global,
    log: &Log,
    pass: &mut Pass,
    known: &mut Known,
    ask: &Ask,
) -> Result<PlannedScan, ScanRefusal>
    requires pass { IsPassOf log.now pass.old }
    requires known { IsKnownOf (view pass.old) known.old }
    ensures pass { IsPassOf log.now pass.new }
    ensures only { OnlyPlans (view pass.old) (view pass.new) }
    ensures known { IsKnownOf (view pass.new) known.new }
    ensures planned { IfOk result (IsPlannedScan (view pass.old) (view pass.new) known.new ask.now) }
    ensures base { IfOk result (λ p. log.now.key.number ≤ p.query.reach.from) }
    ensures refused { IfErr result (IsRefused (view pass.old) (view pass.new) known.new ask.now) }
{
    match plan_scan(alloc, log, pass, known, ask) {
        Ok(planned) => in_table(base(log).number, planned),
        Err(refusal) => Err(refusal),
    }
}

/// What was planned: refused where the range begins below the log's first number.
fn in_table(base: u32, planned: PlannedScan) -> Result<PlannedScan, ScanRefusal>
    ensures same { IfOk result (λ p. p ≡ planned) }
    ensures above { IfOk result (λ p. base ≤ p.query.reach.from) }
    ensures refused { IfErr result (IsCold base planned.query.reach.from) }
{
    if planned.query.reach.from < base {
        drop(planned);
        return Err(ScanRefusal::ColdRange { base });
    }
    Ok(planned)
}

/// Finds what the name means, how far the scan looks, and how it reads what it reaches, in this order.
pub(crate) fn plan_scan(
    alloc: Global,
    log: &Log,
    pass: &mut Pass,
    known: &mut Known,
    ask: &Ask,
) -> Result<PlannedScan, ScanRefusal>
    requires pass { IsPassOf log.now pass.old }
    requires known { IsKnownOf (view pass.old) known.old }
    ensures pass { IsPassOf log.now pass.new }
    ensures only { OnlyPlans (view pass.old) (view pass.new) }
    ensures known { IsKnownOf (view pass.new) known.new }
    ensures planned { IfOk result (IsPlannedScan (view pass.old) (view pass.new) known.new ask.now) }
    ensures refused { IfErr result (IsUnplanned (view pass.old) (view pass.new) known.new ask.now) }
{
    let position = find_row(log, pass, known, ask)?;
    let reach = find_reach(alloc, log, pass, ask.from.unwrap_or(0), ask.to)?;
    let text = known.rows()[position].def.as_bytes();
    match find_plan(alloc, log, pass, known.rows(), text, ask.how, &reach) {
        Ok(plan) => with_query(alloc, text, ask, reach, plan),
        Err(refusal) => {
            drop(reach);
            Err(refusal)
        }
    }
}

/// What is known where a plan was made.
fn with_query(
    alloc: Global,
    text: &[u8],
    ask: &Ask,
    reach: Reach,
    plan: Plan,
) -> Result<PlannedScan, ScanRefusal>
    requires { IsCanonical text.now }
    ensures query { IfOk result (λ p. IsQuery text.now ask.now reach p.query) }
    ensures plan { IfOk result (λ p. p.plan ≡ plan) }
    ensures refused { IfErr result (λ refusal. refusal ≡ OutOfMemory) }
{
    match query_of(alloc, text, ask, reach) {
        Ok(query) => Ok(PlannedScan { query, plan }),
        Err(refusal) => {
            drop(plan);
            Err(ScanRefusal::from(refusal))
        }
    }
}

/// The definition that a text is, the value that is asked for, and a range.
fn query_of(alloc: Global, text: &[u8], ask: &Ask, reach: Reach) -> Result<Query, AllocError>
    requires { IsCanonical text.now }
    ensures { IfOk result (IsQuery text.now ask.now reach) }
{
    match parse_canonical(alloc, text) {
        Ok(def) => match ask.value.again(alloc) {
            Ok(value) => Ok(Query { def, value, reach }),
            Err(refusal) => {
                drop(def);
                drop(reach);
                Err(refusal)
            }
        },
        Err(refusal) => {
            drop(reach);
            Err(refusal)
        }
    }
}

/// The place of the newest definition that has the name asked for, in the version that is loaded here.
fn find_row(log: &Log, pass: &mut Pass, known: &mut Known, ask: &Ask) -> Result<usize, ScanRefusal>
    requires pass { IsPassOf log.now pass.old }
    requires known { IsKnownOf (view pass.old) known.old }
    ensures pass { IsPassOf log.now pass.new }
    ensures only { OnlyPlans (view pass.old) (view pass.new) }
    ensures known { IsKnownOf (view pass.new) known.new }
    ensures asked { IfOk result (IsAsked (view pass.old) (view pass.new) known.new ask.now) }
    ensures tail { (view pass.new).tail ≡ (view pass.old).tail }
    ensures refused { IfErr result (IsUnplanned (view pass.old) (view pass.new) known.new ask.now) }
{
    let version = load_version(log, pass) as u16;
    known.refresh(log, pass, version)?;
    let Some(position) = newest(known.rows(), &ask.name) else {
        return Err(ScanRefusal::UnknownName { version });
    };
    if let Some(Stretch { from, to }) = empty_range(ask) {
        return Err(ScanRefusal::EmptyRange { from, to });
    }
    Ok(position)
}

/// The ends of a range that is asked for, where no number lies between them.
fn empty_range(ask: &Ask) -> Option<Stretch>
    ensures { MatchOption result (¬ IsEmptyAsk ask.now) (λ ends. AreEmptyEnds ask.now ends.from ends.to) }
{
    let Some(from) = ask.from else {
        return None;
    };
    let Some(to) = ask.to else {
        return None;
    };
    if from < to {
        return None;
    }
    Some(Stretch { from, to })
}
