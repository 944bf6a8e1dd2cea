//! Plans of ranges that begin below a log's first number: nine older records, of which an index holds the last six.

ghost use Rattle.std.specs.Prelude.{All, IfOk};
ghost use Rattle.fish_catalog.specs.Clamps.{IsClamped};
ghost use Rattle.fish_epoch.specs.Definitions.{IsDefsOf};
ghost use Rattle.fish_rule.specs.Passes.{IsPassOf, view};
ghost use Rattle.tests_store.specs.Flushing.{IsOutOf};

use crate::across::{Question, ask_of, opened_at, put_piece};
use crate::flushing::definitions;
use crate::told::expect_all;
use fish_catalog::Catalog;
use fish_epoch::Defs;
use fish_rule::{Base, Log, Pass};
use fish_scan::{Ask, Explained, How, ScanRefusal, explain};
use std::alloc::{AllocError, Global};
use std::fmt::Write;
use std::test::Fail;

/// The range and the plan, or why there is none.
const CASES: &[(Question, &str)] = &[
    ((How::Auto, None, None), "0..9 index 3..9 by 0 full 0..3"),
    ((How::Full, None, None), "0..9 full 0..9"),
    ((How::Index, None, None), "no index holds the numbers 0..3"),
    (
        (How::Index, Some(2), Some(8)),
        "no index holds the numbers 2..3",
    ),
    ((How::Index, Some(3), None), "3..9 index 3..9 by 0"),
    (
        (How::Auto, Some(1), Some(5)),
        "1..5 index 3..5 by 0 full 1..3",
    ),
    ((How::Auto, None, Some(3)), "0..3 full 0..3"),
    ((How::Auto, Some(9), None), "9..9"),
];

/// The definition, whose index begins at 3.
fn clamped(alloc: Global) -> Result<Catalog, AllocError>
    ensures { IfOk result (λ catalog. All (IsClamped 9) catalog) }
{
    let mut rows = definitions(alloc, 3)?;
    rows.clamp(9);
    Ok(rows)
}

/// A log that begins after nine records of two lines each.
fn opened(alloc: Global) -> Result<(Log, Pass), AllocError>
    ensures { IfOk result (λ r. IsOutOf r.0 r.1) }
{
    let base = Base {
        number: 9,
        line: 18,
    };
    opened_at(alloc, base, clamped(alloc)?)
}

fn plan_told(alloc: Global, explained: &Explained) -> Result<String, AllocError> {
    let mut told = format!(in alloc; "{}..{}", explained.from, explained.to)?;
    for piece in explained.plan.pieces() {
        put_piece(&mut told, piece)?;
    }
    Ok(told)
}

fn answer_told(
    alloc: Global,
    explained: Result<Explained, ScanRefusal>,
) -> Result<String, AllocError> {
    match explained {
        Ok(explained) => {
            let told = plan_told(alloc, &explained);
            drop(explained);
            told
        }
        Err(refusal) => format!(in alloc; "{refusal}"),
    }
}

/// Asks, with nothing read of the definitions.
fn explained(alloc: Global, log: &Log, pass: &mut Pass, ask: &Ask) -> Result<Explained, ScanRefusal>
    requires { IsPassOf log.now pass.old }
{
    let mut defs = Defs::new(alloc);
    let explained = explain(alloc, log, pass, &mut defs, ask);
    drop(defs);
    explained
}

fn log_told(alloc: Global, ask: &Ask) -> Result<String, AllocError> {
    let (log, mut pass) = opened(alloc)?;
    let answer = explained(alloc, &log, &mut pass, ask);
    drop((log, pass));
    answer_told(alloc, answer)
}

fn case_told(alloc: Global, question: &Question) -> Result<String, AllocError> {
    let ask = ask_of(alloc, question)?;
    let told = log_told(alloc, &ask);
    drop(ask);
    told
}

#[test]
fn plans_across_the_base(rt: HostRuntime) -> Result<(), Fail> {
    expect_all(&rt, rt.alloc(), CASES, case_told)?;
    Ok(())
}
