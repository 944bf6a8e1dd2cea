//! A record whose claim, words and publication are calls of their own.
//!
//! What can't be fails as if memory ran out.

ghost use Rattle.std.specs.Prelude.{◌≡◌, ◌<◌, IfOk, None, ℕ};
ghost use Rattle.fish_ingest.specs.Preparation.{AreDefs};
ghost use Rattle.fish_ingest.specs.Preparation.{IsOrigin, IsPreparedFor};
ghost use Rattle.fish_ingest.specs.Ingestion.{CanStart};
ghost use Rattle.fish_ingest.specs.Placement.{CanWrite};
ghost use Rattle.fish_psf.specs.Blanks.{IsBlankOf};
ghost use Rattle.fish_rule.specs.within.Keys.{AreActive};
ghost use Rattle.fish_rule.specs.Passes.{IsPassOf, view};
ghost use Rattle.fish_rule.specs.declared.view.Flight.{Flight};

use fish_claim::{Claimed, claim, publish};
use fish_epoch::enter;
use fish_ingest::{IngestRefusal, Origin, Prepared, prepare, write_record};
use fish_psf::{ActiveDef, Steps, parse};
use fish_rule::{Log, Pass, in_flight, is_shut, lane};
use fish_value::Form;
use std::alloc::{AllocError, Global};
use std::marker::Brand;
use std::sync::ledger::{Blank, Ledger};

/// Parses a payload, and makes the record that it is, with a counter of a blank.
fn prepared_with<P: Ledger>(
    alloc: Global,
    blank: Blank,
    defs: &[ActiveDef],
    origin: Origin,
    payload: &[u8],
) -> Result<Prepared, IngestRefusal>
    requires blank { IsBlankOf P.name P.parts blank }
    requires defs { AreDefs defs.now }
    requires origin { IsOrigin origin }
    ensures { IfOk result (IsPreparedFor defs.now origin payload.now) }
{
    let mut parses = Steps::<P>::new(blank);
    let found = parse(alloc, origin.form, payload, &mut parses)?;
    let made = prepare(alloc, defs, origin, &found, payload);
    drop(found);
    Ok(made?)
}

/// The same with a counter of its own.
pub(crate) fn prepared(
    alloc: Global,
    defs: &[ActiveDef],
    origin: Origin,
    payload: &[u8],
) -> Result<Prepared, IngestRefusal>
    requires defs { AreDefs defs.now }
    requires origin { IsOrigin origin }
    ensures { IfOk result (IsPreparedFor defs.now origin payload.now) }
{
    prepared_with::<Brand>(alloc, Blank::new(1), defs, origin, payload)
}

/// Prepares a payload in JSON at version 0 and claims its lines. What was prepared, for its place.
pub(crate) fn claimed(
    alloc: Global,
    log: &Log,
    pass: &mut Pass,
    defs: &[ActiveDef],
    payload: &[u8],
) -> Result<Prepared, AllocError>
    requires pass { IsPassOf log.now pass.old }
    requires out { CanStart (view pass.old) }
    requires active { AreActive log.now.key.rows.value defs.now }
    requires defs { AreDefs defs.now }
    ensures pass { IsPassOf log.now pass.new }
    ensures placed { IfOk result (λ prepared. (f : Flight) × CanWrite (view pass.new) f prepared) }
    ensures lane { (view pass.new).lane ≡ (view pass.old).lane }
    ensures out { (view pass.new).out ≡ (view pass.old).out }
{
    let lane = lane(pass);
    if lane > 16 || in_flight(pass).is_some() || is_shut(pass).is_some() {
        return Err(AllocError);
    }
    let origin = Origin {
        lane,
        version: 0,
        form: Form::Json,
    };
    let Ok(prepared) = prepared(alloc, defs, origin, payload) else {
        return Err(AllocError);
    };
    let lines = prepared.lines();
    if lines < 1 || lines > 18_625 || enter(log, pass) != 0 {
        drop(prepared);
        return Err(AllocError);
    }
    match claim(log, pass, lines) {
        Claimed::Placed { .. } => Ok(prepared),
        _ => {
            drop(prepared);
            Err(AllocError)
        }
    }
}

/// Writes what was prepared for the record in flight, and publishes it.
pub(crate) fn publish_record(log: &Log, pass: &mut Pass, prepared: Prepared)
    requires pass { IsPassOf log.now pass.old }
    requires can { (f : Flight) × CanWrite (view pass.old) f prepared }
    ensures pass { IsPassOf log.now pass.new }
    ensures idle { (view pass.new).flight ≡ None }
    ensures lane { (view pass.new).lane ≡ (view pass.old).lane }
    ensures out { (view pass.new).out ≡ (view pass.old).out }
{
    write_record(log, pass, prepared);
    publish(log, pass);
}
