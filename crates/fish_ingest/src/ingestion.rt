//! Ingesting a payload: in one call, or in two halves between which the record is in flight.

ghost use Rattle.std.specs.Prelude.{◌≡◌, ◌↔◌, ◌<◌, ◌≤◌, IfErr, IfOk, IsErrOf, None, OnErr, Some, length};
ghost use Rattle.fish_epoch.specs.Definitions.{IsDefsOf, IsKnownOf};
ghost use Rattle.fish_ingest.specs.Ingestion.{CanIngest, CanStart, HasIngested, HasStarted, IsPending};
ghost use Rattle.fish_ingest.specs.within.Ingestion.{CanPlaceFor};
ghost use Rattle.fish_ingest.specs.Laws.{FullAgrees, FullFollows, IngestedAscend, IngestedIsClosed};
ghost use Rattle.fish_ingest.specs.Placement.{pending_number};
ghost use Rattle.fish_ingest.specs.Preparation.{IsPayloadRead};
ghost use Rattle.fish_ingest.specs.Refusal.{HasNotClaimed, HasRefused, IsIngestCause};
ghost use Rattle.fish_ingest.specs.within.Refusal.{IsEarly, IsLateRefusal};
ghost use Rattle.fish_ingest.specs.declared.refusal.IngestRefusal.TheVariants as refusal;
ghost use Rattle.fish_psf.specs.Blanks.{IsBlankOf};
ghost use Rattle.fish_read.specs.Rows.{fields_in_row};
ghost use Rattle.fish_rule.specs.RegistrySteps.{after_retire};
ghost use Rattle.fish_rule.specs.Passes.{IsPassOf, view};
ghost use Rattle.fish_rule.specs.SpaceSteps.{after_publish_region};
ghost use Rattle.fish_rule.specs.declared.view.Flight.{Flight};
ghost use Rattle.fish_value.specs.Limits.{longest_payload};

use crate::placement::{Pending, place};
use crate::preparation::{ParsedPayload, Prepared, prepare_at};
use crate::refusal::IngestRefusal;
use fish_claim::publish;
use fish_epoch::{Defs, Known, enter, leave};
use fish_psf::Steps;
use fish_read::{RecordReader, RecordRow};
use fish_rule::{Log, Pass, is_shut};
use fish_value::Form;
use std::alloc::{AllocError, Global};
use std::marker::Brand;
use std::sync::ledger::{Blank, Ledger};

/// Stores a payload, links its key entries and publishes it, and answers its number.
pub fn ingest(
    alloc: Global,
    log: &Log,
    pass: &mut Pass,
    defs: &mut Defs,
    form: Form,
    payload: &[u8],
) -> Result<u32, IngestRefusal>
    requires can { CanIngest log.now pass.old defs.old }
    ensures pass { IsPassOf log.now pass.new }
    ensures defs { IsDefsOf (view pass.new) defs.new }
    ensures ingested { IfOk result (λ number. HasIngested (view pass.old) form payload.now number (view pass.new)) }

    ensures too_long { IsErrOf result refusal.TooLong ↔ (longest_payload < length payload.now) }
    ensures cause { IfErr result (IsIngestCause form payload.now) }
    ensures refused { IfErr result (λ e. HasRefused (view pass.old) form payload.now e (view pass.new)) }
{
    let pending = start(alloc, log, pass, defs, form, payload)?;
    Ok(finish(log, pass, pending))
}

/// Stores a payload and links its key entries, and leaves it in flight: parses it, enters the
/// registry's version, evaluates the definitions that are active there, takes all memory, claims,
/// fills and links.
pub fn start(
    alloc: Global,
    log: &Log,
    pass: &mut Pass,
    defs: &mut Defs,
    form: Form,
    payload: &[u8],
) -> Result<Pending, IngestRefusal>
    requires can { CanIngest log.now pass.old defs.old }
    ensures pass { IsPassOf log.now pass.new }
    ensures defs { IsDefsOf (view pass.new) defs.new }
    ensures started { IfOk result (λ pending. HasStarted (view pass.old) form payload.now pending (view pass.new)) }

    ensures too_long { IsErrOf result refusal.TooLong ↔ (longest_payload < length payload.now) }
    ensures cause { IfErr result (IsIngestCause form payload.now) }
    ensures refused { IfErr result (λ e. HasRefused (view pass.old) form payload.now e (view pass.new)) }
{
    let found = parse_once(alloc, &mut defs.reader, form, payload)?;
    if let Some(shut) = is_shut(pass) {
        return Err(IngestRefusal::from(shut));
    }
    let parsed = ParsedPayload {
        form,
        payload,
        found: &found,
    };
    start_parsed(alloc, log, pass, &mut defs.known, parsed)
}

/// Publishes the record that `start` left in flight, leaves, and answers its number. Takes no memory.
pub fn finish(log: &Log, pass: &mut Pass, pending: Pending) -> u32
    requires pass { IsPassOf log.now pass.old }
    requires pending { IsPending (view pass.old) pending }
    ensures pass { IsPassOf log.now pass.new }
    ensures view { (f : Flight) → (view pass.old).flight ≡ Some f
        → view pass.new ≡ after_retire (after_publish_region (view pass.old) f) }
    ensures number { result ≡ pending_number pending }
{
    let Pending { number: _ } = pending;
    let number = publish(log, pass);
    leave(log, pass);
    number
}

/// The first half of a payload that was read, by a pass that isn't shut.
fn start_parsed(
    alloc: Global,
    log: &Log,
    pass: &mut Pass,
    defs: &mut Known,
    parsed: ParsedPayload<'_, '_>,
) -> Result<Pending, IngestRefusal>
    requires pass { IsPassOf log.now pass.old }
    requires out { CanStart (view pass.old) }
    requires unshut { (view pass.old).shut ≡ None }
    requires defs { IsKnownOf (view pass.old) defs.old }
    requires read { IsPayloadRead parsed.form parsed.payload.now (fields_in_row parsed.found.now) }
    ensures pass { IsPassOf log.now pass.new }
    ensures defs { IsKnownOf (view pass.new) defs.new }
    ensures started { IfOk result (λ pending.
        HasStarted (view pass.old) parsed.entry.form parsed.entry.payload.now pending (view pass.new)) }

    ensures late { IfErr result IsLateRefusal }
    ensures refused { IfErr result (λ e.
        HasRefused (view pass.old) parsed.entry.form parsed.entry.payload.now e (view pass.new)) }
{
    let prepared = enter_prepared(alloc, log, pass, defs, parsed)?;
    match place(log, pass, prepared) {
        Ok(pending) => Ok(pending),
        Err(shut) => {
            leave(log, pass);
            Err(IngestRefusal::from(shut))
        }
    }
}

/// Enters, and makes the record that a payload is at that version. Leaves again where memory is short.
fn enter_prepared(
    alloc: Global,
    log: &Log,
    pass: &mut Pass,
    defs: &mut Known,
    parsed: ParsedPayload<'_, '_>,
) -> Result<Prepared, AllocError>
    requires pass { IsPassOf log.now pass.old }
    requires out { CanStart (view pass.old) }
    requires unshut { (view pass.old).shut ≡ None }
    requires defs { IsKnownOf (view pass.old) defs.old }
    requires read { IsPayloadRead parsed.form parsed.payload.now (fields_in_row parsed.found.now) }
    ensures pass { IsPassOf log.now pass.new }
    ensures defs { IsKnownOf (view pass.new) defs.new }
    ensures ready { IfOk result (λ prepared.
        CanPlaceFor (view pass.old) parsed.entry.form parsed.entry.payload.now prepared (view pass.new)) }

    ensures refused { OnErr result (HasNotClaimed (view pass.old) (view pass.new)) }
{
    let version = enter(log, pass);
    match prepare_at(alloc, log, pass, defs, version, parsed) {
        Ok(prepared) => Ok(prepared),
        Err(error) => {
            leave(log, pass);
            Err(error)
        }
    }
}

/// Reads a payload as a record of its form, with a counter of its own.
fn parse_once<'a>(
    alloc: Global,
    reader: &'a mut RecordReader,
    form: Form,
    payload: &'a [u8],
) -> Result<RecordRow<'a>, IngestRefusal>
    ensures read { IfOk result (λ found. IsPayloadRead form payload.now (fields_in_row found)) }
    ensures too_long { IsErrOf result refusal.TooLong ↔ (longest_payload < length payload.now) }
    ensures cause { IfErr result (λ e. IsIngestCause form payload.now e × IsEarly e) }
{
    parse_counted::<Brand>(alloc, reader, Blank::new(1), form, payload)
}

/// The same with a counter of a blank.
fn parse_counted<'a, L: Ledger>(
    alloc: Global,
    reader: &'a mut RecordReader,
    blank: Blank,
    form: Form,
    payload: &'a [u8],
) -> Result<RecordRow<'a>, IngestRefusal>
    requires blank { IsBlankOf L.name L.parts blank }
    ensures read { IfOk result (λ found. IsPayloadRead form payload.now (fields_in_row found)) }
    ensures too_long { IsErrOf result refusal.TooLong ↔ (longest_payload < length payload.now) }
    ensures cause { IfErr result (λ e. IsIngestCause form payload.now e × IsEarly e) }
{
    let mut parses = Steps::<L>::new(blank);
    Ok(reader.read(alloc, form, payload, &mut parses)?)
}

/// Once a log is closed, each payload that was ingested is the entry at its number, of its lane and
/// form; and of two ingests in a row the later has the greater number, so a lane's payloads stand in
/// the log in the order in which they were ingested.
///
/// Its contract is that law. No call of the program needs it.
pub fn law_ingested()
    ensures closed { IngestedIsClosed }
    ensures ascend { IngestedAscend }
{}

/// Refusals by a full log are compared by their lines alone, where one pass knows of both claims, as after a join of
/// the passes that were refused: those with one line asked for as many lines, and of others the lower ends at or before
/// the line of the other.
///
/// Its contract is that law. No call of the program needs it.
pub fn law_full()
    ensures agrees { FullAgrees }
    ensures follows { FullFollows }
{}
