//! Records without keys, of a claim of so many lines each.

ghost use Rattle.std.specs.Prelude.{◌≡◌, ◌<◌, ◌≤◌, ◌^◌, [], IfOk, IfSome, IsTrue};
ghost use Rattle.fish_claim.specs.within.Fills.{IsStorable};
ghost use Rattle.fish_layout.specs.Body.{IsBody};
ghost use Rattle.fish_layout.specs.declared.parts.BodyParts.{BodyParts};
ghost use Rattle.fish_psf.specs.Records.{is_record};
ghost use Rattle.fish_rule.specs.Passes.{IsPassOf, view};
ghost use Rattle.fish_rule.specs.declared.view.Epoch.TheVariants.{Confirmed};
ghost use Rattle.fish_rule.specs.declared.view.View.{View};
ghost use Rattle.tests_log.specs.Bodies.{IsPlainBody};

use crate::cause::Cause;
use fish_claim::{Claimed, claim, fill, publish};
use fish_epoch::enter;
use fish_json::JsonRecord;
use fish_layout::{Body, BodyParts, body_of};
use fish_rule::{Log, Pass, in_flight, is_shut, lane};
use fish_value::{Form, Sequence, Text};
use std::alloc::{AllocError, Global};

/// Writes an object in JSON that fills a record of so many lines: its words but for the header.
fn write_object(text: &mut String, lines: u64) -> Result<(), AllocError> {
    text.push_str("{\"p\":\"")?;
    for _ in 2..lines.saturating_mul(4) {
        text.push_str("payload ")?;
    }
    text.push_str("\"}")
}

/// That object.
pub(crate) fn object_of(alloc: Global, lines: u64) -> Result<Text, AllocError> {
    let mut text = String::new(alloc);
    match write_object(&mut text, lines) {
        Ok(()) => Ok(Text::from_string(text)),
        Err(error) => {
            drop(text);
            Err(error)
        }
    }
}

/// Whether a payload is a record in JSON.
#[tactic(auto, unfolding(fish_psf::specs::Records::is_record))]
fn is_json(alloc: Global, payload: &Text) -> bool
    ensures { IsTrue result → IsTrue (is_record Form.Json payload.now) }
{
    match JsonRecord::read(alloc, payload.as_bytes()) {
        Ok(found) => {
            drop(found);
            true
        }
        Err(_) => false,
    }
}

/// The words of a record with a payload and no keys, at version 0.
fn record_words(alloc: Global, lane: u8, number: u32, lines: u64) -> Result<Body, Cause>
    requires lane { (1 ≤ lane) × (lane ≤ 16) }
    requires number { number < 2 ^ 28 }
    requires lines { (0 < lines) × (lines ≤ 18625) }
    ensures { IfOk result (λ body. (p : BodyParts)
        × ((v : View) → v.lane ≡ lane → v.epoch ≡ Confirmed 0 → v.about.version ≡ 0 → v.about.rows.value ≡ []
        → IsStorable v number lines p)
        × (p.keys ≡ []) × IsBody p body) }
{
    let payload = object_of(alloc, lines)?;
    if payload.as_bytes().len() > 524_288 || !is_json(alloc, &payload) {
        return Err(Cause("no record"));
    }
    let parts = BodyParts {
        form: Form::Json,
        lane,
        version: 0,
        number,
        keys: Sequence::new(alloc),
        payload,
    };
    let body = body_of(alloc, &parts);
    drop(parts);
    let body = body?;
    if body.len() as u64 != lines * 4 {
        return Err(Cause("another length"));
    }
    Ok(body)
}

/// Enters version 0 and claims so many lines. What they became, and the words of a record where they
/// are its place.
pub(crate) fn claim_words(
    alloc: Global,
    log: &Log,
    pass: &mut Pass,
    lines: u64,
) -> Result<(Claimed, Option<Body>), Cause>
    requires pass { IsPassOf log.now pass.old }
    requires rows { log.now.key.rows.value ≡ [] }
    ensures pass { IsPassOf log.now pass.new }
    ensures words { IfOk result (λ r. IfSome r.1 (IsPlainBody (view pass.new))) }
{
    let lane = lane(pass);
    if lines < 1 || lines > 18_625 || lane < 1 || lane > 16 {
        return Err(Cause("no lines, or no lane"));
    }
    if in_flight(pass).is_some() || is_shut(pass).is_some() {
        return Err(Cause("no claim may be made"));
    }
    if enter(log, pass) != 0 {
        return Err(Cause("another version"));
    }
    let answer = claim(log, pass, lines);
    let Claimed::Placed { number, .. } = answer else {
        return Ok((answer, None));
    };
    if number >= 1 << 28 {
        return Err(Cause("too great a number"));
    }
    let body = record_words(alloc, lane, number, lines)?;
    Ok((answer, Some(body)))
}

/// Stores the words of the record in flight, and publishes it. Its number.
pub(crate) fn publish_words(log: &Log, pass: &mut Pass, words: &[u64]) -> u32
    requires pass { IsPassOf log.now pass.old }
    requires view { IsPlainBody (view pass.old) words.now }
    ensures { IsPassOf log.now pass.new }
{
    fill(log, pass, words);
    publish(log, pass)
}

/// Claims so many lines, and stores and publishes a record wherever one is placed.
pub(crate) fn store_lines(
    alloc: Global,
    log: &Log,
    pass: &mut Pass,
    lines: u64,
) -> Result<Claimed, Cause>
    requires pass { IsPassOf log.now pass.old }
    requires rows { log.now.key.rows.value ≡ [] }
    ensures { IsPassOf log.now pass.new }
{
    let (answer, words) = claim_words(alloc, log, pass, lines)?;
    if let Some(words) = words {
        let published = publish_words(log, pass, words.as_slice());
        if !is_place(answer, published) {
            return Err(Cause("another number"));
        }
    }
    Ok(answer)
}

/// Whether a claim got a place with this number.
fn is_place(answer: Claimed, published: u32) -> bool {
    match answer {
        Claimed::Placed { number, .. } => number == published,
        _ => false,
    }
}
