//! The records of a file, stored by a lane's pass one after the other. Each line or row is read once.

ghost use Rattle.std.specs.Prelude.{◌≡◌, ◌≤◌, ◌+◌, length, IfOk, IfErr, MatchOption, OnErr};
ghost use Rattle.fish_epoch.specs.Definitions.{IsDefsOf};
ghost use Rattle.fish_ingest.specs.Ingestion.{CanIngest, CanStart, HasIngested};
ghost use Rattle.fish_ingest.specs.Refusal.{HasNotClaimed, HasRefused, IsIngestCause};
ghost use Rattle.fish_lanes.specs.within.Doing.{IsItem, IsPart};
ghost use Rattle.fish_lanes.specs.within.Pasts.{anywhere};
ghost use Rattle.fish_lanes.specs.within.Storing.{EndsWith, FindsFull, FindsTextFull, IsRecordText, IsPartStored};
ghost use Rattle.fish_lanes.specs.within.Storing.{TakesLine};
ghost use Rattle.fish_lanes.specs.within.Storing.{TakesText, item_of, nothing_stored};
ghost use Rattle.fish_lanes.specs.declared.work.Work.TheVariants as work;
ghost use Rattle.fish_lines.specs.Resuming.{outcomes_from};
ghost use Rattle.fish_lines.specs.Texts.{bytes_left, form_of_texts, payload_in_text, text_form, texts_left};
ghost use Rattle.fish_rule.specs.Passes.{IsPassOf, view};
ghost use Rattle.fish_value.specs.Limits.{longest_file};

use crate::gate::{Gate, Point};
use fish_csv::MAX_FILE;
use fish_epoch::Defs;
use fish_ingest::{IngestRefusal, finish, start};
use fish_lines::{Begin, RecordText, RecordTexts};
use fish_report::Item;
use fish_rule::{Log, Pass, Shut, lane};
use fish_value::{Form, Text};
use std::alloc::{AllocError, Global};

/// How many lines or rows of a file are stored, and how many are no record.
#[derive(Clone, Copy)]
pub(crate) struct Tally {
    pub stored: u32,
    pub refused: u32,
}

/// Stores the records of a file, up to the first one that finds the log full.
pub(crate) fn ingest_file<G: Gate>(
    alloc: Global,
    log: &Log,
    pass: &mut Pass,
    defs: &mut Defs,
    form: Form,
    begin: Begin,
    name: &Text,
    file: &[u8],
    gate: &G,
) -> Result<Item, AllocError>
    requires pass { IsPassOf log.now pass.old }
    requires start { CanStart (view pass.old) }
    requires defs { IsDefsOf (view pass.old) defs.old }
    ensures pass { IsPassOf log.now pass.new }
    ensures defs { IsDefsOf (view pass.new) defs.new }
    ensures item { IfOk result (IsItem anywhere (view pass.old) (view pass.new)
        (work.Ingest form begin name.now file.now)) }
    ensures part { IfErr result (λ _. IsPart (view pass.old) (view pass.new)
        (work.Ingest form begin name.now file.now)) }
{
    let name = name.again(alloc)?;
    if file.len() > MAX_FILE {
        return Ok(Item::IngestTooLong {
            file: name,
            stored: 0,
            refused: 0,
        });
    }
    let mut tally = Tally {
        stored: 0,
        refused: 0,
    };
    match ingest_records(alloc, log, pass, defs, form, begin, file, &mut tally, gate) {
        Ok(end) => Ok(item_of(name, tally, end)),
        Err(error) => {
            drop(name);
            Err(error)
        }
    }
}

/// What is told of a file of which so much was stored, up to its end or to a record that found the log full.
fn item_of(name: Text, tally: Tally, end: Option<Shut>) -> Item
    ensures { result ≡ item_of name tally end }
{
    match end {
        None => Item::Ingested {
            file: name,
            stored: tally.stored,
            refused: tally.refused,
        },
        Some(Shut { line, lines, end }) => Item::IngestFull {
            file: name,
            line,
            lines,
            end,
            stored: tally.stored,
            refused: tally.refused,
        },
    }
}

/// Stores the lines or rows of a file that are records.
fn ingest_records<G: Gate>(
    alloc: Global,
    log: &Log,
    pass: &mut Pass,
    defs: &mut Defs,
    form: Form,
    begin: Begin,
    file: &[u8],
    tally: &mut Tally,
    gate: &G,
) -> Result<Option<Shut>, AllocError>
    requires can { CanIngest log.now pass.old defs.old }
    requires short { length file.now ≤ longest_file }
    requires none { tally.old ≡ nothing_stored }
    ensures pass { IsPassOf log.now pass.new }
    ensures defs { IsDefsOf (view pass.new) defs.new }
    ensures ends { IfOk result (EndsWith (view pass.old) (view pass.new) form (outcomes_from form begin file.now)
        tally.new) }
    ensures part { IfErr result (λ _. IsPartStored (view pass.old) (view pass.new) form
        (outcomes_from form begin file.now)) }
{
    let mut texts = match RecordTexts::new(alloc, form, begin, file) {
        Ok(texts) => texts,
        Err(error) => return Err(error),
    };
    let ended = ingest_texts(alloc, log, pass, defs, &mut texts, tally, gate);
    drop(texts);
    ended
}

/// Stores the lines or rows that are left of a file and are records.
fn ingest_texts<G: Gate>(
    alloc: Global,
    log: &Log,
    pass: &mut Pass,
    defs: &mut Defs,
    texts: &mut RecordTexts<'_>,
    tally: &mut Tally,
    gate: &G,
) -> Result<Option<Shut>, AllocError>
    requires can { CanIngest log.now pass.old defs.old }
    requires short { bytes_left texts.old ≤ longest_file }
    requires none { tally.old ≡ nothing_stored }
    ensures pass { IsPassOf log.now pass.new }
    ensures defs { IsDefsOf (view pass.new) defs.new }
    ensures ends { IfOk result (EndsWith (view pass.old) (view pass.new) (form_of_texts texts.old)
        (texts_left texts.old) tally.new) }
    ensures part { IfErr result (λ _. IsPartStored (view pass.old) (view pass.new) (form_of_texts texts.old)
        (texts_left texts.old)) }
{
    while let Some(text) = texts.next_text(alloc)? {
        match ingest_text(alloc, log, pass, defs, text, tally, gate)? {
            Some(shut) => return Ok(Some(shut)),
            None => {}
        }
    }
    Ok(None)
}

/// Stores the text of a line or row as a record, or counts it as none.
fn ingest_text<G: Gate>(
    alloc: Global,
    log: &Log,
    pass: &mut Pass,
    defs: &mut Defs,
    text: RecordText<'_>,
    tally: &mut Tally,
    gate: &G,
) -> Result<Option<Shut>, AllocError>
    requires can { CanIngest log.now pass.old defs.old }
    requires text { IsRecordText text }
    requires room { tally.old.stored + tally.old.refused ≤ longest_file }
    ensures pass { IsPassOf log.now pass.new }
    ensures defs { IsDefsOf (view pass.new) defs.new }
    ensures takes { IfOk result
        (λ end. MatchOption end (TakesText (view pass.old) (view pass.new) (text_form text.entry)
        (payload_in_text text.entry) tally.old tally.new) (FindsTextFull (view pass.old) (view pass.new)
        (text_form text.entry) (payload_in_text text.entry) tally.old tally.new)) }
    ensures left { OnErr result (HasNotClaimed (view pass.old) (view pass.new) × (tally.new ≡ tally.old)) }
{
    match text {
        RecordText::Line(line) => {
            ingest_line(alloc, log, pass, defs, Form::Json, line, tally, gate)
        }
        RecordText::Row(row) => {
            let payload = row.as_bytes();
            let ended = ingest_line(alloc, log, pass, defs, Form::Csv, payload, tally, gate);
            drop(row);
            ended
        }
        RecordText::Refused => {
            tally.refused += 1;
            Ok(None)
        }
    }
}

/// Stores a line or row as a record of its form, or counts it as none.
fn ingest_line<G: Gate>(
    alloc: Global,
    log: &Log,
    pass: &mut Pass,
    defs: &mut Defs,
    form: Form,
    payload: &[u8],
    tally: &mut Tally,
    gate: &G,
) -> Result<Option<Shut>, AllocError>
    requires can { CanIngest log.now pass.old defs.old }
    requires room { tally.old.stored + tally.old.refused ≤ longest_file }
    ensures pass { IsPassOf log.now pass.new }
    ensures defs { IsDefsOf (view pass.new) defs.new }
    ensures takes { IfOk result (λ end. MatchOption end
        (TakesLine (view pass.old) (view pass.new) form payload.now tally.old tally.new)
        (FindsFull (view pass.old) (view pass.new) form payload.now tally.old tally.new)) }
    ensures left { OnErr result (HasNotClaimed (view pass.old) (view pass.new) × (tally.new ≡ tally.old)) }
{
    match ingest_at(alloc, log, pass, defs, form, payload, gate) {
        Ok(_) => tally.stored += 1,
        Err(IngestRefusal::TooLong) => tally.refused += 1,
        Err(IngestRefusal::NotRecord) => tally.refused += 1,
        Err(IngestRefusal::OutOfMemory) => return Err(AllocError),
        Err(IngestRefusal::Full { line, lines, end }) => return Ok(Some(Shut { line, lines, end })),
    }
    Ok(None)
}

/// `ingest`, with a gate after the claim.
fn ingest_at<G: Gate>(
    alloc: Global,
    log: &Log,
    pass: &mut Pass,
    defs: &mut Defs,
    form: Form,
    payload: &[u8],
    gate: &G,
) -> Result<u32, IngestRefusal>
    requires can { CanIngest log.now pass.old defs.old }
    ensures pass { IsPassOf log.now pass.new }
    ensures defs { IsDefsOf (view pass.new) defs.new }
    ensures ingested { IfOk result (λ number. HasIngested (view pass.old) form payload.now number (view pass.new)) }
    ensures cause { IfErr result (IsIngestCause form payload.now) }
    ensures refused { IfErr result (λ e. HasRefused (view pass.old) form payload.now e (view pass.new)) }
{
    let pending = start(alloc, log, pass, defs, form, payload)?;
    gate.reach(lane(pass), Point::Claimed);
    Ok(finish(log, pass, pending))
}
