//! A payload of either form, read as a record.

ghost use Rattle.std.specs.Prelude.{◌≡◌, ◌+◌};
ghost use Rattle.fish_psf.specs.Fields.{fields_of, form_of_record};
ghost use Rattle.fish_psf.specs.Parsing.{IsParsed};

use crate::record::Record;
use crate::steps::Steps;
use fish_csv::{CsvRecord, CsvRecordRefusal};
use fish_json::{JsonRecord, MAX_PAYLOAD, RecordRefusal};
use fish_value::Form;
use std::alloc::Global;
use std::sync::ledger::Ledger;
use thiserror::Error;

/// Why a payload was not read.
#[derive(Clone, Copy, Debug, PartialEq, Eq, Error)]
pub enum PsfRefusal {
    #[error("a record has at most 524288 bytes")]
    TooLong,
    #[error("no record of its form")]
    NotRecord,
    #[error("out of memory")]
    OutOfMemory,
}

/// Reads a payload as a record of a form, and counts that.
pub fn parse<P: Ledger>(
    alloc: Global,
    form: Form,
    b: &[u8],
    parses: &mut Steps<P>,
) -> Result<Record, PsfRefusal>
    ensures parsed { IsParsed form_of_record fields_of form b.now result }
    ensures counted { parses.new ≡ parses.old + 1 }
{
    parses.tick();
    match form {
        Form::Json => json_record(alloc, b),
        Form::Csv => csv_record(alloc, b),
    }
}

/// The same of a line in JSON.
#[tactic(auto, using(crate::proofs::RecordLemmas::json_records))]
fn json_record(alloc: Global, b: &[u8]) -> Result<Record, PsfRefusal>
    ensures { IsParsed form_of_record fields_of Form.Json b.now result }
{
    if b.len() > MAX_PAYLOAD {
        return Err(PsfRefusal::TooLong);
    }
    match JsonRecord::read(alloc, b) {
        Ok(line) => Ok(Record::Json(line)),
        Err(RecordRefusal::TooLong) => Err(PsfRefusal::TooLong),
        Err(RecordRefusal::NotJson) | Err(RecordRefusal::NotObject) => Err(PsfRefusal::NotRecord),
        Err(RecordRefusal::OutOfMemory) => Err(PsfRefusal::OutOfMemory),
    }
}

/// The same of a row in CSV.
#[tactic(auto, using(crate::proofs::RecordLemmas::csv_records))]
fn csv_record(alloc: Global, b: &[u8]) -> Result<Record, PsfRefusal>
    ensures { IsParsed form_of_record fields_of Form.Csv b.now result }
{
    if b.len() > MAX_PAYLOAD {
        return Err(PsfRefusal::TooLong);
    }
    match CsvRecord::read(alloc, b) {
        Ok(row) => Ok(Record::Csv(row)),
        Err(CsvRecordRefusal::TooLong) => Err(PsfRefusal::TooLong),
        Err(CsvRecordRefusal::NotRow) => Err(PsfRefusal::NotRecord),
        Err(CsvRecordRefusal::OutOfMemory) => Err(PsfRefusal::OutOfMemory),
    }
}
