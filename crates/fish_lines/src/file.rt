//! The records of a whole file: their payloads in order, and how many lines or rows are none.

ghost use Rattle.std.specs.Prelude.{◌≡◌, ◌↔◌, ◌<◌, length, IfOk, IsErrOf, IsUtf8};
ghost use Rattle.fish_value.specs.Limits.{longest_file};
ghost use Rattle.fish_json.specs.Lines as json;
ghost use Rattle.fish_json.specs.Lines.{payload_of_line};
ghost use Rattle.fish_csv.specs.Rows as csv;
ghost use Rattle.fish_lines.specs.File.{outcomes};
ghost use Rattle.fish_value.specs.Outcomes.{accepted, refused as refused_of};

use crate::found::{Records, RecordsRefusal};
use crate::lines::Lines;
use fish_csv::{CsvRefusal, CsvRows, rows};
use fish_json::{JsonReader, RecordRefusal};
use fish_value::{Form, Text};
use std::alloc::{AllocError, Global};

/// Reads the records of a file, each line or row once. With `header` the first row of a file in CSV is
/// dropped; a file in JSON has none.
#[tactic(auto, unfolding(crate::specs::File::outcomes))]
pub fn records(alloc: Global, form: Form, header: bool, b: &[u8]) -> Result<Records, RecordsRefusal>
    ensures payloads { IfOk result (λ found. found.payloads ≡ accepted (outcomes form header b.now)) }
    ensures refused { IfOk result (λ found. found.refused ≡ refused_of (outcomes form header b.now)) }

    ensures too_long { IsErrOf result RecordsRefusal.FileTooLong ↔ ((form ≡ Form.Csv) × (longest_file < length b.now)) }
{
    match form {
        Form::Json => Ok(json_records(alloc, b)?),
        Form::Csv => csv_records(alloc, header, b),
    }
}

/// The records of a file in CSV.
fn csv_records(alloc: Global, header: bool, b: &[u8]) -> Result<Records, RecordsRefusal>
    ensures payloads { IfOk result (λ found. found.payloads ≡ accepted (csv.row_outcomes header b.now)) }
    ensures refused { IfOk result (λ found. found.refused ≡ refused_of (csv.row_outcomes header b.now)) }

    ensures too_long { IsErrOf result RecordsRefusal.FileTooLong ↔ (longest_file < length b.now) }
{
    match rows(alloc, b, header) {
        Ok(CsvRows { texts, refused }) => Ok(Records {
            payloads: texts,
            refused,
        }),
        Err(CsvRefusal::FileTooLong) => Err(RecordsRefusal::FileTooLong),
        Err(CsvRefusal::OutOfMemory) => Err(RecordsRefusal::OutOfMemory),
    }
}

/// The records of a file in JSON Lines.
#[tactic(auto, unfolding(fish_json::specs::Lines::line_outcomes, fish_json::specs::Lines::line_outcomes_of))]
fn json_records(alloc: Global, b: &[u8]) -> Result<Records, AllocError>
    ensures payloads { IfOk result (λ found. found.payloads ≡ accepted (json.line_outcomes b.now)) }
    ensures refused { IfOk result (λ found. found.refused ≡ refused_of (json.line_outcomes b.now)) }
{
    let mut found = Records::new(alloc);
    let mut reader = JsonReader::new(alloc);
    let mut lines = Lines::new(b);
    while let Some(line) = lines.next_line() {
        let outcome = payload(alloc, &mut reader, line)?;
        found.count(outcome)?;
    }
    Ok(found)
}

/// A line as a payload, where it is a record.
#[tactic(auto, using(crate::proofs::PayloadLemmas::record_is_kept, crate::proofs::PayloadLemmas::no_record_is_refused))]
fn payload(alloc: Global, reader: &mut JsonReader, line: &[u8]) -> Result<Option<Text>, AllocError>
    ensures { IfOk result (λ outcome. outcome ≡ payload_of_line line.now) }
{
    match reader.read(alloc, line) {
        Ok(_) => Ok(Some(text_of(alloc, line)?)),
        Err(RecordRefusal::OutOfMemory) => Err(AllocError),
        Err(_) => Ok(None),
    }
}

/// A copy of a text.
fn text_of(alloc: Global, line: &[u8]) -> Result<Text, AllocError>
    requires { IsUtf8 line.now }
    ensures { IfOk result (λ text. text ≡ line.now) }
{
    match Text::from_bytes(alloc, line)? {
        Some(text) => Ok(text),
        None => unreachable!(),
    }
}
