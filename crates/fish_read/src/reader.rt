//! Reads payloads of either form one after another, with memory that is kept.

ghost use Rattle.std.specs.Prelude.{◌≡◌, ◌+◌};
ghost use Rattle.fish_psf.specs.Parsing.{IsParsed};
ghost use Rattle.fish_read.specs.Rows.{fields_in_row, form_of_row};

use fish_csv::{CsvReader, CsvRecordRefusal, CsvRow};
use fish_json::{JsonReader, JsonRow, MAX_PAYLOAD, RecordRefusal};
use fish_psf::{Parsed, PsfRefusal, Steps};
use fish_value::{FieldView, Form, Path, Sequence};
use std::alloc::{AllocError, Global};
use std::sync::ledger::Ledger;

/// Reads payloads, and keeps its memory from one to the next. It has over 16 KiB in place, so make it
/// once and don't move it.
#[derive(Drop)]
pub struct RecordReader {
    json: JsonReader,
    csv: CsvReader,
}

/// A record that was read. It lends the payload and the memory of the reader.
#[derive(Drop)]
pub enum RecordRow<'a> {
    /// A line in JSON.
    Json(JsonRow<'a>),
    /// A row in CSV.
    Csv(CsvRow<'a>),
}

impl RecordReader {
    /// A reader that has no memory yet.
    pub fn new(alloc: Global) -> RecordReader {
        RecordReader {
            json: JsonReader::new(alloc),
            csv: CsvReader::new(alloc),
        }
    }

    /// Reads a payload as a record of a form, and counts that, as [`parse`] does. The reader reads the
    /// next one once the row is let go.
    pub fn read<'a, P: Ledger>(
        &'a mut self,
        alloc: Global,
        form: Form,
        b: &'a [u8],
        parses: &mut Steps<P>,
    ) -> Result<RecordRow<'a>, PsfRefusal>
        ensures parsed { IsParsed form_of_row fields_in_row form b.now result }
        ensures counted { parses.new ≡ parses.old + 1 }
    {
        parses.tick();
        match form {
            Form::Json => json_row(alloc, &mut self.json, b),
            Form::Csv => csv_row(&mut self.csv, b),
        }
    }
}

/// The same of a line in JSON.
#[tactic(auto, using(fish_psf::proofs::RecordLemmas::json_records))]
fn json_row<'a>(
    alloc: Global,
    reader: &'a mut JsonReader,
    b: &'a [u8],
) -> Result<RecordRow<'a>, PsfRefusal>
    ensures { IsParsed form_of_row fields_in_row Form.Json b.now result }
{
    if b.len() > MAX_PAYLOAD {
        return Err(PsfRefusal::TooLong);
    }
    match reader.read(alloc, b) {
        Ok(line) => Ok(RecordRow::Json(line)),
        Err(RecordRefusal::TooLong) => Err(PsfRefusal::TooLong),
        Err(RecordRefusal::NotJson) | Err(RecordRefusal::NotObject) => Err(PsfRefusal::NotRecord),
        Err(RecordRefusal::OutOfMemory) => Err(PsfRefusal::OutOfMemory),
    }
}

/// The same of a row in CSV.
#[tactic(auto, using(fish_psf::proofs::RecordLemmas::csv_records))]
fn csv_row<'a>(reader: &'a mut CsvReader, b: &[u8]) -> Result<RecordRow<'a>, PsfRefusal>
    ensures { IsParsed form_of_row fields_in_row Form.Csv b.now result }
{
    if b.len() > MAX_PAYLOAD {
        return Err(PsfRefusal::TooLong);
    }
    match reader.read(b) {
        Ok(row) => Ok(RecordRow::Csv(row)),
        Err(CsvRecordRefusal::TooLong) => Err(PsfRefusal::TooLong),
        Err(CsvRecordRefusal::NotRow) => Err(PsfRefusal::NotRecord),
        Err(CsvRecordRefusal::OutOfMemory) => Err(PsfRefusal::OutOfMemory),
    }
}

impl<'a> Parsed for RecordRow<'a> {
    ghost use Rattle.fish_read.specs.Rows.{fields_in_row};

    ghost fields = { fields_in_row };

    fn look(&self, path: &Path) -> FieldView<'_> {
        match self {
            RecordRow::Json(line) => line.look(path),
            RecordRow::Csv(row) => row.look(path),
        }
    }

    fn look_each(&self, alloc: Global, path: &Path) -> Result<Sequence<FieldView<'_>>, AllocError> {
        match self {
            RecordRow::Json(line) => line.look_each(alloc, path),
            RecordRow::Csv(_) => Ok(Sequence::new(alloc)),
        }
    }
}
