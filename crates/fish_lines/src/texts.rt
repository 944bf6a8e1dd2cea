//! The texts of the records of a file that is held whole, one after another, in either form.

ghost use Rattle.std.specs.Prelude.{◌≡◌, ◌<◌, ◌≤◌, ◌∷◌, [], length, map, IfOk, IfSome, MatchOption};
ghost use Rattle.fish_csv.specs.Left.{rows_left};
ghost use Rattle.fish_json.specs.Lines as json;
ghost use Rattle.fish_lines.specs.Left.{lines_left};
ghost use Rattle.fish_lines.specs.Resuming.{outcomes_from};
ghost use Rattle.fish_lines.specs.Texts.{bytes_left, form_of_texts, payload_in_text, text_form, texts_left};
ghost use Rattle.fish_value.specs.declared.field.Form.TheVariants.{Csv, Json};

use crate::lines::Lines;
use crate::resuming::Begin;
use fish_csv::{CsvRefusal, RowTexts};
use fish_value::{Form, Text};
use std::alloc::{AllocError, Global};

/// What is read of a file as the text of a record.
#[derive(Drop)]
pub enum RecordText<'b> {
    /// A line of a file in JSON Lines, which may be no record.
    Line(&'b [u8]),
    /// The payload that a row in CSV is.
    Row(Text),
    /// A row in CSV that is refused.
    Refused,
}

/// Goes over the lines or rows of a file.
#[derive(Drop)]
pub enum RecordTexts<'b> {
    Lines(Lines<'b>),
    Rows(RowTexts<'b>),
}

impl<'b> RecordTexts<'b> {
    /// Stands before the first line or row from where a file's reading begins. In CSV it has at most 67,108,864 bytes.
    pub fn new(
        alloc: Global,
        form: Form,
        begin: Begin,
        file: &'b [u8],
    ) -> Result<RecordTexts<'b>, AllocError>
        ensures texts { IfOk result (λ texts. texts_left texts ≡ outcomes_from form begin file.now) }
        ensures within { IfOk result (λ texts. bytes_left texts ≤ length file.now) }
        ensures form { IfOk result (λ texts. form_of_texts texts ≡ form) }
    {
        match form {
            Form::Json => Ok(RecordTexts::Lines(lines_from(begin, file))),
            Form::Csv => Ok(RecordTexts::Rows(rows_from(alloc, begin, file)?)),
        }
    }

    /// The text of the next line or row.
    pub fn next_text(&mut self, alloc: Global) -> Result<Option<RecordText<'b>>, AllocError>
        ensures texts { IfOk result (λ text. MatchOption text (texts_left self.old ≡ [])
            (λ t. texts_left self.old ≡ payload_in_text t ∷ texts_left self.new)) }
        ensures shorter { IfOk result (λ text. IfSome text (λ _. bytes_left self.new < bytes_left self.old)) }
        ensures kind { IfOk result (λ text. IfSome text (λ t. text_form t ≡ form_of_texts self.old)) }
        ensures form { form_of_texts self.new ≡ form_of_texts self.old }
    {
        match self {
            RecordTexts::Lines(lines) => match lines.next_line() {
                Some(line) => Ok(Some(RecordText::Line(line))),
                None => Ok(None),
            },
            RecordTexts::Rows(rows) => match rows.next_row(alloc)? {
                Some(Some(row)) => Ok(Some(RecordText::Row(row))),
                Some(None) => Ok(Some(RecordText::Refused)),
                None => Ok(None),
            },
        }
    }
}

/// Stands before the first line of a file from where its reading begins.
#[tactic(auto, unfolding(crate::specs::Resuming::outcomes_from, crate::specs::File::outcomes, crate::specs::Left::lines_left, fish_json::specs::Lines::line_outcomes, fish_json::specs::Lines::line_outcomes_of))]
fn lines_from(begin: Begin, file: &[u8]) -> Lines<'_>
    ensures lines { map json.payload_of_line (lines_left result) ≡ outcomes_from Json begin file.now }
    ensures within { length result.rest.now ≤ length file.now }
{
    match begin {
        Begin::Start { .. } => Lines::new(file),
        Begin::After => Lines::after(file),
    }
}

/// Stands before the first row of a file from where its reading begins.
#[tactic(auto, unfolding(crate::specs::Resuming::outcomes_from, crate::specs::File::outcomes, fish_csv::specs::Left::rows_left))]
fn rows_from(alloc: Global, begin: Begin, file: &[u8]) -> Result<RowTexts<'_>, AllocError>
    ensures rows { IfOk result (λ rows. rows_left rows ≡ outcomes_from Csv begin file.now) }
    ensures within { IfOk result (λ rows. length rows.rest.now ≤ length file.now) }
{
    match begin {
        Begin::Start { header } => match RowTexts::new(alloc, file, header) {
            Ok(rows) => Ok(rows),
            Err(CsvRefusal::FileTooLong | CsvRefusal::OutOfMemory) => Err(AllocError),
        },
        Begin::After => Ok(RowTexts::after(alloc, file)),
    }
}
