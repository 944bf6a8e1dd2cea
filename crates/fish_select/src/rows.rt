//! What the rows of a file in CSV give.

ghost use Rattle.std.specs.Prelude.{◌≡◌, ◌+◌, ◌<◌, ◌≤◌, ◌^◌, length, IfOk, IsErrOf, IsSome, OnOk, Some};
ghost use Rattle.fish_csv.specs.Left.{rows_left};
ghost use Rattle.fish_csv.specs.Reading.{row_of};
ghost use Rattle.fish_lang.specs.Definition.{definition_of};
ghost use Rattle.fish_value.specs.Outcomes.{accepted};
ghost use Rattle.fish_select.specs.Selection.{most_records};
ghost use Rattle.fish_select.specs.declared.found.SelectRefusal.TheVariants.{TooMany};
ghost use Rattle.fish_select.specs.within.Found.{kept_if, with_outcome, with_outcomes};
ghost use Rattle.fish_select.specs.within.Selection.{is_selected};
ghost use Rattle.fish_value.specs.declared.field.Form.TheVariants.{Csv};

use crate::found::{Found, SelectRefusal};
use fish_csv::{CsvReader, CsvRecordRefusal, RowTexts};
use fish_lang::Def;
use fish_psf::gives;
use fish_value::{Text, Value};
use std::alloc::{AllocError, Global};

/// Adds what the rows give that are left. One reader is kept for all of them.
pub(crate) fn add_rows(
    alloc: Global,
    def: &Def,
    value: &Value,
    rows: &mut RowTexts<'_>,
    found: &mut Found,
) -> Result<(), SelectRefusal>
    requires { found.old.count + found.old.refused + length rows.old.rest.now < 2 ^ 63 }
    ensures added { OnOk result (found.new
        ≡ with_outcomes (is_selected (definition_of def.now) value.now Csv) found.old (rows_left rows.old)) }
    ensures rises { OnOk result (found.new.count + found.new.refused
        ≤ found.old.count + found.old.refused + length rows.old.rest.now) }
    ensures many { IsErrOf result TooMany
        → most_records < found.old.count + length (accepted (rows_left rows.old)) }
{
    let mut reader = CsvReader::new(alloc);
    while let Some(row) = rows.next_row(alloc)? {
        match row {
            Some(text) => add_row(alloc, &mut reader, def, value, text, found)?,
            None => found.refused += 1,
        }
    }
    Ok(())
}

/// Counts one more row that is a record.
fn add_row(
    alloc: Global,
    reader: &mut CsvReader,
    def: &Def,
    value: &Value,
    text: Text,
    found: &mut Found,
) -> Result<(), SelectRefusal>
    requires is { IsSome (row_of text) }
    requires room { found.old.count + found.old.refused < 2 ^ 63 }
    ensures counted { OnOk result (found.new
        ≡ with_outcome (is_selected (definition_of def.now) value.now Csv) found.old (Some text)) }
    ensures rises { OnOk result
        (found.new.count + found.new.refused ≡ found.old.count + found.old.refused + 1) }
    ensures many { IsErrOf result TooMany → most_records ≤ found.old.count }
{
    let kept = kept_row(alloc, reader, def, value, text)?;
    found.add(kept)
}

/// The text of a row, where it has the value.
fn kept_row(
    alloc: Global,
    reader: &mut CsvReader,
    def: &Def,
    value: &Value,
    text: Text,
) -> Result<Option<Text>, AllocError>
    requires { IsSome (row_of text) }
    ensures { IfOk result (λ kept. kept
        ≡ kept_if (is_selected (definition_of def.now) value.now Csv text) text) }
{
    match row_has(alloc, reader, def, value, text.as_bytes()) {
        Ok(true) => Ok(Some(text)),
        Ok(false) => {
            drop(text);
            Ok(None)
        }
        Err(error) => {
            drop(text);
            Err(error)
        }
    }
}

/// Whether a definition has a value on the text of a row.
fn row_has(
    alloc: Global,
    reader: &mut CsvReader,
    def: &Def,
    value: &Value,
    text: &[u8],
) -> Result<bool, AllocError>
    requires { IsSome (row_of text.now) }
    ensures { IfOk result (λ has. has ≡ is_selected (definition_of def.now) value.now Csv text.now) }
{
    match reader.read(text) {
        Ok(row) => {
            let has = gives(alloc, def, &row, value);
            drop(row);
            has
        }
        Err(CsvRecordRefusal::OutOfMemory) => Err(AllocError),
        Err(CsvRecordRefusal::TooLong | CsvRecordRefusal::NotRow) => unreachable!(),
    }
}
