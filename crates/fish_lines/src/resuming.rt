//! A file that is held whole, and what is left of it once its first lines or rows were read.

ghost use Rattle.std.specs.Prelude.{◌≡◌, ◌≤◌, length, drop, map, IfOk};
ghost use Rattle.std.specs.List.{slice_split};
ghost use Rattle.fish_csv.specs.Left.{rows_left};
ghost use Rattle.fish_csv.specs.Reading.{rows_in};
ghost use Rattle.fish_csv.specs.Rows.{payload_of_row as row_payload};
ghost use Rattle.fish_json.specs.Lines.{is_line_end, lines_of_parts};
ghost use Rattle.fish_lines.specs.Left.{lines_left};
ghost use Rattle.fish_lines.specs.Resuming.{IsLeftOf};
ghost use Rattle.fish_value.specs.declared.field.Form.TheVariants.{Csv, Json};

use crate::lines::Lines;
use fish_csv::{CsvRefusal, RowTexts};
use fish_value::{Bytes, Form};
use std::alloc::{AllocError, Global};

/// Where the reading of a file begins.
#[derive(Clone, Copy, Debug, PartialEq, Eq)]
pub enum Begin {
    /// At its start.
    Start {
        /// Whether the first row of a file in CSV is a header, which isn't read.
        header: bool,
    },
    /// After a line or row.
    After,
}

/// A copy of what is left of a file once so many of its lines or rows were read. Each of these is looked at once more; none is parsed
/// as JSON. A file in CSV has at most 67,108,864 bytes.
pub fn left_after(
    alloc: Global,
    form: Form,
    begin: Begin,
    file: &[u8],
    many: u64,
) -> Result<Bytes, AllocError>
    ensures { IfOk result (IsLeftOf form begin file.now many) }
{
    match form {
        Form::Json => Bytes::copy_of(alloc, lines_after(begin, file, many)),
        Form::Csv => Bytes::copy_of(alloc, rows_after(alloc, begin, file, many)?),
    }
}

/// The lines after the first so many.
fn lines_after(begin: Begin, file: &[u8], many: u64) -> &[u8]
    ensures { IsLeftOf Json begin file.now many result.now }
{
    match begin {
        Begin::Start { .. } => pass_lines(Lines::new(file), many),
        Begin::After => pass_lines(Lines::after(file), many),
    }
}

/// The bytes after the next so many lines.
fn pass_lines<'b>(lines: Lines<'b>, many: u64) -> &'b [u8]
    ensures within { length result.now ≤ length lines.entry.rest.now }
    ensures others { lines_of_parts (slice_split is_line_end result.now) ≡ drop many (lines_left lines.entry) }
{
    let mut lines = lines;
    let mut rest = lines.rest();
    for _ in 0..many {
        match lines.next_line() {
            Some(_) => rest = lines.rest(),
            None => return rest,
        }
    }
    rest
}

/// The rows after the first so many.
fn rows_after(alloc: Global, begin: Begin, file: &[u8], many: u64) -> Result<&[u8], AllocError>
    ensures { IfOk result (λ rest. IsLeftOf Csv begin file.now many rest.now) }
{
    match begin {
        Begin::Start { header } => match RowTexts::new(alloc, file, header) {
            Ok(mut rows) => pass_rows(alloc, &mut rows, many),
            Err(CsvRefusal::FileTooLong | CsvRefusal::OutOfMemory) => Err(AllocError),
        },
        Begin::After => {
            let mut rows = RowTexts::after(alloc, file);
            pass_rows(alloc, &mut rows, many)
        }
    }
}

/// The bytes after the next so many rows.
fn pass_rows<'b>(alloc: Global, rows: &mut RowTexts<'b>, many: u64) -> Result<&'b [u8], AllocError>
    ensures within { IfOk result (λ rest. length rest.now ≤ length rows.old.rest.now) }
    ensures others { IfOk result (λ rest. map row_payload (rows_in rest.now) ≡ drop many (rows_left rows.old)) }
{
    let mut rest = rows.rest();
    for _ in 0..many {
        match rows.next_row(alloc)? {
            Some(_) => rest = rows.rest(),
            None => return Ok(rest),
        }
    }
    Ok(rest)
}
