//! Reads rows from a slice as `csv` does with its defaults, with memory that the caller keeps.

ghost use Rattle.std.specs.Prelude.{◌≡◌, ◌≢◌, ◌<◌, ◌≤◌, ◌++◌, ◌∷◌, [], length, take, true, OnOk, IfOk, MatchOption};
ghost use Rattle.std.specs.Prelude.{IsTrue, ◌==◌, ◌||◌, ℕ, List};
ghost use Rattle.csv.specs.Machine.{Runs};
ghost use Rattle.csv.specs.Reading.{default_config};
ghost use Rattle.csv.specs.Records.{fields_of, partial_of};
ghost use Rattle.fish_csv.specs.within.Machine.{ReadsNextField, EndsRow, state_of};
ghost use Rattle.fish_csv.specs.Reading.{only, rows_in};

use crate::bytes::{first_and_rest, is_line_end};
use csv::ByteRecord;
use memchr::{memchr, memchr3};
use std::alloc::AllocError;

/// Where the reading of a row stands.
#[derive(Clone, Copy, Debug, PartialEq, Eq)]
pub(crate) enum Position {
    /// Before a row.
    Row,
    /// Before a field that is not the first.
    Field,
    /// In a field, outside quotes.
    Plain,
    /// Between the quotes of a field.
    Quoted,
    /// After a quote that ended them, or that is the first of two.
    Closed,
}

/// Reads the first row of a text, and answers what is left after it. There is none where the text
/// has line ends alone.
pub(crate) fn read_row<'b>(
    b: &'b [u8],
    row: &mut ByteRecord,
    field: &mut Vec<u8>,
) -> Result<Option<&'b [u8]>, AllocError>
    ensures { IfOk result (λ o. MatchOption o (rows_in b.now ≡ [])
        (λ rest. (rows_in b.now ≡ fields_of row.new ∷ rows_in rest.now) × (length rest.now < length b.now))) }
{
    row.clear();
    field.clear();
    let mut position = Position::Row;
    let mut rest = b;
    loop {
        let (run, behind) = rest.split_at(run_len(position, rest));
        field.extend_from_slice(run)?;
        let Some((c, more)) = first_and_rest(behind) else {
            let found = finish(position, row, field)?;
            if !found {
                return Ok(None);
            }
            return Ok(Some(behind));
        };
        let Some(next) = advance(position, c, row, field)? else {
            return Ok(Some(more));
        };
        position = next;
        rest = more;
    }
}

/// How many bytes from here only join the field.
fn run_len(position: Position, b: &[u8]) -> usize
    ensures within { result ≤ length b.now }
    ensures runs { Runs default_config (state_of position) (take result b.now) }
{
    match position {
        Position::Plain => memchr3(b',', b'\r', b'\n', b).unwrap_or(b.len()),
        Position::Quoted => memchr(b'"', b).unwrap_or(b.len()),
        _ => 0,
    }
}

/// Takes one byte. `None` says that it ended the row.
fn advance(
    position: Position,
    c: u8,
    row: &mut ByteRecord,
    field: &mut Vec<u8>,
) -> Result<Option<Position>, AllocError>
    requires { partial_of row.old ≡ [] }
    ensures goes { IfOk result (λ next.
        ReadsNextField position c (fields_of row.old) field.old.items next (fields_of row.new) field.new.items) }
    ensures whole { OnOk result (partial_of row.new ≡ []) }
{
    match position {
        Position::Row => {
            if is_line_end(c) {
                return Ok(Some(Position::Row));
            }
            advance_field(c, row, field)
        }
        Position::Field => advance_field(c, row, field),
        Position::Plain => advance_plain(c, row, field),
        Position::Quoted => advance_quoted(c, field),
        Position::Closed => {
            if c == b'"' {
                return advance_doubled(field);
            }
            advance_plain(c, row, field)
        }
    }
}

/// The same before a field.
fn advance_field(
    c: u8,
    row: &mut ByteRecord,
    field: &mut Vec<u8>,
) -> Result<Option<Position>, AllocError>
    requires { partial_of row.old ≡ [] }
    ensures goes { IfOk result (λ next.
        ReadsNextField Position.Field c (fields_of row.old) field.old.items next (fields_of row.new) field.new.items) }
    ensures whole { OnOk result (partial_of row.new ≡ []) }
{
    if c == b'"' {
        return Ok(Some(Position::Quoted));
    }
    advance_plain(c, row, field)
}

/// The same between quotes.
fn advance_quoted(c: u8, field: &mut Vec<u8>) -> Result<Option<Position>, AllocError>
    ensures { (fields : List (List ℕ)) → IfOk result (λ next.
        ReadsNextField Position.Quoted c fields field.old.items next fields field.new.items) }
{
    if c == b'"' {
        return Ok(Some(Position::Closed));
    }
    field.push(c)?;
    Ok(Some(Position::Quoted))
}

/// The same for the second of two quotes, which stands for one.
fn advance_doubled(field: &mut Vec<u8>) -> Result<Option<Position>, AllocError>
    ensures { (fields : List (List ℕ)) → IfOk result (λ next.
        ReadsNextField Position.Closed 34 fields field.old.items next fields field.new.items) }
{
    field.push(b'"')?;
    Ok(Some(Position::Quoted))
}

/// The same in a field, outside quotes.
fn advance_plain(
    c: u8,
    row: &mut ByteRecord,
    field: &mut Vec<u8>,
) -> Result<Option<Position>, AllocError>
    requires { partial_of row.old ≡ [] }
    ensures goes { IfOk result (λ next.
        ReadsNextField Position.Plain c (fields_of row.old) field.old.items next (fields_of row.new) field.new.items) }
    ensures whole { OnOk result (partial_of row.new ≡ []) }
{
    if c == b',' {
        end_field(row, field)?;
        return Ok(Some(Position::Field));
    }
    if is_line_end(c) {
        end_field(row, field)?;
        return Ok(None);
    }
    field.push(c)?;
    Ok(Some(Position::Plain))
}

/// Puts the field at hand after the others.
fn end_field(row: &mut ByteRecord, field: &mut Vec<u8>) -> Result<(), AllocError>
    requires { partial_of row.old ≡ [] }
    ensures fields { OnOk result (fields_of row.new ≡ fields_of row.old ++ field.old.items ∷ []) }
    ensures field { OnOk result (field.new.items ≡ []) }
    ensures whole { OnOk result (partial_of row.new ≡ []) }
{
    row.push_field(field.as_slice())?;
    field.clear();
    Ok(())
}

/// Takes the end of the text, and answers whether a row ended there.
fn finish(position: Position, row: &mut ByteRecord, field: &mut Vec<u8>) -> Result<bool, AllocError>
    requires { partial_of row.old ≡ [] }
    ensures { IfOk result (λ found. EndsRow position (fields_of row.old) field.old.items found (fields_of row.new)) }
{
    match position {
        Position::Row => Ok(false),
        _ => {
            end_field(row, field)?;
            Ok(true)
        }
    }
}
