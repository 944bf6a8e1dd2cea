//! Writes a row as `csv` does with its defaults, without the line end.

ghost use Rattle.std.specs.Prelude.{◌≡◌, ◌++◌, OnOk};
ghost use Rattle.csv.specs.Records.{fields_of};
ghost use Rattle.csv.specs.Writing.{default_writer, escaped, field_text, needs_byte, needs_quotes, next_sep};
ghost use Rattle.fish_csv.specs.Rows.{stored_text};

use csv::ByteRecord;
use memchr::memchr;
use std::alloc::AllocError;

/// Writes a row in place of what `out` held. A row that would show no byte is written as two quotes.
pub(crate) fn write_row(row: &ByteRecord, out: &mut Vec<u8>) -> Result<(), AllocError>
    ensures { OnOk result (out.new.items ≡ stored_text (fields_of row.now)) }
{
    out.clear();
    let mut position = 0;
    while let Some(field) = row.get(position) {
        write_separator(position, out)?;
        write_field(field, out)?;
        position += 1;
    }
    if position < 2 && out.as_slice().is_empty() {
        out.extend_from_slice(b"\"\"")?;
    }
    Ok(())
}

/// Writes what stands before the field at a position.
fn write_separator(position: usize, out: &mut Vec<u8>) -> Result<(), AllocError>
    ensures { OnOk result (out.new.items ≡ out.old.items ++ next_sep default_writer position) }
{
    if position == 0 {
        return Ok(());
    }
    out.push(b',')?;
    Ok(())
}

/// Writes a field, with quotes round it where it has a comma, a quote or a line end.
fn write_field(field: &[u8], out: &mut Vec<u8>) -> Result<(), AllocError>
    ensures { OnOk result (out.new.items ≡ out.old.items ++ field_text default_writer field.now) }
{
    if !is_special(field) {
        return out.extend_from_slice(field);
    }
    out.push(b'"')?;
    write_escaped(field, out)?;
    out.push(b'"')?;
    Ok(())
}

/// Whether a field has a byte that calls for quotes.
fn is_special(field: &[u8]) -> bool
    ensures { result ≡ needs_quotes default_writer field.now }
{
    field.iter().any(|c| calls_for_quotes(*c))
}

/// Whether a byte calls for quotes.
fn calls_for_quotes(c: u8) -> bool
    ensures { result ≡ needs_byte default_writer c }
{
    c == b',' || c == b'"' || c == b'\r' || c == b'\n'
}

/// Writes a field with each quote twice.
fn write_escaped(field: &[u8], out: &mut Vec<u8>) -> Result<(), AllocError>
    ensures { OnOk result (out.new.items ≡ out.old.items ++ escaped default_writer field.now) }
{
    let mut rest = field;
    while let Some(at) = memchr(b'"', rest) {
        let (run, quoted) = rest.split_at(at);
        let (_, behind) = quoted.split_at(1);
        out.extend_from_slice(run)?;
        out.extend_from_slice(b"\"\"")?;
        rest = behind;
    }
    out.extend_from_slice(rest)?;
    Ok(())
}
