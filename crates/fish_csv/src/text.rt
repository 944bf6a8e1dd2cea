//! The text that a payload is, and whether it is one row.

ghost use Rattle.std.specs.Prelude.{◌≡◌, ◌≢◌, ◌<◌, ◌≤◌, length, Some, None, IfOk, IfErr, OnOk, IsErrOf, if◌then◌else◌, true};
ghost use Rattle.std.specs.Str.{is_utf8};
ghost use Rattle.csv.specs.Reading.{strip_bom};
ghost use Rattle.csv.specs.Records.{fields_of};
ghost use Rattle.fish_value.specs.Limits.{longest_payload};
ghost use Rattle.fish_csv.specs.Reading.{only, row_of, row_reading, rows_in};

use crate::bytes::{without_ends, without_mark};
use crate::machine::read_row;
use crate::record::CsvRecordRefusal;
use csv::ByteRecord;
use fish_value::MAX_PAYLOAD;
use std::alloc::AllocError;

/// The text that a payload is, without a byte order mark at its front.
#[tactic(auto, using(crate::proofs::Readings::readings))]
pub(crate) fn text_of(b: &[u8]) -> Result<&[u8], CsvRecordRefusal>
    ensures ok { IfOk result (λ text.
        (text.now ≡ strip_bom b.now) × (is_utf8 b.now ≡ true) × (length b.now ≤ longest_payload)) }

    ensures too_long { IsErrOf result CsvRecordRefusal.TooLong → longest_payload < length b.now }
    ensures not_row { IsErrOf result CsvRecordRefusal.NotRow
        → (length b.now ≤ longest_payload) × (row_reading b.now ≡ None) }
    ensures none { IfErr result (λ e. (e ≢ CsvRecordRefusal.OutOfMemory) × (row_of b.now ≡ None)) }
{
    if b.len() > MAX_PAYLOAD {
        return Err(CsvRecordRefusal::TooLong);
    }
    match simdutf8::basic::from_utf8(b) {
        Ok(_) => Ok(without_mark(b)),
        Err(_) => Err(CsvRecordRefusal::NotRow),
    }
}

/// Reads a text that is one row, and answers whether it is.
pub(crate) fn read_one(
    b: &[u8],
    row: &mut ByteRecord,
    field: &mut Vec<u8>,
) -> Result<bool, AllocError>
    ensures { IfOk result (λ found. only (rows_in b.now) ≡ (if found then Some (fields_of row.new) else None)) }
{
    let Some(behind) = read_row(b, row, field)? else {
        return Ok(false);
    };
    Ok(without_ends(behind).is_empty())
}
