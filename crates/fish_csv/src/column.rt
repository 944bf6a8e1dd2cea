//! Columns by their names, `$1`, `$2` and so on.

ghost use Rattle.std.specs.Prelude.{◌≡◌, true};
ghost use Rattle.std.specs.List.{list_all};
ghost use Rattle.std.specs.Str.{is_utf8};
ghost use Rattle.csv.specs.Records.{fields_of};
ghost use Rattle.fish_value.specs.Seen.{field_seen};
ghost use Rattle.fish_csv.specs.Reading.{column_at, column_of, csv_field_in, csv_field_of, column_position};

use crate::bytes::first_and_rest;
use csv::ByteRecord;
use fish_value::{FieldView, Path, read_int};

/// What a row has at a path, its text borrowed.
pub(crate) fn field_at<'r>(row: &'r ByteRecord, path: &Path) -> FieldView<'r>
    requires { list_all is_utf8 (fields_of row.now) ≡ true }
    ensures { field_seen result ≡ csv_field_in path.now (fields_of row.now) }
{
    let Some(position) = find_column(path) else {
        return FieldView::Missing;
    };
    let Some(text) = row.get(position) else {
        return FieldView::Missing;
    };
    to_field(text)
}

/// The position, from 0, of the column that a path names.
fn find_column(path: &Path) -> Option<usize>
    ensures { result ≡ column_at path.now }
{
    let (name, more) = path.parts();
    if !more.is_empty() {
        return None;
    }
    column_named(name.as_bytes())
}

/// The same of a name.
fn column_named(name: &[u8]) -> Option<usize>
    ensures { result ≡ column_of name.now }
{
    let (first, digits) = first_and_rest(name)?;
    if first != b'$' {
        return None;
    }
    to_position(read_int(digits)?)
}

/// The position that a number from 1 on stands for.
fn to_position(number: i64) -> Option<usize>
    ensures { result ≡ column_position number }
{
    if number < 1 {
        return None;
    }
    Some((number - 1) as usize)
}

/// A text as a field. It is borrowed where it is no whole number.
fn to_field(text: &[u8]) -> FieldView<'_>
    requires { is_utf8 text.now ≡ true }
    ensures { field_seen result ≡ csv_field_of (Some text.now) }
{
    if let Some(number) = read_int(text) {
        return FieldView::Int(number);
    }
    match simdutf8::basic::from_utf8(text) {
        Ok(text) => FieldView::Text(text),
        Err(_) => unreachable!(),
    }
}
