//! Which records of a file have a value by a definition, through every call from the file's bytes on,
//! worked out by hand.

ghost use Rattle.std.specs.Prelude.{◌≡◌, ◌<◌};
ghost use Rattle.fish_psf.specs.Blanks.{IsBlankOf};

use crate::expecting::expect_all;
use crate::sources::definition;
use fish_lang::Def;
use fish_lines::records;
use fish_psf::{Steps, gives, parse};
use fish_value::{Form, Text, Value, read_value};
use std::alloc::{AllocError, Global};
use std::fmt::Write;
use std::marker::Brand;
use std::sync::ledger::{Blank, Ledger};
use std::test::Fail;

/// Rows whose third column has no whole number but two: of the others the text is none.
const TEXTS: &str =
    "a,b,7x\na,b,\"7x\"\na,b,007\na,b,\"7,\"\na,b,+7\na,b, 7\na,b,\"7 \"\na,b,7.0\na,b\n7,7,\n";

/// Rows whose third column has whole numbers and their like.
const NUMBERS: &str = "a,b,7\r\na,b,\"7\"\r\na,b,07\r\na,b,0\r\na,b,-0\r\na,b,-7\r\na,b,00\r\n\
a,b,9223372036854775807\r\na,b,9223372036854775808\r\na,b,-9223372036854775808\r\na,b,-\r\na,b,7";

/// Lines of JSON with the same names.
const LINES: &str =
    "{\"$3\":7}\r\n{\"$3\":\"7\"}\n\n{\"$3\":7.0}\n{\"$3\":[7]}\n[7]\n{\"$3\":7,\"$3\":8}\n{\"$3\":7}";

/// A form, a file, a value, and the numbers of the records that have it.
const QUERIES: &[((Form, &str, &str), &str)] = &[
    ((Form::Csv, TEXTS, "7"), ""),
    ((Form::Csv, TEXTS, "\"7x\""), "0;1;"),
    ((Form::Csv, TEXTS, "\"007\""), "2;"),
    ((Form::Csv, TEXTS, "\"7,\""), "3;"),
    ((Form::Csv, TEXTS, "\"+7\""), "4;"),
    ((Form::Csv, TEXTS, "\" 7\""), "5;"),
    ((Form::Csv, TEXTS, "\"7 \""), "6;"),
    ((Form::Csv, TEXTS, "\"7.0\""), "7;"),
    ((Form::Csv, TEXTS, "\"\""), "9;"),
    ((Form::Csv, TEXTS, "\"7\""), ""),
    ((Form::Csv, NUMBERS, "7"), "0;1;11;"),
    ((Form::Csv, NUMBERS, "\"7\""), ""),
    ((Form::Csv, NUMBERS, "\"07\""), "2;"),
    ((Form::Csv, NUMBERS, "0"), "3;"),
    ((Form::Csv, NUMBERS, "\"-0\""), "4;"),
    ((Form::Csv, NUMBERS, "-7"), "5;"),
    ((Form::Csv, NUMBERS, "\"00\""), "6;"),
    ((Form::Csv, NUMBERS, "9223372036854775807"), "7;"),
    ((Form::Csv, NUMBERS, "\"9223372036854775808\""), "8;"),
    ((Form::Csv, NUMBERS, "-9223372036854775808"), "9;"),
    ((Form::Csv, NUMBERS, "\"-\""), "10;"),
    ((Form::Json, LINES, "7"), "0;5;"),
    ((Form::Json, LINES, "\"7\""), "1;"),
    ((Form::Json, LINES, "8"), "4;"),
];

/// A row with a comma inside a field, and one of a number alone.
const COLUMNS: &str = "a,\"x,1\",007\n";

const NUMBER: &str = "7\n";

/// A row whose column has the text of an array.
const LISTED: &str = "[7]\n";

/// Lines with tags: an array, a text, and an array of which one element is a value.
const TAGS: &str =
    "{\"tags\":[\"a\",\"b\",\"a\"]}\n{\"tags\":\"a\"}\n{\"tags\":[1.5,null,\"b\"]}\n";

/// A definition with a form, a file and a value, and the numbers of the records that have it.
const FIELDS: &[((&str, (Form, &str, &str)), &str)] = &[
    (("take $2", (Form::Csv, COLUMNS, "\"x,1\"")), "0;"),
    (("take $3", (Form::Csv, COLUMNS, "7")), ""),
    (("take $3", (Form::Csv, COLUMNS, "\"007\"")), "0;"),
    (("take $1", (Form::Csv, NUMBER, "7")), "0;"),
    (("each tags", (Form::Json, TAGS, "\"a\"")), "0;"),
    (("each tags", (Form::Json, TAGS, "\"b\"")), "0;2;"),
    (("each tags", (Form::Json, TAGS, "\"c\"")), ""),
    (("take tags", (Form::Json, TAGS, "\"a\"")), "1;"),
    // A column is no array, whatever its text is.
    (("each $1", (Form::Csv, NUMBER, "7")), ""),
    (("each $1", (Form::Csv, LISTED, "7")), ""),
];

/// Whether a definition gives a value on a payload, which is a record.
fn gives_on<P: Ledger>(
    alloc: Global,
    parses: &mut Steps<P>,
    form: Form,
    payload: &Text,
    def: &Def,
    value: &Value,
) -> Result<bool, AllocError> {
    match parse(alloc, form, payload.as_bytes(), parses) {
        Ok(record) => {
            let same = gives(alloc, def, &record, value);
            drop(record);
            same
        }
        Err(_) => Err(AllocError),
    }
}

/// The numbers of the payloads on which it does.
fn numbers_of<P: Ledger>(
    alloc: Global,
    parses: &mut Steps<P>,
    form: Form,
    payloads: &[Text],
    def: &Def,
    value: &Value,
) -> Result<String, AllocError> {
    let mut numbers = String::new(alloc);
    for (number, payload) in payloads.iter().enumerate() {
        if gives_on(alloc, parses, form, payload, def, value)? {
            write!(numbers, "{number};")?;
        }
    }
    Ok(numbers)
}

/// The numbers of a file's records on which a definition gives a value.
fn numbers_in<P: Ledger>(
    alloc: Global,
    blank: Blank,
    case: &(Form, &str, &str),
    def: &Def,
    value: &Value,
) -> Result<String, AllocError>
    requires blank { IsBlankOf P.name P.parts blank }
{
    let mut parses = Steps::<P>::new(blank);
    match records(alloc, case.0, false, case.1.as_bytes()) {
        Ok(found) => {
            let payloads = found.payloads.as_slice();
            let numbers = numbers_of(alloc, &mut parses, case.0, payloads, def, value);
            drop(found);
            numbers
        }
        Err(refusal) => format!(in alloc; "{refusal}"),
    }
}

/// The same of a value that is there, with a counter of its own.
fn numbers_with(
    alloc: Global,
    case: &(Form, &str, &str),
    def: &Def,
    value: &Option<Value>,
) -> Result<String, AllocError> {
    match value {
        Some(value) => numbers_in::<Brand>(alloc, Blank::new(1), case, def, value),
        None => String::from_str(alloc, "no value"),
    }
}

/// The same of a value's text.
fn with_def(alloc: Global, case: &(Form, &str, &str), def: &Def) -> Result<String, AllocError> {
    let value = read_value(alloc, case.2.as_bytes())?;
    let numbers = numbers_with(alloc, case, def, &value);
    drop(value);
    numbers
}

/// The same of a definition's text.
fn told_by(alloc: Global, def: &str, case: &(Form, &str, &str)) -> Result<String, AllocError> {
    let def = definition(alloc, def)?;
    let numbers = with_def(alloc, case, &def);
    drop(def);
    numbers
}

/// The same by the third column.
fn told(alloc: Global, case: &(Form, &str, &str)) -> Result<String, AllocError> {
    told_by(alloc, "take $3", case)
}

#[test]
fn values_of_the_third_column(rt: HostRuntime) -> Result<(), Fail> {
    expect_all(&rt, rt.alloc(), QUERIES, told)?;
    Ok(())
}

/// What is told of a definition on a file.
fn field_told(alloc: Global, case: &(&str, (Form, &str, &str))) -> Result<String, AllocError> {
    told_by(alloc, case.0, &case.1)
}

#[test]
fn values_of_columns(rt: HostRuntime) -> Result<(), Fail> {
    expect_all(&rt, rt.alloc(), FIELDS, field_told)?;
    Ok(())
}
