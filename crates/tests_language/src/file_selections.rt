//! What `select` answers for the bytes of a file, with texts that were written out by hand.

ghost use Rattle.std.specs.Prelude.{◌≤◌, length};
ghost use Rattle.fish_value.specs.Limits.{longest_file};

use crate::expecting::expect_all;
use crate::sources::definition;
use fish_lang::Def;
use fish_lines::Begin;
use fish_report::{Item, push_item};
use fish_select::{Query, begin_select, end_select, select_part};
use fish_value::{Form, Value, read_value};
use std::alloc::{AllocError, Global};
use std::test::Fail;

/// The most bytes of a file.
const MOST: usize = 67_108_864;

/// A file whose second field has a comma and whose third a number that is none.
const COLUMNS: &str = "a,\"x,1\",007\n";

/// A file whose first row names the columns.
const NAMED: &str = "h1,h2\r\n1,2\n";

/// Lines of which the second is no object.
const LINES: &str = "{\"n\":1}\r\n[1]\n{\"n\":\"1\"}\n\n{\"n\":1,\"m\":2}";

/// Lines with tags: an array, a text, and an array of which one element is a value.
const TAGS: &str =
    "{\"tags\":[\"a\",\"b\",\"a\"]}\n{\"tags\":\"a\"}\n{\"tags\":[1.5,null,\"b\"]}\n";

/// A line with nine numbers.
const NINE: &str = "{\"n\":[1,2,3,4,5,6,7,8,9]}\n";

/// A definition, a value, a form, whether there is a header, and a file; and the text of the answer.
const ANSWERS: &[((&str, &str, Form, bool, &str), &str)] = &[
    (
        ("take $2", "\"x,1\"", Form::Csv, false, COLUMNS),
        "select found 1 of 1 refused 0\n0 11 a,\"x,1\",007\n",
    ),
    (
        ("take $3", "7", Form::Csv, false, COLUMNS),
        "select found 0 of 1 refused 0\n",
    ),
    (
        ("take $3", "\"007\"", Form::Csv, false, COLUMNS),
        "select found 1 of 1 refused 0\n0 11 a,\"x,1\",007\n",
    ),
    (
        ("take $1", "1", Form::Csv, true, NAMED),
        "select found 1 of 1 refused 0\n0 3 1,2\n",
    ),
    (
        ("take h1", "1", Form::Csv, true, NAMED),
        "select found 0 of 1 refused 0\n",
    ),
    (
        ("take $1", "\"h1\"", Form::Csv, false, NAMED),
        "select found 1 of 2 refused 0\n0 5 h1,h2\n",
    ),
    (
        ("take $1", "1", Form::Csv, true, ""),
        "select found 0 of 0 refused 0\n",
    ),
    (
        ("take n", "1", Form::Json, false, LINES),
        "select found 2 of 3 refused 1\n2 13 {\"n\":1,\"m\":2}\n0 7 {\"n\":1}\n",
    ),
    (
        ("each tags", "\"b\"", Form::Json, false, TAGS),
        "select found 2 of 3 refused 0\n2 23 {\"tags\":[1.5,null,\"b\"]}\n0 22 {\"tags\":[\"a\",\"b\",\"a\"]}\n",
    ),
    (
        ("each tags", "\"a\"", Form::Json, false, TAGS),
        "select found 1 of 3 refused 0\n0 22 {\"tags\":[\"a\",\"b\",\"a\"]}\n",
    ),
    (
        ("each n", "8", Form::Json, false, NINE),
        "select found 1 of 1 refused 0\n0 25 {\"n\":[1,2,3,4,5,6,7,8,9]}\n",
    ),
    (
        ("each n", "9", Form::Json, false, NINE),
        "select found 0 of 1 refused 0\n",
    ),
    // a file in JSON has no header
    (
        ("take n", "1", Form::Json, true, LINES),
        "select found 2 of 3 refused 1\n2 13 {\"n\":1,\"m\":2}\n0 7 {\"n\":1}\n",
    ),
];

/// A file whose second row isn't UTF-8, and whose fourth would be two columns of another text.
const BROKEN: &[u8] = b"a,1\nb,\xff\n\na,1,2\nc,1";

/// The same of this file.
const BROKEN_ANSWERS: &[((&str, &str, Form, bool, &[u8]), &str)] = &[
    (
        ("take $2", "1", Form::Csv, false, BROKEN),
        "select found 3 of 3 refused 1\n2 3 c,1\n1 5 a,1,2\n0 3 a,1\n",
    ),
    (
        ("take $1", "\"a\"", Form::Csv, true, BROKEN),
        "select found 1 of 2 refused 1\n0 5 a,1,2\n",
    ),
];

/// The text of the answer for a file that isn't too long, in one part.
fn answer(alloc: Global, query: &Query<'_>, header: bool, file: &[u8]) -> Result<String, AllocError>
    requires { length file.now ≤ longest_file }
{
    let mut found = begin_select(alloc);
    match select_part(alloc, query, Begin::Start { header }, file, &mut found) {
        Ok(()) => {}
        Err(_) => {
            drop(found);
            return Err(AllocError);
        }
    }
    item_text(alloc, end_select(found))
}

/// The text of an item.
fn item_text(alloc: Global, item: Item) -> Result<String, AllocError> {
    let mut text = String::new(alloc);
    let pushed = push_item(alloc, &mut text, &item);
    drop(item);
    match pushed {
        Ok(()) => Ok(text),
        Err(error) => Err(error),
    }
}

/// The same by a value that is there.
fn with_value(
    alloc: Global,
    def: &Def,
    value: &Option<Value>,
    form: Form,
    header: bool,
    file: &[u8],
) -> Result<String, AllocError> {
    match value {
        Some(value) if file.len() <= MOST => {
            answer(alloc, &Query { def, value, form }, header, file)
        }
        Some(_) => String::from_str(alloc, "too long"),
        None => String::from_str(alloc, "no value"),
    }
}

/// The same by the texts of a definition and a value.
fn told(
    alloc: Global,
    query: (&str, &str),
    form: Form,
    header: bool,
    file: &[u8],
) -> Result<String, AllocError> {
    let value = read_value(alloc, query.1.as_bytes())?;
    let def = definition(alloc, query.0)?;
    let told = with_value(alloc, &def, &value, form, header, file);
    drop((def, value));
    told
}

fn text_told(alloc: Global, case: &(&str, &str, Form, bool, &str)) -> Result<String, AllocError> {
    let (def, value, form, header, text) = *case;
    told(alloc, (def, value), form, header, text.as_bytes())
}

fn bytes_told(alloc: Global, case: &(&str, &str, Form, bool, &[u8])) -> Result<String, AllocError> {
    let (def, value, form, header, file) = *case;
    told(alloc, (def, value), form, header, file)
}

#[test]
fn answers(rt: HostRuntime) -> Result<(), Fail> {
    expect_all(&rt, rt.alloc(), ANSWERS, text_told)?;
    expect_all(&rt, rt.alloc(), BROKEN_ANSWERS, bytes_told)?;
    Ok(())
}
