//! Answers as texts, so that tables hold what is wanted in plain words.

use fish_psf::Parsed;
use fish_value::{Field, FieldView, Fields, Path, Sequence, Text, Value, Values};
use std::alloc::{AllocError, Global};
use std::fmt::Display;

/// What two ways tell of one thing.
pub fn agreed(alloc: Global, one: &str, other: &str) -> Result<String, AllocError> {
    if one == other {
        return String::from_str(alloc, one);
    }
    format!(in alloc; "{one} or {other}")
}

/// The path of names with a dot between them.
pub fn path_of(alloc: Global, text: &str) -> Result<Path, AllocError> {
    let mut names = text.split('.');
    let first = names.next().unwrap_or("");
    let mut path = Path::new(alloc, Text::copy_of(alloc, first)?);
    for name in names {
        path.push(Text::copy_of(alloc, name)?)?;
    }
    Ok(path)
}

/// What is found of a value: its kind and content, or `none`.
pub fn value_text(alloc: Global, found: &Option<Value>) -> Result<String, AllocError> {
    match found {
        None => String::from_str(alloc, "none"),
        Some(value) => text_of(alloc, value),
    }
}

/// The kinds and contents of values, a bar between two, or `none`.
pub fn values_text(alloc: Global, found: &Values) -> Result<String, AllocError> {
    if found.is_empty() {
        return String::from_str(alloc, "none");
    }
    let mut told = String::new(alloc);
    for value in found.as_slice() {
        if !told.is_empty() {
            told.push('|')?;
        }
        let text = text_of(alloc, value)?;
        told.push_str(text.as_str())?;
    }
    Ok(told)
}

/// A value's kind and content.
pub fn text_of(alloc: Global, value: &Value) -> Result<String, AllocError> {
    match value {
        Value::Bool(truth) => format!(in alloc; "{truth}"),
        Value::Int(number) => format!(in alloc; "int {number}"),
        Value::Text(text) => format!(in alloc; "text {}", text.as_str()),
    }
}

/// What a record has at a path: the kind and content of the field.
pub fn field_at<R: Parsed>(alloc: Global, rec: &R, path: &Path) -> Result<String, AllocError> {
    let field = rec.at(alloc, path)?;
    let told = field_text(alloc, &field);
    drop(field);
    told
}

/// The kinds and contents of fields, a bar after each.
pub fn fields_text(alloc: Global, fields: &Fields) -> Result<String, AllocError> {
    let mut told = String::new(alloc);
    for field in fields.as_slice() {
        let text = field_text(alloc, field)?;
        told.push_str(text.as_str())?;
        told.push('|')?;
    }
    Ok(told)
}

/// The elements of the array that a record has at a path, told in the same way.
pub fn items_at<R: Parsed>(alloc: Global, rec: &R, path: &Path) -> Result<String, AllocError> {
    let views = rec.look_each(alloc, path)?;
    let told = views_text(alloc, &views);
    drop(views);
    told
}

/// The same of fields that are borrowed.
fn views_text(alloc: Global, views: &Sequence<FieldView<'_>>) -> Result<String, AllocError> {
    let mut fields = Fields::new(alloc);
    for view in views.as_slice() {
        fields.push(view.to_field(alloc)?)?;
    }
    fields_text(alloc, &fields)
}

/// What a record that was read has at a path, or the message of why it was not read.
pub fn field_or_refusal<R: Parsed + Drop, E: Display + Drop>(
    alloc: Global,
    read: Result<R, E>,
    path: &Path,
) -> Result<String, AllocError> {
    match read {
        Ok(record) => {
            let told = field_at(alloc, &record, path);
            drop(record);
            told
        }
        Err(refusal) => {
            let told = format!(in alloc; "{refusal}");
            drop(refusal);
            told
        }
    }
}

/// A field's kind and content.
fn field_text(alloc: Global, field: &Field) -> Result<String, AllocError> {
    match field {
        Field::Missing => String::from_str(alloc, "missing"),
        Field::Null => String::from_str(alloc, "null"),
        Field::Bool(truth) => format!(in alloc; "{truth}"),
        Field::Int(number) => format!(in alloc; "int {number}"),
        Field::Text(text) => format!(in alloc; "text {}", text.as_str()),
        Field::Other => String::from_str(alloc, "other"),
    }
}
