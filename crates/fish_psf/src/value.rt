//! The values that a definition gives for a record.

ghost use Rattle.std.specs.List.{list_any};
ghost use Rattle.std.specs.Prelude.{◌≡◌, ◌↔◌, Contains, IfOk, IsTrue, OnOk, map};
ghost use Rattle.std.specs.Prelude.{option_map, option_to_list};
ghost use Rattle.fish_value.specs.Same.{same_value};
ghost use Rattle.fish_value.specs.Seen.{field_seen};
ghost use Rattle.fish_lang.specs.Definition.{definition_of, formula_of};
ghost use Rattle.fish_psf.specs.Select.{has_value};
ghost use Rattle.fish_psf.specs.Eval.{bucket, bucketed, first_values, holds_when, value_of, values};
ghost use Rattle.fish_psf.specs.within.Gathering.{with_field, with_value};
ghost use Rattle.fish_psf.specs.Given.{given_values};

use crate::condition::holds;
use crate::parsed::Parsed;
use fish_lang::{Cond, Def};
use fish_value::{FieldView, MAX_VALUE, Text, Value, Values};
use std::alloc::{AllocError, Global};

/// The most values that a definition gives for a record.
const MAX_VALUES: usize = 8;

/// What a definition gives for a record. One value alone takes no memory for a list.
#[derive(Debug, Drop)]
pub enum Given {
    /// The value of `take`, `bucket` or `flag`, where there is one.
    Single(Option<Value>),
    /// Those of `each`.
    Several(Values),
}

/// The values that a definition gives for a record, each once.
///
/// `take` gives the truth value, whole number or text of at most 256 bytes at its path, and `each` those
/// among the elements of the array there: each once in the order of its first place, and of these the
/// first eight. `bucket` gives the greatest multiple of its width that is not above the whole number at
/// its path, and `flag` gives true. All give none where their condition is false.
pub fn values<R: Parsed>(alloc: Global, def: &Def, rec: &R) -> Result<Values, AllocError>
    ensures { IfOk result (λ found. found ≡ values (definition_of def.now) (R.fields rec.now)) }
{
    match evaluate(alloc, def, rec)? {
        Given::Single(value) => listed(alloc, value),
        Given::Several(values) => Ok(values),
    }
}

/// The list of a value, or of none.
fn listed(alloc: Global, value: Option<Value>) -> Result<Values, AllocError>
    ensures { IfOk result (λ values. values ≡ option_to_list value) }
{
    let mut values = Values::new(alloc);
    if let Some(only) = value {
        values.push(only)?;
    }
    Ok(values)
}

/// The same, as whoever needs no list takes it.
#[tactic(auto, unfolding(crate::specs::Eval::values))]
pub fn evaluate<R: Parsed>(alloc: Global, def: &Def, rec: &R) -> Result<Given, AllocError>
    ensures { IfOk result (λ given. given_values given ≡ values (definition_of def.now) (R.fields rec.now)) }
{
    match def {
        Def::Take { path, when } => {
            if !holds_when(when, rec) {
                return Ok(Given::Single(None));
            }
            Ok(Given::Single(value_of(alloc, &rec.look(path))?))
        }
        Def::Each { path, when } => {
            if !holds_when(when, rec) {
                return Ok(Given::Single(None));
            }
            Ok(Given::Several(first_values(alloc, rec.look_each(alloc, path)?.as_slice())?))
        }
        Def::Bucket { path, width, when } => {
            if !holds_when(when, rec) {
                return Ok(Given::Single(None));
            }
            Ok(Given::Single(bucket_of(*width, &rec.look(path))))
        }
        Def::Flag { when } => {
            if !holds(when, rec) {
                return Ok(Given::Single(None));
            }
            Ok(Given::Single(Some(Value::Bool(true))))
        }
    }
}

/// Whether a definition gives a value for a record. No field is copied but those of an array.
#[tactic(auto, unfolding(crate::specs::Eval::values), using(crate::proofs::SelectLemmas::has_contains))]
pub fn gives<R: Parsed>(
    alloc: Global,
    def: &Def,
    rec: &R,
    value: &Value,
) -> Result<bool, AllocError>
    ensures test { IfOk result (λ yes. yes ≡ has_value (values (definition_of def.now) (R.fields rec.now)) value.now) }
    ensures among { IfOk result (λ yes. IsTrue yes ↔ Contains (values (definition_of def.now) (R.fields rec.now)) value.now) }
{
    match def {
        Def::Take { path, when } => Ok(holds_when(when, rec) && is_value(&rec.look(path), value)),
        Def::Each { path, when } => {
            if !holds_when(when, rec) {
                return Ok(false);
            }
            let values = first_values(alloc, rec.look_each(alloc, path)?.as_slice())?;
            let has = has(values.as_slice(), value);
            drop(values);
            Ok(has)
        }
        Def::Bucket { path, width, when } => {
            Ok(holds_when(when, rec) && is_bucket(*width, &rec.look(path), value))
        }
        Def::Flag { when } => Ok(holds(when, rec) && value.is(&Value::Bool(true))),
    }
}

/// Whether a field is the value.
fn is_value(field: &FieldView<'_>, value: &Value) -> bool
    ensures { result ≡ has_value (option_to_list (value_of (field_seen field.now))) value.now }
{
    match (field, value) {
        (FieldView::Bool(truth), Value::Bool(other)) => truth == other,
        (FieldView::Int(number), Value::Int(other)) => number == other,
        (FieldView::Text(text), Value::Text(other)) => {
            text.len() <= MAX_VALUE && text.as_bytes() == other.as_bytes()
        }
        _ => false,
    }
}

/// Whether a field rounded down to a multiple of a width is the value.
fn is_bucket(width: i64, field: &FieldView<'_>, value: &Value) -> bool
    ensures { result ≡ has_value (option_to_list (bucketed width (field_seen field.now))) value.now }
{
    match bucket_of(width, field) {
        Some(number) => number.is(value),
        None => false,
    }
}

/// The values among fields, each once, in the order of their first places, and of these the first eight.
#[tactic(auto, unfolding(crate::specs::Eval::first_values))]
fn first_values(alloc: Global, fields: &[FieldView<'_>]) -> Result<Values, AllocError>
    ensures { IfOk result (λ found. found ≡ first_values (map field_seen fields.now)) }
{
    let mut values = Values::new(alloc);
    for field in fields {
        if values.len() == MAX_VALUES {
            return Ok(values);
        }
        push_field(alloc, field, &mut values)?;
    }
    Ok(values)
}

/// Puts a field after the values, where it is one and is not among them.
fn push_field(alloc: Global, field: &FieldView<'_>, values: &mut Values) -> Result<(), AllocError>
    ensures { OnOk result (values.new ≡ with_field values.old (field_seen field.now)) }
{
    match value_of(alloc, field)? {
        Some(value) => push_value(value, values),
        None => Ok(()),
    }
}

/// Puts a value after the others, unless it is among them.
fn push_value(value: Value, values: &mut Values) -> Result<(), AllocError>
    ensures { OnOk result (values.new ≡ with_value values.old value) }
{
    if is_among(&value, values) {
        drop(value);
        return Ok(());
    }
    values.push(value)
}

/// Whether a value is among others.
fn is_among(value: &Value, values: &Values) -> bool
    ensures { result ≡ list_any (same_value value.now) values.now }
{
    values.as_slice().iter().any(|other| value.is(other))
}

/// A condition that is not there holds.
fn holds_when<R: Parsed>(when: &Option<Cond>, rec: &R) -> bool
    ensures { result ≡ holds_when (option_map formula_of when.now) (R.fields rec.now) }
{
    match when {
        Some(cond) => holds(cond, rec),
        None => true,
    }
}

/// A field as a value. A text is copied where it is short enough.
fn value_of(alloc: Global, field: &FieldView<'_>) -> Result<Option<Value>, AllocError>
    ensures { IfOk result (λ value. value ≡ value_of (field_seen field.now)) }
{
    match field {
        FieldView::Bool(truth) => Ok(Some(Value::Bool(*truth))),
        FieldView::Int(number) => Ok(Some(Value::Int(*number))),
        FieldView::Text(text) => {
            if text.len() > MAX_VALUE {
                return Ok(None);
            }
            Ok(Some(Value::Text(Text::copy_of(alloc, text)?)))
        }
        FieldView::Missing | FieldView::Null | FieldView::Other => Ok(None),
    }
}

/// A field rounded down to a multiple of a width.
fn bucket_of(width: i64, field: &FieldView<'_>) -> Option<Value>
    ensures { result ≡ bucketed width (field_seen field.now) }
{
    match field {
        FieldView::Int(number) => bucket(width, *number).map(Value::Int),
        _ => None,
    }
}

/// The greatest multiple of a width that is not above a number.
fn bucket(width: i64, number: i64) -> Option<i64>
    ensures { result ≡ bucket width number }
{
    if width < 1 {
        return None;
    }
    number.checked_sub(number.rem_euclid(width))
}

/// Whether a value is among those that a definition gives.
#[tactic(auto, using(crate::proofs::SelectLemmas::has_contains))]
pub fn has(values: &[Value], value: &Value) -> bool
    ensures test { result ≡ has_value values.now value.now }
    ensures among { IsTrue result ↔ Contains values.now value.now }
{
    values.iter().any(|other| other.is(value))
}
