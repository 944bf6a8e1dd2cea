//! A record read over a tape of its text. No tree is made of it.

ghost use Rattle.std.specs.Prelude.{◌≡◌, IfOk, IsSome, Some, map, unwrap_or, option_and_then};
ghost use Rattle.serde_json.specs.Data.{Data, null};
ghost use Rattle.serde_json.specs.Data.{Items as DataItems};
ghost use Rattle.serde_json.specs.Find.{as_i64, get};
ghost use Rattle.serde_json.specs.Read.{number_of};
ghost use Rattle.fish_value.specs.Seen.{field_seen};
ghost use Rattle.fish_json.specs.Reading.{at_path, items_in, items_of, json_field_in, int_or_other, item_fields};
ghost use Rattle.fish_json.specs.Reading.{kind_of_data};
ghost use Rattle.fish_json.specs.Tape.{data_at};
ghost use Rattle.fish_json.specs.within.Tape.{FindsData, StandItems, StandsForData};

use crate::number::as_int;
use crate::record::to_fields;
use fish_value::{Field, FieldView, Fields, Path, Sequence, Text};
use json::{Element, Items, Tape};
use std::alloc::{AllocError, Global};

/// A record that was read. It lends the text and the memory of the reader.
#[derive(Drop)]
pub struct JsonRow<'a> {
    tape: Tape<'a>,
    ghost reads: { IsSome (data_at tape) },
}

impl<'a> JsonRow<'a> {
    ghost use Rattle.fish_json.specs.Row.{row_contents};

    /// The record that a tape tells.
    #[tactic(auto, unfolding(crate::specs::Row::row_contents))]
    pub(crate) fn of_tape(tape: Tape<'a>) -> JsonRow<'a>
        requires { IsSome (data_at tape) }
        ensures { row_contents result ≡ unwrap_or (data_at tape.entry) null }
    {
        JsonRow { tape }
    }

    /// What the record has at a path, its text borrowed. An object, an array, and a number that is no
    /// whole number of 64 bits are [`FieldView::Other`]. It takes no memory, and time in the length
    /// of the objects on the path.
    pub fn look(&self, path: &Path) -> FieldView<'_>
        ensures { field_seen result ≡ json_field_in path.now (row_contents self.now) }
    {
        match self.find(path) {
            Some(value) => field(&value),
            None => FieldView::Missing,
        }
    }

    /// The same, its text copied.
    pub fn get(&self, alloc: Global, path: &Path) -> Result<Field, AllocError>
        ensures { IfOk result (λ field. field ≡ json_field_in path.now (row_contents self.now)) }
    {
        self.look(path).to_field(alloc)
    }

    /// The elements of the array at a path as fields, their texts borrowed: none where no array is
    /// there. Memory in the number of the elements, and time in the length of the array.
    pub fn look_each(
        &self,
        alloc: Global,
        path: &Path,
    ) -> Result<Sequence<FieldView<'_>>, AllocError>
        ensures { IfOk result (λ fields. map field_seen fields ≡ items_in path.now (row_contents self.now)) }
    {
        match self.find(path) {
            Some(value) => elements(alloc, &value),
            None => Ok(Sequence::new(alloc)),
        }
    }

    /// The same, their texts copied.
    pub fn get_each(&self, alloc: Global, path: &Path) -> Result<Fields, AllocError>
        ensures { IfOk result (λ fields. fields ≡ items_in path.now (row_contents self.now)) }
    {
        to_fields(alloc, &self.look_each(alloc, path)?)
    }

    /// Where a path leads.
    fn find(&self, path: &Path) -> Option<Element<'_, 'a>>
        ensures { FindsData result (at_path path.now (row_contents self.now)) }
    {
        let (first, more) = path.parts();
        walk(step(&self.tape.root(), first)?, more)
    }
}

/// Where names lead from a value, through objects.
fn walk<'t, 'a>(value: Element<'t, 'a>, steps: &[Text]) -> Option<Element<'t, 'a>>
    ensures { (d : Data) → StandsForData value.entry d → FindsData result (at_path steps.now d) }
{
    let mut found = value;
    for name in steps {
        found = step(&found, name)?;
    }
    Some(found)
}

/// The last member of that name, where the value is an object.
fn step<'t, 'a>(value: &Element<'t, 'a>, name: &Text) -> Option<Element<'t, 'a>>
    ensures { (d : Data) → StandsForData value.now d → FindsData result (get name.now d) }
{
    value.get(name.as_str())
}

/// A value as a field. Its text is borrowed.
fn field<'a>(value: &Element<'_, 'a>) -> FieldView<'a>
    ensures { (d : Data) → StandsForData value.now d → field_seen result ≡ kind_of_data d }
{
    if let Some(text) = value.as_str() {
        return FieldView::Text(text);
    }
    if let Some(text) = value.as_number() {
        return number(text);
    }
    if let Some(truth) = value.as_bool() {
        return FieldView::Bool(truth);
    }
    if value.is_null() {
        return FieldView::Null;
    }
    FieldView::Other
}

/// A number's text as a field.
fn number(text: &str) -> FieldView<'_>
    ensures { field_seen result ≡ int_or_other (option_and_then as_i64 (number_of text.now)) }
{
    match as_int(text) {
        Some(number) => FieldView::Int(number),
        None => FieldView::Other,
    }
}

/// The elements of an array as fields, their texts borrowed: none of any other value.
fn elements<'a>(
    alloc: Global,
    value: &Element<'_, 'a>,
) -> Result<Sequence<FieldView<'a>>, AllocError>
    ensures { IfOk result (λ fields. (d : Data) → StandsForData value.now d
        → map field_seen fields ≡ items_of (Some d)) }
{
    match value.items() {
        Some(items) => fields_left(alloc, items),
        None => Ok(Sequence::new(alloc)),
    }
}

/// The elements that are left as fields, their texts borrowed.
fn fields_left<'a>(
    alloc: Global,
    items: Items<'_, 'a>,
) -> Result<Sequence<FieldView<'a>>, AllocError>
    ensures { IfOk result (λ fields. (ds : DataItems) → StandItems items.entry ds → map field_seen fields ≡ item_fields ds) }
{
    let mut fields = Sequence::new(alloc);
    let mut rest = items;
    while let Some(value) = rest.next() {
        fields.push(field(&value))?;
    }
    Ok(fields)
}
