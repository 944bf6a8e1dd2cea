//! One record: the JSON object that a line is.

ghost use Rattle.std.specs.Prelude.{◌≡◌, ◌≢◌, ◌<◌, ◌≤◌, ◌↔◌, length, Some, None, IfOk, IfErr, OnOk, IsSome, IsErrOf, map, option_map};
ghost use Rattle.serde_json.specs.Data.{Data};
ghost use Rattle.serde_json.specs.View.{view};
ghost use Rattle.fish_value.specs.Json.{reading};
ghost use Rattle.fish_value.specs.Limits.{longest_payload};
ghost use Rattle.fish_value.specs.Seen.{field_seen};
ghost use Rattle.fish_json.specs.Reading.{at_path, items_in, items_of, json_field_in, kind_of_data, record_of};

use fish_value::{Field, FieldView, Fields, MAX_PAYLOAD, Path, Sequence, Text, read_json};
use std::alloc::{AllocError, Global};
use thiserror::Error;

/// Why bytes are no record.
#[derive(Clone, Copy, Debug, PartialEq, Eq, Error)]
pub enum RecordRefusal {
    #[error("a record has at most 524288 bytes")]
    TooLong,
    #[error("no JSON in UTF-8")]
    NotJson,
    #[error("JSON, but no object")]
    NotObject,
    #[error("out of memory")]
    OutOfMemory,
}

impl From<AllocError> for RecordRefusal {
    ghost use Rattle.std.specs.Prelude.{◌≡◌};
    ghost use Rattle.fish_json.specs.declared.record.RecordRefusal.TheVariants.{OutOfMemory};

    ghost from_gives = { λ _ refusal. refusal ≡ OutOfMemory };

    fn from(_: AllocError) -> RecordRefusal {
        RecordRefusal::OutOfMemory
    }
}

/// A record that was read. It owns its values.
#[derive(Debug, Drop)]
pub struct JsonRecord {
    value: serde_json::Value,
}

impl JsonRecord {
    ghost use Rattle.fish_json.specs.Contents.{contents};

    /// Reads the object that bytes are (RFC 8259). Objects and arrays nest at most 127 deep, the
    /// outermost counted, and of two equal names in an object the last counts.
    #[tactic(auto, unfolding(crate::specs::Contents::contents, crate::specs::Reading::record_of))]
    pub fn read(alloc: Global, b: &[u8]) -> Result<JsonRecord, RecordRefusal>
        ensures ok { IfOk result (λ found. record_of b.now ≡ Some (contents found)) }

        ensures length { OnOk result (length b.now ≤ longest_payload) }
        ensures too_long { IsErrOf result RecordRefusal.TooLong → longest_payload < length b.now }
        ensures not_json { IsErrOf result RecordRefusal.NotJson
            → (length b.now ≤ longest_payload) × (reading b.now ≡ None) }
        ensures not_object { IsErrOf result RecordRefusal.NotObject
            → (length b.now ≤ longest_payload) × IsSome (reading b.now) × (record_of b.now ≡ None) }
        ensures none { IfErr result (λ e. e ≢ RecordRefusal.OutOfMemory → record_of b.now ≡ None) }
    {
        if b.len() > MAX_PAYLOAD {
            return Err(RecordRefusal::TooLong);
        }
        let Some(value) = read_json(alloc, b)? else {
            return Err(RecordRefusal::NotJson);
        };
        if !value.is_object() {
            return Err(RecordRefusal::NotObject);
        }
        Ok(JsonRecord { value })
    }

    /// What the record has at a path, its text borrowed. An object, an array, and a number that is no
    /// whole number of 64 bits are [`FieldView::Other`]. It takes no memory.
    #[tactic(auto, unfolding(crate::specs::Reading::json_field_in))]
    pub fn look(&self, path: &Path) -> FieldView<'_>
        ensures { field_seen result ≡ json_field_in path.now (contents self.now) }
    {
        match self.value_at(path) {
            Some(value) => field(value),
            None => FieldView::Missing,
        }
    }

    /// The same, its text copied.
    pub fn get(&self, alloc: Global, path: &Path) -> Result<Field, AllocError>
        ensures { IfOk result (λ field. field ≡ json_field_in path.now (contents self.now)) }
    {
        self.look(path).to_field(alloc)
    }

    /// The elements of the array at a path as fields, their texts borrowed: none where no array is
    /// there. Memory and time in the number of the elements.
    #[tactic(auto, unfolding(crate::specs::Reading::items_in))]
    pub fn look_each(
        &self,
        alloc: Global,
        path: &Path,
    ) -> Result<Sequence<FieldView<'_>>, AllocError>
        ensures { IfOk result (λ fields. map field_seen fields ≡ items_in path.now (contents self.now)) }
    {
        match self.value_at(path) {
            Some(value) => elements(alloc, value),
            None => Ok(Sequence::new(alloc)),
        }
    }

    /// The same, their texts copied.
    pub fn get_each(&self, alloc: Global, path: &Path) -> Result<Fields, AllocError>
        ensures { IfOk result (λ fields. fields ≡ items_in path.now (contents self.now)) }
    {
        to_fields(alloc, &self.look_each(alloc, path)?)
    }

    /// Where a path leads.
    #[tactic(auto, unfolding(crate::specs::Contents::contents))]
    fn value_at(&self, path: &Path) -> Option<&serde_json::Value>
        ensures { option_map (λ found. view found.now) result ≡ at_path path.now (contents self.now) }
    {
        let (first, more) = path.parts();
        walk(self.value.get(first.as_str())?, more)
    }
}

/// Fields that own their texts, which are copied.
pub(crate) fn to_fields(
    alloc: Global,
    views: &Sequence<FieldView<'_>>,
) -> Result<Fields, AllocError>
    ensures { IfOk result (λ fields. fields ≡ map field_seen views.now) }
{
    let mut fields = Fields::new(alloc);
    for view in views.as_slice() {
        fields.push(view.to_field(alloc)?)?;
    }
    Ok(fields)
}

/// The elements of an array as fields, their texts borrowed: none of any other value.
fn elements(alloc: Global, value: &serde_json::Value) -> Result<Sequence<FieldView<'_>>, AllocError>
    ensures { IfOk result (λ fields. map field_seen fields ≡ items_of (Some (view value.now))) }
{
    match value.as_array() {
        Some(values) => fields(alloc, values.as_slice()),
        None => Ok(Sequence::new(alloc)),
    }
}

/// Values as fields, their texts borrowed.
fn fields(
    alloc: Global,
    values: &[serde_json::Value],
) -> Result<Sequence<FieldView<'_>>, AllocError>
    ensures { IfOk result (λ fields. map field_seen fields ≡ map (λ v. kind_of_data (view v)) values.now) }
{
    let mut fields = Sequence::new(alloc);
    for value in values {
        fields.push(field(value))?;
    }
    Ok(fields)
}

/// Where names lead from a value, through objects.
fn walk<'a>(value: &'a serde_json::Value, steps: &[Text]) -> Option<&'a serde_json::Value>
    ensures { option_map (λ found. view found.now) result ≡ at_path steps.now (view value.now) }
{
    let mut found = value;
    for step in steps {
        found = found.get(step.as_str())?;
    }
    Some(found)
}

/// A value as a field. Its text is borrowed.
fn field(value: &serde_json::Value) -> FieldView<'_>
    ensures { field_seen result ≡ kind_of_data (view value.now) }
{
    match value {
        serde_json::Value::Null => FieldView::Null,
        serde_json::Value::Bool(truth) => FieldView::Bool(*truth),
        serde_json::Value::Number(number) => match number.as_i64() {
            Some(number) => FieldView::Int(number),
            None => FieldView::Other,
        },
        serde_json::Value::String(text) => FieldView::Text(text.as_str()),
        serde_json::Value::Array(_) | serde_json::Value::Object(_) => FieldView::Other,
    }
}
