//! What `select` answers, from the parts of a file.

ghost use Rattle.std.specs.Prelude.{◌≡◌, ◌+◌, ◌++◌, ◌<◌, ◌≤◌, ◌^◌, ℕ, List, Option, [], length, map};
ghost use Rattle.std.specs.Prelude.{IfErr, IfOk, IsErrOf, OnOk};
ghost use Rattle.fish_csv.specs.Left.{rows_left};
ghost use Rattle.fish_json.specs.Lines.{payload_of_line};
ghost use Rattle.fish_lang.specs.Definition.{Definition, definition_of};
ghost use Rattle.fish_value.specs.Outcomes.{accepted};
ghost use Rattle.fish_lines.specs.Left.{lines_left};
ghost use Rattle.fish_lines.specs.Resuming.{outcomes_from};
ghost use Rattle.fish_select.specs.Selection.{HasFoundRows, most_records, selection_of};
ghost use Rattle.fish_select.specs.declared.found.SelectRefusal.TheVariants.{OutOfMemory, TooMany};
ghost use Rattle.fish_value.specs.Limits.{longest_file};
ghost use Rattle.fish_value.specs.declared.field.Form.{Form as Forms};
ghost use Rattle.fish_value.specs.declared.field.Form.TheVariants.{Csv, Json};
ghost use Rattle.fish_value.specs.declared.value.Value.{Value as Values};

use crate::found::{Found, SelectRefusal};
use crate::lines::add_lines;
use crate::rows::add_rows;
use fish_csv::{CsvRefusal, RowTexts};
use fish_lang::Def;
use fish_lines::{Begin, Lines};
use fish_report::Item;
use fish_value::{Form, Value};
use std::alloc::Global;

/// What is asked of a file: the records of its form on which a definition has a value.
#[derive(Clone, Copy)]
pub struct Query<'q> {
    /// The definition.
    pub def: &'q Def,
    /// The value asked for.
    pub value: &'q Value,
    /// The form of the file's records.
    pub form: Form,
}

/// Nothing of a file was read. Takes no memory.
pub fn begin_select(alloc: Global) -> Found
    ensures empty { (def : Definition) (v : Values) (form : Forms) → HasFoundRows def v form [] result }
    ensures none { result.count + result.refused ≡ 0 }
{
    Found::nothing(alloc)
}

/// Adds the records with the value of the next part of a file, which begins at the file's start or after one of its
/// lines or rows.
pub fn select_part(
    alloc: Global,
    query: &Query<'_>,
    begin: Begin,
    part: &[u8],
    found: &mut Found,
) -> Result<(), SelectRefusal>
    requires short { query.now.form ≡ Csv → length part.now ≤ longest_file }
    requires room { found.old.count + found.old.refused + length part.now < 2 ^ 63 }
    ensures found { OnOk result ((os : List (Option (List ℕ)))
        → HasFoundRows (definition_of query.now.def.now) query.now.value.now query.now.form os found.old
        → HasFoundRows (definition_of query.now.def.now) query.now.value.now query.now.form
        (os ++ outcomes_from query.now.form begin part.now) found.new) }
    ensures rises { OnOk result (found.new.count + found.new.refused
        ≤ found.old.count + found.old.refused + length part.now) }
    ensures many { IsErrOf result TooMany
        → most_records < found.old.count + length (accepted (outcomes_from query.now.form begin part.now)) }
{
    match query.form {
        Form::Json => {
            let mut lines = lines_from(begin, part);
            add_lines(alloc, query.def, query.value, &mut lines, found)
        }
        Form::Csv => {
            let mut rows = rows_from(alloc, begin, part)?;
            let added = add_rows(alloc, query.def, query.value, &mut rows, found);
            drop(rows);
            added
        }
    }
}

/// The lines of a part.
#[tactic(auto, using(crate::proofs::PartLemmas::first_lines, crate::proofs::PartLemmas::later_lines))]
fn lines_from(begin: Begin, part: &[u8]) -> Lines<'_>
    ensures lines { map payload_of_line (lines_left result) ≡ outcomes_from Json begin part.now }
    ensures within { length result.rest.now ≤ length part.now }
{
    match begin {
        Begin::Start { .. } => Lines::new(part),
        Begin::After => Lines::after(part),
    }
}

/// The rows of a part.
#[tactic(auto, using(crate::proofs::PartLemmas::first_rows, crate::proofs::PartLemmas::later_rows))]
fn rows_from(alloc: Global, begin: Begin, part: &[u8]) -> Result<RowTexts<'_>, SelectRefusal>
    requires { length part.now ≤ longest_file }
    ensures rows { IfOk result (λ rows. rows_left rows ≡ outcomes_from Csv begin part.now) }
    ensures within { IfOk result (λ rows. length rows.rest.now ≤ length part.now) }
    ensures memory { IfErr result (λ error. error ≡ OutOfMemory) }
{
    match begin {
        Begin::Start { header } => match RowTexts::new(alloc, part, header) {
            Ok(rows) => Ok(rows),
            Err(CsvRefusal::OutOfMemory) => Err(SelectRefusal::OutOfMemory),
            Err(CsvRefusal::FileTooLong) => unreachable!(),
        },
        Begin::After => Ok(RowTexts::after(alloc, part)),
    }
}

/// What is answered for a file of which all parts were read.
pub fn end_select(found: Found) -> Item
    ensures { (def : Definition) (v : Values) (form : Forms) (os : List (Option (List ℕ)))
        → HasFoundRows def v form os found → result ≡ selection_of def v form os }
{
    let Found {
        mut rows,
        count,
        refused,
    } = found;
    rows.reverse();
    Item::Select {
        rows,
        count,
        refused,
    }
}
