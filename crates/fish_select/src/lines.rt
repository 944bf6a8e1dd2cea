//! What the lines of a file in JSON Lines give.

ghost use Rattle.std.specs.Prelude.{◌≡◌, ◌+◌, ◌<◌, ◌≤◌, ◌^◌, ◌∷◌, [], length, map, IfOk, IsErrOf, IsUtf8, OnOk};
ghost use Rattle.fish_json.specs.Lines.{payload_of_line};
ghost use Rattle.fish_lang.specs.Definition.{definition_of};
ghost use Rattle.fish_value.specs.Outcomes.{accepted};
ghost use Rattle.fish_lines.specs.Left.{lines_left};
ghost use Rattle.fish_psf.specs.Eval.{values};
ghost use Rattle.fish_psf.specs.Select.{has_value};
ghost use Rattle.fish_select.specs.Selection.{most_records};
ghost use Rattle.fish_select.specs.declared.found.SelectRefusal.TheVariants.{TooMany};
ghost use Rattle.fish_select.specs.within.Found.{kept_if, with_outcome, with_outcomes};
ghost use Rattle.fish_select.specs.within.Selection.{is_selected};
ghost use Rattle.fish_value.specs.declared.field.Form.TheVariants.{Json};

use crate::found::{Found, SelectRefusal};
use fish_json::{JsonReader, RecordRefusal};
use fish_lang::Def;
use fish_lines::Lines;
use fish_psf::{Parsed, gives};
use fish_value::{Text, Value};
use std::alloc::{AllocError, Global};

/// Adds what the lines give that are left. One reader is kept for all of them, and only the lines that are selected are
/// copied.
pub(crate) fn add_lines(
    alloc: Global,
    def: &Def,
    value: &Value,
    lines: &mut Lines<'_>,
    found: &mut Found,
) -> Result<(), SelectRefusal>
    requires { found.old.count + found.old.refused + length lines.old.rest.now < 2 ^ 63 }
    ensures added { OnOk result (found.new
        ≡ with_outcomes (is_selected (definition_of def.now) value.now Json) found.old
        (map payload_of_line (lines_left lines.old))) }
    ensures rises { OnOk result (found.new.count + found.new.refused
        ≤ found.old.count + found.old.refused + length lines.old.rest.now) }
    ensures many { IsErrOf result TooMany
        → most_records < found.old.count + length (accepted (map payload_of_line (lines_left lines.old))) }
{
    let mut reader = JsonReader::new(alloc);
    while let Some(line) = lines.next_line() {
        add_line(alloc, &mut reader, def, value, line, found)?;
    }
    Ok(())
}

/// Counts one more line.
#[tactic(auto, using(crate::proofs::LineLemmas::record_is_read, crate::proofs::LineLemmas::payload_of_none))]
fn add_line(
    alloc: Global,
    reader: &mut JsonReader,
    def: &Def,
    value: &Value,
    line: &[u8],
    found: &mut Found,
) -> Result<(), SelectRefusal>
    requires { found.old.count + found.old.refused < 2 ^ 63 }
    ensures counted { OnOk result (found.new
        ≡ with_outcome (is_selected (definition_of def.now) value.now Json) found.old (payload_of_line line.now)) }
    ensures rises { OnOk result
        (found.new.count + found.new.refused ≡ found.old.count + found.old.refused + 1) }
    ensures many { IsErrOf result TooMany
        → most_records < found.old.count + length (accepted (payload_of_line line.now ∷ [])) }
{
    match reader.read(alloc, line) {
        Ok(parsed) => {
            let kept = kept_line(alloc, def, value, &parsed, line);
            drop(parsed);
            found.add(kept?)
        }
        Err(RecordRefusal::OutOfMemory) => Err(SelectRefusal::OutOfMemory),
        Err(_) => {
            found.refused += 1;
            Ok(())
        }
    }
}

/// A copy of a line, where the record that it was read as has the value.
fn kept_line<R: Parsed>(
    alloc: Global,
    def: &Def,
    value: &Value,
    parsed: &R,
    line: &[u8],
) -> Result<Option<Text>, AllocError>
    requires { IsUtf8 line.now }
    ensures { IfOk result (λ kept. kept
        ≡ kept_if (has_value (values (definition_of def.now) (R.fields parsed.now)) value.now) line.now) }
{
    if !gives(alloc, def, parsed, value)? {
        return Ok(None);
    }
    match Text::from_bytes(alloc, line)? {
        Some(text) => Ok(Some(text)),
        None => unreachable!(),
    }
}
