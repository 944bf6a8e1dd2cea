//! Logs that tests open and close, and the names and definitions of which tests speak.

ghost use Rattle.std.specs.Prelude.{◌≡◌, ◌≤◌, [], IfOk};
ghost use Rattle.fish_catalog.specs.Canonical.{IsCanonical};
ghost use Rattle.fish_catalog.specs.Rows.{IsName};
ghost use Rattle.fish_lang.specs.Canonical.{definition_text};
ghost use Rattle.fish_lang.specs.Definition.{definition_of};
ghost use Rattle.fish_lang.specs.Language.{IsAccepted};
ghost use Rattle.fish_rule.specs.LoadSteps.{IsAlone};
ghost use Rattle.fish_rule.specs.Passes.{IsPassOf, view};
ghost use Rattle.fish_rule.specs.Start.{IsShape};
ghost use Rattle.fish_rule.specs.Table.{first_view};

use crate::cause::Cause;
use fish_catalog::{Catalog, Entries};
use fish_lang::{Def, LangRefusal, parse_def, print_def, reads_back};
use fish_rule::{Base, Log, Pass, Remains, Shape, Start, close_log, open_log};
use fish_value::Text;
use std::alloc::{AllocError, Global};

/// A log of one page.
pub const ONE_PAGE: Shape = Shape {
    pages: 1,
    bucket_bits: 4,
};

/// A log without definitions that begins at a base, and its control pass.
pub fn empty_log(alloc: Global, shape: Shape, base: Base) -> Result<(Log, Pass), AllocError>
    requires shape { IsShape shape }
    requires base { (base.number ≤ 268435439) × (base.line ≤ 68719176736) }
    ensures pass { IfOk result (λ r. IsPassOf r.0 r.1) }
    ensures view { IfOk result (λ r. view r.1 ≡ first_view r.0.key) }
    ensures rows { IfOk result (λ r. r.0.key.rows.value ≡ []) }
{
    let mut start = Start::first(alloc, shape, Catalog::new(alloc))?;
    start.base = base;
    let opened = open_log(alloc, shape, &start);
    drop(start);
    opened
}

/// A text of 1 to 32 bytes as a name.
pub fn name_of(alloc: Global, name: &str) -> Result<Text, Cause>
    ensures { IfOk result IsName }
{
    let name = Text::copy_of(alloc, name)?;
    if name.as_bytes().is_empty() || name.as_bytes().len() > 32 {
        return Err(Cause("no name"));
    }
    Ok(name)
}

/// The definition that a source is, and its canonical text.
pub fn parsed(alloc: Global, source: &str) -> Result<(Def, Text), LangRefusal>
    ensures canonical { IfOk result (λ r. IsCanonical r.1) }
    ensures is { IfOk result (λ r. r.1 ≡ definition_text (definition_of r.0)) }
    ensures read { IfOk result (λ r. IsAccepted (definition_text (definition_of r.0)) (definition_of r.0)) }
{
    reads_back();
    let def = parse_def(alloc, source.as_bytes())?;
    match print_def(alloc, &def) {
        Ok(text) => Ok((def, text)),
        Err(error) => {
            drop(def);
            Err(LangRefusal::from(error))
        }
    }
}

/// Closes a log. Its entries.
pub fn closed(alloc: Global, log: Log, control: Pass) -> Result<Entries, Cause>
    requires pass { IsPassOf log control }
    requires alone { IsAlone (view control) }
{
    let remains = left(alloc, log, control)?;
    listed(alloc, &remains)
}

/// The entries that are left.
pub(crate) fn listed(alloc: Global, remains: &Remains) -> Result<Entries, Cause> {
    match remains.log.all(alloc) {
        Ok(entries) => Ok(entries),
        Err(_) => Err(Cause("no memory")),
    }
}

/// Closes a log. What is left of it.
pub(crate) fn left(alloc: Global, log: Log, control: Pass) -> Result<Remains, Cause>
    requires pass { IsPassOf log control }
    requires alone { IsAlone (view control) }
{
    match close_log(alloc, log, control) {
        Ok(remains) => Ok(remains),
        Err(want) => {
            drop(want);
            Err(Cause("no memory"))
        }
    }
}
