//! Logs that begin with definitions, of sixteen buckets.

ghost use Rattle.std.specs.Prelude.{◌≡◌, All, IfOk, OnOk};
ghost use Rattle.fish_catalog.specs.Canonical.{IsCanonical};
ghost use Rattle.fish_ingest.specs.Preparation.{AreDefs};
ghost use Rattle.fish_rule.specs.Keys.{IsWritten};
ghost use Rattle.fish_rule.specs.within.Keys.{AreActive};
ghost use Rattle.fish_rule.specs.Passes.{IsPassOf, view};
ghost use Rattle.fish_rule.specs.Start.{CanOpen, IsShape};
ghost use Rattle.fish_rule.specs.Table.{first_view};

use crate::cause::Cause;
use crate::logs::{ONE_PAGE, name_of, parsed};
use fish_catalog::Catalog;
use fish_lang::LangRefusal;
use fish_psf::ActiveDef;
use fish_rule::{Base, Log, Pass, Shape, Start, open_log};
use fish_value::Text;
use std::alloc::{AllocError, Global};

/// Where an empty store begins.
pub(crate) const FIRST: Base = Base { number: 0, line: 0 };

/// A log of two pages.
pub(crate) const TWO_PAGES: Shape = Shape {
    pages: 2,
    bucket_bits: 4,
};

/// A log of three pages.
pub(crate) const THREE_PAGES: Shape = Shape {
    pages: 3,
    bucket_bits: 4,
};

/// The canonical text of the definition that a source is.
pub(crate) fn canonical(alloc: Global, source: &str) -> Result<Text, LangRefusal>
    ensures { IfOk result IsCanonical }
{
    let (def, text) = parsed(alloc, source)?;
    drop(def);
    Ok(text)
}

/// Adds the definition that a source is. The source is its name too.
fn add_def(
    alloc: Global,
    catalog: &mut Catalog,
    defs: &mut Vec<ActiveDef>,
    source: &str,
) -> Result<(), Cause>
    requires active { AreActive catalog.old defs.old.items }
    requires written { All IsWritten defs.old.items }
    ensures active { OnOk result (AreActive catalog.new defs.new.items) }
    ensures written { OnOk result (All IsWritten defs.new.items) }
{
    let name = name_of(alloc, source)?;
    let (def, text) = parsed(alloc, source)?;
    match catalog.add(&name, &text) {
        Ok(id) => Ok(defs.push(ActiveDef { id, def })?),
        Err(refusal) => {
            drop(def);
            Err(Cause::from(refusal))
        }
    }
}

/// Adds the definitions that sources are.
fn add_defs(
    alloc: Global,
    catalog: &mut Catalog,
    defs: &mut Vec<ActiveDef>,
    sources: &[&str],
) -> Result<(), Cause>
    requires active { AreActive catalog.old defs.old.items }
    requires written { All IsWritten defs.old.items }
    ensures active { OnOk result (AreActive catalog.new defs.new.items) }
    ensures written { OnOk result (All IsWritten defs.new.items) }
{
    for source in sources {
        add_def(alloc, catalog, defs, *source)?;
    }
    Ok(())
}

/// The definitions that sources are, by id from 0 on, and their catalogue.
fn cataloged(alloc: Global, sources: &[&str]) -> Result<(Catalog, Vec<ActiveDef>), Cause>
    ensures active { IfOk result (λ r. AreActive r.0 r.1.items) }
    ensures written { IfOk result (λ r. All IsWritten r.1.items) }
{
    let mut catalog = Catalog::new(alloc);
    let mut defs = Vec::new(alloc);
    match add_defs(alloc, &mut catalog, &mut defs, sources) {
        Ok(()) => Ok((catalog, defs)),
        Err(fail) => {
            drop((catalog, defs));
            Err(fail)
        }
    }
}

/// The start of a log with the definitions that sources are, and these by id, from 0 on.
pub(crate) fn defined(
    alloc: Global,
    shape: Shape,
    sources: &[&str],
) -> Result<(Start, Vec<ActiveDef>), Cause>
    requires { IsShape shape }
    ensures can { IfOk result (λ r. CanOpen shape r.0) }
    ensures active { IfOk result (λ r. AreActive r.0.catalog r.1.items) }
    ensures defs { IfOk result (λ r. AreDefs r.1.items) }
{
    let (catalog, defs) = cataloged(alloc, sources)?;
    // the rows are numbered, so the ids ascend
    let _rows = catalog.rows();
    match Start::first(alloc, shape, catalog) {
        Ok(start) => Ok((start, defs)),
        Err(error) => {
            drop(defs);
            Err(Cause::from(error))
        }
    }
}

/// A log of one page with the definitions that sources are, and its control pass.
pub(crate) fn defined_log(alloc: Global, sources: &[&str]) -> Result<(Log, Pass), Cause>
    ensures pass { IfOk result (λ r. IsPassOf r.0 r.1) }
    ensures view { IfOk result (λ r. view r.1 ≡ first_view r.0.key) }
{
    let (start, defs) = defined(alloc, ONE_PAGE, sources)?;
    drop(defs);
    let opened = open_log(alloc, ONE_PAGE, &start);
    drop(start);
    Ok(opened?)
}
