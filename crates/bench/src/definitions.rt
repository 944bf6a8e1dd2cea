//! The definitions that a log begins with.

ghost use Rattle.std.specs.Prelude.{All, IfOk, OnOk};
ghost use Rattle.fish_rule.specs.Keys.{IsWritten};
ghost use Rattle.fish_rule.specs.within.Keys.{AreActive};

use fish_catalog::Catalog;
use fish_lang::{parse_def, print_def, reads_back};
use fish_psf::ActiveDef;
use fish_value::Text;
use std::alloc::{AllocError, Global};

/// A name and a definition each.
pub type Sources = &'static [(&'static str, &'static str)];

/// Two that take a field each.
pub const TAKING: Sources = &[("a", "take a"), ("b", "take b")];

/// One of each kind over events, and a second one that takes a text.
pub const OVER_EVENTS: Sources = &[
    ("type", "take type"),
    ("login", "take actor.login"),
    ("push", "flag when type = \"PushEvent\" and public = true"),
    ("size", "bucket payload.size by 10"),
];

/// A catalogue, and the definitions of its active rows.
#[derive(Drop)]
pub struct Definitions {
    pub catalog: Catalog,
    pub defs: Vec<ActiveDef>,
}

/// The definitions of these sources.
pub fn definitions_of(alloc: Global, sources: Sources) -> Result<Definitions, AllocError>
    ensures active { IfOk result (λ d. AreActive d.catalog d.defs.items) }
    ensures written { IfOk result (λ d. All IsWritten d.defs.items) }
{
    let mut definitions = Definitions {
        catalog: Catalog::new(alloc),
        defs: Vec::new(alloc),
    };
    for &(name, source) in sources {
        add(alloc, &mut definitions, name, source)?;
    }
    Ok(definitions)
}

/// Adds a definition. What can't be added fails as if memory ran out.
fn add(
    alloc: Global,
    definitions: &mut Definitions,
    name: &str,
    source: &str,
) -> Result<(), AllocError>
    requires active { AreActive definitions.old.catalog definitions.old.defs.items }
    requires written { All IsWritten definitions.old.defs.items }
    ensures active { OnOk result (AreActive definitions.new.catalog definitions.new.defs.items) }
    ensures written { OnOk result (All IsWritten definitions.new.defs.items) }
{
    reads_back();
    let name = Text::copy_of(alloc, name)?;
    let size = name.as_bytes().len();
    if size < 1 || size > 32 {
        return Err(AllocError);
    }
    let Ok(def) = parse_def(alloc, source.as_bytes()) else {
        return Err(AllocError);
    };
    let text = match print_def(alloc, &def) {
        Ok(text) => text,
        Err(error) => {
            drop(def);
            return Err(error);
        }
    };
    let Ok(id) = definitions.catalog.add(&name, &text) else {
        drop(def);
        return Err(AllocError);
    };
    definitions.defs.push(ActiveDef { id, def })?;
    Ok(())
}
