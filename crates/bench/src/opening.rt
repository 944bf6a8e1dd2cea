//! An empty log, and a pass for each lane.

ghost use Rattle.std.specs.Prelude.{All, IfOk};
ghost use Rattle.bench.specs.Opening.{IsControl, IsOpened, IsReady};
ghost use Rattle.fish_rule.specs.Keys.{IsWritten};
ghost use Rattle.fish_rule.specs.within.Keys.{AreActive};
ghost use Rattle.fish_rule.specs.Passes.{IsPassOf, view};
ghost use Rattle.fish_rule.specs.Start.{IsShape};

use crate::definitions::Definitions;
use crate::lanes::LaneCount;
use fish_psf::ActiveDef;
use fish_rule::{Log, Pass, Shape, Start, open_log, split_pass};
use std::alloc::{AllocError, Global};

/// A log with its control pass, and the definitions that it begins with.
#[derive(Drop)]
pub struct Opened {
    pub log: Log,
    pub control: Pass,
    pub defs: Vec<ActiveDef>,
}

/// An empty log of a shape that begins with these definitions.
pub fn open(alloc: Global, shape: Shape, definitions: Definitions) -> Result<Opened, AllocError>
    requires shape { IsShape shape }
    requires active { AreActive definitions.catalog definitions.defs.items }
    requires written { All IsWritten definitions.defs.items }
    ensures { IfOk result IsOpened }
{
    let Definitions { catalog, defs } = definitions;
    let _rows = catalog.rows();
    let start = Start::first(alloc, shape, catalog)?;
    let (log, control) = open_log(alloc, shape, &start)?;
    Ok(Opened { log, control, defs })
}

/// A pass for each of so many lanes, the control pass last.
pub fn passes_of(
    alloc: Global,
    log: &Log,
    control: Pass,
    lanes: LaneCount,
) -> Result<Vec<Pass>, AllocError>
    requires pass { IsPassOf log.now control }
    requires control { IsControl 1 (view control) }
    ensures { IfOk result (λ passes. All (IsReady log.now) passes.items) }
{
    let mut control = control;
    let mut passes = Vec::new(alloc);
    for number in 1..lanes.number() {
        passes.push(split_pass(log, &mut control, number + 1))?;
    }
    passes.push(control)?;
    Ok(passes)
}
