//! The records of a lane, made before any of them is stored.

ghost use Rattle.std.specs.Prelude.{◌≡◌, ◌<◌, ◌≤◌, All, IfOk};
ghost use Rattle.bench.specs.Stores.{IsRecordOf};
ghost use Rattle.fish_ingest.specs.Preparation.{AreDefs};
ghost use Rattle.fish_psf.specs.Blanks.{IsBlankOf};

use crate::workload::Workload;
use fish_ingest::{Origin, Prepared, prepare};
use fish_psf::{ActiveDef, Steps, parse};
use fish_value::Form;
use std::alloc::{AllocError, Global};
use std::sync::ledger::{Blank, Ledger};

/// So many records of a workload for a lane, with a counter of a blank.
pub fn records_of<L: Ledger>(
    alloc: Global,
    blank: Blank,
    defs: &[ActiveDef],
    workload: Workload,
    lane: u8,
    count: u64,
) -> Result<Vec<Prepared>, AllocError>
    requires blank { IsBlankOf L.name L.parts blank }
    requires defs { AreDefs defs.now }
    requires lane { (1 ≤ lane) × (lane ≤ 16) }
    ensures { IfOk result (λ records. All (IsRecordOf lane defs.now) records.items) }
{
    let mut steps = Steps::<L>::new(blank);
    let mut records = Vec::new(alloc);
    for position in 0..count {
        let payload = workload.payload(alloc, lane, position)?;
        records.push(record_of(alloc, defs, lane, payload, &mut steps)?)?;
    }
    Ok(records)
}

/// The record of a payload. A payload that is none fails as if memory ran out.
fn record_of<L: Ledger>(
    alloc: Global,
    defs: &[ActiveDef],
    lane: u8,
    payload: String,
    steps: &mut Steps<L>,
) -> Result<Prepared, AllocError>
    requires defs { AreDefs defs.now }
    requires lane { (1 ≤ lane) × (lane ≤ 16) }
    ensures { IfOk result (IsRecordOf lane defs.now) }
{
    let origin = Origin {
        lane,
        version: 0,
        form: Form::Json,
    };
    let payload = payload.as_bytes();
    let Ok(found) = parse(alloc, origin.form, payload, steps) else {
        return Err(AllocError);
    };
    let prepared = prepare(alloc, defs, origin, &found, payload);
    drop(found);
    prepared
}
