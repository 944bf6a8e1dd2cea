//! Payloads are ingested by one lane or by more at once.

ghost use Rattle.std.specs.Prelude.{All, IfOk};
ghost use Rattle.bench.specs.Ingests.{IsIngestLane};
ghost use Rattle.bench.specs.Opening.{IsControl, IsReady};
ghost use Rattle.fish_ingest.specs.Ingestion.{CanIngest};
ghost use Rattle.fish_ingest.specs.Passing.{OnlyIngests};
ghost use Rattle.fish_rule.specs.Passes.{IsPassOf, view};
ghost use Rattle.fish_rule.specs.declared.table.Log.{Log};

use crate::definitions::{OVER_EVENTS, definitions_of};
use crate::lanes::{Lane, LaneCount, time_lanes};
use crate::opening::{Opened, open, passes_of};
use fish_epoch::Defs;
use fish_ingest::ingest;
use fish_rule::{Log, Pass, Shape};
use fish_value::{Form, Text};
use std::alloc::{AllocError, Global};
use std::io::Eprint;
use std::thread::Threads;
use std::time::Clock;

/// A log in which 64 MiB of events have room with their headers and key entries.
pub const SHAPE: Shape = Shape {
    pages: 128,
    bucket_bits: 16,
};

/// A lane with its share of the payloads, and the definitions that its pass read.
#[derive(Drop)]
pub struct IngestLane<'a> {
    pub alloc: Global,
    pub pass: Pass,
    pub defs: Defs,
    pub payloads: &'a [Text],
    /// How many bytes were stored.
    pub bytes: u64,
}

impl<'a> Lane<Log> for IngestLane<'a> {
    ghost use Rattle.bench.specs.Ingests.{IsIngestLane};

    ghost can_run = { IsIngestLane };

    fn run(&mut self, log: &Log) {
        self.bytes = ingest_all(
            self.alloc,
            log,
            &mut self.pass,
            &mut self.defs,
            self.payloads,
        );
    }

    fn done(&self) -> u64 {
        self.bytes
    }
}

/// Opens a log, and ingests the payloads in so many lanes, in each as many of them.
pub fn measure_ingest<R: Threads + Sync + Clock + AllocGlobal + Eprint>(
    rt: &R,
    payloads: &[Text],
    lanes: LaneCount,
) -> Result<(), AllocError> {
    let alloc = rt.alloc();
    let definitions = definitions_of(alloc, OVER_EVENTS)?;
    let Opened { log, control, defs } = open(alloc, SHAPE, definitions)?;
    let measured = ingest_in(rt, &log, control, payloads, lanes);
    drop(log);
    drop(defs);
    measured
}

/// The same in a log that was opened.
fn ingest_in<R: Threads + Sync + Clock + AllocGlobal + Eprint>(
    rt: &R,
    log: &Log,
    control: Pass,
    payloads: &[Text],
    lanes: LaneCount,
) -> Result<(), AllocError>
    requires pass { IsPassOf log.now control }
    requires control { IsControl 1 (view control) }
{
    let alloc = rt.alloc();
    let passes = passes_of(alloc, log, control, lanes)?;
    let share = payloads.len().div_ceil(usize::from(lanes.number()));
    let mut lanes = lanes_of(alloc, log, passes, payloads, share)?;
    time_lanes(rt, "ingest", "bytes", log, lanes.as_mut_slice());
    drop(lanes);
    Ok(())
}

/// A lane for each pass, with so many of the payloads each, as long as there are any.
pub fn lanes_of<'a>(
    alloc: Global,
    log: &Log,
    passes: Vec<Pass>,
    payloads: &'a [Text],
    share: usize,
) -> Result<Vec<IngestLane<'a>>, AllocError>
    requires { All (IsReady log.now) passes.items }
    ensures { IfOk result (λ lanes. All (IsIngestLane log.now) lanes.items) }
{
    let mut passes = passes;
    let mut rest = payloads;
    let mut lanes = Vec::new(alloc);
    while let Some(pass) = passes.pop() {
        let (payloads, others) = rest.split_at(share.min(rest.len()));
        rest = others;
        lanes.push(lane_of(alloc, pass, payloads))?;
    }
    Ok(lanes)
}

/// A lane with its share, whose pass has read no definition yet.
fn lane_of<'a>(alloc: Global, pass: Pass, payloads: &'a [Text]) -> IngestLane<'a>
    ensures { (log : Log) → IsReady log pass → IsIngestLane log result }
{
    IngestLane {
        alloc,
        pass,
        defs: Defs::new(alloc),
        payloads,
        bytes: 0,
    }
}

/// Ingests payloads in order, up to one that isn't stored. How many bytes were.
pub fn ingest_all(
    alloc: Global,
    log: &Log,
    pass: &mut Pass,
    defs: &mut Defs,
    payloads: &[Text],
) -> u64
    requires { CanIngest log.now pass.old defs.old }
    ensures ready { CanIngest log.now pass.new defs.new }
    ensures on { OnlyIngests (view pass.old) (view pass.new) }
{
    let mut bytes = 0u64;
    for payload in payloads {
        let payload = payload.as_bytes();
        if ingest(alloc, log, pass, defs, Form::Json, payload).is_err() {
            return bytes;
        }
        bytes = bytes.saturating_add(payload.len() as u64);
    }
    bytes
}
