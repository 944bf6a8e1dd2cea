//! The same payloads are read alone, by as many threads: as a tree each, or by a reader that keeps its
//! memory.

ghost use Rattle.std.specs.Prelude.{◌≡◌, ◌<◌};
ghost use Rattle.fish_psf.specs.Blanks.{IsBlankOf};

use crate::lanes::{Lane, LaneCount, time_lanes};
use fish_psf::{Steps, parse};
use fish_read::RecordReader;
use fish_value::{Form, Text};
use std::alloc::{AllocError, Global};
use std::io::Eprint;
use std::marker::Brand;
use std::sync::ledger::{Blank, Ledger};
use std::thread::Threads;
use std::time::Clock;

/// How payloads are read.
#[derive(Clone, Copy)]
pub enum Reading {
    /// Each as a tree of its own, as `parse` of fish_psf gives it.
    Tree,
    /// By one reader, as ingest reads them.
    Kept,
}

impl Reading {
    /// The word that its lines begin with.
    fn name(self) -> &'static str {
        match self {
            Reading::Tree => "parse",
            Reading::Kept => "read",
        }
    }
}

/// A thread's share of the payloads.
#[derive(Drop)]
struct ParseLane<'a> {
    alloc: Global,
    payloads: &'a [Text],
    /// How many bytes were read.
    bytes: u64,
}

impl<'a> Lane<Reading> for ParseLane<'a> {
    ghost use Rattle.std.specs.Prelude.{⊤};

    ghost can_run = { λ _ _. ⊤ };

    fn run(&mut self, reading: &Reading) {
        self.bytes = match *reading {
            Reading::Tree => parse_all::<Brand>(self.alloc, Blank::new(1), self.payloads),
            Reading::Kept => read_once(self.alloc, self.payloads),
        };
    }

    fn done(&self) -> u64 {
        self.bytes
    }
}

/// Reads the payloads in so many threads, in each as many of them.
pub fn measure_parses<R: Threads + Sync + Clock + AllocGlobal + Eprint>(
    rt: &R,
    reading: Reading,
    payloads: &[Text],
    lanes: LaneCount,
) -> Result<(), AllocError> {
    let alloc = rt.alloc();
    let share = payloads.len().div_ceil(usize::from(lanes.number())).max(1);
    let mut lanes = Vec::new(alloc);
    for payloads in payloads.chunks(share) {
        lanes.push(ParseLane {
            alloc,
            payloads,
            bytes: 0,
        })?;
    }
    time_lanes(rt, reading.name(), "bytes", &reading, lanes.as_mut_slice());
    Ok(())
}

/// Parses payloads in order, each as a tree, with a counter of a blank. How many bytes were read.
fn parse_all<P: Ledger>(alloc: Global, blank: Blank, payloads: &[Text]) -> u64
    requires blank { IsBlankOf P.name P.parts blank }
{
    let mut steps = Steps::<P>::new(blank);
    let mut bytes = 0u64;
    for payload in payloads {
        let payload = payload.as_bytes();
        if let Ok(tree) = parse(alloc, Form::Json, payload, &mut steps) {
            drop(tree);
            bytes = bytes.saturating_add(payload.len() as u64);
        }
    }
    bytes
}

/// Reads payloads in order with one reader. How many bytes were read.
pub fn read_once(alloc: Global, payloads: &[Text]) -> u64 {
    read_all::<Brand>(alloc, Blank::new(1), payloads)
}

/// Reads payloads in order with one reader, and a counter of a blank.
fn read_all<P: Ledger>(alloc: Global, blank: Blank, payloads: &[Text]) -> u64
    requires blank { IsBlankOf P.name P.parts blank }
{
    let mut steps = Steps::<P>::new(blank);
    let mut reader = RecordReader::new(alloc);
    let mut bytes = 0u64;
    for payload in payloads {
        let payload = payload.as_bytes();
        if let Ok(row) = reader.read(alloc, Form::Json, payload, &mut steps) {
            drop(row);
            bytes = bytes.saturating_add(payload.len() as u64);
        }
    }
    drop(reader);
    bytes
}
