//! Measures the log, or the ingest of events. Each measurement is a line of words and numbers on
//! standard error: what was done, the lanes, the nanoseconds, and how much was done.
#![tactic(auto)]

mod checkpoints;
mod counted;
mod definitions;
mod events;
mod images;
mod ingests;
mod lanes;
mod older;
mod older_scans;
mod opening;
mod parses;
mod records;
mod registrations;
mod scans;
mod selections;
mod stores;
mod walks;
mod words;
mod workload;

use checkpoints::measure_checkpoint;
use events::read_events;
use fish_outside::keep_freed_memory;
use fish_value::Text;
use images::measure_image;
use ingests::measure_ingest;
use lanes::LaneCount;
use older::measure_older;
use parses::{Reading, measure_parses};
use registrations::{Changes, Work, measure_registrations};
use scans::measure_scans;
use selections::measure_full;
use std::alloc::AllocError;
use std::io::Eprint;
use std::process::ExitCode;
use std::rt::Files;
use std::thread::Threads;
use std::time::Clock;
use stores::measure_stores;
use walks::measure_walk;
use words::{Failure, words_of};
use workload::Workload;

/// How often each measurement is made; the best one counts.
const ROUNDS: u32 = 3;

/// What is stored in the log, in how many lanes.
const STORES: &[(Workload, LaneCount)] = &[
    (Workload::Stores, LaneCount::One),
    (Workload::Stores, LaneCount::Two),
    (Workload::Stores, LaneCount::Four),
    (Workload::Plain, LaneCount::One),
    (Workload::Plain, LaneCount::Four),
    (Workload::FewChains, LaneCount::One),
    (Workload::FewChains, LaneCount::Four),
    (Workload::ManyChains, LaneCount::One),
    (Workload::ManyChains, LaneCount::Four),
];

/// In how many lanes payloads are ingested.
const INGESTS: &[LaneCount] = &[LaneCount::One, LaneCount::Two, LaneCount::Four];

/// In how many lanes payloads are ingested beside the control pass.
const BESIDE: &[LaneCount] = &[LaneCount::Three, LaneCount::Four];

fn main(rt: HostRuntime) -> ExitCode {
    // As in the program that is shipped.
    keep_freed_memory(rt.alloc());
    let measured = match words_of(&rt) {
        Ok(words) => measure(&rt, &rt, words.as_slice()),
        Err(failure) => Err(failure),
    };
    match measured {
        Ok(()) => ExitCode::SUCCESS,
        Err(failure) => {
            // Where standard error is closed, the status still tells.
            let _ = rt.eprintln(failure.message());
            ExitCode::FAILURE
        }
    }
}

/// What the words ask for.
fn measure<R: Threads + Sync + Clock + AllocGlobal + Eprint + Files>(
    rt: &R,
    clock: &HostRuntime,
    words: &[String],
) -> Result<(), Failure> {
    match words {
        [work] => measure_alone(rt, work.as_str()),
        [work, name] => measure_named(rt, clock, work.as_str(), name.as_str()),
        [work, name, path] => measure_put(clock, work.as_str(), name.as_str(), path.as_str()),
        _ => Err(Failure::Words),
    }
}

/// A measurement of the events in the file of a name, which puts them at a path where no file is.
fn measure_put(rt: &HostRuntime, work: &str, name: &str, path: &str) -> Result<(), Failure> {
    if work == "checkpoint" {
        let payloads = read_events(rt, name)?;
        return Ok(measure_checkpoint(rt, payloads.as_slice(), path)?);
    }
    if work == "older" {
        let payloads = read_events(rt, name)?;
        return Ok(measure_reopened(rt, payloads.as_slice(), path)?);
    }
    Err(Failure::Words)
}

/// A checkpoint, and then the rounds of the store that it made.
fn measure_reopened(rt: &HostRuntime, payloads: &[Text], path: &str) -> Result<(), AllocError> {
    measure_checkpoint(rt, payloads, path)?;
    for _ in 0..ROUNDS {
        measure_older(rt, payloads, path)?;
    }
    Ok(())
}

/// A measurement without a file.
fn measure_alone<R: Threads + Sync + Clock + AllocGlobal + Eprint>(
    rt: &R,
    work: &str,
) -> Result<(), Failure> {
    if work == "log" {
        return Ok(measure_log(rt)?);
    }
    if work == "image" {
        return Ok(measure_images(rt)?);
    }
    Err(Failure::Words)
}

/// A measurement of the events in the file of this name.
fn measure_named<R: Threads + Sync + Clock + AllocGlobal + Eprint + Files>(
    rt: &R,
    clock: &HostRuntime,
    work: &str,
    name: &str,
) -> Result<(), Failure> {
    if work == "ingest" {
        return measure_file(rt, name);
    }
    if work == "registrations" {
        return measure_changes(rt, clock, name);
    }
    if work == "scans" {
        return measure_found(rt, name);
    }
    Err(Failure::Words)
}

/// Scans by an index, and of the events in the file of this name.
fn measure_found<R: Clock + AllocGlobal + Eprint + Files>(
    rt: &R,
    name: &str,
) -> Result<(), Failure> {
    let payloads = read_events(rt, name)?;
    for _ in 0..ROUNDS {
        measure_scans(rt)?;
        measure_full(rt, payloads.as_slice())?;
    }
    Ok(())
}

/// Ingest of the events in the file of this name.
fn measure_file<R: Threads + Sync + Clock + AllocGlobal + Eprint + Files>(
    rt: &R,
    name: &str,
) -> Result<(), Failure> {
    let payloads = read_events(rt, name)?;
    Ok(measure_ingests(rt, payloads.as_slice())?)
}

/// Ingest of the events in the file of this name while definitions come and go, and while none does.
fn measure_changes<R: Threads + Sync + Clock + AllocGlobal + Eprint + Files>(
    rt: &R,
    clock: &HostRuntime,
    name: &str,
) -> Result<(), Failure> {
    let payloads = read_events(rt, name)?;
    Ok(measure_registered(rt, clock, payloads.as_slice())?)
}

/// The rounds of the log.
fn measure_log<R: Threads + Sync + Clock + AllocGlobal + Eprint>(rt: &R) -> Result<(), AllocError> {
    for _ in 0..ROUNDS {
        log_round(rt)?;
    }
    Ok(())
}

/// All measurements of the log, once each.
fn log_round<R: Threads + Sync + Clock + AllocGlobal + Eprint>(rt: &R) -> Result<(), AllocError> {
    for &(workload, lanes) in STORES {
        measure_stores(rt, workload, lanes)?;
    }
    measure_walk(rt, Workload::FewChains)
}

/// The rounds of an image.
fn measure_images<R: Clock + AllocGlobal + Eprint>(rt: &R) -> Result<(), AllocError> {
    for _ in 0..ROUNDS {
        measure_image(rt)?;
    }
    Ok(())
}

/// The rounds of ingest.
fn measure_ingests<R: Threads + Sync + Clock + AllocGlobal + Eprint>(
    rt: &R,
    payloads: &[Text],
) -> Result<(), AllocError> {
    for _ in 0..ROUNDS {
        for &lanes in INGESTS {
            ingest_round(rt, payloads, lanes)?;
        }
    }
    Ok(())
}

/// The rounds of ingest beside the control pass.
fn measure_registered<R: Threads + Sync + Clock + AllocGlobal + Eprint>(
    rt: &R,
    clock: &HostRuntime,
    payloads: &[Text],
) -> Result<(), AllocError> {
    for _ in 0..ROUNDS {
        for &lanes in BESIDE {
            let changes = Changes::None;
            measure_registrations(rt, clock, payloads, Work { lanes, changes })?;
            let changes = Changes::Hundred;
            measure_registrations(rt, clock, payloads, Work { lanes, changes })?;
        }
    }
    Ok(())
}

/// Ingest of the payloads in so many lanes, and reading them alone in as many, once each.
fn ingest_round<R: Threads + Sync + Clock + AllocGlobal + Eprint>(
    rt: &R,
    payloads: &[Text],
    lanes: LaneCount,
) -> Result<(), AllocError> {
    measure_parses(rt, Reading::Tree, payloads, lanes)?;
    measure_parses(rt, Reading::Kept, payloads, lanes)?;
    measure_ingest(rt, payloads, lanes)
}
