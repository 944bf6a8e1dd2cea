//! The records of one lane of a sample, as a file in JSON Lines, and the lane that stores it.

ghost use Rattle.std.specs.Prelude.{◌≡◌, ◌++◌, IfOk, OnOk};
ghost use Rattle.fish_sample.specs.within.Files.{line_of, sample_lines};
ghost use Rattle.fish_sample.specs.Sample.{share};
ghost use Rattle.fish_sample.specs.within.Works.{IsShareLane, IsShareWork};

use fish_gen::sample_record;
use fish_lanes::{Lane, Work};
use fish_lines::Begin;
use fish_value::{Bytes, Form, Text};
use std::alloc::{AllocError, Global};

/// How many lanes store the records.
pub(crate) const LANES: u32 = 4;

/// A lane that is to store its share of the records below a number.
pub(crate) fn share_lane(alloc: Global, number: u32, lane: u8) -> Result<Lane, AllocError>
    ensures { IfOk result (IsShareLane number lane) }
{
    let work = share_work(alloc, number, lane)?;
    let mut made = Lane::new(alloc, lane);
    match made.works.push(work) {
        Ok(()) => Ok(made),
        Err(want) => {
            drop(made);
            Err(want)
        }
    }
}

/// The statement that stores a lane's share.
fn share_work(alloc: Global, number: u32, lane: u8) -> Result<Work, AllocError>
    ensures { IfOk result (IsShareWork number lane) }
{
    let file = share_file(alloc, number, lane)?;
    match Text::copy_of(alloc, "share") {
        Ok(name) => Ok(Work::Ingest {
            form: Form::Json,
            begin: Begin::Start { header: false },
            name,
            file,
        }),
        Err(want) => {
            drop(file);
            Err(want)
        }
    }
}

/// Of the records below a number those of a lane, from 1 on, each in a line.
fn share_file(alloc: Global, number: u32, lane: u8) -> Result<Bytes, AllocError>
    ensures { IfOk result (λ file. file ≡ sample_lines (share number lane)) }
{
    let mut file = Bytes::new(alloc);
    for i in 0..number {
        if i % LANES + 1 == lane as u32 {
            push_record(alloc, &mut file, i)?;
        }
    }
    Ok(file)
}

/// Puts the line of a record after the others.
fn push_record(alloc: Global, file: &mut Bytes, i: u32) -> Result<(), AllocError>
    ensures { OnOk result (file.new ≡ file.old ++ line_of i) }
{
    let text = sample_record(alloc, i)?;
    file.append(text.as_bytes())?;
    file.append(b"\n")
}
