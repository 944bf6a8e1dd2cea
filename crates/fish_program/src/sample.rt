//! The command `sample`: a store of records that are made from their numbers, and what its scans count.

ghost use Rattle.std.specs.Prelude.{◌≡◌};
ghost use Rattle.fish_outside.specs.Causes.{Rose};
ghost use Rattle.fish_program.specs.Outcome.{status_of};
ghost use Rattle.fish_program.specs.Sample.{EndsSample};

use crate::fault::Fault;
use crate::outcome::{Outcome, no_report};
use fish_command::Sample;
use fish_outside::Sink;
use fish_sample::{SampleFault, sample};
use std::alloc::Global;
use std::thread::Threads;

/// Runs a `sample`: its store is filled and scanned in memory, and the counts are written.
pub(crate) fn answer_sample<R: Threads + Sync, W: Sink>(
    rt: &R,
    alloc: Global,
    command: &Sample,
    out: &mut W,
) -> Outcome
    ensures status { result.status ≡ status_of result.fault result.refused }
    ensures ended { EndsSample command.now.number (W.written out.old) (W.written out.new) result result.fault }
    ensures output { result.fault ≡ Fault.Output → Rose (W.faults out.old) (W.faults out.new) }
{
    match sample(rt, alloc, command.number as u32, out) {
        Ok(remains) => Outcome::new(Fault::None, false, no_report(alloc), Some(remains)),
        Err(fault) => Outcome::failed(alloc, Fault::from(fault)),
    }
}

impl From<SampleFault> for Fault {
    ghost use Rattle.std.specs.Prelude.{◌≡◌};
    ghost use Rattle.fish_program.specs.Sample.{sample_fault};

    ghost from_gives = { λ fault made. made ≡ sample_fault fault };

    fn from(fault: SampleFault) -> Fault {
        match fault {
            SampleFault::Memory => Fault::Memory,
            SampleFault::Output => Fault::Output,
        }
    }
}
