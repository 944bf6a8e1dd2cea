//! The top call: one command, from its words to its output.

ghost use Rattle.std.specs.Prelude.{◌≡◌};
ghost use Rattle.fish_outside.specs.Causes.{Rose};
ghost use Rattle.fish_outside.specs.Content.{SameFiles};
ghost use Rattle.fish_command.specs.Command.{asked_of};
ghost use Rattle.fish_program.specs.Outcome.{Ends, IsProgramEnd, IsUsage, status_of};

use crate::fault::Fault;
use crate::outcome::Outcome;
use crate::sample::answer_sample;
use crate::script::answer_run;
use crate::selection::answer_select;
use fish_command::{Command, parse_command};
use fish_disk::Disk;
use fish_lanes::{Gate, OpenGate};
use fish_outside::{Host, Sink};
use fish_value::Text;
use std::alloc::Global;
use std::thread::Threads;

/// Runs the command that words are, over the files of a host and the disk of a store, and writes what it tells.
///
/// The report of `select`, and the summary of `sample`, are made whole before their first byte is written; what `run`
/// tells is written as each block ends. The store is opened once the script was read: a command that is refused before,
/// or is no `run`, doesn't touch the disk. Where the disk is told in the end, what `run` wrote is so of the log for
/// which it stands then, and of what it held before.
pub fn run<R: Threads + Sync, H: Host, D: Disk + Send, W: Sink>(
    rt: &R,
    alloc: Global,
    words: &[Text],
    host: &mut H,
    disk: &mut D,
    out: &mut W,
) -> Outcome
where
    H::Feed: Drop,
    ensures status { result.status ≡ status_of result.fault result.refused }
    ensures usage { IsUsage words.now result.fault }
    ensures ended { IsProgramEnd D.Disk disk.old disk.new words.now (H.files host.new) (W.written out.old)
        (W.written out.new) result }
    ensures content { SameFiles (H.files host.old) (H.files host.new) }
    ensures input { result.fault ≡ Fault.Input → Rose (H.faults host.old) (H.faults host.new) }
    ensures output { result.fault ≡ Fault.Output → Rose (W.faults out.old) (W.faults out.new) }
    ensures disk { result.fault ≡ Fault.Disk → Rose (D.faults disk.old) (D.faults disk.new) }
{
    run_gated(rt, alloc, words, host, disk, out, &OpenGate)
}

/// `run`, where a gate is told where each lane of a script is and may hold it there. What is promised is the same.
pub fn run_gated<R: Threads + Sync, H: Host, D: Disk + Send, W: Sink, G: Gate + Sync>(
    rt: &R,
    alloc: Global,
    words: &[Text],
    host: &mut H,
    disk: &mut D,
    out: &mut W,
    gate: &G,
) -> Outcome
where
    H::Feed: Drop,
    ensures status { result.status ≡ status_of result.fault result.refused }
    ensures usage { IsUsage words.now result.fault }
    ensures ended { IsProgramEnd D.Disk disk.old disk.new words.now (H.files host.new) (W.written out.old)
        (W.written out.new) result }
    ensures content { SameFiles (H.files host.old) (H.files host.new) }
    ensures input { result.fault ≡ Fault.Input → Rose (H.faults host.old) (H.faults host.new) }
    ensures output { result.fault ≡ Fault.Output → Rose (W.faults out.old) (W.faults out.new) }
    ensures disk { result.fault ≡ Fault.Disk → Rose (D.faults disk.old) (D.faults disk.new) }
{
    match parse_command(alloc, words) {
        Ok(command) => {
            let outcome = answer(rt, alloc, &command, host, disk, out, gate);
            drop(command);
            outcome
        }
        Err(refusal) => Outcome::failed(alloc, Fault::from(refusal)),
    }
}

/// Runs a command.
fn answer<R: Threads + Sync, H: Host, D: Disk + Send, W: Sink, G: Gate + Sync>(
    rt: &R,
    alloc: Global,
    command: &Command,
    host: &mut H,
    disk: &mut D,
    out: &mut W,
    gate: &G,
) -> Outcome
where
    H::Feed: Drop,
    ensures status { result.status ≡ status_of result.fault result.refused }
    ensures ended { Ends D.Disk disk.old disk.new (asked_of command.now) (H.files host.new) (W.written out.old)
        (W.written out.new) result }
    ensures content { SameFiles (H.files host.old) (H.files host.new) }
    ensures input { result.fault ≡ Fault.Input → Rose (H.faults host.old) (H.faults host.new) }
    ensures output { result.fault ≡ Fault.Output → Rose (W.faults out.old) (W.faults out.new) }
    ensures disk { result.fault ≡ Fault.Disk → Rose (D.faults disk.old) (D.faults disk.new) }
{
    match command {
        Command::Select(select) => answer_select(alloc, select, host, out),
        Command::Run(run) => answer_run(rt, alloc, run, host, disk, out, gate),
        Command::Sample(sample) => answer_sample(rt, alloc, sample, out),
    }
}
