//! The command `run`: a script over a store.

ghost use Rattle.std.specs.Prelude.{◌≡◌, ◌≤◌, [], IfErr, IfOk};
ghost use Rattle.fish_outside.specs.Causes.{Rose};
ghost use Rattle.fish_outside.specs.Content.{SameFiles};
ghost use Rattle.fish_recover.specs.Stores.{asked_shape};
ghost use Rattle.fish_rule.specs.Start.{IsShape};
ghost use Rattle.fish_script.specs.Runnable.{CanRun};
ghost use Rattle.fish_program.specs.within.Faults.{ran_fault};
ghost use Rattle.fish_program.specs.Outcome.{EndsRun, EndsScript, status_of};
ghost use Rattle.fish_program.specs.Runs.{HasScript};
ghost use Rattle.fish_program.specs.within.Runs.{IsScriptFault};
ghost use Rattle.fish_program.specs.Stores.{shape_asked};

use crate::fault::Fault;
use crate::outcome::{Outcome, no_report};
use fish_command::Run;
use fish_disk::Disk;
use fish_lanes::Gate;
use fish_outside::{Host, Sink, read_file};
use fish_recover::{Asked, open_store};
use fish_run::{Ran, run_script};
use fish_script::{Block, MAX_SCRIPT, Script, law_scripts_can_run, parse_script};
use fish_value::Text;
use std::alloc::Global;
use std::thread::Threads;

/// Runs a `run`: its script is read, and then run over the store on a disk.
pub(crate) fn answer_run<R: Threads + Sync, H: Host, D: Disk + Send, W: Sink, G: Gate + Sync>(
    rt: &R,
    alloc: Global,
    command: &Run,
    host: &mut H,
    disk: &mut D,
    out: &mut W,
    gate: &G,
) -> Outcome
where
    H::Feed: Drop,
    ensures status { result.status ≡ status_of result.fault result.refused }
    ensures ended { EndsRun D.Disk disk.old disk.new (shape_asked command.now.pages command.now.bits) command.now.script
        (H.files host.new) (W.written out.old) (W.written out.new) result }
    ensures content { SameFiles (H.files host.old) (H.files host.new) }
    ensures input { result.fault ≡ Fault.Input → Rose (H.faults host.old) (H.faults host.new) }
    ensures output { result.fault ≡ Fault.Output → Rose (W.faults out.old) (W.faults out.new) }
    ensures disk { result.fault ≡ Fault.Disk → Rose (D.faults disk.old) (D.faults disk.new) }
{
    match read_script(alloc, host, &command.script) {
        Ok(script) => {
            law_scripts_can_run();
            let outcome = run_store(
                rt,
                alloc,
                asked_by(command),
                script.as_slice(),
                host,
                disk,
                out,
                gate,
            );
            drop(script);
            outcome
        }
        Err(fault) => Outcome::failed(alloc, fault),
    }
}

/// Reads the script that the file with a name is.
fn read_script<H: Host>(alloc: Global, host: &mut H, name: &Text) -> Result<Script, Fault>
    ensures script { IfOk result (HasScript name.now (H.files host.new)) }
    ensures content { SameFiles (H.files host.old) (H.files host.new) }
    ensures later { H.faults host.old ≤ H.faults host.new }

    ensures refused { IfErr result (IsScriptFault name.now (H.files host.new) (H.faults host.old) (H.faults host.new)) }
{
    let text = read_file(alloc, host, name, MAX_SCRIPT + 1)?;
    let script = parse_script(alloc, text.as_bytes())?;
    Ok(script)
}

/// The shape that is asked for.
fn asked_by(command: &Run) -> Asked
    ensures shape { IsShape (asked_shape result) }
    ensures is { result ≡ shape_asked command.now.pages command.now.bits }
{
    Asked {
        pages: command.pages,
        bucket_bits: command.bits,
    }
}

/// Opens the store on a disk, and runs a script over it.
fn run_store<R: Threads + Sync, H: Host, D: Disk + Send, W: Sink, G: Gate + Sync>(
    rt: &R,
    alloc: Global,
    asked: Asked,
    script: &[Block],
    host: &mut H,
    disk: &mut D,
    out: &mut W,
    gate: &G,
) -> Outcome
where
    H::Feed: Drop,
    requires shape { IsShape (asked_shape asked) }
    requires script { CanRun script.now }
    ensures status { result.status ≡ status_of result.fault result.refused }
    ensures ended { EndsScript D.Disk disk.old disk.new asked (H.files host.new) script.now (W.written out.old)
        (W.written out.new) result result.fault }
    ensures content { SameFiles (H.files host.old) (H.files host.new) }
    ensures input { result.fault ≡ Fault.Input → Rose (H.faults host.old) (H.faults host.new) }
    ensures output { result.fault ≡ Fault.Output → Rose (W.faults out.old) (W.faults out.new) }
    ensures disk { result.fault ≡ Fault.Disk → Rose (D.faults disk.old) (D.faults disk.new) }
{
    match open_store(alloc, asked, disk) {
        Ok(opened) => {
            let ran = run_script(rt, alloc, opened, script, host, disk, out, gate);
            ended(alloc, ran)
        }
        Err(refusal) => Outcome::failed(alloc, Fault::from(refusal)),
    }
}

/// The end of a run whose script was run.
fn ended(alloc: Global, ran: Ran) -> Outcome
    ensures status { result.status ≡ status_of result.fault result.refused }
    ensures fault { result.fault ≡ ran_fault ran.fault }
    ensures refused { result.refused ≡ ran.refused }
    ensures report { result.report.items ≡ [] }
    ensures remains { result.remains ≡ ran.remains }
{
    let Ran {
        fault,
        refused,
        remains,
    } = ran;
    let fault = match fault {
        Some(fault) => Fault::from(fault),
        None => Fault::None,
    };
    Outcome::new(fault, refused, no_report(alloc), remains)
}
