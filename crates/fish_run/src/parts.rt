//! A block: its lanes are given their statements, long files in parts, and do what they were given, in turn.

ghost use Rattle.std.specs.Prelude.{◌≡◌, ◌≤◌, IfErr, IfOk, length, true};
ghost use Rattle.fish_feed.specs.Queues.{AreFit, AreIdle};
ghost use Rattle.fish_lanes.specs.Blocks.{AreLanes};
ghost use Rattle.fish_outside.specs.Content.{SameFiles};
ghost use Rattle.fish_run.specs.within.Faults.{CausesStop};
ghost use Rattle.fish_run.specs.within.Parts.{AreBegun, AreNewLanes, AreTexts, EndsBlock, EndsLanes, EndsParts};
ghost use Rattle.fish_run.specs.within.Parts.{StopsLanes, StopsParts};
ghost use Rattle.fish_run.specs.within.Runs.{CanGoOn};

use crate::fault::RunFault;
use crate::lasting::Stopped;
use crate::rounds::{RoundStart, Turned, out_of_memory, run_turns};
use crate::saying::{Said, say_nothing};
use fish_disk::Disk;
use fish_feed::{Queue, close, give, has_more, open_lanes};
use fish_lanes::{BlockEnd, Gate, Lane};
use fish_outside::Host;
use fish_script::Statements;
use fish_store::Store;
use std::alloc::{AllocError, Global};
use std::thread::Threads;

/// A store after a block, and what the block's lanes said.
#[derive(Drop)]
pub(crate) struct Ended {
    pub store: Store,
    pub said: Vec<Said>,
    pub end: BlockEnd,
}

/// Runs the lanes of a block, which have these statements, after a log of so many entries, up to the first fault.
pub(crate) fn run_lanes<R: Threads + Sync, H: Host, D: Disk + Send, G: Gate + Sync>(
    rt: &R,
    alloc: Global,
    store: Store,
    from: u32,
    texts: &[Statements],
    host: &mut H,
    disk: &mut D,
    gate: &G,
) -> Result<Ended, Stopped>
where
    H::Feed: Drop,
    requires go { CanGoOn D.images disk.old store from }
    requires texts { AreTexts texts.now }
    ensures ended { IfOk result (EndsLanes D.Disk disk.old store from texts.now disk.new (H.files host.new)) }
    ensures stopped { IfErr result (StopsLanes D.Disk disk.old store from texts.now disk.new (H.files host.new)) }
    ensures content { SameFiles (H.files host.old) (H.files host.new) }
    ensures causes { CausesStop (H.faults host.old) (H.faults host.new) (D.faults disk.old) (D.faults disk.new) result }
{
    match open_lanes(alloc, host, texts) {
        Ok(opened) => {
            let mut queues = opened;
            let ended = run_parts(
                rt,
                alloc,
                store,
                from,
                queues.as_mut_slice(),
                host,
                disk,
                gate,
            );
            close(host, queues.as_mut_slice());
            drop(queues);
            ended
        }
        Err(refusal) => Err(Stopped {
            store: Some(store),
            why: RunFault::from(refusal),
        }),
    }
}

/// Runs the lanes of a block, which have these queues, after a log of so many entries, up to the first fault.
fn run_parts<R: Threads + Sync, H: Host, D: Disk + Send, G: Gate + Sync>(
    rt: &R,
    alloc: Global,
    store: Store,
    from: u32,
    queues: &mut [Queue<H::Feed>],
    host: &mut H,
    disk: &mut D,
    gate: &G,
) -> Result<Ended, Stopped>
where
    H::Feed: Drop,
    requires go { CanGoOn D.images disk.old store from }
    requires some { 1 ≤ length queues.old }
    requires few { length queues.old ≤ 16 }
    requires fit { AreFit H.Feed.faults true queues.old }
    ensures ended { IfOk result (EndsBlock D.Disk disk.old store from H.Feed.left (H.files host.old) queues.old disk.new
        (H.files host.new)) }
    ensures stopped { IfErr result (StopsParts D.Disk disk.old store from H.Feed.left (H.files host.old) queues.old
        disk.new (H.files host.new) queues.new) }
    ensures content { SameFiles (H.files host.old) (H.files host.new) }
    ensures causes { CausesStop (H.faults host.old) (H.faults host.new) (D.faults disk.old) (D.faults disk.new) result }
{
    match new_lanes(alloc, queues.len()) {
        Ok(none) => {
            let mut lanes = none;
            match say_nothing(alloc, lanes.as_slice()) {
                Ok(nothing) => {
                    let mut said = nothing;
                    let turned = run_given(
                        rt,
                        alloc,
                        store,
                        from,
                        queues,
                        lanes.as_mut_slice(),
                        said.as_mut_slice(),
                        host,
                        disk,
                        gate,
                    )?;
                    Ok(Ended {
                        store: turned.next.store,
                        said,
                        end: turned.end,
                    })
                }
                Err(_) => Err(out_of_memory(store)),
            }
        }
        Err(_) => Err(out_of_memory(store)),
    }
}

/// Gives lanes that said nothing yet their statements, and has them do what they were given, until nothing is left to
/// be given.
fn run_given<R: Threads + Sync, H: Host, D: Disk + Send, G: Gate + Sync>(
    rt: &R,
    alloc: Global,
    store: Store,
    from: u32,
    queues: &mut [Queue<H::Feed>],
    lanes: &mut [Lane],
    said: &mut [Said],
    host: &mut H,
    disk: &mut D,
    gate: &G,
) -> Result<Turned, Stopped>
where
    H::Feed: Drop,
    requires go { CanGoOn D.images disk.old store from }
    requires begun { AreBegun lanes.old queues.old said.old }
    requires fit { AreFit H.Feed.faults true queues.old }
    ensures ended { IfOk result (λ t. EndsParts D.Disk disk.old store from H.Feed.left (H.files host.old) queues.old
        disk.new (H.files host.new) t.next.store t.end said.new) }
    ensures stopped { IfErr result (StopsParts D.Disk disk.old store from H.Feed.left (H.files host.old) queues.old
        disk.new (H.files host.new) queues.new) }
    ensures content { SameFiles (H.files host.old) (H.files host.new) }
    ensures causes { CausesStop (H.faults host.old) (H.faults host.new) (D.faults disk.old) (D.faults disk.new) result }
{
    let mut start = RoundStart {
        store,
        from,
        fresh: false,
        bound: None,
    };
    loop {
        // What lanes were given is done also where a file of one couldn't be read.
        let given = give(rt, alloc, host, queues, lanes);
        let turned = run_turns(rt, alloc, start, lanes, said, disk, gate)?;
        match given {
            Ok(()) => {}
            Err(refusal) => {
                return Err(Stopped {
                    store: Some(turned.next.store),
                    why: RunFault::from(refusal),
                });
            }
        }
        if !has_more(queues) {
            return Ok(turned);
        }
        start = turned.next;
    }
}

/// So many lanes, which may run, and have no statement yet.
fn new_lanes(alloc: Global, count: usize) -> Result<Vec<Lane>, AllocError>
    requires some { 1 ≤ count }
    requires few { count ≤ 16 }
    ensures lanes { IfOk result (λ lanes. AreLanes lanes.items) }
    ensures idle { IfOk result (λ lanes. AreIdle lanes.items) }
    ensures many { IfOk result (λ lanes. length lanes.items ≡ count) }
{
    numbered_lanes(alloc, count)
}

/// So many lanes with the numbers from 1 on.
fn numbered_lanes(alloc: Global, count: usize) -> Result<Vec<Lane>, AllocError>
    requires { count ≤ 16 }
    ensures { IfOk result (λ lanes. AreNewLanes count lanes.items) }
{
    let mut lanes = Vec::new(alloc);
    for index in 0..count {
        match lanes.push(Lane::new(alloc, index as u8 + 1)) {
            Ok(()) => {}
            Err(lost) => {
                drop((lost, lanes));
                return Err(AllocError);
            }
        }
    }
    Ok(lanes)
}
