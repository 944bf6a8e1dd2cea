//! A run: the blocks of a script are run over an open store, one after the other, and the log is committed and closed.

ghost use Rattle.std.specs.Prelude.{◌≡◌, ◌≤◌, ◌⊎◌, ◌||◌, List, Err, IfErr, IfOk, IsSome};
ghost use Rattle.std.specs.Prelude.{IfSome, None, OnErr, OnOk, Some, false, true};
ghost use Rattle.fish_catalog.specs.declared.commit.Commit.{Commit};
ghost use Rattle.fish_catalog.specs.declared.entry.Entry.{Entry};
ghost use Rattle.fish_outside.specs.Causes.{Rose};
ghost use Rattle.fish_outside.specs.Content.{Gained, GainedPart, SameFiles};
ghost use Rattle.fish_recover.specs.Stores.{IsOpened};
ghost use Rattle.fish_report.specs.ReportText.{report_text};
ghost use Rattle.fish_report.specs.Writing.{HasWriteCause};
ghost use Rattle.fish_rule.specs.ClosedLog.{IsClosed};
ghost use Rattle.fish_rule.specs.Passes.{view};
ghost use Rattle.fish_rule.specs.declared.close.Remains.{Remains};
ghost use Rattle.fish_run.specs.Faults.{HasRunCause, IsCausedBy, counts_of};
ghost use Rattle.fish_run.specs.Ran.{IsRunLost, IsRunStopped, IsRunWhole};
ghost use Rattle.fish_run.specs.Reports.{first_item, said_items, said_refused};
ghost use Rattle.fish_run.specs.within.Running.{EndsOne, EndsRunning, Finishes, StopsOne, StopsRun};
ghost use Rattle.fish_run.specs.within.Runs.{CanClose, CanGoOn, IsNewRun};
ghost use Rattle.fish_run.specs.declared.fault.RunFault.{RunFault as Why};
ghost use Rattle.fish_run.specs.within.Faults.{AreLater, IsInnerFault};
ghost use Rattle.fish_script.specs.Runnable.{CanRun, IsRunnableBlock};

use crate::fault::RunFault;
use crate::lasting::{Stopped, commit};
use crate::parts::{Ended, run_lanes};
use crate::saying::Said;
use crate::telling::{has_refusal, write_block, write_opened};
use fish_disk::Disk;
use fish_lanes::{BlockEnd, Gate};
use fish_outside::{Host, Sink};
use fish_recover::Opened;
use fish_report::{Item, WriteRefusal, write_items};
use fish_rule::{Remains, close_log};
use fish_script::Block;
use fish_store::Store;
use std::alloc::Global;
use std::thread::Threads;

/// What a run leaves.
#[derive(Drop)]
pub struct Ran {
    /// Why it stopped before its script's end, if it did.
    pub fault: Option<RunFault>,
    /// Whether a statement of the blocks that ran was refused.
    pub refused: bool,
    /// What the last table had of the log, as it was closed; none where memory ran out for that or for a new table.
    pub remains: Option<Remains>,
}

/// A store after the blocks of a run, and how many entries its log has.
#[derive(Drop)]
struct Lasts {
    store: Store,
    count: u32,
}

/// Runs the blocks of a script, one after the other, over a store that was opened, and writes what they tell as each
/// ends.
///
/// The script's statements have to be such as can be run, as those of every script that was read are. A fault stops
/// the run after its block. Where none came, the log is committed after the last block; it is closed in any case.
/// The gate is told where each lane of a block is.
///
/// What was written is the text of the blocks' items: all of it where no fault came, all of it before the block in
/// which a file couldn't be read, and else a first part. Where the disk's content is told in the end, these items are
/// true of a whole log: it begins with that for which the disk stood as the store was opened, and ends with what is
/// left. A block runs in rounds: one for each part of its files that lanes are given, and one more for each table that
/// its lanes found full, as long as something of it can be committed: then a new table is begun, and the file that was
/// cut goes on there. A crash leaves all of the log after a run without a fault, and else a part that has all that a
/// checkpoint told.
pub fn run_script<R: Threads + Sync, H: Host, D: Disk + Send, W: Sink, G: Gate + Sync>(
    rt: &R,
    alloc: Global,
    opened: Opened,
    script: &[Block],
    host: &mut H,
    disk: &mut D,
    out: &mut W,
    gate: &G,
) -> Ran
where
    H::Feed: Drop,
    requires opened { (c : Commit) × (log : List Entry)
        × IsOpened (D.content disk.old) (D.images disk.old) c log opened }
    requires script { CanRun script.now }
    ensures whole { result.fault ≡ None → (r : Remains) × (result.remains ≡ Some r)
        × IsRunWhole D.Disk disk.old disk.new opened (H.files host.new) script.now r (W.written out.old)
        (W.written out.new) result.refused }
    ensures stopped { (why : Why) → result.fault ≡ Some why → (r : Remains) → result.remains ≡ Some r
        → IsRunStopped D.Disk disk.old disk.new opened (H.files host.new) script.now r (W.written out.old)
        (W.written out.new) result.refused why }
    ensures lost { result.remains ≡ None → (result.fault ≡ Some RunFault.Memory) × IsRunLost D.Disk disk.old disk.new
        opened (H.files host.new) script.now (W.written out.old) (W.written out.new) result.refused }
    ensures content { SameFiles (H.files host.old) (H.files host.new) }
    ensures before { IsSome (D.content disk.new) → IsSome (D.content disk.old) }
    ensures cause { IfSome result.fault (HasRunCause (D.content disk.new)
        (counts_of H.faults W.faults D.faults host.old out.old disk.old)
        (counts_of H.faults W.faults D.faults host.new out.new disk.new)) }
{
    let made = opened.made;
    let count = opened.count;
    let store = Store::of_opened(opened);
    let mut refused = false;
    match run_store(
        rt,
        alloc,
        store,
        made,
        count,
        script,
        host,
        disk,
        out,
        &mut refused,
        gate,
    ) {
        Ok(Lasts { store, count }) => close(alloc, store, out, Ok(count), refused),
        Err(Stopped { store, why }) => match store {
            Some(store) => close(alloc, store, out, Err(why), refused),
            None => Ran {
                fault: Some(why),
                refused,
                remains: None,
            },
        },
    }
}

/// Closes the log, and writes how long it is where no fault came before.
fn close<W: Sink>(
    alloc: Global,
    store: Store,
    out: &mut W,
    ended: Result<u32, RunFault>,
    refused: bool,
) -> Ran
    requires close { CanClose store }
    ensures refused { result.refused ≡ refused }
    ensures shown { IfSome result.remains (λ r. IsClosed (view store.pass) r
        × Finishes ended result.fault (W.written out.old) (W.written out.new)) }
    ensures lost { result.remains ≡ None → (result.fault ≡ Some RunFault.Memory) × (out.new ≡ out.old) }
    ensures inner { (why : Why) → result.fault ≡ Some why → IsInnerFault why → ended ≡ Err why }
    ensures output { result.fault ≡ Some RunFault.Output → (ended ≡ Err RunFault.Output)
        ⊎ Rose (W.faults out.old) (W.faults out.new) }
    ensures later { W.faults out.old ≤ W.faults out.new }
{
    let Store {
        log,
        pass,
        registrar,
        file,
    } = store;
    drop((registrar, file));
    match close_log(alloc, log, pass) {
        Ok(remains) => {
            let fault = finish(alloc, out, ended);
            Ran {
                fault,
                refused,
                remains: Some(remains),
            }
        }
        Err(want) => {
            drop(want);
            Ran {
                fault: Some(RunFault::Memory),
                refused,
                remains: None,
            }
        }
    }
}

/// Writes how long the log is in the end, where no fault came before.
fn finish<W: Sink>(alloc: Global, out: &mut W, ended: Result<u32, RunFault>) -> Option<RunFault>
    ensures ends { Finishes ended result (W.written out.old) (W.written out.new) }
    ensures inner { (why : Why) → result ≡ Some why → IsInnerFault why → ended ≡ Err why }
    ensures output { result ≡ Some RunFault.Output → (ended ≡ Err RunFault.Output)
        ⊎ Rose (W.faults out.old) (W.faults out.new) }
    ensures later { W.faults out.old ≤ W.faults out.new }
{
    match ended {
        Ok(count) => match write_items(alloc, out, &[Item::Closed { count }]) {
            Ok(()) => None,
            Err(refusal) => Some(RunFault::from(refusal)),
        },
        Err(fault) => Some(fault),
    }
}

/// Runs blocks over a store that was just opened, and commits the log where no fault came.
fn run_store<R: Threads + Sync, H: Host, D: Disk + Send, W: Sink, G: Gate + Sync>(
    rt: &R,
    alloc: Global,
    store: Store,
    made: bool,
    count: u32,
    script: &[Block],
    host: &mut H,
    disk: &mut D,
    out: &mut W,
    refused: &mut bool,
    gate: &G,
) -> Result<Lasts, Stopped>
where
    H::Feed: Drop,
    requires new { IsNewRun D.images disk.old store count refused.old }
    requires script { CanRun script.now }
    ensures all { IfOk result (EndsRunning D.Disk disk.old disk.new store count (first_item made count)
        (H.files host.new) script.now (W.written out.old) (W.written out.new) refused.new true) }
    ensures some { IfErr result (StopsRun D.Disk disk.old disk.new store count (first_item made count)
        (H.files host.new) script.now (W.written out.old) (W.written out.new) refused.new) }
    ensures content { SameFiles (H.files host.old) (H.files host.new) }
    ensures later { AreLater (counts_of H.faults W.faults D.faults host.old out.old disk.old)
        (counts_of H.faults W.faults D.faults host.new out.new disk.new) }
    ensures cause { IfErr result (λ s. IsCausedBy (counts_of H.faults W.faults D.faults host.old out.old disk.old)
        (counts_of H.faults W.faults D.faults host.new out.new disk.new) s.why) }
{
    let Lasts { store, count } = run_blocks(
        rt, alloc, store, made, count, script, host, disk, out, refused, gate,
    )?;
    let mut store = store;
    match commit(alloc, &mut store, disk) {
        Ok(()) => Ok(Lasts { store, count }),
        Err(why) => Err(Stopped {
            store: Some(store),
            why,
        }),
    }
}

/// Runs blocks over a store that was just opened, one after the other, up to the first fault.
fn run_blocks<R: Threads + Sync, H: Host, D: Disk + Send, W: Sink, G: Gate + Sync>(
    rt: &R,
    alloc: Global,
    store: Store,
    made: bool,
    count: u32,
    script: &[Block],
    host: &mut H,
    disk: &mut D,
    out: &mut W,
    refused: &mut bool,
    gate: &G,
) -> Result<Lasts, Stopped>
where
    H::Feed: Drop,
    requires new { IsNewRun D.images disk.old store count refused.old }
    requires script { CanRun script.now }
    ensures all { IfOk result (EndsRunning D.Disk disk.old disk.new store count (first_item made count)
        (H.files host.new) script.now (W.written out.old) (W.written out.new) refused.new false) }
    ensures some { IfErr result (StopsRun D.Disk disk.old disk.new store count (first_item made count)
        (H.files host.new) script.now (W.written out.old) (W.written out.new) refused.new) }
    ensures content { SameFiles (H.files host.old) (H.files host.new) }
    ensures later { AreLater (counts_of H.faults W.faults D.faults host.old out.old disk.old)
        (counts_of H.faults W.faults D.faults host.new out.new disk.new) }
    ensures cause { IfErr result (λ s. IsCausedBy (counts_of H.faults W.faults D.faults host.old out.old disk.old)
        (counts_of H.faults W.faults D.faults host.new out.new disk.new) s.why) }
{
    match write_opened(alloc, out, made, count) {
        Ok(()) => {}
        Err(refusal) => return Err(stopped(store, RunFault::from(refusal))),
    }
    let mut lasts = Lasts { store, count };
    for block in script {
        lasts = run_one(rt, alloc, lasts, block, host, disk, out, refused, gate)?;
    }
    Ok(lasts)
}

/// A store with which the run stops.
fn stopped(store: Store, why: RunFault) -> Stopped
    ensures store { result.store ≡ Some store }
    ensures why { result.why ≡ why }
{
    Stopped {
        store: Some(store),
        why,
    }
}

/// Runs one block, and writes what it tells.
fn run_one<R: Threads + Sync, H: Host, D: Disk + Send, W: Sink, G: Gate + Sync>(
    rt: &R,
    alloc: Global,
    lasts: Lasts,
    block: &Block,
    host: &mut H,
    disk: &mut D,
    out: &mut W,
    refused: &mut bool,
    gate: &G,
) -> Result<Lasts, Stopped>
where
    H::Feed: Drop,
    requires go { CanGoOn D.images disk.old lasts.store lasts.count }
    requires block { IsRunnableBlock block.now }
    ensures ended { IfOk result (EndsOne D.Disk disk.old disk.new lasts (H.files host.new) block.now (W.written out.old)
        (W.written out.new) refused.old refused.new) }
    ensures stopped { IfErr result (StopsOne D.Disk disk.old disk.new lasts (H.files host.new) block.now
        (W.written out.old) (W.written out.new) refused.old refused.new) }
    ensures content { SameFiles (H.files host.old) (H.files host.new) }
    ensures later { AreLater (counts_of H.faults W.faults D.faults host.old out.old disk.old)
        (counts_of H.faults W.faults D.faults host.new out.new disk.new) }
    ensures cause { IfErr result (λ s. IsCausedBy (counts_of H.faults W.faults D.faults host.old out.old disk.old)
        (counts_of H.faults W.faults D.faults host.new out.new disk.new) s.why) }
{
    let Lasts { store, count: from } = lasts;
    let texts = block.lanes.as_slice();
    let Ended { store, said, end } = run_lanes(rt, alloc, store, from, texts, host, disk, gate)?;
    let told = tell(
        alloc,
        out,
        block.several,
        from,
        end,
        said.as_slice(),
        refused,
    );
    drop(said);
    match told {
        Ok(()) => Ok(Lasts {
            store,
            count: end.to,
        }),
        Err(refusal) => Err(stopped(store, RunFault::from(refusal))),
    }
}

/// Writes what the lanes of a block said.
fn tell<W: Sink>(
    alloc: Global,
    out: &mut W,
    several: bool,
    from: u32,
    end: BlockEnd,
    said: &[Said],
    refused: &mut bool,
) -> Result<(), WriteRefusal>
    ensures written { OnOk result (Gained (W.written out.old) (W.written out.new)
        (report_text (said_items several from end said.now))) }
    ensures part { OnErr result (GainedPart (W.written out.old) (W.written out.new)
        (report_text (said_items several from end said.now))) }
    ensures refused { refused.new ≡ refused.old || said_refused said.now }
    ensures cause { HasWriteCause (W.faults out.old) (W.faults out.new) result }
{
    if has_refusal(said) {
        *refused = true;
    }
    write_block(alloc, out, several, from, end, said)
}
