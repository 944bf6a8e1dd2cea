//! What a lane is still to be given: statements in order, with the file that is being read.

ghost use Rattle.std.specs.Prelude.{◌≡◌, ◌+◌, ◌++◌, ◌∷◌, ◌<◌, ◌≤◌, ℕ, List, Option, [], Bool, true, false, None};
ghost use Rattle.std.specs.Prelude.{IfErr, IfOk, IfSome};
ghost use Rattle.std.specs.Prelude.{IsSome, OnErr, OnOk, length, option_to_list};
ghost use Rattle.fish_feed.specs.Giving.{GivesWorks};
ghost use Rattle.fish_feed.specs.OpenFiles.{CanRead, HasPassedHeader};
ghost use Rattle.fish_feed.specs.Parts.{longest_csv_read};
ghost use Rattle.fish_feed.specs.Queues.{AreFit, AreIdle, GoesDown, IsFitQueue, IsGiven, IsQueue, MayDo, MayDoAll};
ghost use Rattle.fish_feed.specs.Queues.{MayEndFeed};
ghost use Rattle.fish_feed.specs.Queues.{left_of, left_of_all};
ghost use Rattle.fish_feed.specs.within.Queues.{AreReadOn, IsReadOn};
ghost use Rattle.fish_outside.specs.Reading.{HasReadCause};
ghost use Rattle.fish_feed.specs.Works.{AreAnew, AreStatementsDone, AreFirstOf, IsAnew, StoresNone, Triples};
ghost use Rattle.fish_feed.specs.Works.{bytes_in_work};
ghost use Rattle.fish_script.specs.Laws.{Pairs};
ghost use Rattle.fish_lanes.specs.declared.work.Work.{Work as Does};
ghost use Rattle.fish_outside.specs.Content.{Files, SameFiles};
ghost use Rattle.fish_script.specs.declared.script.Statement.{Statement};

use crate::part::{AT_ONCE, OpenFile, Part, close_file, read_on, read_part};
use fish_lanes::{Lane, Work};
use fish_outside::{FeedRefusal, Host, Source};
use std::alloc::Global;
use std::collections::VecDeque;
use std::thread::{Threads, for_each_mut};

/// A statement that is to be given.
#[derive(Drop)]
pub enum Todo<F: Source> {
    /// One without a file.
    Work(Work),
    /// A file to store, of which nothing was read.
    File(OpenFile<F>),
}

/// What a lane is still to be given.
#[derive(Drop)]
pub struct Queue<F: Source> {
    /// The file that is being read.
    pub current: Option<OpenFile<F>>,
    /// The statements after it.
    pub todos: VecDeque<Todo<F>>,
}

/// Gives lanes that have no statement their next ones. Where files of several lanes are being read, they are read at
/// once, each on a thread of its own; the first part of each, and what is left of one in CSV, by the calling thread.
///
/// Where one lane is refused, the others are given theirs, and the first refusal is answered. What the lanes have then,
/// the one that was refused too, comes before what was refused: it is to be done first.
pub fn give<R: Threads + Sync, H: Host>(
    rt: &R,
    alloc: Global,
    host: &mut H,
    queues: &mut [Queue<H::Feed>],
    lanes: &mut [Lane],
) -> Result<(), FeedRefusal>
where
    H::Feed: Drop,
    requires many { length lanes.old ≡ length queues.old }
    requires empty { AreIdle lanes.old }
    requires fit { (first : Bool) × AreFit H.Feed.faults first queues.old }
    ensures gives { GivesWorks H.Feed.left H.Feed.faults (H.files host.old) (H.files host.new) queues.old queues.new
        lanes.old lanes.new result }
    ensures content { SameFiles (H.files host.old) (H.files host.new) }
    ensures cause { HasReadCause (H.faults host.old) (H.faults host.new) result }
{
    read_all_on(rt, alloc, queues);
    give_all(alloc, host, queues, lanes)
}

/// Reads on in the files that are being read, at once where there are several.
fn read_all_on<R: Threads + Sync, F: Source + Send + Drop>(
    rt: &R,
    alloc: Global,
    queues: &mut [Queue<F>],
)
    requires fit { (first : Bool) × AreFit F.faults first queues.old }
    ensures on { AreReadOn F.left F.faults queues.old queues.new }
{
    let threads = queues.len();
    if threads < 2 || !are_several_open(queues) {
        return;
    }
    for_each_mut(
        rt,
        queues,
        threads,
        &|_, queue| { read_queue_on(alloc, queue) },
    );
}

/// Whether files of two lanes or more are being read.
fn are_several_open<F: Source>(queues: &[Queue<F>]) -> bool {
    let mut found = false;
    for queue in queues {
        if queue.current.is_some() {
            if found {
                return true;
            }
            found = true;
        }
    }
    false
}

/// Reads on in the file that is being read, if one is.
fn read_queue_on<F: Source + Drop>(alloc: Global, queue: &mut Queue<F>)
    requires can { IfSome queue.old.current (CanRead F.faults) }
    ensures on { IsReadOn F.left F.faults queue.old queue.new }
{
    match queue.current.take() {
        Some(open) => {
            let mut file = open;
            read_on(alloc, &mut file);
            queue.current = Some(file);
        }
        None => {}
    }
}

/// Gives lanes that have no statement their next ones, one lane after the other, after a refusal too.
fn give_all<H: Host>(
    alloc: Global,
    host: &mut H,
    queues: &mut [Queue<H::Feed>],
    lanes: &mut [Lane],
) -> Result<(), FeedRefusal>
where
    H::Feed: Drop,
    requires many { length lanes.old ≡ length queues.old }
    requires empty { AreIdle lanes.old }
    requires fit { (first : Bool) × AreFit H.Feed.faults first queues.old }
    ensures gives { GivesWorks H.Feed.left H.Feed.faults (H.files host.old) (H.files host.new) queues.old queues.new
        lanes.old lanes.new result }
    ensures content { SameFiles (H.files host.old) (H.files host.new) }
    ensures cause { HasReadCause (H.faults host.old) (H.faults host.new) result }
{
    let Some((queue, other_queues)) = queues.split_first_mut() else {
        return Ok(());
    };
    let Some((lane, other_lanes)) = lanes.split_first_mut() else {
        unreachable!()
    };
    let first = give_one(alloc, host, queue, lane);
    let others = give_all(alloc, host, other_queues, other_lanes);
    first.and(others)
}

/// Gives a lane that has no statement its next ones. At a refusal it keeps those that it was given before.
fn give_one<H: Host>(
    alloc: Global,
    host: &mut H,
    queue: &mut Queue<H::Feed>,
    lane: &mut Lane,
) -> Result<(), FeedRefusal>
where
    H::Feed: Drop,
    requires empty { lane.old.works ≡ [] }
    requires fit { (first : Bool) × IsFitQueue H.Feed.faults first queue.old }
    ensures given { OnOk result ((ss : List Statement) (given : List Does)
        → IsQueue (H.files host.old) H.Feed.left ss given queue.old
        → IsQueue (H.files host.new) H.Feed.left ss (given ++ lane.new.works) queue.new) }
    ensures failed { OnErr result ((ss : List Statement) (given : List Does)
        → IsQueue (H.files host.old) H.Feed.left ss given queue.old
        → MayEndFeed (H.files host.new) H.Feed.left ss (given ++ lane.new.works) queue.new) }
    ensures lane { IsGiven lane.old lane.new }
    ensures fit { (first : Bool) → IsFitQueue H.Feed.faults first queue.old
        → IsFitQueue H.Feed.faults first queue.new × MayDoAll first lane.new.works }
    ensures less { OnOk result (GoesDown (left_of queue.old) (left_of queue.new)) }
    ensures content { SameFiles (H.files host.old) (H.files host.new) }
    ensures cause { HasReadCause (H.faults host.old) (H.faults host.new) result }
{
    let mut most = AT_ONCE;
    while most > 0 {
        match next(alloc, host, queue) {
            Ok(Some(work)) => {
                most = room_after(most, &work, queue.current.is_some());
                match lane.works.push(work) {
                    Ok(()) => {}
                    Err(_) => return Err(FeedRefusal::OutOfMemory),
                }
            }
            Ok(None) => return Ok(()),
            Err(refusal) => return Err(refusal),
        }
    }
    Ok(())
}

/// How many bytes of files a lane may be given after a statement: none after a part, which is the last that it gets.
fn room_after(most: usize, work: &Work, is_part: bool) -> usize
    ensures less { result ≤ most }
    ensures part { is_part ≡ true → result ≡ 0 }
    ensures used { 0 < result → result + bytes_in_work work.now ≤ most }
{
    if is_part {
        return 0;
    }
    match work {
        Work::Ingest { file, .. } => most.saturating_sub(file.len()),
        _ => most,
    }
}

/// The next statement, or the next part of a file.
fn next<H: Host>(
    alloc: Global,
    host: &mut H,
    queue: &mut Queue<H::Feed>,
) -> Result<Option<Work>, FeedRefusal>
where
    H::Feed: Drop,
    requires fit { (first : Bool) × IsFitQueue H.Feed.faults first queue.old }
    ensures given { IfOk result (λ w. (ss : List Statement) (given : List Does)
        → IsQueue (H.files host.old) H.Feed.left ss given queue.old
        → IsQueue (H.files host.new) H.Feed.left ss (given ++ option_to_list w) queue.new) }
    ensures failed { IfErr result (λ _. (ss : List Statement) (given : List Does)
        → IsQueue (H.files host.old) H.Feed.left ss given queue.old
        → MayEndFeed (H.files host.new) H.Feed.left ss given queue.new) }
    ensures fit { (first : Bool) → IsFitQueue H.Feed.faults first queue.old → IsFitQueue H.Feed.faults first queue.new
        × IfOk result (λ w. MayDoAll first (option_to_list w)
        × (queue.old.current ≡ None → AreAnew (option_to_list w))) }
    ensures some { IfOk result (λ w. IfSome w (λ x. (bytes_in_work x ≤ longest_csv_read)
        × (left_of queue.new < left_of queue.old))) }
    ensures none { IfOk result (λ w. w ≡ None → (left_of queue.old ≡ 0) × (left_of queue.new ≡ 0)) }
    ensures content { SameFiles (H.files host.old) (H.files host.new) }
    ensures cause { HasReadCause (H.faults host.old) (H.faults host.new) result }
{
    if let Some(work) = open_next(queue) {
        return Ok(Some(work));
    }
    if queue.current.is_none() {
        return Ok(None);
    }
    Ok(Some(read_open(alloc, host, queue)?))
}

/// Takes the next statement, where no file is being read; of a file the reading begins.
fn open_next<F: Source + Drop>(queue: &mut Queue<F>) -> Option<Work>
    ensures queue { (told : Option Files) (ss : List Statement) (given : List Does)
        → IsQueue told F.left ss given queue.old → IsQueue told F.left ss (given ++ option_to_list result) queue.new }
    ensures fit { (first : Bool) → IsFitQueue F.faults first queue.old
        → IsFitQueue F.faults first queue.new × MayDoAll first (option_to_list result) × IfSome result StoresNone
        × (queue.old.current ≡ None → IfSome queue.new.current (λ o. HasPassedHeader o → ⊥)) }
    ensures some { IfSome result (λ _. left_of queue.new < left_of queue.old) }
    ensures down { left_of queue.new ≤ left_of queue.old }
    ensures none { result ≡ None → queue.new.current ≡ None
        → (left_of queue.old ≡ 0) × (left_of queue.new ≡ 0) }
{
    if queue.current.is_some() {
        return None;
    }
    match queue.todos.pop_front() {
        None => None,
        Some(Todo::Work(work)) => Some(work),
        Some(Todo::File(file)) => {
            queue.current = Some(file);
            None
        }
    }
}

/// The next part of the file that is being read. Its feed goes back once all of it was read, or a read failed.
fn read_open<H: Host>(
    alloc: Global,
    host: &mut H,
    queue: &mut Queue<H::Feed>,
) -> Result<Work, FeedRefusal>
where
    H::Feed: Drop,
    requires current { IsSome queue.old.current }
    requires fit { (first : Bool) × IsFitQueue H.Feed.faults first queue.old }
    ensures given { IfOk result (λ w. (ss : List Statement) (given : List Does)
        → IsQueue (H.files host.old) H.Feed.left ss given queue.old
        → IsQueue (H.files host.new) H.Feed.left ss (given ++ w ∷ []) queue.new) }
    ensures failed { IfErr result (λ _. (ss : List Statement) (given : List Does)
        → IsQueue (H.files host.old) H.Feed.left ss given queue.old
        → MayEndFeed (H.files host.new) H.Feed.left ss given queue.new) }
    ensures fit { (first : Bool) → IsFitQueue H.Feed.faults first queue.old → IsFitQueue H.Feed.faults first queue.new }
    ensures work { IfOk result (λ w. ((first : Bool) → MayDo first w)
        × (IfSome queue.old.current (λ o. HasPassedHeader o → ⊥) → IsAnew w)) }
    ensures less { IfOk result (λ w. (bytes_in_work w ≤ longest_csv_read) × (left_of queue.new < left_of queue.old)) }
    ensures content { SameFiles (H.files host.old) (H.files host.new) }
    ensures cause { HasReadCause (H.faults host.old) (H.faults host.new) result }
{
    let Some(mut file) = queue.current.take() else {
        unreachable!()
    };
    match read_part(alloc, &mut file, AT_ONCE) {
        Ok(Part { work, last: false }) => {
            queue.current = Some(file);
            Ok(work)
        }
        Ok(Part { work, last: true }) => {
            close_file(host, file);
            Ok(work)
        }
        Err(refusal) => {
            close_file(host, file);
            Err(refusal)
        }
    }
}

/// Whether lanes have something to be given.
pub fn has_more<F: Source>(queues: &[Queue<F>]) -> bool
    ensures some { result ≡ true → 0 < left_of_all queues.now }
    ensures zero { result ≡ false → left_of_all queues.now ≡ 0 }
    ensures none { result ≡ false → (texts : List (List Statement)) (given : List (List Does)) (told : Option Files)
        → Triples (IsQueue told F.left) texts given queues.now → Pairs (AreStatementsDone told) texts given }
{
    for queue in queues {
        if queue.current.is_some() || queue.todos.len() > 0 {
            return true;
        }
    }
    false
}

/// Gives the feeds back of the files that are being read.
pub fn close<H: Host>(host: &mut H, queues: &mut [Queue<H::Feed>])
where
    H::Feed: Drop,
    ensures first { (texts : List (List Statement)) (given : List (List Does))
        → Triples (MayEndFeed (H.files host.old) H.Feed.left) texts given queues.old
        → Pairs (AreFirstOf (H.files host.new)) texts given }
    ensures content { SameFiles (H.files host.old) (H.files host.new) }
    ensures later { H.faults host.old ≤ H.faults host.new }
{
    let Some((queue, others)) = queues.split_first_mut() else {
        return;
    };
    close_one(host, queue);
    close(host, others);
}

/// Gives the feed back of the file that is being read, if one is.
fn close_one<H: Host>(host: &mut H, queue: &mut Queue<H::Feed>)
where
    H::Feed: Drop,
    ensures first { (ss : List Statement) (given : List Does)
        → MayEndFeed (H.files host.old) H.Feed.left ss given queue.old
        → AreFirstOf (H.files host.new) ss given }
    ensures content { SameFiles (H.files host.old) (H.files host.new) }
    ensures later { H.faults host.old ≤ H.faults host.new }
{
    match queue.current.take() {
        Some(file) => close_file(host, file),
        None => {}
    }
}
