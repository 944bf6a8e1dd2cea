//! The lanes of a block, as a script has them, with the files that they store.

ghost use Rattle.std.specs.Prelude.{◌≡◌, [], Bool, IfOk, false, true};
ghost use Rattle.fish_feed.specs.Queues.{OthersAreFree, AllRunnable, AreFit, IsDue, IsFitQueue, IsFitTodo, IsQueue};
ghost use Rattle.fish_feed.specs.within.Queues.{HasNoFile};
ghost use Rattle.fish_outside.specs.Reading.{HasReadCause};
ghost use Rattle.fish_feed.specs.Works.{IsWorkOf, ask_of, how_of};
ghost use Rattle.fish_script.specs.Laws.{Pairs};
ghost use Rattle.fish_lang.specs.Definition.{definition_of};
ghost use Rattle.fish_outside.specs.Content.{SameFiles};
ghost use Rattle.fish_registry.specs.Refusing.{IsSaid};
ghost use Rattle.fish_script.specs.Runnable.{AreRunnable, IsRunnable};
ghost use Rattle.fish_script.specs.Script.{AreFree, is_control};

use crate::part::open_file;
use crate::queue::{Queue, Todo};
use fish_catalog::parse_canonical;
use fish_lanes::Work;
use fish_lang::{Def, print_def};
use fish_lines::Begin;
use fish_outside::{FeedRefusal, Host};
use fish_scan::{Ask, How};
use fish_script::{By, Statement, Statements};
use fish_value::{Text, Value};
use std::alloc::{AllocError, Global};
use std::collections::VecDeque;

/// What the lanes of a block are to be given, with their files open.
pub fn open_lanes<H: Host>(
    alloc: Global,
    host: &mut H,
    texts: &[Statements],
) -> Result<Vec<Queue<H::Feed>>, FeedRefusal>
where
    H::Feed: Drop,
    requires runnable { AllRunnable texts.now }
    requires free { OthersAreFree texts.now }
    ensures queues { IfOk result (λ queues. Pairs (λ ss q. IsQueue (H.files host.new) H.Feed.left ss [] q) texts.now
        queues.items) }
    ensures fit { IfOk result (λ queues. AreFit H.Feed.faults true queues.items) }
    ensures content { SameFiles (H.files host.old) (H.files host.new) }
    ensures cause { HasReadCause (H.faults host.old) (H.faults host.new) result }
{
    let mut queues = Vec::new(alloc);
    for text in texts {
        let queue = match open_lane(alloc, host, text.as_slice()) {
            Ok(queue) => queue,
            Err(refusal) => {
                drop(queues);
                return Err(refusal);
            }
        };
        match queues.push(queue) {
            Ok(()) => {}
            Err(lost) => {
                drop((lost, queues));
                return Err(FeedRefusal::OutOfMemory);
            }
        }
    }
    Ok(queues)
}

/// What a lane is to be given.
fn open_lane<H: Host>(
    alloc: Global,
    host: &mut H,
    statements: &[Statement],
) -> Result<Queue<H::Feed>, FeedRefusal>
where
    H::Feed: Drop,
    requires runnable { AreRunnable statements.now }
    ensures queue { IfOk result (IsQueue (H.files host.new) H.Feed.left statements.now []) }
    ensures fit { IfOk result (λ q. (first : Bool) → (first ≡ false → AreFree statements.now)
        → IsFitQueue H.Feed.faults first q) }
    ensures content { SameFiles (H.files host.old) (H.files host.new) }
    ensures cause { HasReadCause (H.faults host.old) (H.faults host.new) result }
{
    let mut todos = VecDeque::new(alloc);
    for statement in statements {
        let todo = match todo_of(alloc, host, statement) {
            Ok(todo) => todo,
            Err(refusal) => {
                drop(todos);
                return Err(refusal);
            }
        };
        match todos.push_back(todo) {
            Ok(()) => {}
            Err(lost) => {
                drop((lost, todos));
                return Err(FeedRefusal::OutOfMemory);
            }
        }
    }
    Ok(Queue {
        current: None,
        todos,
    })
}

/// A statement, with its file open.
fn todo_of<H: Host>(
    alloc: Global,
    host: &mut H,
    statement: &Statement,
) -> Result<Todo<H::Feed>, FeedRefusal>
where
    H::Feed: Drop,
    requires runnable { IsRunnable statement.now }
    ensures due { IfOk result (IsDue (H.files host.new) H.Feed.left statement.now) }
    ensures fit { IfOk result (λ t. (first : Bool) → (first ≡ false → is_control statement.now ≡ false)
        → IsFitTodo H.Feed.faults first t) }
    ensures content { SameFiles (H.files host.old) (H.files host.new) }
    ensures cause { HasReadCause (H.faults host.old) (H.faults host.new) result }
{
    match statement {
        Statement::Ingest { form, header, file } => {
            let name = file.again(alloc)?;
            let feed = host.feed(alloc, file)?;
            let begin = Begin::Start { header: *header };
            Ok(Todo::File(open_file(alloc, *form, begin, name, feed)))
        }
        other => Ok(Todo::Work(work_of(alloc, other)?)),
    }
}

/// A statement without a file.
fn work_of(alloc: Global, statement: &Statement) -> Result<Work, AllocError>
    requires runnable { IsRunnable statement.now }
    requires other { HasNoFile statement.now }
    ensures { IfOk result (IsWorkOf statement.now) }
{
    match statement {
        Statement::Register { name, def } => {
            let name = name.again(alloc)?;
            let def = copy_def(alloc, def)?;
            Ok(Work::Register { name, def })
        }
        Statement::Deregister { name } => Ok(Work::Deregister {
            name: name.again(alloc)?,
        }),
        Statement::Ingest { .. } => unreachable!(),
        Statement::Scan {
            name,
            value,
            from,
            to,
            by,
        } => Ok(Work::Scan {
            ask: ask_of(alloc, name, value, *from, *to, *by)?,
        }),
        Statement::Explain {
            name,
            value,
            from,
            to,
            by,
        } => Ok(Work::Explain {
            ask: ask_of(alloc, name, value, *from, *to, *by)?,
        }),
        Statement::Checkpoint => Ok(Work::Checkpoint),
    }
}

/// What a statement asks.
fn ask_of(
    alloc: Global,
    name: &Text,
    value: &Value,
    from: Option<u32>,
    to: Option<u32>,
    by: By,
) -> Result<Ask, AllocError>
    ensures { IfOk result (λ ask. ask ≡ ask_of name.now value.now from to by) }
{
    let name = name.again(alloc)?;
    let value = value.again(alloc)?;
    let how = how_of(by);
    Ok(Ask {
        name,
        value,
        from,
        to,
        how,
    })
}

/// How a scan is to go.
fn how_of(by: By) -> How
    ensures { result ≡ how_of by }
{
    match by {
        By::Auto => How::Auto,
        By::Index => How::Index,
        By::Full => How::Full,
    }
}

/// A copy of a definition: what its canonical text is read as.
fn copy_def(alloc: Global, def: &Def) -> Result<Def, AllocError>
    requires { IsSaid def.now }
    ensures { IfOk result (λ copy. definition_of copy ≡ definition_of def.now) }
{
    let text = print_def(alloc, def)?;
    parse_canonical(alloc, text.as_bytes())
}
