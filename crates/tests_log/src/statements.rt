//! Statements of one pass, one after the other on an empty log of sixteen buckets, and what each of them answers.

ghost use Rattle.std.specs.Prelude.{◌≡◌};
ghost use Rattle.tests_log.specs.Registering.{IsWorking};

use crate::asks::{Question, Wanted, ask_of};
use crate::cause::Cause;
use crate::expecting::expect_text;
use crate::logs::{ONE_PAGE, empty_log};
use crate::openings::FIRST;
use crate::registrations::{begin_between, end_between, poll_between, store_kept};
use crate::scans::{told_explain, told_scan};
use crate::stories::Statement::{self, Begin, End, Explain, Look, Scan, Store, StoreLong};
use crate::stories::{AGAIN, BEHIND_RECORDS, PAST_THE_END, RANGES, REFUSALS, Story, WAITING};
use fish_catalog::Catalog;
use fish_epoch::Defs;
use fish_registry::{Poll, Registrar};
use fish_rule::{Log, Pass};
use fish_scan::How;
use std::alloc::Global;
use std::fmt::Write;
use std::process::Abort;
use std::test::Fail;

/// Stores a payload. Its number, or why it was not stored.
fn told_store_word(
    alloc: Global,
    log: &Log,
    control: &mut Pass,
    registrar: &Registrar,
    defs: &mut Defs,
    payload: &[u8],
) -> Result<String, Cause>
    requires { IsWorking log.now control.old registrar.now defs.old }
    ensures { IsWorking log.now control.new registrar.now defs.new }
{
    match store_kept(alloc, log, control, registrar, defs, payload) {
        Ok(number) => Ok(format!(in alloc; "{number}")?),
        Err(refusal) => Ok(format!(in alloc; "{refusal}")?),
    }
}

/// Stores a payload of so many bytes. Its number, or why it was not stored.
fn told_long_store(
    alloc: Global,
    log: &Log,
    control: &mut Pass,
    registrar: &Registrar,
    defs: &mut Defs,
    size: usize,
) -> Result<String, Cause>
    requires { IsWorking log.now control.old registrar.now defs.old }
    ensures { IsWorking log.now control.new registrar.now defs.new }
{
    let payload = long_payload(alloc, size)?;
    let text = told_store_word(alloc, log, control, registrar, defs, payload.as_bytes());
    drop(payload);
    text
}

/// A payload of so many bytes, eight or more.
fn long_payload(alloc: Global, size: usize) -> Result<String, Cause> {
    let mut payload = String::from_str(alloc, "{\"p\":\"")?;
    for _ in 8..size {
        payload.push('x')?;
    }
    payload.push_str("\"}")?;
    Ok(payload)
}

/// Registers a definition. Its id, or why it was refused.
fn told_begin(
    alloc: Global,
    log: &Log,
    control: &mut Pass,
    registrar: &mut Registrar,
    defs: &Defs,
    definition: (&str, &str),
) -> Result<String, Cause>
    requires { IsWorking log.now control.old registrar.old defs.now }
    ensures { IsWorking log.now control.new registrar.new defs.now }
{
    match begin_between(alloc, log, control, registrar, defs, definition)? {
        Ok(id) => Ok(format!(in alloc; "id {id}")?),
        Err(refusal) => Ok(format!(in alloc; "{refusal}")?),
    }
}

/// An id, and where an index begins or ends.
fn told_boundary(alloc: Global, id: u16, word: &str, number: u32) -> Result<String, Cause> {
    Ok(format!(in alloc; "id {id} {word} {number}")?)
}

/// What is found of a registration as the lanes are looked at. No lane is waited for here.
fn told_poll(alloc: Global, found: Poll) -> Result<String, Cause> {
    match found {
        Poll::Bound { id, from } => told_boundary(alloc, id, "from", from),
        Poll::NotYet { .. } => Err(Cause("a lane is waited for")),
        Poll::Idle => Ok(format!(in alloc; "none waits")?),
    }
}

/// Ends a definition. Its id and where its index ends, or why it was refused.
fn told_end(
    alloc: Global,
    log: &Log,
    control: &mut Pass,
    registrar: &mut Registrar,
    defs: &Defs,
    name: &str,
) -> Result<String, Cause>
    requires { IsWorking log.now control.old registrar.old defs.now }
    ensures { IsWorking log.now control.new registrar.new defs.now }
{
    match end_between(alloc, log, control, registrar, defs, name)? {
        Ok((id, to)) => told_boundary(alloc, id, "to", to),
        Err(refusal) => Ok(format!(in alloc; "{refusal}")?),
    }
}

/// What a scan answers.
pub(crate) fn told_scanned(
    alloc: Global,
    log: &Log,
    control: &mut Pass,
    registrar: &Registrar,
    defs: &mut Defs,
    question: Question,
) -> Result<String, Cause>
    requires { IsWorking log.now control.old registrar.now defs.old }
    ensures { IsWorking log.now control.new registrar.now defs.new }
{
    let ask = ask_of(alloc, question)?;
    let text = told_scan(alloc, log, control, defs, &ask);
    drop(ask);
    text
}

/// How a scan would read its range.
fn told_explained(
    alloc: Global,
    log: &Log,
    control: &mut Pass,
    registrar: &Registrar,
    defs: &mut Defs,
    question: Question,
) -> Result<String, Cause>
    requires { IsWorking log.now control.old registrar.now defs.old }
    ensures { IsWorking log.now control.new registrar.now defs.new }
{
    let ask = ask_of(alloc, question)?;
    let text = told_explain(alloc, log, control, defs, &ask);
    drop(ask);
    text
}

/// What a statement answers.
fn told(
    alloc: Global,
    log: &Log,
    control: &mut Pass,
    registrar: &mut Registrar,
    defs: &mut Defs,
    statement: Statement,
) -> Result<String, Cause>
    requires { IsWorking log.now control.old registrar.old defs.old }
    ensures { IsWorking log.now control.new registrar.new defs.new }
{
    match statement {
        Store(payload) => told_store_word(alloc, log, control, registrar, defs, payload),
        StoreLong(size) => told_long_store(alloc, log, control, registrar, defs, size),
        Begin(name, source) => told_begin(alloc, log, control, registrar, defs, (name, source)),
        Look => told_poll(alloc, poll_between(log, control, registrar, defs)),
        End(name) => told_end(alloc, log, control, registrar, defs, name),
        Explain(question) => told_explained(alloc, log, control, registrar, defs, question),
        Scan(question) => told_scanned(alloc, log, control, registrar, defs, question),
    }
}

/// Asserts what the statements of a story answer.
fn expect_story<R: Abort>(
    rt: &R,
    alloc: Global,
    log: &Log,
    control: &mut Pass,
    registrar: &mut Registrar,
    defs: &mut Defs,
    story: Story,
) -> Result<(), Cause>
    requires { IsWorking log.now control.old registrar.old defs.old }
    ensures { IsWorking log.now control.new registrar.new defs.new }
{
    for &(statement, want) in story {
        let text = told(alloc, log, control, registrar, defs, statement)?;
        expect_text(rt, "a statement", text.as_str(), want);
    }
    Ok(())
}

/// Asserts them on a log of their own.
fn expect_alone<R: Abort>(rt: &R, alloc: Global, story: Story) -> Result<(), Cause> {
    let (log, mut control) = empty_log(alloc, ONE_PAGE, FIRST)?;
    let mut registrar = Registrar::new(Catalog::new(alloc));
    let mut defs = Defs::new(alloc);
    let done = expect_story(
        rt,
        alloc,
        &log,
        &mut control,
        &mut registrar,
        &mut defs,
        story,
    );
    drop((log, control, registrar, defs));
    done
}

#[test]
fn statements(rt: HostRuntime) -> Result<(), Fail> {
    for story in [
        BEHIND_RECORDS,
        AGAIN,
        REFUSALS,
        WAITING,
        RANGES,
        PAST_THE_END,
    ] {
        expect_alone(&rt, rt.alloc(), story)?;
    }
    Ok(())
}

/// Definitions by which each of 17 values has a record: the name, the text, and the id of the index by which it is
/// read. Of two with one text and one interval that is the least. In 16 buckets two values of each share one.
const NAMED: &[(&str, &str, u16)] = &[
    ("v", "take v", 0),
    ("w", "take v", 0),
    ("x", "take v when v exists", 2),
];

/// How many values there are.
const VALUES: u32 = 17;

/// Stores a record for each value.
fn store_values(
    alloc: Global,
    log: &Log,
    control: &mut Pass,
    registrar: &Registrar,
    defs: &mut Defs,
) -> Result<(), Cause>
    requires { IsWorking log.now control.old registrar.now defs.old }
    ensures { IsWorking log.now control.new registrar.now defs.new }
{
    for number in 0..VALUES {
        let payload = format!(in alloc; "{{\"v\":{number}}}")?;
        if store_kept(alloc, log, control, registrar, defs, payload.as_bytes()) != Ok(number) {
            return Err(Cause("not stored"));
        }
    }
    Ok(())
}

/// Asserts that a scan by a name finds the record of each value alone, by the index with an id.
fn expect_values<R: Abort>(
    rt: &R,
    alloc: Global,
    log: &Log,
    control: &mut Pass,
    registrar: &Registrar,
    defs: &mut Defs,
    named: (&'static str, u16),
) -> Result<(), Cause>
    requires { IsWorking log.now control.old registrar.now defs.old }
    ensures { IsWorking log.now control.new registrar.now defs.new }
{
    let (name, id) = named;
    for number in 0..VALUES {
        let question = Question {
            name,
            value: Wanted::Int(i64::from(number)),
            from: None,
            to: None,
            how: How::Index,
        };
        let text = told_scanned(alloc, log, control, registrar, defs, question)?;
        let want = format!(in alloc; "0..17 index 0..17 by {id}; {number} {{\"v\":{number}}}")?;
        expect_text(rt, "a value", text.as_str(), want.as_str());
    }
    Ok(())
}

/// Registers the definitions.
fn register_named(
    alloc: Global,
    log: &Log,
    control: &mut Pass,
    registrar: &mut Registrar,
    defs: &Defs,
) -> Result<(), Cause>
    requires { IsWorking log.now control.old registrar.old defs.now }
    ensures { IsWorking log.now control.new registrar.new defs.now }
{
    for &(name, source, _) in NAMED {
        told_begin(alloc, log, control, registrar, defs, (name, source))?;
        poll_between(log, control, registrar, defs);
    }
    Ok(())
}

/// Registers them, stores the records, and asserts what scans by each name find.
fn expect_named<R: Abort>(
    rt: &R,
    alloc: Global,
    log: &Log,
    control: &mut Pass,
    registrar: &mut Registrar,
    defs: &mut Defs,
) -> Result<(), Cause>
    requires { IsWorking log.now control.old registrar.old defs.old }
{
    register_named(alloc, log, control, registrar, defs)?;
    store_values(alloc, log, control, registrar, defs)?;
    for &(name, _, id) in NAMED {
        expect_values(rt, alloc, log, control, registrar, defs, (name, id))?;
    }
    Ok(())
}

#[test]
fn values_that_share_a_bucket_are_told_apart(rt: HostRuntime) -> Result<(), Fail> {
    let alloc = rt.alloc();
    let (log, mut control) = empty_log(alloc, ONE_PAGE, FIRST)?;
    let mut registrar = Registrar::new(Catalog::new(alloc));
    let mut defs = Defs::new(alloc);
    let done = expect_named(&rt, alloc, &log, &mut control, &mut registrar, &mut defs);
    drop((log, control, registrar, defs));
    Ok(done?)
}
