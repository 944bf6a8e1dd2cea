//! Payloads that are stored, and those that are refused, under `take type`: by one pass, and by two that are joined.
//!
//! A payload of 524,000 bytes takes 16,376 lines, one of 600 bytes 19 and one of 700 bytes 23, so a third record
//! doesn't fit after two on the first page of 32,768 lines.

ghost use Rattle.std.specs.Prelude.{◌≡◌, ◌∷◌, [], IfOk};
ghost use Rattle.fish_ingest.specs.Ingestion.{CanIngest};
ghost use Rattle.fish_rule.specs.Passes.{IsPassOf, view};
ghost use Rattle.fish_rule.specs.Start.{IsShape};
ghost use Rattle.fish_rule.specs.Table.{first_view};
ghost use Rattle.tests_log.specs.Lanes.{IsOutOf};

use crate::cause::Cause;
use crate::expecting::expect;
use crate::lanes::{split_lane, store, take_back};
use crate::logs::ONE_PAGE;
use crate::openings::{TWO_PAGES, defined, defined_log};
use fish_epoch::Defs;
use fish_ingest::IngestRefusal;
use fish_rule::{Log, Pass, Shape, Shut, is_shut, open_log};
use fish_walk::count_now;
use std::alloc::{AllocError, Global};
use std::process::Abort;
use std::test::Fail;

/// A pass that is full.
const FULL: IngestRefusal = IngestRefusal::Full {
    line: 32_752,
    lines: 19,
    end: 32_768,
};

/// A pass that is refused after it: its claim begins where that of the first ends.
const FULL_BEHIND: IngestRefusal = IngestRefusal::Full {
    line: 32_771,
    lines: 23,
    end: 32_768,
};

/// The claim of the first, as the control pass has it once it has taken back both.
const SHUT: Shut = Shut {
    line: 32_752,
    lines: 19,
    end: 32_768,
};

/// A payload: this text, or an object without a type of so many bytes.
enum Payload {
    Text(&'static str),
    Long(usize),
}

/// The payloads stored one after the other, with their answers: on one page the causes of a parse, on
/// two pages a void, and on one page what is full.
type Answers = &'static [(Payload, Result<u32, IngestRefusal>)];

const CAUSES: Answers = &[
    (Payload::Text("{\"type\":\"Push\",\"n\":1}"), Ok(0)),
    (Payload::Long(524_289), Err(IngestRefusal::TooLong)),
    (Payload::Text("[1]"), Err(IngestRefusal::NotRecord)),
];

const VOIDS: Answers = &[
    (Payload::Long(524_000), Ok(0)),
    (Payload::Long(524_000), Ok(1)),
    (Payload::Long(600), Ok(3)),
    (Payload::Text("{}"), Ok(4)),
];

const FULL_LOG: Answers = &[
    (Payload::Long(524_000), Ok(0)),
    (Payload::Long(524_000), Ok(1)),
    (Payload::Long(600), Err(FULL)),
    (Payload::Text("{}"), Err(FULL)),
];

/// What lane 2 is answered, and lane 3 after it, and lane 2 again.
const SECOND: Answers = &[
    (Payload::Long(524_000), Ok(0)),
    (Payload::Long(524_000), Ok(1)),
    (Payload::Long(600), Err(FULL)),
];

const THIRD: Answers = &[(Payload::Long(700), Err(FULL_BEHIND))];

const AGAIN: Answers = &[(Payload::Text("{}"), Err(FULL))];

/// The bytes of a payload.
fn bytes_of(alloc: Global, payload: &Payload) -> Result<Vec<u8>, AllocError> {
    match payload {
        Payload::Text(text) => text.as_bytes().to_vec(alloc),
        Payload::Long(bytes) => long_payload(alloc, *bytes),
    }
}

/// An object of so many bytes, without a type.
fn long_payload(alloc: Global, bytes: usize) -> Result<Vec<u8>, AllocError> {
    let mut payload = Vec::new(alloc);
    payload.extend_from_slice(b"{\"p\":\"")?;
    for _ in 8..bytes {
        payload.push(b'x')?;
    }
    payload.extend_from_slice(b"\"}")?;
    Ok(payload)
}

/// Asserts what each payload is answered.
fn expect_answers<R: Abort>(
    rt: &R,
    alloc: Global,
    log: &Log,
    pass: &mut Pass,
    defs: &mut Defs,
    answers: Answers,
) -> Result<(), Cause>
    requires { CanIngest log.now pass.old defs.old }
    ensures { CanIngest log.now pass.new defs.new }
{
    for (payload, want) in answers {
        let bytes = bytes_of(alloc, payload)?;
        let answer = store(alloc, log, pass, defs, bytes.as_slice());
        expect(rt, "a payload", &answer, want);
    }
    Ok(())
}

/// A log under `take type`, and its control pass.
fn opened(alloc: Global, shape: Shape) -> Result<(Log, Pass), Cause>
    requires { IsShape shape }
    ensures { IfOk result (λ r. IsOutOf r.0 r.1) }
{
    let (start, defs) = defined(alloc, shape, &["take type"])?;
    drop(defs);
    let opened = open_log(alloc, shape, &start);
    drop(start);
    Ok(opened?)
}

/// Asserts what each payload is answered in a log of its own, and how many numbers are claimed then.
fn expect_log<R: Abort>(
    rt: &R,
    alloc: Global,
    shape: Shape,
    answers: Answers,
    count: u32,
) -> Result<(), Cause>
    requires { IsShape shape }
{
    let (log, mut pass) = opened(alloc, shape)?;
    let mut defs = Defs::new(alloc);
    let done = expect_answers(rt, alloc, &log, &mut pass, &mut defs, answers);
    let found = count_now(&log, &mut pass);
    drop((log, pass, defs));
    expect(rt, "numbers", &found, &count);
    done
}

#[test]
fn refusals(rt: HostRuntime) -> Result<(), Fail> {
    Ok(expect_log(&rt, rt.alloc(), ONE_PAGE, CAUSES, 1)?)
}

#[test]
fn voids(rt: HostRuntime) -> Result<(), Fail> {
    Ok(expect_log(&rt, rt.alloc(), TWO_PAGES, VOIDS, 5)?)
}

#[test]
fn full(rt: HostRuntime) -> Result<(), Fail> {
    Ok(expect_log(&rt, rt.alloc(), ONE_PAGE, FULL_LOG, 3)?)
}

/// Asserts what each payload is answered in a lane, whose definitions are read anew.
fn expect_lane<R: Abort>(
    rt: &R,
    alloc: Global,
    log: &Log,
    pass: &mut Pass,
    answers: Answers,
) -> Result<(), Cause>
    requires { IsOutOf log.now pass.old }
    ensures { IsOutOf log.now pass.new }
{
    let mut defs = Defs::new(alloc);
    let done = expect_answers(rt, alloc, log, pass, &mut defs, answers);
    drop(defs);
    done
}

/// Asserts what two lanes are answered, one after the other.
fn expect_lanes<R: Abort>(
    rt: &R,
    alloc: Global,
    log: &Log,
    second: &mut Pass,
    third: &mut Pass,
) -> Result<(), Cause>
    requires second { IsOutOf log.now second.old }
    requires third { IsOutOf log.now third.old }
    ensures second { IsOutOf log.now second.new }
    ensures third { IsOutOf log.now third.new }
{
    expect_lane(rt, alloc, log, second, SECOND)?;
    expect_lane(rt, alloc, log, third, THIRD)?;
    expect_lane(rt, alloc, log, second, AGAIN)
}

/// The control pass takes back lanes 2 and 3.
fn take_two(log: &Log, control: &mut Pass, second: Pass, third: Pass) -> Result<(), Cause>
    requires pass { IsPassOf log.now control.old }
    requires second { IsOutOf log.now second }
    requires third { IsOutOf log.now third }
    requires control { (view control.old).lane ≡ 1 }
    requires out { (view control.old).out ≡ 3 ∷ 2 ∷ [] }
    ensures { IsPassOf log.now control.new }
{
    match take_back(log, control, second, 2) {
        Ok(()) => take_back(log, control, third, 3),
        Err(fail) => {
            drop(third);
            Err(fail)
        }
    }
}

/// Asserts what two lanes are answered, and which of their claims the control pass has afterwards.
fn expect_joined<R: Abort>(
    rt: &R,
    alloc: Global,
    log: &Log,
    control: &mut Pass,
) -> Result<(), Cause>
    requires pass { IsPassOf log.now control.old }
    requires first { view control.old ≡ first_view log.now.key }
{
    let mut second = split_lane(log, control, 2);
    let mut third = split_lane(log, control, 3);
    match expect_lanes(rt, alloc, log, &mut second, &mut third) {
        Ok(()) => take_two(log, control, second, third)?,
        Err(fail) => {
            drop((second, third));
            return Err(fail);
        }
    }
    expect(rt, "the claim that shut it", &is_shut(control), &Some(SHUT));
    Ok(())
}

#[test]
fn full_lanes_are_compared(rt: HostRuntime) -> Result<(), Fail> {
    let (log, mut control) = defined_log(rt.alloc(), &["take type"])?;
    let done = expect_joined(&rt, rt.alloc(), &log, &mut control);
    drop((log, control));
    Ok(done?)
}
