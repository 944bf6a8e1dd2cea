//! The end of a log: the control pass looks at every number and every head, and the table's words stay as what is left.

ghost use Rattle.std.specs.Prelude.{◌≡◌, ◌<◌, ◌≤◌, ℕ, [], true, IfOk, IfErr, OnErr, OnOk};
ghost use Rattle.fish_rule.specs.ClosedLog.{IsClosed};
ghost use Rattle.fish_rule.specs.within.ClosedLog.{AreSettledHeads, HasStart, IsEntryAdded, IsNextEntry, IsLogRead};
ghost use Rattle.fish_rule.specs.within.ClosedLog.{IsReadUpTo, IsWholeLog};
ghost use Rattle.fish_rule.specs.ClosedLog.{ReadsOn, StaysOpen};
ghost use Rattle.fish_rule.specs.Logs.{Extends};
ghost use Rattle.fish_rule.specs.Passes.{IsOf, IsPassOf, view};
ghost use Rattle.fish_rule.specs.LoadSteps.{CanLookAt, IsAlone};

use crate::kept::LogEntries;
use crate::linking::load_head;
use crate::registry::load_version;
use crate::space::{load_tail, look_at, raise_settled};
use crate::table::{Log, Pass};
use crate::view::Kind;
use crate::word::{kind_of_word, line_of_word};
use fish_catalog::{PageStart, PageStarts};
use fish_layout::page_of;
use fish_value::Numbers64;
use std::alloc::{AllocError, Global};

/// What is left of a log, from which the next one can begin.
#[derive(Drop)]
pub struct Remains {
    /// Whether there was one.
    pub opened: bool,
    /// The number of its first entry.
    pub base: u32,
    /// Its entries, which keep the memory of its table.
    pub log: LogEntries,
    /// The line past its last entry.
    pub lines: u64,
    /// Of each bucket the place of its newest entry, or 0.
    pub heads: Numbers64,
    /// The first region in each page.
    pub starts: PageStarts,
    /// The version of its definitions.
    pub version: u16,
}

/// There was no memory to close a log, which comes back with its control pass.
#[derive(Drop)]
pub struct CloseWant {
    pub log: Log,
    pub pass: Pass,
}

/// What was read of a log so far.
#[derive(Drop)]
struct ReadLog {
    /// The number to look at next.
    number: u64,
    /// The first region in each page.
    starts: PageStarts,
    /// One more than the last page that has a region, or 0.
    next_page: u64,
    /// The line at which the log ends.
    lines: u64,
}

/// What was read of a whole log.
#[derive(Drop)]
struct WholeLog {
    read: ReadLog,
    heads: Numbers64,
    version: u16,
}

/// What stands at a number: the line of an entry, or that of a mark.
#[derive(Clone, Copy)]
enum Next {
    Entry(u64),
    Mark(u64),
}

/// Closes a log, and shows what is left of it. No lane may be out, and nothing in flight. Where memory runs out the log
/// and its control pass come back as they were, but for what the pass read.
pub fn close_log(alloc: Global, log: Log, control: Pass) -> Result<Remains, CloseWant>
    requires pass { IsPassOf log control }
    requires alone { IsAlone (view control) }
    ensures opened { IfOk result (λ r. r.opened ≡ true) }
    ensures log { IfOk result (λ r. IsClosed (view control) r) }
    ensures want { IfErr result (λ want. IsOf log want.log × IsPassOf want.log want.pass
        × StaysOpen (view control) (view want.pass) × IsAlone (view want.pass)) }
{
    let mut control = control;
    match read_log(alloc, &log, &mut control) {
        Ok(whole) => Ok(remains_of(log, control, whole)),
        Err(AllocError) => Err(CloseWant { log, pass: control }),
    }
}

/// Ends a log that was read, whose table's words stay.
fn remains_of(log: Log, control: Pass, whole: WholeLog) -> Remains
    requires pass { IsPassOf log control }
    requires alone { IsAlone (view control) }
    requires whole { IsWholeLog (view control) whole }
    ensures opened { result.opened ≡ true }
    ensures closed { IsClosed (view control) result }
{
    let Log {
        table,
        key,
        shape: _,
    } = log;
    let Pass {
        seat,
        lane: _,
        shut: _,
        flight: _,
        walk: _,
    } = control;
    let WholeLog {
        read,
        heads,
        version,
    } = whole;
    let base = key.number as u32;
    let count = (read.number - key.number) as usize;
    let closed = table.close_with(seat);
    Remains {
        opened: true,
        base,
        log: LogEntries { closed, key, count },
        lines: read.lines,
        heads,
        starts: read.starts,
        version,
    }
}

/// Reads all of a log but its entries.
fn read_log(alloc: Global, log: &Log, control: &mut Pass) -> Result<WholeLog, AllocError>
    requires pass { IsPassOf log.now control.old }
    requires alone { IsAlone (view control.old) }
    ensures pass { IsPassOf log.now control.new }
    ensures on { ReadsOn (view control.old) (view control.new) }
    ensures stays { OnErr result (StaysOpen (view control.old) (view control.new)) }
    ensures whole { IfOk result (IsWholeLog (view control.new)) }
{
    let tail = load_tail(log, control);
    let mut read = ReadLog {
        number: log.key.number,
        starts: PageStarts::new(alloc),
        next_page: 0,
        lines: tail.line,
    };
    let mut heads = Numbers64::new(alloc);
    match read_words(log, control, tail.number, &mut read, &mut heads) {
        Ok(()) => {
            let version = load_version(log, control) as u16;
            Ok(WholeLog {
                read,
                heads,
                version,
            })
        }
        Err(error) => {
            drop((read, heads));
            Err(error)
        }
    }
}

/// The numbers up to the first mark or the end, and then the heads.
fn read_words(
    log: &Log,
    control: &mut Pass,
    end: u64,
    read: &mut ReadLog,
    heads: &mut Numbers64,
) -> Result<(), AllocError>
    requires pass { IsPassOf log.now control.old }
    requires alone { IsAlone (view control.old) }
    requires from { log.now.key.number ≤ end }
    requires counted { end ≤ (view control.old).learned.count }
    requires read { IsReadUpTo (view control.old) log.now.key.number read.old }
    requires heads { heads.old ≡ [] }
    ensures pass { IsPassOf log.now control.new }
    ensures extends { Extends (view control.old) (view control.new) }
    ensures read { OnOk result (IsLogRead (view control.new) end read.old.lines read.new) }
    ensures heads { OnOk result ((settled : ℕ) × (read.new.number ≤ settled)
        × AreSettledHeads (view control.new) settled log.now.key.buckets heads.new) }
{
    all_numbers(log, control, end, read)?;
    raise_settled(log, control, read.number);
    all_heads(log, control, heads)
}

/// All numbers, up to the first mark or the end.
fn all_numbers(
    log: &Log,
    control: &mut Pass,
    end: u64,
    read: &mut ReadLog,
) -> Result<(), AllocError>
    requires pass { IsPassOf log.now control.old }
    requires alone { IsAlone (view control.old) }
    requires from { log.now.key.number ≤ end }
    requires counted { end ≤ (view control.old).learned.count }
    requires read { IsReadUpTo (view control.old) log.now.key.number read.old }
    ensures pass { IsPassOf log.now control.new }
    ensures extends { Extends (view control.old) (view control.new) }
    ensures read { OnOk result (IsLogRead (view control.new) end read.old.lines read.new) }
{
    for number in log.key.number..end {
        if !add_number(log, control, number, read)? {
            return Ok(());
        }
    }
    Ok(())
}

/// Adds what stands at a number, and says whether the log goes on. At a mark it ends.
fn add_number(
    log: &Log,
    control: &mut Pass,
    number: u64,
    read: &mut ReadLog,
) -> Result<bool, AllocError>
    requires pass { IsPassOf log.now control.old }
    requires alone { IsAlone (view control.old) }
    requires look { CanLookAt (view control.old) number }
    requires read { IsReadUpTo (view control.old) number read.old }
    ensures pass { IsPassOf log.now control.new }
    ensures extends { Extends (view control.old) (view control.new) }
    ensures read { IfOk result (λ goes. IsEntryAdded (view control.new) number goes read.old.lines read.new) }
{
    match next_at(log, control, number) {
        Next::Entry(line) => {
            add_start(read, number, line)?;
            Ok(true)
        }
        Next::Mark(line) => {
            read.lines = line;
            Ok(false)
        }
    }
}

/// Adds an entry's number, and its region where it is the first one in its page.
fn add_start(read: &mut ReadLog, number: u64, line: u64) -> Result<(), AllocError>
    requires { number < 268435456 }
    ensures { OnOk result (HasStart read.old number line read.new) }
{
    let page = page_of(line);
    if page >= read.next_page {
        read.starts.push(PageStart {
            number: number as u32,
            line,
        })?;
        read.next_page = page + 1;
    }
    read.number = number + 1;
    Ok(())
}

/// What stands at a number.
fn next_at(log: &Log, control: &mut Pass, number: u64) -> Next
    requires pass { IsPassOf log.now control.old }
    requires alone { IsAlone (view control.old) }
    requires look { CanLookAt (view control.old) number }
    ensures pass { IsPassOf log.now control.new }
    ensures extends { Extends (view control.old) (view control.new) }
    ensures next { IsNextEntry (view control.new) number result }
{
    let word = look_at(log, control, number);
    let line = line_of_word(word);
    match kind_of_word(word) {
        Kind::Stored => Next::Entry(line),
        Kind::Void => Next::Entry(line),
        Kind::Mark => Next::Mark(line),
    }
}

/// The heads of all buckets.
fn all_heads(log: &Log, control: &mut Pass, heads: &mut Numbers64) -> Result<(), AllocError>
    requires pass { IsPassOf log.now control.old }
    requires heads { heads.old ≡ [] }
    ensures pass { IsPassOf log.now control.new }
    ensures extends { Extends (view control.old) (view control.new) }
    ensures heads { OnOk result
        (AreSettledHeads (view control.new) (view control.old).learned.settled log.now.key.buckets heads.new) }
{
    for bucket in 0..log.key.buckets {
        let head = load_head(log, control, bucket);
        heads.push(head)?;
    }
    Ok(())
}
