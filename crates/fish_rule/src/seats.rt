//! How a log begins with one pass, and how that pass gives out its lanes and takes them back.
//!
//! No step here changes a word. The first pass is the control pass: it has lane 1, and each lane
//! from 2 to 16 that is with no other pass.

ghost use Rattle.std.specs.Prelude.{◌≡◌, ℕ, ◌<◌, ◌≤◌, IfOk, replicate};
ghost use Rattle.fish_rule.specs.Logs.{Learns};
ghost use Rattle.fish_rule.specs.Parts.{FitsTable};
ghost use Rattle.fish_rule.specs.Passes.{IsPassOf, view};
ghost use Rattle.fish_rule.specs.SeatSteps.{CanJoinPass, CanSplitPass, join_both, split_left, split_right};
ghost use Rattle.fish_rule.specs.Start.{CanOpen, IsFirstStart, IsFirstKey, IsShape};
ghost use Rattle.fish_rule.specs.LoadSteps.{after_load_tail};
ghost use Rattle.fish_rule.specs.Table.{first_view};

use crate::opening::empty_words;
use crate::step_kinds::LoadTail;
use crate::table::{Base, Log, Pass, Shape};
use crate::view::{Key, View};
use crate::walk::NO_WALK;
use atomic_table::{Join, Split, Table};
use fish_catalog::Catalog;
use fish_layout::PAGE_LINES;
use fish_value::Numbers64;
use std::alloc::{AllocError, Global};
use std::snapshot::Snapshot;

/// The greatest number at which a log's claims that end within it may end.
const LAST_NUMBER: u64 = 268_435_439;

/// The greatest line at which a log may end.
const LAST_LINE: u64 = 68_719_176_736;

/// What a log begins with.
#[derive(Debug, Drop)]
pub struct Start {
    /// Where its numbers and lines begin.
    pub base: Base,
    /// Of each bucket the place of its newest entry of an older record, or 0.
    pub heads: Numbers64,
    /// The rows of the store's catalogue.
    pub catalog: Catalog,
    /// The version with which it begins.
    pub version: u16,
}

impl Start {
    /// No older record, and these definitions, whose indices begin at number 0.
    pub fn first(alloc: Global, shape: Shape, mut catalog: Catalog) -> Result<Start, AllocError>
        requires { IsShape shape }
        ensures can { IfOk result (CanOpen shape) }
        ensures is { IfOk result (IsFirstStart catalog) }
    {
        let heads = no_heads(alloc, 1 << shape.bucket_bits)?;
        catalog.clamp(0);
        Ok(Start {
            base: Base { number: 0, line: 0 },
            heads,
            catalog,
            version: 0,
        })
    }
}

/// So many heads of no older record.
fn no_heads(alloc: Global, count: usize) -> Result<Numbers64, AllocError>
    ensures { IfOk result (λ heads. heads ≡ replicate count 0) }
{
    let mut heads = Numbers64::new(alloc);
    for _ in 0..count {
        heads.push(0)?;
    }
    Ok(heads)
}

/// The lane LANE goes from the control pass to a new pass.
struct SplitLane<const LANE: u8>;

impl<const LANE: u8> Split<View> for SplitLane<LANE> {
    ghost use Rattle.fish_rule.specs.SeatSteps.{split_left, split_right};

    ghost left = { split_left LANE };

    ghost right = { split_right LANE };
}

/// The control pass takes in another pass.
struct JoinLane;

impl Join<View> for JoinLane {
    ghost use Rattle.fish_rule.specs.SeatSteps.{join_both, spent};

    ghost both = { join_both };

    ghost spent = { spent };
}

/// The key of a log of this shape that begins so.
fn key_of(shape: Shape, start: &Start) -> Key
    requires shape { IsShape shape }
    requires start { CanOpen shape start.now }
    ensures is { IsFirstKey shape start.now result }
    ensures fits { FitsTable result }
{
    let number = u64::from(start.base.number);
    let line = start.base.line;
    let lines = (u64::from(shape.pages) * PAGE_LINES)
        .min(LAST_NUMBER - number)
        .min(LAST_LINE - line);
    Key {
        number,
        line,
        end: line + lines,
        buckets: 1 << shape.bucket_bits,
        version: u64::from(start.version),
        heads: Snapshot::of(&start.heads),
        rows: Snapshot::of(&start.catalog),
    }
}

/// The shape of the log.
pub fn shape(log: &Log) -> Shape
    ensures { result ≡ log.now.shape }
{
    log.shape
}

/// How many chains the log has.
pub fn buckets(log: &Log) -> u64
    ensures value { result ≡ log.now.key.buckets }
    ensures some { 0 < result }
    ensures few { result ≤ 65536 }
{
    log.key.buckets
}

/// Where the log's numbers and lines begin.
pub fn base(log: &Log) -> Base
    ensures { (result.number ≡ log.now.key.number) × (result.line ≡ log.now.key.line) }
{
    Base {
        number: log.key.number as u32,
        line: log.key.line,
    }
}

/// The version with which the log begins.
pub fn first_version(log: &Log) -> u64
    ensures { result ≡ log.now.key.version }
{
    log.key.version
}

/// A log of this shape that begins so, and its control pass.
pub fn open_log(alloc: Global, shape: Shape, start: &Start) -> Result<(Log, Pass), AllocError>
    requires shape { IsShape shape }
    requires start { CanOpen shape start.now }
    ensures pass { IfOk result (λ r. IsPassOf r.0 r.1) }
    ensures view { IfOk result (λ r. view r.1 ≡ first_view r.0.key) }
    ensures key { IfOk result (λ r. IsFirstKey shape start.now r.0.key) }
    ensures shape { IfOk result (λ r. r.0.shape ≡ shape) }
{
    let key = key_of(shape, start);
    let words = empty_words(alloc, &key, start)?;
    let (table, seat) = Table::of_words(alloc, &words, &key)?;
    let log = Log { table, key, shape };
    let pass = Pass {
        seat,
        lane: 1,
        shut: None,
        flight: None,
        walk: NO_WALK,
    };
    Ok((log, pass))
}

/// The lane LANE goes to a new pass.
fn split_lane<const LANE: u8>(log: &Log, control: &mut Pass) -> Pass
    requires pass { IsPassOf log.now control.old }
    requires can { CanSplitPass (view control.old) LANE }
    ensures control { IsPassOf log.now control.new }
    ensures pass { IsPassOf log.now result }
    ensures left { view control.new ≡ split_left LANE (view control.old) }
    ensures right { view result ≡ split_right LANE (view control.old) }
{
    let seat = log
        .table
        .shared
        .split_seat::<SplitLane<LANE>>(&mut control.seat);
    Pass {
        seat,
        lane: LANE,
        shut: control.shut,
        flight: None,
        walk: NO_WALK,
    }
}

/// Gives out a lane to a new pass, which knows all that the control pass knows.
pub fn split_pass(log: &Log, control: &mut Pass, lane: u8) -> Pass
    requires pass { IsPassOf log.now control.old }
    requires can { CanSplitPass (view control.old) lane }
    ensures control { IsPassOf log.now control.new }
    ensures pass { IsPassOf log.now result }
    ensures left { view control.new ≡ split_left lane (view control.old) }
    ensures right { view result ≡ split_right lane (view control.old) }
{
    match lane {
        2 => split_lane::<2>(log, control),
        3 => split_lane::<3>(log, control),
        4 => split_lane::<4>(log, control),
        5 => split_lane::<5>(log, control),
        6 => split_lane::<6>(log, control),
        7 => split_lane::<7>(log, control),
        8 => split_lane::<8>(log, control),
        9 => split_lane::<9>(log, control),
        10 => split_lane::<10>(log, control),
        11 => split_lane::<11>(log, control),
        12 => split_lane::<12>(log, control),
        13 => split_lane::<13>(log, control),
        14 => split_lane::<14>(log, control),
        15 => split_lane::<15>(log, control),
        _ => split_lane::<16>(log, control),
    }
}

/// Takes back the lane of a pass, with all that it knows. One more load then tells the tail.
pub fn join_pass(log: &Log, control: &mut Pass, other: Pass)
    requires control { IsPassOf log.now control.old }
    requires other { IsPassOf log.now other }
    requires can { CanJoinPass (view control.old) (view other) }
    ensures pass { IsPassOf log.now control.new }
    ensures view { (found : ℕ)
        × (view control.new ≡ after_load_tail (join_both (view control.old) (view other)) found) }
    ensures learns { Learns (view control.old) (view control.new) }
    ensures learned { Learns (view other) (view control.new) }
{
    let Pass {
        seat,
        lane: _,
        shut,
        flight: _,
        walk: _,
    } = other;
    log.table
        .shared
        .join_seat::<JoinLane>(&mut control.seat, seat);
    log.table.shared.load::<LoadTail>(&mut control.seat, 0);
    if control.shut.is_none() {
        control.shut = shut;
    }
}
