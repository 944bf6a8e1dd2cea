//! What a commit writes, in memory: its body, and room for its regions.

ghost use Rattle.std.specs.Prelude.{◌≡◌, ◌≤◌, ◌+◌, ◌*◌, ℕ, List, IfOk};
ghost use Rattle.fish_image.specs.Reading.{IsBodyOf};
ghost use Rattle.fish_rule.specs.Logs.{Extends};
ghost use Rattle.fish_rule.specs.Passes.{IsPassOf, view};
ghost use Rattle.fish_flush.specs.within.Carrying.{Drafts, MayDraft};
ghost use Rattle.fish_flush.specs.Reading.{IsLineAt};
ghost use Rattle.fish_flush.specs.within.Reading.{EndsWithin};

use crate::batch::{Batch, new_batch};
use crate::flusher::Flusher;
use crate::loading::find_region;
use crate::rows::again;
use fish_catalog::{Catalog, Commit, NEWEST_FORMAT};
use fish_image::slot_body;
use fish_layout::lines_in;
use fish_rule::{Log, Pass, read_word, shape};
use fish_value::Bytes;
use std::alloc::{AllocError, Global};

/// What a commit writes, and what is kept of it afterwards.
#[derive(Debug, Drop)]
pub(crate) struct Draft {
    /// The body of its slot.
    pub body: Bytes,
    pub turn: u8,
    pub count: u32,
    /// The line at which its regions end.
    pub line: u64,
    /// Its regions after those of the last commit.
    pub batch: Batch,
}

/// The draft of a commit of the log up to a settled number, of which no region is copied yet. All memory that the
/// commit needs is taken here.
pub(crate) fn draft_commit(
    alloc: Global,
    log: &Log,
    pass: &mut Pass,
    flusher: &Flusher,
    catalog: &Catalog,
    to: u32,
) -> Result<Draft, AllocError>
    requires pass { IsPassOf log.now pass.old }
    requires settled { to ≤ (view pass.old).learned.settled }
    requires counted { to ≤ (view pass.old).learned.count }
    requires may { MayDraft (view pass.old) log.now.shape flusher.now catalog.now to }
    ensures pass { IsPassOf log.now pass.new }
    ensures extends { Extends (view pass.old) (view pass.new) }
    ensures drafts { IfOk result (Drafts (view pass.new) log.now.key.end log.now.shape flusher.now catalog.now to) }
{
    let line = end_line(log, pass, flusher, to);
    let turn = (flusher.turn + 1) % 3;
    let commit = Commit {
        format: NEWEST_FORMAT,
        turn,
        pages: shape(log).pages,
        bucket_bits: shape(log).bucket_bits,
        count: to,
        lines: line,
        rows: again(alloc, catalog)?,
    };
    let body = slot_body(alloc, &commit);
    drop(commit);
    Ok(Draft {
        body: body?,
        turn,
        count: to,
        line,
        batch: new_batch(alloc, flusher, line)?,
    })
}

/// The line at which the regions of settled numbers below one end.
fn end_line(log: &Log, pass: &mut Pass, flusher: &Flusher, to: u32) -> u64
    requires pass { IsPassOf log.now pass.old }
    requires from { log.now.key.number ≤ flusher.now.count }
    requires ordered { flusher.now.count ≤ to }
    requires settled { to ≤ (view pass.old).learned.settled }
    requires counted { to ≤ (view pass.old).learned.count }
    requires line { IsLineAt (view pass.old) flusher.now.count flusher.now.line }
    ensures pass { IsPassOf log.now pass.new }
    ensures extends { Extends (view pass.old) (view pass.new) }
    ensures line { IsLineAt (view pass.new) to result }
    ensures within { EndsWithin log.now.key.end flusher.now.line result }
{
    if to == flusher.count {
        return flusher.line;
    }
    let line = find_region(log, pass, to - 1);
    line + lines_in(read_word(log, pass, line, 0))
}
