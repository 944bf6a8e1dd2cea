//! The lines of the log in the file, page by page: each page is filled in memory, and then written.

ghost use Rattle.std.specs.Prelude.{◌≡◌, ◌≤◌, ◌<◌, ◌+◌, ◌-◌, ◌*◌, ◌^◌, ℕ, List, length, IfSome, OnOk, ◌/◌};
ghost use Rattle.fish_outside.specs.Causes.{HasCause};
ghost use Rattle.fish_disk.specs.Content.{HasWritten};
ghost use Rattle.fish_disk.specs.Crash.{LeavesOnly, TornFrom};
ghost use Rattle.fish_rule.specs.Logs.{Extends};
ghost use Rattle.fish_rule.specs.Passes.{IsPassOf, view};
ghost use Rattle.fish_slots.specs.Offsets.{lines_at};
ghost use Rattle.fish_flush.specs.within.Filling.{HasCopied, IsBatchReady, pending};
ghost use Rattle.fish_flush.specs.within.Reading.{EndsWithin};
ghost use Rattle.fish_flush.specs.Writing.{pages_between};
ghost use Rattle.fish_flush.specs.within.Writing.{HasPut};

use crate::batch::{Batch, add_region};
use fish_disk::Disk;
use fish_layout::{LINE_BYTES, LINES_AT, page_of};
use fish_outside::Failed;
use fish_rule::{Log, Pass};

/// Writes the regions of settled numbers from one on up to another, after what the batch has, by one call of the disk
/// for each page that they touch. A region that crosses a page's end is written with the page in which it begins.
pub(crate) fn write_settled<D: Disk>(
    log: &Log,
    pass: &mut Pass,
    from: u32,
    to: u32,
    batch: &mut Batch,
    disk: &mut D,
) -> Result<(), Failed>
    requires pass { IsPassOf log.now pass.old }
    requires ordered { (log.now.key.number ≤ from) × (from ≤ to) }
    requires settled { (to ≤ (view pass.old).learned.settled) × (to ≤ (view pass.old).learned.count) }
    requires ready { IsBatchReady (view pass.old) from to batch.old }
    requires within { IfSome (D.content disk.old) (λ c. lines_at + 32 * batch.old.line ≤ length c) }
    ensures pass { IsPassOf log.now pass.new }
    ensures extends { Extends (view pass.old) (view pass.new) }
    ensures line { EndsWithin log.now.key.end batch.old.line batch.new.line }
    ensures done { OnOk result ((lines : List ℕ) × HasCopied (view pass.old) (view pass.new) from to batch.old batch.new
        lines × HasPut (D.content disk.old) (D.content disk.new) (lines_at + 32 * batch.old.line) lines) }
    ensures crash { (n : ℕ) × LeavesOnly D.images D.since D.moment disk.old disk.new
        (TornFrom (D.images disk.old) (lines_at + 32 * batch.old.line) n) }
    ensures calls { D.moment disk.new ≤ D.moment disk.old + pages_between batch.old.line batch.new.line }

    ensures cause { HasCause (D.faults disk.old) (D.faults disk.new) result }
{
    for number in from..to {
        add_region(log, pass, number, batch);
        let full = page_of(batch.written) < page_of(batch.line);
        if full || number + 1 == to {
            write_pending(batch, disk)?;
        }
    }
    Ok(())
}

/// Writes the lines that are pending, by one call of the disk.
fn write_pending<D: Disk>(batch: &mut Batch, disk: &mut D) -> Result<(), Failed>
    requires low { batch.old.line < 2 ^ 37 }
    requires ordered { batch.old.written ≤ batch.old.line }
    requires room { 32 * (batch.old.line - batch.old.written) ≤ length batch.old.bytes.items }
    requires within { IfSome (D.content disk.old) (λ c. lines_at + 32 * batch.old.written ≤ length c) }
    ensures kept { batch.new ≡ record batch.old { written = batch.new.written } }
    ensures written { OnOk result (batch.new.written ≡ batch.old.line) }
    ensures content { OnOk result (HasWritten (D.content disk.old) (D.content disk.new)
        (lines_at + 32 * batch.old.written) (pending batch.old)) }
    ensures crash { LeavesOnly D.images D.since D.moment disk.old disk.new
        (TornFrom (D.images disk.old) (lines_at + 32 * batch.old.written) (32 * (batch.old.line - batch.old.written))) }
    ensures one { D.moment disk.new ≤ D.moment disk.old + 1 }

    ensures cause { HasCause (D.faults disk.old) (D.faults disk.new) result }
{
    let size = (LINE_BYTES * (batch.line - batch.written)) as usize;
    disk.write_at(LINES_AT + LINE_BYTES * batch.written, &batch.bytes[..size])?;
    batch.written = batch.line;
    Ok(())
}
