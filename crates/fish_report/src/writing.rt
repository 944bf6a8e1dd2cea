//! Writing items to a sink, by pieces.
//!
//! Text waits in memory until it fills a piece, and is written then. So of a report of any length one
//! piece is held, and at most the line of one row or of one item past it.

ghost use Rattle.std.specs.Prelude.{◌≡◌, ◌<◌, [], OnOk, OnErr, string_bytes, string_len};
ghost use Rattle.fish_outside.specs.Content.{Gained, GainedPart};
ghost use Rattle.fish_report.specs.Parts.{row_text, rows_text};
ghost use Rattle.fish_report.specs.ReportText.{item_text, report_text};
ghost use Rattle.fish_report.specs.Writing.{HasWriteCause};
ghost use Rattle.fish_report.specs.within.Writing.{PassesOn, PassesPart, piece_size};

use crate::head::{push_head, rows_of};
use crate::item::Item;
use crate::parts::push_row;
use fish_outside::{Failed, Sink, write_whole};
use fish_value::Row;
use std::alloc::{AllocError, Global};
use thiserror::Error;

/// How many bytes are held before they are written.
const PIECE: usize = 65_536;

/// Why the text of items was not written to its end.
#[derive(Clone, Copy, Debug, PartialEq, Eq, Error)]
pub enum WriteRefusal {
    /// The sink failed.
    #[error("the outside failed")]
    Failed,
    /// Memory ran out.
    #[error("out of memory")]
    OutOfMemory,
}

impl From<Failed> for WriteRefusal {
    ghost use Rattle.std.specs.Prelude.{◌≡◌};
    ghost use Rattle.fish_report.specs.declared.writing.WriteRefusal.TheVariants as refusal;

    ghost from_gives = { λ _ made. made ≡ refusal.Failed };

    /// A fault of the sink stays one.
    fn from(_: Failed) -> Self {
        WriteRefusal::Failed
    }
}

impl From<AllocError> for WriteRefusal {
    ghost use Rattle.std.specs.Prelude.{◌≡◌};
    ghost use Rattle.fish_report.specs.declared.writing.WriteRefusal.TheVariants as refusal;

    ghost from_gives = { λ _ made. made ≡ refusal.OutOfMemory };

    /// Want of memory stays what it is.
    fn from(_: AllocError) -> Self {
        WriteRefusal::OutOfMemory
    }
}

/// Writes the text of items, by pieces of 64 KiB or more, and what is left at the end. No more text
/// is held at a time than one piece and the line of one row or of one item.
pub fn write_items<W: Sink>(alloc: Global, out: &mut W, items: &[Item]) -> Result<(), WriteRefusal>
    ensures written { OnOk result (Gained (W.written out.old) (W.written out.new) (report_text items.now)) }

    ensures part { OnErr result (GainedPart (W.written out.old) (W.written out.new) (report_text items.now)) }
    ensures cause { HasWriteCause (W.faults out.old) (W.faults out.new) result }
{
    let mut text = String::new(alloc);
    for item in items {
        write_item(alloc, out, &mut text, item)?;
    }
    send(out, &mut text)
}

/// Puts the text of an item after what waits, and writes what fills a piece.
fn write_item<W: Sink>(
    alloc: Global,
    out: &mut W,
    text: &mut String,
    item: &Item,
) -> Result<(), WriteRefusal>
    ensures passed { OnOk result (PassesOn (W.written out.old) (W.written out.new)
        (string_bytes text.old) (string_bytes text.new) (item_text item.now)) }

    ensures part { OnErr result (PassesPart (W.written out.old) (W.written out.new)
        (string_bytes text.old) (item_text item.now)) }
    ensures cause { HasWriteCause (W.faults out.old) (W.faults out.new) result }
{
    push_head(alloc, text, item)?;
    send_full(out, text)?;
    write_rows(out, text, rows_of(item))
}

/// Puts the lines of rows after what waits, and writes what fills a piece.
fn write_rows<W: Sink>(out: &mut W, text: &mut String, rows: &[Row]) -> Result<(), WriteRefusal>
    requires { string_len text.old < piece_size }
    ensures passed { OnOk result (PassesOn (W.written out.old) (W.written out.new)
        (string_bytes text.old) (string_bytes text.new) (rows_text rows.now)) }

    ensures part { OnErr result (PassesPart (W.written out.old) (W.written out.new)
        (string_bytes text.old) (rows_text rows.now)) }
    ensures cause { HasWriteCause (W.faults out.old) (W.faults out.new) result }
{
    for row in rows {
        write_row(out, text, row)?;
    }
    Ok(())
}

/// Puts the line of a row after what waits, and writes both where they fill a piece.
fn write_row<W: Sink>(out: &mut W, text: &mut String, row: &Row) -> Result<(), WriteRefusal>
    requires { string_len text.old < piece_size }
    ensures passed { OnOk result (PassesOn (W.written out.old) (W.written out.new)
        (string_bytes text.old) (string_bytes text.new) (row_text row.now)) }
    ensures short { OnOk result (string_len text.new < piece_size) }

    ensures part { OnErr result (PassesPart (W.written out.old) (W.written out.new)
        (string_bytes text.old) (row_text row.now)) }
    ensures cause { HasWriteCause (W.faults out.old) (W.faults out.new) result }
{
    push_row(text, row)?;
    send_full(out, text)
}

/// Writes what waits, where it fills a piece.
fn send_full<W: Sink>(out: &mut W, text: &mut String) -> Result<(), WriteRefusal>
    ensures passed { OnOk result (PassesOn (W.written out.old) (W.written out.new)
        (string_bytes text.old) (string_bytes text.new) []) }
    ensures short { OnOk result (string_len text.new < piece_size) }

    ensures part { OnErr result (PassesPart (W.written out.old) (W.written out.new) (string_bytes text.old) []) }
    ensures cause { HasWriteCause (W.faults out.old) (W.faults out.new) result }
{
    if text.len() < PIECE {
        return Ok(());
    }
    send(out, text)
}

/// Writes all that waits.
fn send<W: Sink>(out: &mut W, text: &mut String) -> Result<(), WriteRefusal>
    ensures written { OnOk result (Gained (W.written out.old) (W.written out.new) (string_bytes text.old)) }
    ensures none { OnOk result (string_bytes text.new ≡ []) }
    ensures short { OnOk result (string_len text.new ≡ 0) }

    ensures part { OnErr result (GainedPart (W.written out.old) (W.written out.new) (string_bytes text.old)) }
    ensures cause { HasWriteCause (W.faults out.old) (W.faults out.new) result }
{
    write_whole(out, text.as_bytes())?;
    text.clear();
    Ok(())
}
