//! What is written of a block: the items of its lanes, in order.

ghost use Rattle.std.specs.Prelude.{◌≡◌, ◌∷◌, [], IfSome, None, OnErr, OnOk};
ghost use Rattle.std.specs.List.{flat_map, list_any};
ghost use Rattle.fish_outside.specs.Content.{Gained, GainedPart};
ghost use Rattle.fish_report.specs.ReportText.{is_refusal, report_text};
ghost use Rattle.fish_report.specs.Writing.{HasWriteCause};
ghost use Rattle.fish_run.specs.Reports.{block_foot, block_head, first_item, lane_foot, lane_head, lane_items};
ghost use Rattle.fish_run.specs.Reports.{said_items};
ghost use Rattle.fish_run.specs.Reports.{said_refused};
ghost use Rattle.fish_run.specs.Faults.{IsFirstFault};
ghost use Rattle.fish_run.specs.within.Steps.{AreWholeLanes};

use crate::fault::{RunFault, lane_fault};
use crate::saying::Said;
use fish_lanes::{BlockEnd, Lane};
use fish_outside::Sink;
use fish_report::{Item, WriteRefusal, write_items};
use std::alloc::Global;

/// The fault of the first lane that stopped at one.
pub(crate) fn fault_of(lanes: &[Lane]) -> Option<RunFault>
    ensures none { result ≡ None → AreWholeLanes lanes.now }
    ensures first { IfSome result (IsFirstFault lanes.now) }
{
    for lane in lanes {
        let fault = lane_fault(lane.fault);
        if fault.is_some() {
            return fault;
        }
    }
    None
}

/// Whether a statement of a lane was refused.
pub(crate) fn has_refusal(said: &[Said]) -> bool
    ensures { result ≡ said_refused said.now }
{
    said.iter().any(|lane| is_refused(lane))
}

/// Whether a statement of one lane was refused.
fn is_refused(said: &Said) -> bool
    ensures { result ≡ list_any is_refusal said.now.items }
{
    said.items.as_slice().iter().any(|item| item.is_refusal())
}

/// Writes that the store was made, or how many entries it had as it was opened.
pub(crate) fn write_opened<W: Sink>(
    alloc: Global,
    out: &mut W,
    made: bool,
    count: u32,
) -> Result<(), WriteRefusal>
    ensures written { OnOk result (Gained (W.written out.old) (W.written out.new)
        (report_text (first_item made count ∷ []))) }
    ensures part { OnErr result (GainedPart (W.written out.old) (W.written out.new)
        (report_text (first_item made count ∷ []))) }
    ensures cause { HasWriteCause (W.faults out.old) (W.faults out.new) result }
{
    if made {
        write_items(alloc, out, &[Item::Created])
    } else {
        write_items(alloc, out, &[Item::Opened { count }])
    }
}

/// Writes what a block tells: a statement by itself its items, and several lanes each its own under its number.
pub(crate) fn write_block<W: Sink>(
    alloc: Global,
    out: &mut W,
    several: bool,
    from: u32,
    end: BlockEnd,
    said: &[Said],
) -> Result<(), WriteRefusal>
    ensures written { OnOk result (Gained (W.written out.old) (W.written out.new)
        (report_text (said_items several from end said.now))) }
    ensures part { OnErr result (GainedPart (W.written out.old) (W.written out.new)
        (report_text (said_items several from end said.now))) }
    ensures cause { HasWriteCause (W.faults out.old) (W.faults out.new) result }
{
    write_head(alloc, out, several, from, end)?;
    write_lanes(alloc, out, several, end, said)?;
    write_foot(alloc, out, several)
}

/// Writes the range of several lanes.
fn write_head<W: Sink>(
    alloc: Global,
    out: &mut W,
    several: bool,
    from: u32,
    end: BlockEnd,
) -> Result<(), WriteRefusal>
    ensures written { OnOk result (Gained (W.written out.old) (W.written out.new)
        (report_text (block_head several from end.to))) }
    ensures part { OnErr result (GainedPart (W.written out.old) (W.written out.new)
        (report_text (block_head several from end.to))) }
    ensures cause { HasWriteCause (W.faults out.old) (W.faults out.new) result }
{
    if several {
        write_items(alloc, out, &[Item::Lanes { from, to: end.to }])
    } else {
        Ok(())
    }
}

/// Writes where several lanes end.
fn write_foot<W: Sink>(alloc: Global, out: &mut W, several: bool) -> Result<(), WriteRefusal>
    ensures written { OnOk result (Gained (W.written out.old) (W.written out.new) (report_text (block_foot several))) }
    ensures part { OnErr result (GainedPart (W.written out.old) (W.written out.new)
        (report_text (block_foot several))) }
    ensures cause { HasWriteCause (W.faults out.old) (W.faults out.new) result }
{
    if several {
        write_items(alloc, out, &[Item::End])
    } else {
        Ok(())
    }
}

/// Writes the items of lanes, one lane after the other.
fn write_lanes<W: Sink>(
    alloc: Global,
    out: &mut W,
    several: bool,
    end: BlockEnd,
    said: &[Said],
) -> Result<(), WriteRefusal>
    ensures written { OnOk result (Gained (W.written out.old) (W.written out.new)
        (report_text (flat_map (lane_items several end) said.now))) }
    ensures part { OnErr result (GainedPart (W.written out.old) (W.written out.new)
        (report_text (flat_map (lane_items several end) said.now))) }
    ensures cause { HasWriteCause (W.faults out.old) (W.faults out.new) result }
{
    for lane in said {
        write_lane(alloc, out, several, end, lane)?;
    }
    Ok(())
}

/// Writes the items of a lane, and after those of the first the boundary that was found once the lanes had ended.
fn write_lane<W: Sink>(
    alloc: Global,
    out: &mut W,
    several: bool,
    end: BlockEnd,
    lane: &Said,
) -> Result<(), WriteRefusal>
    ensures written { OnOk result (Gained (W.written out.old) (W.written out.new)
        (report_text (lane_items several end lane.now))) }
    ensures part { OnErr result (GainedPart (W.written out.old) (W.written out.new)
        (report_text (lane_items several end lane.now))) }
    ensures cause { HasWriteCause (W.faults out.old) (W.faults out.new) result }
{
    write_number(alloc, out, several, lane.number)?;
    write_items(alloc, out, lane.items.as_slice())?;
    write_bound(alloc, out, lane.number, end)
}

/// Writes the number of a lane, where there are several.
fn write_number<W: Sink>(
    alloc: Global,
    out: &mut W,
    several: bool,
    number: u8,
) -> Result<(), WriteRefusal>
    ensures written { OnOk result (Gained (W.written out.old) (W.written out.new)
        (report_text (lane_head several number))) }
    ensures part { OnErr result (GainedPart (W.written out.old) (W.written out.new)
        (report_text (lane_head several number))) }
    ensures cause { HasWriteCause (W.faults out.old) (W.faults out.new) result }
{
    if several {
        write_items(alloc, out, &[Item::Lane { number }])
    } else {
        Ok(())
    }
}

/// Writes after the first lane where the index of a registration begins, if that was found once the lanes had ended.
fn write_bound<W: Sink>(
    alloc: Global,
    out: &mut W,
    number: u8,
    end: BlockEnd,
) -> Result<(), WriteRefusal>
    ensures written { OnOk result (Gained (W.written out.old) (W.written out.new)
        (report_text (lane_foot number end))) }
    ensures part { OnErr result (GainedPart (W.written out.old) (W.written out.new)
        (report_text (lane_foot number end))) }
    ensures cause { HasWriteCause (W.faults out.old) (W.faults out.new) result }
{
    if number != 1 {
        return Ok(());
    }
    match end.bound {
        Some(bound) => write_items(
            alloc,
            out,
            &[Item::Bound {
                id: bound.id,
                from: bound.from,
            }],
        ),
        None => Ok(()),
    }
}
