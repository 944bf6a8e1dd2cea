//! The text of an item but for its rows, and the rows themselves.

ghost use Rattle.std.specs.Prelude.{◌≡◌, ◌++◌, false, true, OnOk, string_bytes};
ghost use Rattle.fish_report.specs.ReportText.{head_text, is_refusal, rows_of_item};

use crate::item::Item;
use crate::parts::push_counts;
use crate::refusals::{
    push_deregister_refused, push_ingest_full, push_ingest_too_long, push_register_refused,
    push_scan_refused, push_select_too_long,
};
use crate::statements::{
    push_bound, push_count, push_deregistered, push_explain, push_found, push_ingested, push_lane,
    push_lanes, push_plan, push_registered, push_rolling, push_scan, push_select,
};
use fish_value::Row;
use std::alloc::{AllocError, Global};

/// The rows of an item: those of a selection or a scan, and none of any other item.
pub(crate) fn rows_of(item: &Item) -> &[Row]
    ensures { result.now ≡ rows_of_item item.now }
{
    match item {
        Item::Select { rows, .. } | Item::Scanned { rows, .. } => rows.as_slice(),
        _ => &[],
    }
}

/// Puts the text of an item but for its rows after the others.
pub(crate) fn push_head(alloc: Global, text: &mut String, item: &Item) -> Result<(), AllocError>
    ensures { OnOk result (string_bytes text.new ≡ string_bytes text.old ++ head_text item.now) }
{
    if item.is_refusal() {
        push_refusal(alloc, text, item)
    } else {
        push_done(alloc, text, item)
    }
}

/// Puts the text of what was done after the others, but for its rows.
fn push_done(alloc: Global, text: &mut String, item: &Item) -> Result<(), AllocError>
    requires { is_refusal item.now ≡ false }
    ensures { OnOk result (string_bytes text.new ≡ string_bytes text.old ++ head_text item.now) }
{
    match item {
        Item::Select {
            rows,
            count,
            refused,
        } => push_select(text, rows.len(), *count, *refused),
        Item::Created => text.push_str("created\n"),
        Item::Opened { count } => push_count(text, "opened", *count),
        Item::Statement { .. } => Ok(()),
        Item::Lanes { from, to } => push_lanes(text, *from, *to),
        Item::Lane { number } => push_lane(text, *number),
        Item::End => text.push_str("end\n"),
        Item::Registered { name, id, from, .. } => push_registered(text, name, *id, *from),
        Item::Rolling { name, id, .. } => push_rolling(text, name, *id),
        Item::Bound { id, from } => push_bound(text, *id, *from),
        Item::Deregistered { name, id, to } => push_deregistered(text, name, *id, *to),
        Item::Ingested {
            file,
            stored,
            refused,
        } => push_ingested(alloc, text, file, *stored, *refused),
        Item::Scanned {
            name,
            value,
            from,
            to,
            opens,
            rows,
            ..
        } => {
            push_scan(alloc, text, name, value, *from, *to)?;
            push_found(text, rows.len(), opens)
        }
        Item::Explained {
            name,
            value,
            from,
            to,
            plan,
            ..
        } => {
            push_explain(alloc, text, name, value, *from, *to)?;
            push_plan(text, plan)
        }
        Item::Checkpointed { count } => push_count(text, "checkpoint", *count),
        Item::Closed { count } => push_count(text, "closed", *count),
        _ => unreachable!(),
    }
}

/// Puts the text of what was refused after the others.
fn push_refusal(alloc: Global, text: &mut String, item: &Item) -> Result<(), AllocError>
    requires { is_refusal item.now ≡ true }
    ensures { OnOk result (string_bytes text.new ≡ string_bytes text.old ++ head_text item.now) }
{
    match item {
        Item::SelectTooLong { file } => push_select_too_long(alloc, text, file),
        Item::RegisterRefused { name, cause } => push_register_refused(text, name, *cause),
        Item::DeregisterRefused { name, cause } => push_deregister_refused(text, name, *cause),
        Item::IngestFull {
            file,
            line,
            lines,
            end,
            stored,
            refused,
        } => {
            push_ingest_full(alloc, text, file, *line, *lines, *end)?;
            push_counts(text, *stored, *refused)
        }
        Item::IngestTooLong {
            file,
            stored,
            refused,
        } => push_ingest_too_long(alloc, text, file, *stored, *refused),
        Item::ScanRefused {
            name,
            version,
            cause,
        } => push_scan_refused(text, "scan", name, *version, *cause),
        Item::ExplainRefused {
            name,
            version,
            cause,
        } => push_scan_refused(text, "explain", name, *version, *cause),
        _ => unreachable!(),
    }
}
