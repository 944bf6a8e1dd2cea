//! Numbers that an index holds: the chain of the value's bucket is followed, and no record is parsed.

ghost use Rattle.std.specs.Prelude.{◌≡◌, ◌≢◌, ◌<◌, ◌≤◌, IfOk, OnOk};
ghost use Rattle.fish_lang.specs.Definition.{definition_of};
ghost use Rattle.fish_rule.specs.Logs.{Extends};
ghost use Rattle.fish_rule.specs.Passes.{IsPassOf, view, walk_of};
ghost use Rattle.fish_chain.specs.Values.{IsNodeGiven};
ghost use Rattle.fish_scan.specs.within.Indices.{AddsNode, IsIndex, IsValued};
ghost use Rattle.fish_scan.specs.within.Reach.{IsReached};
ghost use Rattle.fish_scan.specs.within.Reading.{Adds};
ghost use Rattle.fish_scan.specs.within.Work.{HasLoadedRows, IsComparison, IsIndexWork};

use crate::matching::Query;
use fish_catalog::Entry;
use fish_chain::{Node, node_has, walk_next, walk_start};
use fish_layout::{bucket_of, key_hash};
use fish_plan::Stretch;
use fish_psf::Steps;
use fish_rule::{Log, Pass, buckets, keep_walk, kept_walk};
use fish_value::{Row, Rows, Text};
use fish_walk::read_entry;
use std::alloc::{AllocError, Global};
use std::sync::ledger::Ledger;

/// Puts the records of a stretch that have the value after the rows, newest first, by the index of the row with
/// an id. Takes two loads for each key entry that it passes, at most 35 more for each one of the definition, and
/// those of the words of the records that it finds.
pub(crate) fn read_indexed<L: Ledger>(
    alloc: Global,
    log: &Log,
    pass: &mut Pass,
    query: &Query,
    id: u16,
    stretch: &Stretch,
    rows: &mut Rows,
    loads: &mut Steps<L>,
) -> Result<(), AllocError>
    requires pass { IsPassOf log.now pass.old }
    requires reached { IsReached (view pass.old) query.now.reach }
    requires index { IsIndex (view pass.old) (definition_of query.now.def) id stretch.now.from stretch.now.to }
    requires from { query.now.reach.from ≤ stretch.now.from }
    requires to { stretch.now.to ≤ query.now.reach.first }
    requires settled { stretch.now.to ≤ (view pass.old).learned.settled }
    requires some { stretch.now.from ≤ stretch.now.to }
    ensures pass { IsPassOf log.now pass.new }
    ensures extends { Extends (view pass.old) (view pass.new) }
    ensures rows { OnOk result (Adds (view pass.new) (definition_of query.now.def) query.now.value stretch.now.from
        stretch.now.to query.now.reach.opens rows.old rows.new) }
    ensures loads { OnOk result (IsIndexWork (view pass.old) (view pass.new) query.now.value rows.new id
        stretch.now.from stretch.now.to loads.old loads.new) }
{
    let bucket = bucket_of(key_hash(id, &query.value), buckets(log)) as u32;
    walk_start(log, pass, bucket, stretch.from, stretch.to, loads);
    while let Some(node) = walk_next(log, pass, loads) {
        read_node(alloc, log, pass, query, id, &node, rows, loads)?;
    }
    Ok(())
}

/// Puts the record of an entry after the rows, if the entry is of the definition with an id and has the value.
/// The pass's walk stays.
fn read_node<L: Ledger>(
    alloc: Global,
    log: &Log,
    pass: &mut Pass,
    query: &Query,
    id: u16,
    node: &Node,
    rows: &mut Rows,
    loads: &mut Steps<L>,
) -> Result<(), AllocError>
    requires pass { IsPassOf log.now pass.old }
    requires given { IsNodeGiven (view pass.old) node.now }
    requires settled { node.now.number < (view pass.old).learned.settled }
    requires counted { node.now.number < (view pass.old).learned.count }
    ensures pass { IsPassOf log.now pass.new }
    ensures extends { Extends (view pass.old) (view pass.new) }
    ensures walk { walk_of pass.new ≡ walk_of pass.old }
    ensures row { OnOk result (node.now.id ≡ id → AddsNode (view pass.new) query.now.value node.now rows.old rows.new) }
    ensures other { OnOk result (node.now.id ≢ id → rows.new ≡ rows.old) }
    ensures loads { OnOk result (HasLoadedRows (view pass.old) (view pass.new) rows.old rows.new loads.old loads.new
        36) }
{
    if node.id != id {
        return Ok(());
    }
    let walk = kept_walk(pass);
    let payload = payload_with(alloc, log, pass, query, node, loads);
    keep_walk(pass, walk);
    if let Some(payload) = payload? {
        rows.push(Row {
            number: node.number,
            payload,
        })?;
    }
    Ok(())
}

/// The payload of an entry's record, if the entry has the value: no word of it is read before.
fn payload_with<L: Ledger>(
    alloc: Global,
    log: &Log,
    pass: &mut Pass,
    query: &Query,
    node: &Node,
    loads: &mut Steps<L>,
) -> Result<Option<Text>, AllocError>
    requires pass { IsPassOf log.now pass.old }
    requires given { IsNodeGiven (view pass.old) node.now }
    requires settled { node.now.number < (view pass.old).learned.settled }
    requires counted { node.now.number < (view pass.old).learned.count }
    ensures pass { IsPassOf log.now pass.new }
    ensures extends { Extends (view pass.old) (view pass.new) }
    ensures payload { IfOk result (IsValued (view pass.new) query.now.value node.now) }
    ensures loads { IfOk result (λ payload. IsComparison (view pass.old) (view pass.new) node.now payload loads.old
        loads.new) }
{
    if !node_has(log, pass, node, &query.value, loads) {
        return Ok(None);
    }
    match read_entry(alloc, log, pass, node.number, loads)? {
        Entry::Stored { payload, .. } => Ok(Some(payload)),
        Entry::Void => unreachable!(),
    }
}
