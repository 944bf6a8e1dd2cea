//! Numbers below the base that an index holds: the chain of the value's bucket is followed in the file, and no record
//! is parsed.

ghost use Rattle.std.specs.Prelude.{◌≡◌, ◌≢◌, ◌↔◌, ◌+◌, ◌*◌, ◌<◌, ◌≤◌, ℕ, List, IfErr, IfOk, IsTrue, OnOk};
ghost use Rattle.fish_cold.specs.Answers.{IsDamageOf};
ghost use Rattle.fish_cold.specs.within.Caching.{IsColdUndamaged};
ghost use Rattle.fish_cold.specs.Carries.{CarriesTable};
ghost use Rattle.fish_cold.specs.Chains.{IsKeyAt};
ghost use Rattle.fish_lang.specs.Definition.{definition_of};
ghost use Rattle.fish_layout.specs.Hash.{bucket_in, key_hash_of};
ghost use Rattle.fish_layout.specs.declared.parts.BodyParts.{BodyParts};
ghost use Rattle.fish_layout.specs.declared.parts.KeyPart.{KeyPart};
ghost use Rattle.fish_rule.specs.ChainSteps.{CanLoadHead};
ghost use Rattle.fish_rule.specs.Logs.{Extends};
ghost use Rattle.fish_rule.specs.Parts.{IsOlderPlace, first_head};
ghost use Rattle.fish_rule.specs.Passes.{IsPassOf, view};
ghost use Rattle.fish_rule.specs.declared.view.Key.{Key as TableKey};
ghost use Rattle.fish_scan.specs.Colder.{IsBelow, StaysCold};
ghost use Rattle.fish_scan.specs.within.Colder.{IsDamageIn, IsFaultOf};
ghost use Rattle.fish_scan.specs.within.Indices.{IsIndex};
ghost use Rattle.fish_scan.specs.within.OlderReading.{HasDescended, HasWalkedOlder, IsCoveredBy, IsHeadOf, IsPayloadAt};
ghost use Rattle.fish_scan.specs.within.OlderReading.{IsVisit};
ghost use Rattle.fish_scan.specs.within.OlderWork.{IsWalkWork};

use crate::matching::Query;
use fish_catalog::Entry;
use fish_chain::{walk_next, walk_rest, walk_start};
use fish_cold::{Cold, ColdNode, ColdRefusal};
use fish_disk::Disk;
use fish_layout::{bucket_of, key_hash};
use fish_plan::Stretch;
use fish_psf::Steps;
use fish_rule::{Log, Pass, base, buckets};
use fish_value::{Row, Rows, Text};
use std::sync::ledger::Ledger;

/// Puts the records of a stretch below the base that have the value after the rows, newest first, by the index of the
/// row with an id. The chain is followed through the table, and from there on in the file: at most 38 loads for each
/// key entry there of a number at or above the stretch's first, those of the words of the records that it finds, and
/// one more.
pub(crate) fn read_chain<D: Disk, L: Ledger>(
    log: &Log,
    pass: &mut Pass,
    query: &Query,
    id: u16,
    stretch: &Stretch,
    cold: &mut Cold,
    disk: &mut D,
    rows: &mut Rows,
    loads: &mut Steps<L>,
) -> Result<(), ColdRefusal>
    requires pass { IsPassOf log.now pass.old }
    requires base { IsBelow log.now.key cold.old }
    requires index { IsIndex (view pass.old) (definition_of query.now.def) id stretch.now.from stretch.now.to }
    requires some { stretch.now.from ≤ stretch.now.to }
    requires older { stretch.now.to ≤ log.now.key.number }
    ensures pass { IsPassOf log.now pass.new }
    ensures extends { Extends (view pass.old) (view pass.new) }
    ensures cold { StaysCold D.Disk cold.old cold.new disk.old disk.new }
    ensures walked { OnOk result ((h : CarriesTable (D.content disk.new) log.now.key cold.old) → HasWalkedOlder h.prior
        (view pass.old) (view pass.new) (definition_of query.now.def) query.now.value id stretch.now.from stretch.now.to
        rows.old rows.new loads.old loads.new) }

    ensures fault { IsFaultOf (D.faults disk.old) (D.faults disk.new) result }
    ensures damage { IfErr result (IsDamageIn stretch.now.from log.now.key.number) }
    ensures whole { (h : CarriesTable (D.content disk.new) log.now.key cold.old) → IfErr result IsColdUndamaged }
{
    let bucket = bucket_of(key_hash(id, &query.value), buckets(log)) as u32;
    let place = rest_of(log, pass, bucket, loads);
    walk_down(
        query,
        id,
        stretch,
        base(log).number,
        place,
        cold,
        disk,
        rows,
        loads,
    )
}

/// Where the chain of a bucket goes on below the base, or 0: the table's part of it is passed.
fn rest_of<L: Ledger>(log: &Log, pass: &mut Pass, bucket: u32, loads: &mut Steps<L>) -> u64
    requires pass { IsPassOf log.now pass.old }
    requires head { CanLoadHead (view pass.old) bucket }
    ensures pass { IsPassOf log.now pass.new }
    ensures extends { Extends (view pass.old) (view pass.new) }
    ensures rest { result ≡ first_head log.now.key bucket }
    ensures older { IsOlderPlace log.now.key.line result }
    ensures loads { IsWalkWork (view pass.old) (view pass.new) bucket loads.old loads.new }
{
    // no number lies in this range, so the walk gives no entry and ends below the table
    walk_start(log, pass, bucket, 0, 0, loads);
    match walk_next(log, pass, loads) {
        Some(_) => unreachable!(),
        None => walk_rest(log, pass),
    }
}

/// Puts the records of a stretch that have the value after the rows, by the chain that begins at a place in the file,
/// all of whose records are below the base.
fn walk_down<D: Disk, L: Ledger>(
    query: &Query,
    id: u16,
    stretch: &Stretch,
    base: u32,
    head: u64,
    cold: &mut Cold,
    disk: &mut D,
    rows: &mut Rows,
    loads: &mut Steps<L>,
) -> Result<(), ColdRefusal>
    requires base { base ≡ cold.old.base.number }
    requires lower { head ≢ 0 → head < 4 * cold.old.base.line }
    requires some { stretch.now.from ≤ stretch.now.to }
    requires older { stretch.now.to ≤ base }
    ensures cold { StaysCold D.Disk cold.old cold.new disk.old disk.new }
    ensures walked { OnOk result ((k : TableKey) (h : CarriesTable (D.content disk.new) k cold.old) (b : ℕ) → IsHeadOf h
        b head → b ≡ bucket_in (key_hash_of id query.now.value) k.buckets
        → IsCoveredBy h (definition_of query.now.def) id stretch.now.from stretch.now.to
        → HasDescended h.prior b (definition_of query.now.def) query.now.value stretch.now.from stretch.now.to rows.old
        rows.new loads.old loads.new) }

    ensures fault { IsFaultOf (D.faults disk.old) (D.faults disk.new) result }
    ensures damage { IfErr result (IsDamageIn stretch.now.from base) }
    ensures whole { (k : TableKey) (h : CarriesTable (D.content disk.new) k cold.old) (b : ℕ) → IsHeadOf h b head
        → IfErr result IsColdUndamaged }
{
    let mut place = head;
    let mut below = base;
    let mut to = stretch.to;
    'down: loop {
        let node = match cold.cold_walk(disk, place, below, stretch.from, loads) {
            Ok(Some(node)) => node,
            Ok(None) => return Ok(()),
            Err(refusal) => return Err(refusal),
        };
        place = node.prev;
        below = node.number + 1;
        let last = visit(query, id, to, &node, cold, disk, rows, loads);
        drop(node);
        to = last?;
    }
}

/// Puts the record of a key entry after the rows, if the entry is of the definition with an id, has the value, and the
/// record's number is below the one that was put last. Answers the number of the last one.
fn visit<D: Disk, L: Ledger>(
    query: &Query,
    id: u16,
    to: u32,
    node: &ColdNode,
    cold: &mut Cold,
    disk: &mut D,
    rows: &mut Rows,
    loads: &mut Steps<L>,
) -> Result<u32, ColdRefusal>
    requires older { node.now.number < cold.old.base.number }
    requires lower { node.now.place < 4 * cold.old.base.line }
    ensures cold { StaysCold D.Disk cold.old cold.new disk.old disk.new }
    ensures visit { IfOk result (IsVisit node.now id query.now.value to rows.old rows.new loads.old loads.new
        (λ payload before now. (k : TableKey) (h : CarriesTable (D.content disk.new) k cold.old) (b n : ℕ)
        (p : BodyParts) (key : KeyPart) → IsKeyAt h.prior b node.now.place n p node.now.key key
        → IsPayloadAt p payload before now)) }

    ensures fault { IsFaultOf (D.faults disk.old) (D.faults disk.new) result }
    ensures damage { IfErr result (IsDamageOf node.now.number) }
    ensures whole { (k : TableKey) (h : CarriesTable (D.content disk.new) k cold.old) (b n : ℕ) (p : BodyParts)
        (key : KeyPart) → IsKeyAt h.prior b node.now.place n p node.now.key key → IfErr result IsColdUndamaged }
{
    if !is_taken(query, id, to, node) {
        return Ok(to);
    }
    let number = node.number;
    let payload = payload_of(node, cold, disk, loads)?;
    rows.push(Row { number, payload })?;
    Ok(number)
}

/// Whether a key entry is of the definition with an id and has the value, and its record's number is below another.
fn is_taken(query: &Query, id: u16, to: u32, node: &ColdNode) -> bool
    ensures { IsTrue result ↔ ((node.now.number < to) × (node.now.id ≡ id) × (node.now.value ≡ query.now.value)) }
{
    node.number < to && node.id == id && node.value.is(&query.value)
}

/// The payload of a key entry's record.
fn payload_of<D: Disk, L: Ledger>(
    node: &ColdNode,
    cold: &mut Cold,
    disk: &mut D,
    loads: &mut Steps<L>,
) -> Result<Text, ColdRefusal>
    requires older { node.now.number < cold.old.base.number }
    requires lower { node.now.place < 4 * cold.old.base.line }
    ensures cold { StaysCold D.Disk cold.old cold.new disk.old disk.new }
    ensures payload { IfOk result (λ payload. (k : TableKey) (h : CarriesTable (D.content disk.new) k cold.old)
        (b n : ℕ) (p : BodyParts) (key : KeyPart) → IsKeyAt h.prior b node.now.place n p node.now.key key
        → IsPayloadAt p payload loads.old loads.new) }

    ensures fault { IsFaultOf (D.faults disk.old) (D.faults disk.new) result }
    ensures damage { IfErr result (IsDamageOf node.now.number) }
    ensures whole { (k : TableKey) (h : CarriesTable (D.content disk.new) k cold.old) (b n : ℕ) (p : BodyParts)
        (key : KeyPart) → IsKeyAt h.prior b node.now.place n p node.now.key key → IfErr result IsColdUndamaged }
{
    match cold.cold_row(disk, node, loads) {
        Ok(Entry::Stored { payload, .. }) => Ok(payload),
        Ok(Entry::Void) => Err(ColdRefusal::Damaged {
            number: node.number,
        }),
        Err(refusal) => Err(refusal),
    }
}
