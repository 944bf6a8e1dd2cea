//! Numbers below the base, one by one: each record is read from the file, and parsed once.

ghost use Rattle.std.specs.Prelude.{◌≡◌, ◌↔◌, ◌+◌, ◌<◌, ◌≤◌, IfErr, IfOk, IsTrue, OnOk};
ghost use Rattle.fish_cold.specs.within.Answers.{IsReadingOf};
ghost use Rattle.fish_cold.specs.within.Caching.{IsColdUndamaged};
ghost use Rattle.fish_cold.specs.Carries.{CarriesTable};
ghost use Rattle.fish_lang.specs.Definition.{definition_of};
ghost use Rattle.fish_psf.specs.Records.{GivesValue, is_record};
ghost use Rattle.fish_rule.specs.declared.view.Key.{Key};
ghost use Rattle.fish_scan.specs.Colder.{StaysCold};
ghost use Rattle.fish_scan.specs.within.Colder.{IsDamageIn, IsFaultOf};
ghost use Rattle.fish_scan.specs.within.OlderReading.{HasReadOlder};
ghost use Rattle.fish_scan.specs.Reading.{parses_of};
ghost use Rattle.fish_scan.specs.within.Reading.{IsMatching, IsParsable};

use crate::matching::{Query, value_in};
use fish_catalog::Entry;
use fish_cold::{Cold, ColdRefusal};
use fish_disk::Disk;
use fish_plan::Stretch;
use fish_psf::{PsfRefusal, Steps};
use fish_read::RecordReader;
use fish_value::{Form, Row, Rows, Text};
use std::alloc::Global;
use std::sync::ledger::Ledger;

/// Puts the records of a stretch below the base that have the value after the rows, newest first. Each is read once,
/// by one load for each of its words.
pub(crate) fn read_older<D: Disk, P: Ledger, L: Ledger>(
    alloc: Global,
    reader: &mut RecordReader,
    query: &Query,
    stretch: &Stretch,
    cold: &mut Cold,
    disk: &mut D,
    rows: &mut Rows,
    parses: &mut Steps<P>,
    loads: &mut Steps<L>,
) -> Result<(), ColdRefusal>
    requires some { stretch.now.from ≤ stretch.now.to }
    requires older { stretch.now.to ≤ cold.old.base.number }
    ensures cold { StaysCold D.Disk cold.old cold.new disk.old disk.new }
    ensures read { OnOk result ((k : Key) (h : CarriesTable (D.content disk.new) k cold.old) → HasReadOlder h.prior
        (definition_of query.now.def) query.now.value stretch.now.from stretch.now.to rows.old rows.new parses.old
        parses.new loads.old loads.new) }

    ensures fault { IsFaultOf (D.faults disk.old) (D.faults disk.new) result }
    ensures damage { IfErr result (IsDamageIn stretch.now.from stretch.now.to) }
    ensures whole { (k : Key) (h : CarriesTable (D.content disk.new) k cold.old) → IfErr result IsColdUndamaged }
{
    let mut number = stretch.to;
    while number > stretch.from {
        number -= 1;
        read_older_at(
            alloc, reader, query, number, cold, disk, rows, parses, loads,
        )?;
    }
    Ok(())
}

/// Puts the record at a number below the base after the rows, if one is there that has the value.
fn read_older_at<D: Disk, P: Ledger, L: Ledger>(
    alloc: Global,
    reader: &mut RecordReader,
    query: &Query,
    number: u32,
    cold: &mut Cold,
    disk: &mut D,
    rows: &mut Rows,
    parses: &mut Steps<P>,
    loads: &mut Steps<L>,
) -> Result<(), ColdRefusal>
    requires older { number < cold.old.base.number }
    ensures cold { StaysCold D.Disk cold.old cold.new disk.old disk.new }
    ensures read { OnOk result ((k : Key) (h : CarriesTable (D.content disk.new) k cold.old) → HasReadOlder h.prior
        (definition_of query.now.def) query.now.value number (number + 1) rows.old rows.new parses.old parses.new
        loads.old loads.new) }

    ensures fault { IsFaultOf (D.faults disk.old) (D.faults disk.new) result }
    ensures damage { IfErr result (IsDamageIn number (number + 1)) }
    ensures whole { (k : Key) (h : CarriesTable (D.content disk.new) k cold.old) → IfErr result IsColdUndamaged }
{
    let entry = cold.cold_record(disk, number, loads)?;
    if let Some(payload) = older_matching(alloc, reader, query, number, entry, parses)? {
        rows.push(Row { number, payload })?;
    }
    Ok(())
}

/// The payload of an entry that is a record with the value, and none of any other. What the file has there is tested:
/// it may be no record.
fn older_matching<P: Ledger>(
    alloc: Global,
    reader: &mut RecordReader,
    query: &Query,
    number: u32,
    entry: Entry,
    parses: &mut Steps<P>,
) -> Result<Option<Text>, ColdRefusal>
    ensures matching { IfOk result (IsMatching (definition_of query.now.def) query.now.value entry) }
    ensures parses { parses.new ≡ parses.old + parses_of entry }

    ensures damage { IfErr result (IsReadingOf number) }
    ensures whole { IsParsable entry → IfErr result IsColdUndamaged }
{
    match entry {
        Entry::Void => Ok(None),
        Entry::Stored { form, payload, .. } => {
            if older_value(
                alloc,
                reader,
                query,
                number,
                form,
                payload.as_bytes(),
                parses,
            )? {
                Ok(Some(payload))
            } else {
                Ok(None)
            }
        }
    }
}

/// Whether a payload has the value: damaged where it is no record.
fn older_value<P: Ledger>(
    alloc: Global,
    reader: &mut RecordReader,
    query: &Query,
    number: u32,
    form: Form,
    b: &[u8],
    parses: &mut Steps<P>,
) -> Result<bool, ColdRefusal>
    ensures value { IfOk result (λ has. IsTrue has
        ↔ GivesValue (definition_of query.now.def) form b.now query.now.value) }
    ensures parses { parses.new ≡ parses.old + 1 }

    ensures damage { IfErr result (IsReadingOf number) }
    ensures whole { IsTrue (is_record form b.now) → IfErr result IsColdUndamaged }
{
    match value_in(alloc, reader, query, form, b, parses) {
        Ok(has) => Ok(has),
        Err(PsfRefusal::OutOfMemory) => Err(ColdRefusal::OutOfMemory),
        Err(_) => Err(ColdRefusal::Damaged { number }),
    }
}
