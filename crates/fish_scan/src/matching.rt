//! Whether a record that was read has the value that is asked for.

ghost use Rattle.std.specs.Prelude.{◌≡◌, ◌+◌, IfErr, IfOk, IsTrue, ◌↔◌};
ghost use Rattle.fish_lang.specs.Definition.{definition_of};
ghost use Rattle.fish_psf.specs.Records.{GivesValue, is_record};
ghost use Rattle.fish_psf.specs.declared.reading.PsfRefusal.TheVariants.{OutOfMemory};
ghost use Rattle.fish_scan.specs.Reading.{parses_of};
ghost use Rattle.fish_scan.specs.within.Reading.{IsMatching, IsParsable};

use crate::reach::Reach;
use fish_catalog::Entry;
use fish_lang::Def;
use fish_psf::{PsfRefusal, Steps, gives};
use fish_read::RecordReader;
use fish_value::{Form, Text, Value};
use std::alloc::{AllocError, Global};
use std::sync::ledger::Ledger;

/// What a scan looks for, and where.
#[derive(Drop)]
pub(crate) struct Query {
    /// The definition.
    pub def: Def,
    /// The value that it is to give.
    pub value: Value,
    pub reach: Reach,
}

/// The payload of an entry that is a record with the value, and none of any other. A record is read once.
pub(crate) fn matching<P: Ledger>(
    alloc: Global,
    reader: &mut RecordReader,
    query: &Query,
    entry: Entry,
    parses: &mut Steps<P>,
) -> Result<Option<Text>, AllocError>
    requires { IsParsable entry }
    ensures matching { IfOk result (IsMatching (definition_of query.now.def) query.now.value entry) }
    ensures parses { parses.new ≡ parses.old + parses_of entry }
{
    match entry {
        Entry::Void => Ok(None),
        Entry::Stored { form, payload, .. } => {
            if has_value(alloc, reader, query, form, payload.as_bytes(), parses)? {
                Ok(Some(payload))
            } else {
                Ok(None)
            }
        }
    }
}

/// Whether a payload that is a record has the value.
fn has_value<P: Ledger>(
    alloc: Global,
    reader: &mut RecordReader,
    query: &Query,
    form: Form,
    b: &[u8],
    parses: &mut Steps<P>,
) -> Result<bool, AllocError>
    requires { IsTrue (is_record form b.now) }
    ensures value { IfOk result (λ has. IsTrue has
        ↔ GivesValue (definition_of query.now.def) form b.now query.now.value) }
    ensures parses { parses.new ≡ parses.old + 1 }
{
    match value_in(alloc, reader, query, form, b, parses) {
        Ok(has) => Ok(has),
        Err(PsfRefusal::OutOfMemory) => Err(AllocError),
        Err(_) => unreachable!(),
    }
}

/// Whether a payload has the value, which is tested to be a record.
pub(crate) fn value_in<P: Ledger>(
    alloc: Global,
    reader: &mut RecordReader,
    query: &Query,
    form: Form,
    b: &[u8],
    parses: &mut Steps<P>,
) -> Result<bool, PsfRefusal>
    ensures value { IfOk result (λ has. IsTrue has
        ↔ GivesValue (definition_of query.now.def) form b.now query.now.value) }
    ensures memory { IsTrue (is_record form b.now) → IfErr result (λ refusal. refusal ≡ OutOfMemory) }
    ensures parses { parses.new ≡ parses.old + 1 }
{
    match reader.read(alloc, form, b, parses) {
        Ok(row) => {
            let has = gives(alloc, &query.def, &row, &query.value);
            drop(row);
            match has {
                Ok(has) => Ok(has),
                Err(_) => Err(PsfRefusal::OutOfMemory),
            }
        }
        Err(refusal) => Err(refusal),
    }
}
