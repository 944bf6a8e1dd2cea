//! The words of a record from its payload, before anything is claimed for it.

ghost use Rattle.std.specs.Prelude.{◌≡◌, ◌≤◌, ◌/◌, [], ◌∷◌, All, IfOk, OnOk, length};
ghost use Rattle.fish_epoch.specs.Definitions.{IsKnownOf};
ghost use Rattle.fish_epoch.specs.Rows.{OnlyLearns};
ghost use Rattle.fish_ingest.specs.Preparation.{AreDefs, IsOrigin, IsPreparedFor, IsPayloadRead};
ghost use Rattle.fish_ingest.specs.within.Preparation.{AreEntriesFor, AreMore, HasPrepared};
ghost use Rattle.fish_ingest.specs.within.Preparation.{IsShortValue};
ghost use Rattle.fish_layout.specs.Body.{IsProperValue};
ghost use Rattle.fish_psf.specs.Given.{given_values};
ghost use Rattle.fish_read.specs.Rows.{fields_in_row};
ghost use Rattle.fish_rule.specs.Passes.{IsPassOf, view};

use fish_epoch::Known;
use fish_layout::{Body, BodyHead, KeyPart, KeyParts, body_from};
use fish_psf::{ActiveDef, Given, Parsed, evaluate};
use fish_read::RecordRow;
use fish_rule::{Log, Pass, lane};
use fish_value::{Form, Value, Values};
use std::alloc::{AllocError, Global};

/// What a record says of where it comes from.
#[derive(Clone, Copy, Debug, PartialEq, Eq)]
pub struct Origin {
    /// The lane that stores it, from 1 on.
    pub lane: u8,
    /// The version of the registry under which it is stored.
    pub version: u16,
    /// The form of its payload.
    pub form: Form,
}

/// The words of a record and its keys, whose hashes say into which chains its entries go.
#[derive(Debug, Drop)]
pub struct Prepared {
    pub(crate) body: Body,
    pub(crate) keys: KeyParts,
}

impl Prepared {
    ghost use Rattle.std.specs.Prelude.{◌≡◌, ◌/◌, length};

    /// Its words, with number 0.
    pub fn words(&self) -> &[u64]
        ensures { result.now ≡ self.now.body }
    {
        self.body.as_slice()
    }

    /// How many lines of 32 bytes it takes.
    pub fn lines(&self) -> u64
        ensures { result ≡ length self.now.body / 4 }
    {
        self.body.len() as u64 / 4
    }
}

/// A payload, and what was read of it.
#[derive(Clone, Copy)]
pub(crate) struct ParsedPayload<'p, 'r> {
    pub form: Form,
    pub payload: &'p [u8],
    pub found: &'p RecordRow<'r>,
}

/// Makes the record that a payload is under the definitions of the version at which the pass is
/// entered.
pub(crate) fn prepare_at(
    alloc: Global,
    log: &Log,
    pass: &mut Pass,
    defs: &mut Known,
    version: u16,
    parsed: ParsedPayload<'_, '_>,
) -> Result<Prepared, AllocError>
    requires pass { IsPassOf log.now pass.old }
    requires version { ((view pass.old).learned.version ≡ version) × (version ≤ 512) }
    requires defs { IsKnownOf (view pass.old) defs.old }
    requires read { IsPayloadRead parsed.form parsed.payload.now (fields_in_row parsed.found.now) }
    ensures pass { IsPassOf log.now pass.new }
    ensures defs { IsKnownOf (view pass.new) defs.new }
    ensures reads { OnlyLearns (view pass.old) (view pass.new) }
    ensures prepared { IfOk result (HasPrepared (view pass.new) version parsed.entry.form parsed.entry.payload.now) }
{
    defs.refresh(log, pass, version)?;
    let origin = Origin {
        lane: lane(pass),
        version,
        form: parsed.form,
    };
    prepare(alloc, defs.active(), origin, parsed.found, parsed.payload)
}

/// Makes the record that a payload is, with a key entry for each definition that gives a value for it,
/// and number 0. The caller has parsed the payload, which is copied once, into the words.
pub fn prepare<R: Parsed>(
    alloc: Global,
    defs: &[ActiveDef],
    origin: Origin,
    found: &R,
    payload: &[u8],
) -> Result<Prepared, AllocError>
    requires defs { AreDefs defs.now }
    requires origin { IsOrigin origin }
    requires read { IsPayloadRead origin.form payload.now (R.fields found.now) }
    ensures { IfOk result (IsPreparedFor defs.now origin payload.now) }
{
    let keys = entries_of(alloc, defs, found)?;
    let head = BodyHead {
        form: origin.form,
        lane: origin.lane,
        version: origin.version,
        number: 0,
    };
    let body = body_from(alloc, head, keys.as_slice(), payload)?;
    Ok(Prepared { body, keys })
}

/// The key entries of a record, with no previous nodes.
#[tactic(auto, unfolding(fish_psf::specs::Keys::keys_for))]
fn entries_of<R: Parsed>(
    alloc: Global,
    defs: &[ActiveDef],
    found: &R,
) -> Result<KeyParts, AllocError>
    ensures { IfOk result (AreEntriesFor (R.fields found.now) defs.now) }
{
    let mut keys = KeyParts::new(alloc);
    for active in defs {
        push_given(active.id, evaluate(alloc, &active.def, found)?, &mut keys)?;
    }
    Ok(keys)
}

/// Puts a key entry for each value that a definition gives after the others.
#[inline(always)] // or what is given is moved once more for each definition
#[tactic(auto, using(crate::proofs::PreparationKeys::none_more))]
fn push_given(id: u16, given: Given, keys: &mut KeyParts) -> Result<(), AllocError>
    requires { All IsShortValue (given_values given) }
    ensures { OnOk result (AreMore id (given_values given) keys.old keys.new) }
{
    match given {
        Given::Single(Some(value)) => push_entry(id, value, keys),
        Given::Single(None) => Ok(()),
        Given::Several(values) => push_values(id, values, keys),
    }
}

/// Puts a key entry for each of several values after the others.
fn push_values(id: u16, values: Values, keys: &mut KeyParts) -> Result<(), AllocError>
    requires { All IsShortValue values }
    ensures { OnOk result (AreMore id values keys.old keys.new) }
{
    for value in values.into_vec() {
        push_entry(id, value, keys)?;
    }
    Ok(())
}

/// Puts a key entry after the others.
#[inline(always)]
fn push_entry(id: u16, value: Value, keys: &mut KeyParts) -> Result<(), AllocError>
    requires { IsShortValue value }
    ensures { OnOk result (AreMore id (value ∷ []) keys.old keys.new) }
{
    read_value(&value);
    keys.push(KeyPart { prev: 0, id, value })
}

/// Reads a value, which shows that it is within its type: a number has 64 bits, a text is UTF-8.
fn read_value(value: &Value)
    requires { IsShortValue value.now }
    ensures { IsProperValue value.now }
{
    match value {
        Value::Bool(_) => {}
        Value::Int(number) => {
            let _number = *number;
        }
        Value::Text(text) => {
            let _bytes = text.as_bytes();
        }
    }
}
