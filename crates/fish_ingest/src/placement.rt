//! A place in the log for a record that is prepared, its words there, and its entries in their chains.

ghost use Rattle.std.specs.Prelude.{◌≡◌, ◌<◌, ◌≤◌, IfErr, IfOk, Some};
ghost use Rattle.fish_ingest.specs.Placement.{CanWrite, HoldsParts, HasWrittenRegion};
ghost use Rattle.fish_ingest.specs.within.Placement.{CanPlace, HasPlace, IsInPlace, IsShutBy};
ghost use Rattle.fish_ingest.specs.Placement.{claimed_parts};
ghost use Rattle.fish_rule.specs.Passes.{IsPassOf, view};
ghost use Rattle.fish_rule.specs.SpaceSteps.{CanClaimLines};
ghost use Rattle.fish_rule.specs.declared.view.Flight.{Flight};

use crate::preparation::Prepared;
use fish_chain::link;
use fish_claim::{Claimed, claim, fill};
use fish_layout::{bucket_of, key_hash, set_number};
use fish_rule::{Log, Pass, Shut, buckets, in_flight};

/// A record in flight whose words are all stored and whose key entries are all linked. It can't be
/// let go: it is spent by `finish`, which publishes it.
#[derive(Debug)]
pub struct Pending {
    pub(crate) number: u32,
}

impl Pending {
    ghost use Rattle.std.specs.Prelude.{◌≡◌};
    ghost use Rattle.fish_ingest.specs.Placement.{pending_number};

    /// The number that the record has.
    pub fn number(&self) -> u32
        ensures { result ≡ pending_number self.now }
    {
        self.number
    }
}

/// Claims the lines of a record, and stores and links it there. Takes no memory.
pub(crate) fn place(log: &Log, pass: &mut Pass, prepared: Prepared) -> Result<Pending, Shut>
    requires pass { IsPassOf log.now pass.old }
    requires can { CanPlace (view pass.old) prepared }
    ensures pass { IsPassOf log.now pass.new }
    ensures placed { (can : CanPlace (view pass.old) prepared) → IfOk result (λ pending.
        IsInPlace (view pass.old) prepared can pending (view pass.new)) }
    ensures shut { (can : CanPlace (view pass.old) prepared) → IfErr result (λ shut.
        IsShutBy (view pass.old) can.lines shut (view pass.new)) }
{
    match claim_place(log, pass, prepared.lines()) {
        Ok(number) => {
            write_record(log, pass, prepared);
            Ok(Pending { number })
        }
        Err(shut) => Err(shut),
    }
}

/// Claims so many lines, and again where the claim became a void, until they are a place for a
/// record or end past the log's end. That comes in time, since numbers end.
fn claim_place(log: &Log, pass: &mut Pass, lines: u64) -> Result<u32, Shut>
    requires pass { IsPassOf log.now pass.old }
    requires lines { (0 < lines) × (lines ≤ 18625) }
    requires can { CanClaimLines (view pass.old) }
    ensures pass { IsPassOf log.now pass.new }
    ensures placed { IfOk result (λ number. HasPlace (view pass.old) lines number (view pass.new)) }
    ensures shut { IfErr result (λ shut. IsShutBy (view pass.old) lines shut (view pass.new)) }
{
    loop {
        match claim(log, pass, lines) {
            Claimed::Placed { number, .. } => return Ok(number),
            Claimed::Void { .. } => {}
            Claimed::Overflow { shut } => return Err(shut),
        }
    }
}

/// Stores the words of the record in flight and links each of its key entries. What is left is to
/// publish it. Takes no memory.
pub fn write_record(log: &Log, pass: &mut Pass, mut prepared: Prepared)
    requires pass { IsPassOf log.now pass.old }
    requires can { (f : Flight) × CanWrite (view pass.old) f prepared }
    ensures pass { IsPassOf log.now pass.new }
    ensures written { (f : Flight) → (view pass.old).flight ≡ Some f
        → HasWrittenRegion (view pass.old) f (view pass.new) }
    ensures stored { (f : Flight) → (can : CanWrite (view pass.old) f prepared)
        → HoldsParts (claimed_parts (view pass.old) f prepared can) (view pass.new) }
{
    let Some(region) = in_flight(pass) else {
        unreachable!()
    };
    set_number(&mut prepared.body, region.number as u32);
    fill(log, pass, prepared.body.as_slice());
    for (position, key) in prepared.keys.as_slice().iter().enumerate() {
        let bucket = bucket_of(key_hash(key.id, &key.value), buckets(log));
        link(log, pass, position as u16, bucket as u32);
    }
}
