//! A walk down the chain of a bucket: the key entries of the settled records in a range, newest first.
//!
//! No entry of a settled record is ever linked anew, so where a walk has seen none of them there will be
//! none, whatever is linked meanwhile. It reads the first and the second word of an entry and no other.

ghost use Rattle.std.specs.Prelude.{◌≡◌, ◌+◌, ◌<◌, ◌≤◌};
ghost use Rattle.fish_chain.specs.Walks.{GaveNode, HasBegunWalk, HasRange, IsBounded, IsNumbered, IsPastPlace};
ghost use Rattle.fish_chain.specs.Walks.{IsWalking};
ghost use Rattle.fish_chain.specs.within.Walks.{LeadsTo};
ghost use Rattle.fish_rule.specs.Parts.{IsOlderPlace, first_head};
ghost use Rattle.fish_rule.specs.ChainSteps.{CanLoadHead, HasNode};
ghost use Rattle.fish_rule.specs.Logs.{Extends};
ghost use Rattle.fish_rule.specs.Passes.{IsPassOf, view, walk_of};

use fish_layout::{id_in, number_in, place_in};
use fish_psf::Steps;
use fish_rule::{Log, Pass, Walk, base, keep_walk, kept_walk, load_head, load_node, load_previous};
use std::sync::ledger::Ledger;

/// A key entry of a record.
#[derive(Clone, Copy, Debug, PartialEq, Eq)]
pub struct Node {
    /// The record's number.
    pub number: u32,
    /// Where the entry is, in words from the log's start.
    pub place: u64,
    /// The definition that gave its value.
    pub id: u16,
    /// Which of the record's entries it is.
    pub key: u16,
}

/// Begins a walk over the key entries of a bucket whose records have numbers from `from` on and below
/// `to`, which is settled. One load.
pub fn walk_start<L: Ledger>(
    log: &Log,
    pass: &mut Pass,
    bucket: u32,
    from: u32,
    to: u32,
    loads: &mut Steps<L>,
)
    requires pass { IsPassOf log.now pass.old }
    requires head { CanLoadHead (view pass.old) bucket }
    requires settled { to ≤ (view pass.old).learned.settled }
    ensures pass { IsPassOf log.now pass.new }
    ensures extends { Extends (view pass.old) (view pass.new) }
    ensures begun { HasBegunWalk (view pass.new) (walk_of pass.new) bucket from to }
    ensures loads { loads.new ≡ loads.old + 1 }
    ensures counted { (view pass.new).clock.loads ≡ (view pass.old).clock.loads + 1 }
{
    let place = load_head(log, pass, u64::from(bucket));
    loads.tick();
    let walk = Walk {
        bucket: u64::from(bucket),
        from: u64::from(from),
        to: u64::from(to),
        given: place + 1,
        place,
    };
    keep_walk(pass, walk);
}

/// The next entry down, or none exactly where no entry of the walk's range is left. At most two loads
/// for each entry that it passes, none of which is below the range, and where none is left one more.
pub fn walk_next<L: Ledger>(log: &Log, pass: &mut Pass, loads: &mut Steps<L>) -> Option<Node>
    requires pass { IsPassOf log.now pass.old }
    requires walking { IsWalking (view pass.old) (walk_of pass.old) }
    ensures pass { IsPassOf log.now pass.new }
    ensures extends { Extends (view pass.old) (view pass.new) }
    ensures walking { IsWalking (view pass.new) (walk_of pass.new) }
    ensures range { let walk = walk_of pass.old in HasRange (walk_of pass.new) walk.bucket walk.from walk.to }
    ensures gave { GaveNode (view pass.new) (walk_of pass.old) (walk_of pass.new) result }
    ensures counted { loads.new + (view pass.old).clock.loads ≡ loads.old + (view pass.new).clock.loads }
    ensures few { IsBounded (view pass.old) (view pass.new) (walk_of pass.old) (walk_of pass.new).place result }
{
    let past = base(log).line * 4;
    let mut walk = kept_walk(pass);
    while walk.place > past {
        let place = walk.place;
        let entry = load_node(log, pass, place);
        loads.tick();
        let number = number_in(entry);
        walk.place = place_below(log, pass, &walk, number, loads);
        if walk.from <= u64::from(number) && u64::from(number) < walk.to {
            walk.given = place;
            keep_walk(pass, walk);
            return Some(Node {
                number,
                place,
                id: id_in(entry),
                key: place_in(entry),
            });
        }
    }
    keep_walk(pass, walk);
    None
}

/// Where the chain of the walk's bucket goes on below the base, or 0: the head that the bucket had at
/// the start. For a walk from the base on, once it gave None. No load, and no memory.
pub fn walk_rest(log: &Log, pass: &mut Pass) -> u64
    requires pass { IsPassOf log.now pass.old }
    requires walking { IsWalking (view pass.old) (walk_of pass.old) }
    requires past { IsPastPlace (view pass.old) (walk_of pass.old).place }
    requires from { (walk_of pass.old).from ≤ log.now.key.number }
    ensures kept { pass.new ≡ pass.old }
    ensures rest { result ≡ first_head log.now.key (walk_of pass.old).bucket }
    ensures older { IsOlderPlace log.now.key.line result }
{
    kept_walk(pass).place
}

/// Where a walk goes on after an entry of a record: at the next older one, or nowhere where all older
/// records lie below the range.
fn place_below<L: Ledger>(
    log: &Log,
    pass: &mut Pass,
    walk: &Walk,
    number: u32,
    loads: &mut Steps<L>,
) -> u64
    requires pass { IsPassOf log.now pass.old }
    requires some { 0 < walk.now.place }
    requires node { HasNode (view pass.old) walk.now.bucket walk.now.place }
    requires settled { walk.now.to ≤ (view pass.old).learned.settled }
    requires label { IsNumbered (view pass.old) walk.now.place number }
    ensures pass { IsPassOf log.now pass.new }
    ensures extends { Extends (view pass.old) (view pass.new) }
    ensures below { LeadsTo (view pass.new) walk.now result }
    ensures counted { loads.new + (view pass.old).clock.loads ≡ loads.old + (view pass.new).clock.loads }
    ensures few { (view pass.new).clock.loads ≤ (view pass.old).clock.loads + 1 }
    ensures stops { number < walk.now.from → (result ≡ 0)
        × ((view pass.new).clock.loads ≡ (view pass.old).clock.loads) }
{
    if u64::from(number) < walk.from {
        return 0;
    }
    loads.tick();
    load_previous(log, pass, walk.place)
}
