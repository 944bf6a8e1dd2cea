//! The entry that stands at a number.

ghost use Rattle.std.specs.Prelude.{◌≡◌, ◌+◌, ◌≤◌, IfOk};
ghost use Rattle.fish_rule.specs.Logs.{Extends, KnowsAs};
ghost use Rattle.fish_rule.specs.Passes.{IsPassOf, view};
ghost use Rattle.fish_rule.specs.LoadSteps.{CanLookAt};
ghost use Rattle.fish_rule.specs.Views.{Among};
ghost use Rattle.fish_rule.specs.declared.view.Found.{Found};
ghost use Rattle.fish_rule.specs.declared.view.Kind.TheVariants.{Stored};
ghost use Rattle.fish_walk.specs.Looks.{CountsLoads};

use fish_catalog::Entry;
use fish_layout::{Payload, read_payload};
use fish_psf::Steps;
use fish_rule::{Log, Pass, line_of_word, look_at, read_region};
use std::alloc::{AllocError, Global};
use std::sync::ledger::Ledger;

/// The record at a number that was found stored. Counts the load of the directory word, and each load
/// of a word of the record.
pub fn read_entry<L: Ledger>(
    alloc: Global,
    log: &Log,
    pass: &mut Pass,
    number: u32,
    loads: &mut Steps<L>,
) -> Result<Entry, AllocError>
    requires pass { IsPassOf log.now pass.old }
    requires look { CanLookAt (view pass.old) number }
    requires stored { (f : Found) × Among f (view pass.old).learned.found × (f.number ≡ number)
        × (f.kind ≡ Stored) }
    ensures pass { IsPassOf log.now pass.new }
    ensures extends { Extends (view pass.old) (view pass.new) }
    ensures entry { IfOk result (KnowsAs (view pass.new) number) }
    ensures loads { loads.old + 1 ≤ loads.new }
    ensures counted { IfOk result (λ _. CountsLoads (view pass.old) (view pass.new) number loads.old loads.new) }
{
    loads.tick();
    let word = look_at(log, pass, u64::from(number));
    let mut words = Vec::new(alloc);
    let loaded = read_region(log, pass, line_of_word(word), &mut words)?;
    count(loaded, loads);
    let Payload {
        lane,
        form,
        payload,
    } = read_payload(alloc, &words)?;
    Ok(Entry::Stored {
        lane,
        form,
        payload,
    })
}

/// Counts so many loads.
fn count<L: Ledger>(times: u64, loads: &mut Steps<L>)
    ensures { loads.new ≡ loads.old + times }
{
    for _ in 0..times {
        loads.tick();
    }
}
