//! Entering and leaving.

ghost use Rattle.std.specs.Prelude.{◌≡◌, ◌≤◌};
ghost use Rattle.fish_epoch.specs.Entering.{HasEntered};
ghost use Rattle.fish_rule.specs.RegistrySteps.{CanEnter, after_retire};
ghost use Rattle.fish_rule.specs.Passes.{IsPassOf, view};

use fish_rule::{Log, Pass, announce, load_version, retire};

/// Enters the registry's version, and answers it: announces the version that it loaded, and loads it
/// again, until both agree. A version that is announced and then found to be the registry's can't
/// have been left behind by a bump in between. At most 513 rounds, since versions end. No memory.
pub fn enter(log: &Log, pass: &mut Pass) -> u16
    requires pass { IsPassOf log.now pass.old }
    requires idle { CanEnter (view pass.old) }
    ensures pass { IsPassOf log.now pass.new }
    ensures entered { HasEntered (view pass.old) result (view pass.new) }
{
    let mut version = load_version(log, pass);
    announce(log, pass, version);
    let mut found = load_version(log, pass);
    while found != version {
        version = found;
        announce(log, pass, version);
        found = load_version(log, pass);
    }
    version as u16
}

/// Leaves: from here on nobody waits for this pass. One store. No memory.
pub fn leave(log: &Log, pass: &mut Pass)
    requires pass { IsPassOf log.now pass.old }
    requires idle { CanEnter (view pass.old) }
    ensures pass { IsPassOf log.now pass.new }
    ensures view { view pass.new ≡ after_retire (view pass.old) }
{
    retire(log, pass);
}
