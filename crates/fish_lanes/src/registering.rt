//! Registrations, which the first lane makes by the control pass. Steps on shared words are those of `fish_registry`.

ghost use Rattle.std.specs.Prelude.{◌≡◌, IfOk, None, OnErr, OnOk};
ghost use Rattle.fish_catalog.specs.Rows.{IsName};
ghost use Rattle.fish_epoch.specs.Definitions.{IsDefsOf};
ghost use Rattle.fish_lang.specs.Canonical.{definition_text};
ghost use Rattle.fish_lang.specs.Definition.{definition_of};
ghost use Rattle.fish_lanes.specs.Controlling.{CanControl};
ghost use Rattle.fish_lanes.specs.Registering.{IsDeregisterItem, IsRegisterItem};
ghost use Rattle.fish_lanes.specs.within.Controlling.{Controls, HasPolled, IsBoundaryFound, KnowsAll};
ghost use Rattle.fish_lanes.specs.within.Controlling.{LooksForBoundary, TellsBegun, TellsStep, WaitsFor};
ghost use Rattle.fish_lanes.specs.within.Controlling.{deregister_cause, register_cause};
ghost use Rattle.fish_lanes.specs.within.Running.{HasDefs};
ghost use Rattle.fish_registry.specs.Changing.{Changes};
ghost use Rattle.fish_registry.specs.Refusing.{IsSaid};
ghost use Rattle.fish_rule.specs.LoadSteps.{IsAlone};
ghost use Rattle.fish_rule.specs.Passes.{view};
ghost use Rattle.fish_rule.specs.declared.view.Epoch.TheVariants.{Out};
ghost use Rattle.fish_scan.specs.Scans.{OnlyScans};
ghost use Rattle.fish_store.specs.Sound.{RowsGoOn};

use crate::block::Boundary;
use fish_epoch::Defs;
use fish_lang::{Def, print_def};
use fish_registry::{Poll, RegRefusal, Registrar};
use fish_report::{DeregisterCause, Item, Items, RegisterCause};
use fish_rule::{Log, Pass, load_version};
use fish_value::Text;
use std::alloc::{AllocError, Global};

/// Looks whether the index of the registration that waits begins, and tells where it does.
pub(crate) fn find_boundary(
    log: &Log,
    pass: &mut Pass,
    registrar: &mut Registrar,
    items: &mut Items,
) -> Result<(), AllocError>
    requires can { CanControl log.now pass.old registrar.old }
    ensures looks { LooksForBoundary log.now pass.old registrar.old pass.new registrar.new }
    ensures polled { OnOk result
        (HasPolled (view pass.old) registrar.old (view pass.new) registrar.new items.old items.new) }
    ensures refused { OnErr result (items.new ≡ items.old) }
{
    match registrar.poll(log, pass) {
        Poll::Idle => Ok(()),
        Poll::NotYet { .. } => Ok(()),
        Poll::Bound { id, from } => items.push(Item::Bound { id, from }),
    }
}

/// Where the index of the registration that waits begins, if one does: no lane is out, so it begins now.
pub(crate) fn find_last(log: &Log, pass: &mut Pass, registrar: &mut Registrar) -> Option<Boundary>
    requires can { CanControl log.now pass.old registrar.old }
    requires alone { IsAlone (view pass.old) }
    ensures can { CanControl log.now pass.new registrar.new }
    ensures grows { RowsGoOn (view pass.old) registrar.old.catalog registrar.new.catalog }
    ensures changes { Changes (view pass.old) (view pass.new) }
    ensures found { IsBoundaryFound (view pass.old) registrar.old (view pass.new) registrar.new result }
    ensures settled { registrar.new.waiting ≡ None }
{
    match registrar.poll(log, pass) {
        Poll::Idle => None,
        Poll::NotYet { .. } => unreachable!(),
        Poll::Bound { id, from } => Some(Boundary { id, from }),
    }
}

/// Registers a definition, and tells where its index begins if that is known at once.
pub(crate) fn register(
    alloc: Global,
    log: &Log,
    pass: &mut Pass,
    registrar: &mut Registrar,
    defs: &mut Defs,
    name: &Text,
    def: &Def,
) -> Result<Item, AllocError>
    requires can { CanControl log.now pass.old registrar.old }
    requires defs { IsDefsOf (view pass.old) defs.old }
    requires name { IsName name.now }
    requires said { IsSaid def.now }
    ensures on { Controls log.now pass.old registrar.old pass.new registrar.new }
    ensures defs { IsDefsOf (view pass.new) defs.new }
    ensures item { IfOk result (IsRegisterItem name.now (definition_text (definition_of def.now))) }
    ensures tells { IfOk result (TellsStep (view pass.old) registrar.old (view pass.new) registrar.new) }
{
    let told = name.again(alloc)?;
    let text = print_def(alloc, def)?;
    match registrar.begin(log, pass, name, def) {
        Ok(id) => registered(log, pass, registrar, defs, told, id, text),
        Err(refusal) => {
            let Some(cause) = register_cause(refusal) else {
                return Err(AllocError);
            };
            Ok(Item::RegisterRefused { name: told, cause })
        }
    }
}

/// The item of a registration that was made.
fn registered(
    log: &Log,
    pass: &mut Pass,
    registrar: &mut Registrar,
    defs: &mut Defs,
    name: Text,
    id: u16,
    def: Text,
) -> Result<Item, AllocError>
    requires can { CanControl log.now pass.old registrar.old }
    requires defs { IsDefsOf (view pass.old) defs.old }
    requires waits { WaitsFor (view pass.old) registrar.old id }
    ensures on { Controls log.now pass.old registrar.old pass.new registrar.new }
    ensures defs { IsDefsOf (view pass.new) defs.new }
    ensures tells { IfOk result (TellsBegun (view pass.old) registrar.old (view pass.new) registrar.new name id def) }
{
    read_definitions(log, pass, defs)?;
    match registrar.poll(log, pass) {
        Poll::Idle => unreachable!(),
        Poll::NotYet { seat, version } => Ok(Item::Rolling {
            name,
            id,
            def,
            seat,
            version,
        }),
        Poll::Bound { from, .. } => Ok(Item::Registered {
            name,
            id,
            from,
            def,
        }),
    }
}

/// Ends the definition with a name.
pub(crate) fn deregister(
    alloc: Global,
    log: &Log,
    pass: &mut Pass,
    registrar: &mut Registrar,
    defs: &mut Defs,
    name: &Text,
) -> Result<Item, AllocError>
    requires can { CanControl log.now pass.old registrar.old }
    requires defs { IsDefsOf (view pass.old) defs.old }
    ensures on { Controls log.now pass.old registrar.old pass.new registrar.new }
    ensures defs { IsDefsOf (view pass.new) defs.new }
    ensures item { IfOk result (IsDeregisterItem name.now) }
    ensures tells { IfOk result (TellsStep (view pass.old) registrar.old (view pass.new) registrar.new) }
{
    let told = name.again(alloc)?;
    match registrar.end(log, pass, name) {
        Ok((id, to)) => {
            read_definitions(log, pass, defs)?;
            Ok(Item::Deregistered { name: told, id, to })
        }
        Err(refusal) => {
            let Some(cause) = deregister_cause(refusal) else {
                unreachable!()
            };
            Ok(Item::DeregisterRefused { name: told, cause })
        }
    }
}

/// Reads the definitions of the version that was made last.
fn read_definitions(log: &Log, pass: &mut Pass, defs: &mut Defs) -> Result<(), AllocError>
    requires has { HasDefs log.now pass.old defs.old }
    requires control { (view pass.old).lane ≡ 1 }
    requires outside { (view pass.old).epoch ≡ Out }
    ensures has { HasDefs log.now pass.new defs.new }
    ensures only { OnlyScans (view pass.old) (view pass.new) }
    ensures tail { (view pass.new).tail ≡ (view pass.old).tail }
    ensures version { (view pass.new).learned.version ≡ (view pass.old).learned.version }
    ensures read { OnOk result (KnowsAll (view pass.new)) }
{
    let version = load_version(log, pass);
    defs.refresh(log, pass, version as u16)
}

/// Why a definition was not registered, as an item tells it; none where memory ran out.
fn register_cause(refusal: RegRefusal) -> Option<RegisterCause>
    ensures { result ≡ register_cause refusal }
{
    match refusal {
        RegRefusal::Rolling { id } => Some(RegisterCause::Rolling { id }),
        RegRefusal::TooManyVersions => Some(RegisterCause::TooManyVersions),
        RegRefusal::NameActive => Some(RegisterCause::NameActive),
        RegRefusal::TooManyActive => Some(RegisterCause::TooManyActive),
        RegRefusal::TooManyDefinitions => Some(RegisterCause::TooManyDefinitions),
        RegRefusal::OutOfMemory | RegRefusal::UnknownName => None,
    }
}

/// Why a definition was not ended, as an item tells it; none where that is no cause.
fn deregister_cause(refusal: RegRefusal) -> Option<DeregisterCause>
    ensures { result ≡ deregister_cause refusal }
{
    match refusal {
        RegRefusal::Rolling { id } => Some(DeregisterCause::Rolling { id }),
        RegRefusal::TooManyVersions => Some(DeregisterCause::TooManyVersions),
        RegRefusal::UnknownName => Some(DeregisterCause::UnknownName),
        _ => None,
    }
}
