//! The registrar: the definitions of the log as the control pass changes them.

ghost use Rattle.std.specs.Prelude.{◌≡◌, ◌↔◌, ◌+◌, ◌<◌, ◌≤◌, ◌++◌, ◌∷◌, ℕ, [], IfErr, IfOk, IsErrOf, None, OnErr, OnOk};
ghost use Rattle.std.specs.Prelude.{count_by, length};
ghost use Rattle.fish_catalog.specs.Closing.{with_to};
ghost use Rattle.fish_catalog.specs.Limits.{most_active};
ghost use Rattle.fish_catalog.specs.Rows.{HasActive, IsActiveNamed, IsName, is_active, new_row};
ghost use Rattle.fish_lang.specs.Canonical.{definition_text};
ghost use Rattle.fish_lang.specs.Definition.{definition_of};
ghost use Rattle.fish_registry.specs.Changing.{Changes, HasLoadedTail, IsAtTail, OnlyLoads};
ghost use Rattle.fish_registry.specs.Knowing.{IsWaiting, Knows, KnowsFirst};
ghost use Rattle.fish_registry.specs.Refusing.{BeginsAtTail, HasBegunChange, IsPollClear, IsOfEnds, IsSaid};
ghost use Rattle.fish_registry.specs.within.Refusing.{IsOfRows, IsOfVersions};
ghost use Rattle.fish_registry.specs.Refusing.{MayChange, PollSays};
ghost use Rattle.fish_rule.specs.Passes.{IsPassOf, view};
ghost use Rattle.fish_rule.specs.LoadSteps.{IsAlone};
ghost use Rattle.fish_rule.specs.declared.view.Epoch.TheVariants.{Out};

use crate::looking::{bind, first_older};
use crate::outcome::{Poll, RegRefusal};
use crate::rows::{count_tail, end_row, register_row};
use fish_catalog::Catalog;
use fish_lang::{Def, print_def};
use fish_layout::MAX_VERSION;
use fish_rule::{Log, Pass, load_version};
use fish_value::Text;

/// A registration whose index hasn't begun.
#[derive(Clone, Copy)]
pub struct Waiting {
    /// The id of its row.
    pub(crate) id: u16,
    /// The version that it made.
    pub(crate) version: u64,
    /// The first lane that was not yet found to be out or at that version.
    pub(crate) lane: u8,
}

/// The definitions of a log, with the registration whose index hasn't begun.
#[derive(Drop)]
pub struct Registrar {
    catalog: Catalog,
    waiting: Option<Waiting>,
}

impl Registrar {
    /// A registrar of the rows with which a log begins.
    pub fn new(catalog: Catalog) -> Registrar
        ensures rows { result.catalog ≡ catalog }
        ensures settled { result.waiting ≡ None }
        ensures knows { KnowsFirst result }
    {
        Registrar {
            catalog,
            waiting: None,
        }
    }

    /// The definitions, with where their indices begin and end.
    pub fn catalog(&self) -> &Catalog
        ensures { result.now ≡ self.now.catalog }
    {
        &self.catalog
    }

    /// The definitions, and no longer a registrar: for the table that takes this one's place.
    pub fn into_catalog(self) -> Catalog
        ensures { result ≡ self.catalog }
    {
        self.catalog
    }

    /// Registers a definition under a name: from the version that this makes on, records have its keys. Where its index
    /// begins, `poll` finds.
    ///
    /// # Errors
    ///
    /// A registration waits; no version is left; the name is active; as many definitions are active as may be; 256 are
    /// there; or memory ran out. Then nothing has changed.
    pub fn begin(
        &mut self,
        log: &Log,
        pass: &mut Pass,
        name: &Text,
        def: &Def,
    ) -> Result<u16, RegRefusal>
        requires pass { IsPassOf log.now pass.old }
        requires knows { Knows (view pass.old) self.old }
        requires outside { (view pass.old).epoch ≡ Out }
        requires name { IsName name.now }
        requires def { IsSaid def.now }
        ensures pass { IsPassOf log.now pass.new }
        ensures knows { Knows (view pass.new) self.new }
        ensures changes { Changes (view pass.old) (view pass.new) }
        ensures begun { IfOk result
            (HasBegunChange (view pass.old) self.old name.now def.now (view pass.new) self.new) }
        ensures refused { OnErr result ((self.new ≡ self.old) × OnlyLoads (view pass.old) (view pass.new)) }
        ensures rolling { (id : ℕ) → IsErrOf result (RegRefusal.Rolling id) ↔ IsWaiting self.old id }
        ensures versions { IsErrOf result RegRefusal.TooManyVersions ↔
            ((self.old.waiting ≡ None) × (512 ≤ (view pass.old).learned.version)) }
        ensures active { IsErrOf result RegRefusal.NameActive ↔
            (MayChange self.old (view pass.old) × HasActive self.old.catalog name.now) }
        ensures many_active { IsErrOf result RegRefusal.TooManyActive ↔
            (MayChange self.old (view pass.old) × (¬ HasActive self.old.catalog name.now)
            × (most_active ≤ count_by is_active self.old.catalog)) }
        ensures many { IsErrOf result RegRefusal.TooManyDefinitions ↔
            (MayChange self.old (view pass.old) × (¬ HasActive self.old.catalog name.now)
            × (count_by is_active self.old.catalog < most_active) × (256 ≤ length self.old.catalog)) }
        ensures known { ¬ IsErrOf result RegRefusal.UnknownName }
    {
        let version = self.last_version(log, pass)?;
        let id = add_row(&mut self.catalog, name, def)?;
        register_row(log, pass, &self.catalog.rows()[usize::from(id)], version);
        self.waiting = Some(Waiting {
            id,
            version: version + 1,
            lane: 2,
        });
        Ok(id)
    }

    /// Looks at the lanes that were not yet found to be out or at the version of the registration that waits. Where all
    /// were, its index begins at the count of the log; so it does while no other lane is out. Waits for nobody, and
    /// takes no memory.
    pub fn poll(&mut self, log: &Log, pass: &mut Pass) -> Poll
        requires pass { IsPassOf log.now pass.old }
        requires knows { Knows (view pass.old) self.old }
        ensures pass { IsPassOf log.now pass.new }
        ensures knows { Knows (view pass.new) self.new }
        ensures changes { Changes (view pass.old) (view pass.new) }
        ensures tells { PollSays (view pass.old) self.old (view pass.new) self.new result }
        ensures alone { IsAlone (view pass.old) → (view pass.old).epoch ≡ Out → IsPollClear result }
        ensures begins { IsAlone (view pass.old) → BeginsAtTail (view pass.old) result }
    {
        let Some(waiting) = self.waiting else {
            return Poll::Idle;
        };
        match first_older(log, pass, waiting) {
            Some(older) => {
                self.waiting = Some(Waiting {
                    lane: older.lane,
                    ..waiting
                });
                Poll::NotYet {
                    seat: older.lane,
                    version: older.version,
                }
            }
            None => {
                let from = bind(log, pass, waiting);
                self.catalog.set_from(waiting.id, from);
                self.waiting = None;
                Poll::Bound {
                    id: waiting.id,
                    from,
                }
            }
        }
    }

    /// Ends the active definition with a name: its index ends at the count of the log, and after the version that this
    /// makes no record has its keys. Takes no memory.
    ///
    /// # Errors
    ///
    /// A registration waits; no version is left; or no active definition has the name. Then nothing has changed.
    pub fn end(&mut self, log: &Log, pass: &mut Pass, name: &Text) -> Result<(u16, u32), RegRefusal>
        requires pass { IsPassOf log.now pass.old }
        requires knows { Knows (view pass.old) self.old }
        requires outside { (view pass.old).epoch ≡ Out }
        ensures pass { IsPassOf log.now pass.new }
        ensures knows { Knows (view pass.new) self.new }
        ensures changes { Changes (view pass.old) (view pass.new) }
        ensures named { IfOk result (λ e. IsActiveNamed self.old.catalog name.now e.0) }
        ensures rows { IfOk result (λ e. self.new.catalog ≡ with_to self.old.catalog e.0 e.1) }
        ensures counted { IfOk result (λ e. HasLoadedTail (view pass.old) (view pass.new) e.1) }
        ensures alone { IsAlone (view pass.old) → IfOk result (λ e. IsAtTail (view pass.old) e.1) }
        ensures reached { IfOk result
            (λ e. ((view pass.old).learned.count ≤ e.1) × ((view pass.new).learned.count ≡ e.1)) }
        ensures version { OnOk result ((view pass.new).learned.version ≡ (view pass.old).learned.version + 1) }
        ensures settled { self.new.waiting ≡ self.old.waiting }
        ensures refused { OnErr result ((self.new ≡ self.old) × OnlyLoads (view pass.old) (view pass.new)) }
        ensures rolling { (id : ℕ) → IsErrOf result (RegRefusal.Rolling id) ↔ IsWaiting self.old id }
        ensures versions { IsErrOf result RegRefusal.TooManyVersions ↔
            ((self.old.waiting ≡ None) × (512 ≤ (view pass.old).learned.version)) }
        ensures unknown { IsErrOf result RegRefusal.UnknownName ↔
            (MayChange self.old (view pass.old) × (¬ HasActive self.old.catalog name.now)) }
        ensures only { IfErr result IsOfEnds }
        ensures memory { ¬ IsErrOf result RegRefusal.OutOfMemory }
    {
        let version = self.last_version(log, pass)?;
        let Some(id) = self.catalog.find_active(name) else {
            return Err(RegRefusal::UnknownName);
        };
        let to = count_tail(log, pass);
        end_row(log, pass, id, to, version);
        self.catalog.set_to(id, to);
        Ok((id, to))
    }

    /// The version, where no registration waits and one more may be made.
    fn last_version(&self, log: &Log, pass: &mut Pass) -> Result<u64, RegRefusal>
        requires pass { IsPassOf log.now pass.old }
        requires knows { Knows (view pass.old) self.now }
        requires outside { (view pass.old).epoch ≡ Out }
        ensures pass { IsPassOf log.now pass.new }
        ensures stays { OnlyLoads (view pass.old) (view pass.new) }
        ensures version { IfOk result (λ n. (n ≡ (view pass.old).learned.version) × MayChange self.now
            (view pass.old)) }
        ensures rolling { (id : ℕ) → IsErrOf result (RegRefusal.Rolling id) ↔ IsWaiting self.now id }
        ensures versions { IsErrOf result RegRefusal.TooManyVersions ↔
            ((self.now.waiting ≡ None) × (512 ≤ (view pass.old).learned.version)) }
        ensures only { IfErr result IsOfVersions }
        ensures stuck { OnErr result (¬ MayChange self.now (view pass.old)) }
    {
        if let Some(waiting) = &self.waiting {
            return Err(RegRefusal::Rolling { id: waiting.id });
        }
        let version = load_version(log, pass);
        if version >= u64::from(MAX_VERSION) {
            return Err(RegRefusal::TooManyVersions);
        }
        Ok(version)
    }
}

/// Puts a definition after the rows, active and without boundaries.
fn add_row(catalog: &mut Catalog, name: &Text, def: &Def) -> Result<u16, RegRefusal>
    requires name { IsName name.now }
    requires def { IsSaid def.now }
    ensures id { IfOk result (λ id. id ≡ length catalog.old) }
    ensures added { OnOk result (catalog.new ≡ catalog.old
        ++ new_row (length catalog.old) name.now (definition_text (definition_of def.now)) ∷ []) }
    ensures room { OnOk result ((¬ HasActive catalog.old name.now) × (count_by is_active catalog.old < most_active)
        × (length catalog.old < 256)) }
    ensures active { IsErrOf result RegRefusal.NameActive ↔ HasActive catalog.old name.now }
    ensures many_active { IsErrOf result RegRefusal.TooManyActive ↔
        ((¬ HasActive catalog.old name.now) × (most_active ≤ count_by is_active catalog.old)) }
    ensures many { IsErrOf result RegRefusal.TooManyDefinitions ↔
        ((¬ HasActive catalog.old name.now) × (count_by is_active catalog.old < most_active)
        × (256 ≤ length catalog.old)) }
    ensures only { IfErr result IsOfRows }
    ensures refused { OnErr result (catalog.new ≡ catalog.old) }
{
    catalog.may_add(name)?;
    let text = print_def(catalog.allocator(), def)?;
    Ok(catalog.add(name, &text)?)
}
