//! All rows in the order of their ids, and the names that are active.
//!
//! A row is never removed, and its id, name and definition never change.

ghost use Rattle.std.specs.Prelude.{◌≡◌, ◌↔◌, ◌+◌, ◌<◌, ◌≤◌, ◌++◌, ◌∷◌, [], All, IfOk, IfSome, IsErrOf, IsSome, OnErr};
ghost use Rattle.std.specs.Prelude.{OnOk, count_by, length, map};
ghost use Rattle.fish_catalog.specs.Rows.{AwaitsFrom, HasActive, IsActiveNamed, IsCatalog, IsNameKnown, IsName};
ghost use Rattle.fish_catalog.specs.Rows.{IsNewest};
ghost use Rattle.fish_catalog.specs.Rows.{is_active, new_row, with_from};
ghost use Rattle.fish_catalog.specs.Canonical.{IsCanonical};
ghost use Rattle.fish_catalog.specs.Clamps.{IsClamped, clamped};
ghost use Rattle.fish_catalog.specs.Closing.{AwaitsTo, MayClose, with_to};
ghost use Rattle.fish_catalog.specs.Intervals.{AreIntervals};
ghost use Rattle.fish_catalog.specs.Limits.{most_active, most_rows};

use crate::clamp::clamp_rows;
use crate::interval::{Intervals, add_interval};
use crate::restore::{count_active, is_catalog};
use crate::row::CatRow;
use fish_value::Text;
use std::alloc::{AllocError, Global};
use std::marker::Model;
use thiserror::Error;

/// The most rows.
pub const MAX_ROWS: usize = 256;

/// The most rows that are active at once.
pub const MAX_ACTIVE: usize = 32;

/// Why a definition was not kept.
#[derive(Clone, Copy, Debug, PartialEq, Eq, Error)]
pub enum CatRefusal {
    /// An active row has the name.
    #[error("the name is active")]
    NameActive,
    /// As many rows are active as may be.
    #[error("{} definitions are active", MAX_ACTIVE)]
    TooManyActive,
    /// As many rows are there as may be.
    #[error("{} definitions are there", MAX_ROWS)]
    TooManyDefinitions,
    /// Memory ran out.
    #[error("out of memory")]
    OutOfMemory,
    /// No active row has the name.
    #[error("no active definition has the name")]
    UnknownName,
}

impl From<AllocError> for CatRefusal {
    ghost use Rattle.fish_catalog.specs.declared.catalog.CatRefusal.TheVariants.{OutOfMemory};

    ghost from_gives = { λ _ refusal. refusal ≡ OutOfMemory };

    fn from(_: AllocError) -> Self {
        CatRefusal::OutOfMemory
    }
}

/// The definitions of a store. Contracts see the list of their rows.
#[derive(Debug, Drop)]
pub struct Catalog {
    rows: Vec<CatRow>,
}

impl Model for Catalog {
    ghost use Rattle.std.specs.Prelude.{List};
    ghost use Rattle.fish_catalog.specs.declared.row.CatRow.{CatRow};
    ghost use Rattle.fish_catalog.specs.Rows.{IsCatalog};

    ghost Value = { List CatRow };

    ghost view = { λ c. c.rows.items };

    ghost invariant = { λ c. IsCatalog c.rows.items };
}

impl Catalog {
    /// No definition. Takes no memory.
    pub fn new(alloc: Global) -> Catalog
        ensures { result ≡ [] }
    {
        Catalog {
            rows: Vec::new(alloc),
        }
    }

    /// The catalogue of rows that were kept elsewhere, or none where they are those of no catalogue.
    pub fn from_rows(alloc: Global, rows: Vec<CatRow>) -> Result<Option<Catalog>, AllocError>
        ensures value { IfOk result (λ o. IfSome o (λ catalog. catalog ≡ rows.items)) }
        ensures some { IfOk result (λ o. IsSome o ↔ IsCatalog rows.items) }
    {
        match is_catalog(alloc, rows.as_slice()) {
            Ok(true) => Ok(Some(Catalog { rows })),
            Ok(false) => {
                drop(rows);
                Ok(None)
            }
            Err(want) => {
                drop(rows);
                Err(want)
            }
        }
    }

    /// The rows, by id.
    pub fn rows(&self) -> &[CatRow]
        ensures value { result.now ≡ self.now }
        ensures kept { IsCatalog result.now }
    {
        self.rows.as_slice()
    }

    /// The id of the active row with a name.
    pub fn find_active(&self, name: &Text) -> Option<u16>
        ensures found { IfSome result (IsActiveNamed self.now name.now) }
        ensures some { IsSome result ↔ HasActive self.now name.now }
    {
        let rows = self.rows();
        for row in rows {
            if row.is_active() && row.name.is(name) {
                return Some(row.id);
            }
        }
        None
    }

    /// The greatest id of a name, whether its row is active or not.
    pub fn find_newest(&self, name: &Text) -> Option<u16>
        ensures found { IfSome result (IsNewest self.now name.now) }
        ensures some { IsSome result ↔ IsNameKnown self.now name.now }
    {
        let mut newest = None;
        let rows = self.rows();
        for row in rows {
            if row.name.is(name) {
                newest = Some(row.id);
            }
        }
        newest
    }

    /// Where its rows are allocated.
    pub fn allocator(&self) -> Global {
        *self.rows.allocator()
    }

    /// Puts an active row with the next id after the others.
    pub fn add(&mut self, name: &Text, def: &Text) -> Result<u16, CatRefusal>
        requires name { IsName name.now }
        requires def { IsCanonical def.now }
        ensures id { IfOk result (λ id. id ≡ length self.old) }
        ensures added { OnOk result (self.new ≡ self.old ++ new_row (length self.old) name.now def.now ∷ []) }

        ensures active { IsErrOf result CatRefusal.NameActive ↔ HasActive self.old name.now }
        ensures many_active { IsErrOf result CatRefusal.TooManyActive ↔
            ((¬ HasActive self.old name.now) × (most_active ≤ count_by is_active self.old)) }
        ensures many { IsErrOf result CatRefusal.TooManyDefinitions ↔
            ((¬ HasActive self.old name.now) × (count_by is_active self.old < most_active)
            × (most_rows ≤ length self.old)) }
        ensures known { ¬ IsErrOf result CatRefusal.UnknownName }
        ensures refused { OnErr result (self.new ≡ self.old) }
    {
        self.may_add(name)?;
        Ok(self.push_row(name, def)?)
    }

    /// Whether an active row of this name may be put after the others. Takes no memory.
    pub fn may_add(&self, name: &Text) -> Result<(), CatRefusal>
        ensures active { IsErrOf result CatRefusal.NameActive ↔ HasActive self.now name.now }
        ensures many_active { IsErrOf result CatRefusal.TooManyActive ↔
            ((¬ HasActive self.now name.now) × (most_active ≤ count_by is_active self.now)) }
        ensures many { IsErrOf result CatRefusal.TooManyDefinitions ↔
            ((¬ HasActive self.now name.now) × (count_by is_active self.now < most_active)
            × (most_rows ≤ length self.now)) }
        ensures room { OnOk result ((¬ HasActive self.now name.now) × (count_by is_active self.now < most_active)
            × (length self.now < most_rows)) }
        ensures memory { ¬ IsErrOf result CatRefusal.OutOfMemory }
        ensures known { ¬ IsErrOf result CatRefusal.UnknownName }
    {
        if self.find_active(name).is_some() {
            return Err(CatRefusal::NameActive);
        }
        if count_active(self.rows()) >= MAX_ACTIVE {
            return Err(CatRefusal::TooManyActive);
        }
        if self.rows.len() >= MAX_ROWS {
            return Err(CatRefusal::TooManyDefinitions);
        }
        Ok(())
    }

    /// Puts an active row with the next id after the others, where there is room for it.
    fn push_row(&mut self, name: &Text, def: &Text) -> Result<u16, AllocError>
        requires name { IsName name.now }
        requires def { IsCanonical def.now }
        requires apart { ¬ HasActive self.old name.now }
        requires active { count_by is_active self.old < most_active }
        requires room { length self.old < most_rows }
        ensures id { IfOk result (λ id. id ≡ length self.old) }
        ensures added { OnOk result (self.new ≡ self.old ++ new_row (length self.old) name.now def.now ∷ []) }
        ensures refused { OnErr result (self.new ≡ self.old) }
    {
        let alloc = *self.rows.allocator();
        let id = self.rows.len() as u16;
        let row = CatRow {
            id,
            name: name.again(alloc)?,
            def: def.again(alloc)?,
            from: None,
            to: None,
        };
        self.rows.push(row)?;
        Ok(id)
    }

    /// Sets where the index of a row begins.
    pub fn set_from(&mut self, id: u16, from: u32)
        requires { AwaitsFrom self.old id }
        ensures { self.new ≡ with_from self.old id from }
    {
        let row = &mut self.rows[usize::from(id)];
        row.from = Some(from);
    }

    /// Sets where the index of an active row ends.
    pub fn set_to(&mut self, id: u16, to: u32)
        requires { AwaitsTo self.old id to }
        ensures { self.new ≡ with_to self.old id to }
    {
        let row = &mut self.rows[usize::from(id)];
        row.to = Some(to);
    }

    /// Ends the index of the active row with a name. Takes no memory.
    pub fn close_row(&mut self, name: &Text, to: u32) -> Result<u16, CatRefusal>
        requires { MayClose self.old name.now to }
        ensures id { IfOk result (IsActiveNamed self.old name.now) }
        ensures closed { IfOk result (λ id. self.new ≡ with_to self.old id to) }
        ensures unknown { IsErrOf result CatRefusal.UnknownName ↔ (¬ HasActive self.old name.now) }
        ensures refused { OnErr result (self.new ≡ self.old) }
    {
        let Some(id) = self.find_active(name) else {
            return Err(CatRefusal::UnknownName);
        };
        self.set_to(id, to);
        Ok(id)
    }

    /// Where the indices of the rows with a text hold, by id. Rows whose index hasn't begun have none.
    pub fn intervals(&self, alloc: Global, def: &Text) -> Result<Intervals, AllocError>
        ensures { IfOk result (AreIntervals self.now def.now) }
    {
        let mut intervals = Intervals::new(alloc);
        let rows = self.rows();
        for row in rows {
            add_interval(&mut intervals, row, def)?;
        }
        Ok(intervals)
    }

    /// Cuts every boundary to a count, and has a row without a beginning begin there. Takes no memory.
    pub fn clamp(&mut self, count: u32)
        ensures rows { self.new ≡ map (clamped count) self.old }
        ensures clamped { All (IsClamped count) self.new }
    {
        clamp_rows(self.rows.as_mut_slice(), count);
    }
}
