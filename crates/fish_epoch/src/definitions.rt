//! The definitions of a version, as a pass reads them of the log's words.

ghost use Rattle.std.specs.Prelude.{◌≡◌, ◌≤◌, All, IfOk, OnErr, OnOk, map, true};
ghost use Rattle.fish_catalog.specs.Canonical.{IsCanonical};
ghost use Rattle.fish_catalog.specs.Listing.{IsListing, active_texts};
ghost use Rattle.fish_rule.specs.Keys.{IsWritten, text_of};
ghost use Rattle.fish_epoch.specs.Rows.{OnlyLearns};
ghost use Rattle.fish_rule.specs.Passes.{IsPassOf, view};

use crate::rows::read_rows;
use fish_catalog::{Listed, parse_canonical};
use fish_psf::ActiveDef;
use fish_read::RecordReader;
use fish_rule::{Log, Pass};
use std::alloc::{AllocError, Global};

/// What a lane keeps from call to call: the definitions that its pass has read, and the memory in which
/// it reads payloads.
#[derive(Drop)]
pub struct Defs {
    pub known: Known,
    pub reader: RecordReader,
}

/// The definitions of a version of one log's registry.
#[derive(Debug, Drop)]
pub struct Known {
    pub(crate) version: u16,
    pub(crate) read: bool,
    pub(crate) rows: Vec<Listed>,
    pub(crate) active: Vec<ActiveDef>,
}

impl Defs {
    ghost use Rattle.fish_epoch.specs.Definitions.{AreRead, IsDefsOf, IsUnread, active_defs, rows_of, version_of};

    /// No definition yet, and a reader without memory. Takes no memory.
    pub fn new(alloc: Global) -> Defs
        ensures { IsUnread result.known }
    {
        Defs {
            known: Known::new(alloc),
            reader: RecordReader::new(alloc),
        }
    }

    /// The version of the last `refresh` that was answered with Ok, or 0 before the first.
    pub fn version(&self) -> u16
        ensures { result ≡ version_of self.now.known }
    {
        self.known.version()
    }

    /// The active definitions of the version, in the order of their ids.
    pub fn active(&self) -> &[ActiveDef]
        ensures { result.now ≡ active_defs self.now.known }
    {
        self.known.active()
    }

    /// All definitions of the version by id, ended ones too, with their names.
    pub fn rows(&self) -> &[Listed]
        ensures { result.now ≡ rows_of self.now.known }
    {
        self.known.rows()
    }

    /// Reads the definitions of a version that the pass has loaded: the words of its rows and
    /// operations, once a version. Where they are those of this version already, nothing is read.
    pub fn refresh(&mut self, log: &Log, pass: &mut Pass, version: u16) -> Result<(), AllocError>
        requires pass { IsPassOf log.now pass.old }
        requires from { log.now.key.version ≤ version }
        requires reached { version ≤ (view pass.old).learned.version }
        requires defs { IsDefsOf (view pass.old) self.old }
        ensures pass { IsPassOf log.now pass.new }
        ensures reads { OnlyLearns (view pass.old) (view pass.new) }
        ensures read { OnOk result (AreRead (view pass.new) self.new.known) }
        ensures version { OnOk result (version_of self.new.known ≡ version) }
        ensures once { self.old.known.read ≡ true → version_of self.old.known ≡ version
            → view pass.new ≡ view pass.old }

        ensures refused { OnErr result (self.new ≡ self.old) }
    {
        self.known.refresh(log, pass, version)
    }
}

impl Known {
    ghost use Rattle.fish_epoch.specs.Definitions.{AreRead, IsKnownOf, IsUnread, active_defs, rows_of, version_of};

    /// No definition yet. Takes no memory.
    pub fn new(alloc: Global) -> Known
        ensures { IsUnread result }
    {
        Known {
            version: 0,
            read: false,
            rows: Vec::new(alloc),
            active: Vec::new(alloc),
        }
    }

    /// The version of the last `refresh` that was answered with Ok, or 0 before the first.
    pub fn version(&self) -> u16
        ensures { result ≡ version_of self.now }
    {
        self.version
    }

    /// The active definitions of the version, in the order of their ids.
    pub fn active(&self) -> &[ActiveDef]
        ensures { result.now ≡ active_defs self.now }
    {
        self.active.as_slice()
    }

    /// All definitions of the version by id, ended ones too, with their names.
    pub fn rows(&self) -> &[Listed]
        ensures { result.now ≡ rows_of self.now }
    {
        self.rows.as_slice()
    }

    /// Reads the definitions of a version that the pass has loaded: the words of its rows and
    /// operations, once a version. Where they are those of this version already, nothing is read.
    pub fn refresh(&mut self, log: &Log, pass: &mut Pass, version: u16) -> Result<(), AllocError>
        requires pass { IsPassOf log.now pass.old }
        requires from { log.now.key.version ≤ version }
        requires reached { version ≤ (view pass.old).learned.version }
        requires defs { IsKnownOf (view pass.old) self.old }
        ensures pass { IsPassOf log.now pass.new }
        ensures reads { OnlyLearns (view pass.old) (view pass.new) }
        ensures read { OnOk result (AreRead (view pass.new) self.new) }
        ensures version { OnOk result (version_of self.new ≡ version) }
        ensures once { self.old.read ≡ true → version_of self.old ≡ version → view pass.new ≡ view pass.old }

        ensures refused { OnErr result (self.new ≡ self.old) }
    {
        if self.read && self.version == version {
            return Ok(());
        }
        let alloc = *self.rows.allocator();
        let rows = read_rows(alloc, log, pass, version)?;
        let active = parse_active(alloc, rows.as_slice())?;
        *self = Known {
            version,
            read: true,
            rows,
            active,
        };
        Ok(())
    }
}

/// The definitions that are active.
fn parse_active(alloc: Global, rows: &[Listed]) -> Result<Vec<ActiveDef>, AllocError>
    requires { IsListing rows.now }
    ensures texts { IfOk result (λ defs. map text_of defs.items ≡ active_texts rows.now) }
    ensures written { IfOk result (λ defs. All IsWritten defs.items) }
{
    let mut active = Vec::new(alloc);
    for row in rows {
        if row.active {
            active.push(parse_row(alloc, row)?)?;
        }
    }
    Ok(active)
}

/// The definition that a row's text is.
fn parse_row(alloc: Global, row: &Listed) -> Result<ActiveDef, AllocError>
    requires { IsCanonical row.now.def }
    ensures text { IfOk result (λ active. text_of active ≡ (row.now.id, row.now.def)) }
    ensures written { IfOk result IsWritten }
{
    let def = parse_canonical(alloc, row.def.as_bytes())?;
    Ok(ActiveDef { id: row.id, def })
}
