//! What a lane is to do.

ghost use Rattle.std.specs.Prelude.{◌≡◌, ◌++◌, ◌∷◌, ◌≤◌, [], drop, length, take, IfOk, OnErr, OnOk};
ghost use Rattle.fish_lanes.specs.within.Causes.{or_memory};

use fish_lang::Def;
use fish_lines::Begin;
use fish_report::Item;
use fish_scan::Ask;
use fish_value::{Bytes, Form, Text};
use std::alloc::{AllocError, Global};
use std::marker::Model;

/// A statement.
#[derive(Drop)]
pub enum Work {
    /// Register a definition. The first lane of a block alone may.
    Register {
        /// Its name, of 1 to 32 bytes.
        name: Text,
        /// The definition, which some source says.
        def: Def,
    },
    /// End the definition with a name. The first lane of a block alone may.
    Deregister {
        /// Its name.
        name: Text,
    },
    /// Store the records of a file.
    Ingest {
        /// The form of its records.
        form: Form,
        /// Where they begin: at the file's start, or after a line or row of it that was read before.
        begin: Begin,
        /// The file's name.
        name: Text,
        /// All that it holds, from there on.
        file: Bytes,
    },
    /// Find the records on which a definition has a value.
    Scan {
        /// What is asked.
        ask: Ask,
    },
    /// Tell how they would be found.
    Explain {
        /// What is asked.
        ask: Ask,
    },
    /// Commit the log to the store's file, up to the number below which all is stored. The first lane of a block alone
    /// may.
    Checkpoint,
}

/// Statements in order.
#[derive(Drop)]
pub struct Works {
    items: Vec<Work>,
}

impl Model for Works {
    ghost use Rattle.std.specs.Coded.{codes};
    ghost use Rattle.std.specs.Prelude.{List};
    ghost use Rattle.fish_lanes.specs.contracts.work.Work as work;
    ghost use Rattle.fish_lanes.specs.declared.work.Work.{Work};

    ghost Value = { List Work };

    ghost coded = { Prim.hlevel (codes, work.the_row.coded) };

    ghost view = { λ s. s.items.items };
}

impl Works {
    /// No statement. Takes no memory.
    pub fn new(alloc: Global) -> Works
        ensures { result ≡ [] }
    {
        Works {
            items: Vec::new(alloc),
        }
    }

    /// How many there are.
    pub fn len(&self) -> usize
        ensures { result ≡ length self.now }
    {
        self.items.len()
    }

    /// The statements.
    pub fn as_slice(&self) -> &[Work]
        ensures { result.now ≡ self.now }
    {
        self.items.as_slice()
    }

    /// Puts a statement after the others.
    pub fn push(&mut self, work: Work) -> Result<(), AllocError>
        ensures ok { OnOk result (self.new ≡ self.old ++ work ∷ []) }
        ensures err { OnErr result (self.new ≡ self.old) }
    {
        self.items.push(work)?;
        Ok(())
    }

    /// Puts a statement before the others.
    pub fn push_first(&mut self, work: Work) -> Result<(), AllocError>
        ensures ok { OnOk result (self.new ≡ work ∷ self.old) }
        ensures err { OnErr result (self.new ≡ self.old) }
    {
        self.items.insert(0, work)?;
        Ok(())
    }

    /// Takes away the statements from a position on.
    pub fn split_off(&mut self, at: usize) -> Result<Works, AllocError>
        requires { at ≤ length self.old }
        ensures front { OnOk result (self.new ≡ take at self.old) }
        ensures back { IfOk result (λ rest. rest ≡ drop at self.old) }
        ensures err { OnErr result (self.new ≡ self.old) }
    {
        let items = self.items.split_off(at)?;
        Ok(Works { items })
    }
}

/// Why a lane stopped.
#[derive(Clone, Copy, Debug, PartialEq, Eq)]
pub enum LaneFault {
    /// It did all its statements, but for those that it hands back since it found the log full.
    None,
    /// Memory ran out.
    Memory,
    /// The disk failed.
    Disk,
    /// What the disk has of a record below the table's first number is none.
    Damaged {
        /// That number, or the table's first.
        number: u32,
    },
}

/// What a statement answered, where its lane stops since memory ran out.
pub(crate) fn or_memory(item: Result<Item, AllocError>) -> Result<Item, LaneFault>
    ensures { result ≡ or_memory item }
{
    match item {
        Ok(item) => Ok(item),
        Err(_) => Err(LaneFault::Memory),
    }
}
