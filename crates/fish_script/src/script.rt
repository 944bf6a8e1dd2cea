//! What a script says.

use fish_lang::Def;
use fish_value::{Form, MAX_LANE, Sequence, Text, Value};

/// The most bytes of a script.
pub const MAX_SCRIPT: usize = 1_048_576;

/// The most lanes of a block.
pub const MAX_LANES: usize = MAX_LANE as usize;

/// The most ingests of a block.
pub const MAX_FEEDS: usize = 256;

/// Record numbers of a script are below this.
pub const MAX_NUMBER: u32 = 268_435_456;

/// Whether the index is used.
#[derive(Clone, Copy)]
pub enum By {
    /// Where it holds, and else every record is looked at.
    Auto,
    /// Alone.
    Index,
    /// Not at all.
    Full,
}

/// One statement.
#[derive(Drop)]
pub enum Statement {
    /// A definition comes.
    Register {
        name: Text,
        def: Def,
    },
    /// A definition goes.
    Deregister {
        name: Text,
    },
    /// The records of a file are stored.
    Ingest {
        form: Form,
        /// Whether the first row of a file in CSV is left out.
        header: bool,
        file: Text,
    },
    /// The records with a value are listed, of those from a number on and below another one.
    Scan {
        name: Text,
        value: Value,
        from: Option<u32>,
        to: Option<u32>,
        by: By,
    },
    /// How the same scan would go is told.
    Explain {
        name: Text,
        value: Value,
        from: Option<u32>,
        to: Option<u32>,
        by: By,
    },
    /// What is stored is made to last.
    Checkpoint,
}

/// The statements of a lane, in order.
pub type Statements = Sequence<Statement>;

/// The lanes of a block, in order.
pub type LaneTexts = Sequence<Statements>;

/// Statements that are run together.
#[derive(Drop)]
pub struct Block {
    /// Whether it was written by `lanes`; else it is one statement by itself.
    pub several: bool,
    pub lanes: LaneTexts,
}

/// A script: its blocks, in order.
pub type Script = Sequence<Block>;
