//! The items of a report, flat in one list: a block by `lanes` is `Lanes`, for each lane `Lane` and its items,
//! and `End`.
//!
//! A field that says so is kept beside what is printed, for what is claimed of a whole report. Numbers are those of
//! records, and `to` is the first after a range.

ghost use Rattle.std.specs.Prelude.{◌≡◌};

use fish_plan::Plan;
use fish_value::{Numbers, Rows, Sequence, Text, Value};

/// What one statement or command has to tell.
#[derive(Drop)]
pub enum Item {
    /// `select` over a file: the records with the value, newest first.
    Select {
        /// The records with the value.
        rows: Rows,
        /// How many records the file has.
        count: u64,
        /// How many of its lines are no record.
        refused: u64,
    },
    /// `select` over a file that is longer than its form allows.
    SelectTooLong {
        /// The file's name.
        file: Text,
    },
    /// A store was made.
    Created,
    /// A store was opened.
    Opened {
        /// The length of its log.
        count: u32,
    },
    /// The block of a statement that stands by itself, whose items follow. It prints nothing.
    Statement {
        /// The log's length at its start.
        from: u32,
        /// The log's length at its end.
        to: u32,
    },
    /// A block by `lanes`, whose lanes follow, up to `End`.
    Lanes {
        /// The log's length at its start.
        from: u32,
        /// The log's length at its end.
        to: u32,
    },
    /// A lane of a block, whose items follow, up to the next lane or `End`.
    Lane {
        /// Its place among the lanes, from 1.
        number: u8,
    },
    /// The end of a block by `lanes`.
    End,
    /// A definition was registered, and its boundary was found at once.
    Registered {
        /// The name.
        name: Text,
        /// The id of its row.
        id: u16,
        /// The first number from which on the index is complete.
        from: u32,
        /// The canonical text of the definition, which is not printed.
        def: Text,
    },
    /// A definition was registered, and its boundary is found later.
    Rolling {
        /// The name.
        name: Text,
        /// The id of its row.
        id: u16,
        /// The canonical text of the definition, which is not printed.
        def: Text,
        /// The lane that was still entered, which is not printed.
        seat: u8,
        /// The older version at which it was, which is not printed.
        version: u16,
    },
    /// The boundary of an earlier registration was found.
    Bound {
        /// The id of its row.
        id: u16,
        /// The first number from which on the index is complete.
        from: u32,
    },
    /// A definition was deregistered.
    Deregistered {
        /// The name.
        name: Text,
        /// The id of its row.
        id: u16,
        /// The first number from which on the index is complete no longer.
        to: u32,
    },
    /// A file was stored.
    Ingested {
        /// The file's name.
        file: Text,
        /// How many records were stored.
        stored: u32,
        /// How many lines are no record.
        refused: u32,
    },
    /// A scan: the records of a range with the value, newest first.
    Scanned {
        /// The definition's name.
        name: Text,
        /// The value that was asked for.
        value: Value,
        /// The first number of the range.
        from: u32,
        /// The first number after the range.
        to: u32,
        /// The open numbers of the range, ascending.
        opens: Numbers,
        /// The records with the value.
        rows: Rows,
        /// The version that the scan loaded, which is not printed.
        version: u16,
    },
    /// How a scan would read a range.
    Explained {
        /// The definition's name.
        name: Text,
        /// The value that was asked for.
        value: Value,
        /// The first number of the range.
        from: u32,
        /// The first number after the range.
        to: u32,
        /// The pieces of the range, newest first.
        plan: Plan,
        /// The version that was loaded, which is not printed.
        version: u16,
    },
    /// The log was written to the store's file.
    Checkpointed {
        /// How many entries the file has.
        count: u32,
    },
    /// The run ended.
    Closed {
        /// The length of the log.
        count: u32,
    },
    /// A registration was refused.
    RegisterRefused {
        /// The name.
        name: Text,
        /// Why.
        cause: RegisterCause,
    },
    /// A deregistration was refused.
    DeregisterRefused {
        /// The name.
        name: Text,
        /// Why.
        cause: DeregisterCause,
    },
    /// A file was not stored to its end, since the log is full.
    IngestFull {
        /// The file's name.
        file: Text,
        /// The first line of the region that passed the log's end.
        line: u64,
        /// How many lines the region has.
        lines: u64,
        /// How many lines the log has.
        end: u64,
        /// How many records were stored before.
        stored: u32,
        /// How many lines before are no record.
        refused: u32,
    },
    /// A file was not stored to its end, since it is longer than its form allows.
    IngestTooLong {
        /// The file's name.
        file: Text,
        /// How many records were stored before.
        stored: u32,
        /// How many lines before are no record.
        refused: u32,
    },
    /// A scan was refused.
    ScanRefused {
        /// The definition's name.
        name: Text,
        /// The version that the scan loaded. It is printed where the name is unknown.
        version: u16,
        /// Why.
        cause: ScanCause,
    },
    /// It was not told how a scan would read a range.
    ExplainRefused {
        /// The definition's name.
        name: Text,
        /// The version that was loaded. It is printed where the name is unknown.
        version: u16,
        /// Why.
        cause: ScanCause,
    },
}

/// Why a definition was not registered.
#[derive(Clone, Copy)]
pub enum RegisterCause {
    /// An earlier registration still has no boundary.
    Rolling {
        /// The id of its row.
        id: u16,
    },
    /// The registry has had as many versions as it may.
    TooManyVersions,
    /// An active definition has the name.
    NameActive,
    /// As many definitions are active as may be.
    TooManyActive,
    /// As many definitions are there as may be.
    TooManyDefinitions,
}

/// Why a definition was not deregistered.
#[derive(Clone, Copy)]
pub enum DeregisterCause {
    /// A registration still has no boundary.
    Rolling {
        /// The id of its row.
        id: u16,
    },
    /// The registry has had as many versions as it may.
    TooManyVersions,
    /// No active definition has the name.
    UnknownName,
}

/// Why a range was not scanned, or its plan not told.
#[derive(Clone, Copy)]
pub enum ScanCause {
    /// No definition has the name at the version that was loaded.
    UnknownName,
    /// No number lies in the range that was asked for.
    EmptyRange {
        /// Where it was to begin.
        from: u32,
        /// Where it was to end.
        to: u32,
    },
    /// The index alone was asked for, and it holds none of these numbers.
    NotCovered {
        /// The first of them.
        from: u32,
        /// The first after them.
        to: u32,
    },
}

/// The items of a report, in order.
pub type Items = Sequence<Item>;

/// All that a run tells.
#[derive(Drop)]
pub struct Report {
    pub items: Items,
}

impl Item {
    ghost use Rattle.fish_report.specs.ReportText.{is_refusal};

    /// Whether the item tells that something was refused.
    pub fn is_refusal(&self) -> bool
        ensures { result ≡ is_refusal self.now }
    {
        matches!(
            self,
            Item::SelectTooLong { .. }
                | Item::RegisterRefused { .. }
                | Item::DeregisterRefused { .. }
                | Item::IngestFull { .. }
                | Item::IngestTooLong { .. }
                | Item::ScanRefused { .. }
                | Item::ExplainRefused { .. }
        )
    }
}
