//! The shared table of the log, and the passes that step on it.

ghost use Rattle.std.specs.Prelude.{◌≡◌, []};
ghost use Rattle.fish_rule.specs.Flying.{region_in};
ghost use Rattle.fish_rule.specs.Parts.{FitsTable};
ghost use Rattle.fish_rule.specs.World.{total};

use crate::view::{Key, Shut, View};
use atomic_table::{Seat, Table, TableRule};
use std::alloc::Global;

/// The rule of the table: the parts of the log's rule, over its words and all views.
pub struct LogRule;

impl TableRule<bool, View, Key> for LogRule {
    ghost use Rattle.fish_rule.specs.Table.{Ruled, first_view};

    ghost holds = { Ruled };

    ghost first = { first_view };
}

/// How large a log is.
#[derive(Clone, Copy, Debug, PartialEq, Eq)]
pub struct Shape {
    /// Pages of 32,768 lines, 1 to 512.
    pub pages: u16,
    /// The low bits of a hash that choose a chain, 4 to 16.
    pub bucket_bits: u8,
}

/// Where a log's numbers and lines begin.
#[derive(Clone, Copy, Debug, PartialEq, Eq)]
pub struct Base {
    /// The number of its first claim.
    pub number: u32,
    /// The first line.
    pub line: u64,
}

/// The lines of a claim.
#[derive(Clone, Copy, Debug, PartialEq, Eq)]
pub struct Region {
    /// The number of the claim.
    pub number: u64,
    /// Its first line.
    pub line: u64,
    /// How many lines it has.
    pub lines: u64,
}

/// How far a walk down the chain of a bucket is.
#[derive(Clone, Copy, Debug, PartialEq, Eq)]
pub struct Walk {
    pub bucket: u64,
    /// The first number that it is for.
    pub from: u64,
    /// The number after the last one.
    pub to: u64,
    /// The entries of its range at this place and above have been given.
    pub given: u64,
    /// The place of the entry to look at next, or 0.
    pub place: u64,
}

/// The log: a table of words that several passes share.
#[derive(Drop)]
pub struct Log {
    pub(crate) table: Table<bool, View, Key, LogRule, Global>,
    pub(crate) key: Key,
    pub(crate) shape: Shape,
    ghost keyed: { table.shared.key ≡ key },
    ghost fits: { FitsTable key },
    ghost wide: { table.shared.table_id.words ≡ total key },
    ghost bare: { table.shared.table_id.slots ≡ 0 },
}

/// The token with which one thread steps on a log. It can't be copied.
#[derive(Drop)]
pub struct Pass {
    pub(crate) seat: Seat<bool, View>,
    pub(crate) lane: u8,
    pub(crate) shut: Option<Shut>,
    pub(crate) flight: Option<Region>,
    pub(crate) walk: Walk,
    ghost bare: { seat.me.1 ≡ [] },
    ghost lane_is: { seat.me.0.lane ≡ lane },
    ghost shut_is: { seat.me.0.shut ≡ shut },
    ghost flight_is: { region_in seat.me.0.flight ≡ flight },
}
