//! Where the index of a row holds.

ghost use Rattle.std.specs.Prelude.{OnOk};
ghost use Rattle.fish_catalog.specs.within.Intervals.{IsIntervalAdded};

use crate::row::CatRow;
use fish_value::{Sequence, Text};
use std::alloc::{AllocError, Global};

/// Where the index of a row holds: the records from a number on, up to another one or without end.
#[derive(Clone, Copy, Debug, PartialEq, Eq)]
pub struct Interval {
    /// The row's id.
    pub id: u16,
    /// The first record of its index.
    pub from: u32,
    /// The first record after its index, or none where the row is active.
    pub to: Option<u32>,
}

/// The intervals of a definition, by id.
pub type Intervals = Sequence<Interval>;

/// Puts the interval of a row after the others, where the row has the text and its index has begun.
pub(crate) fn add_interval(
    intervals: &mut Intervals,
    row: &CatRow,
    def: &Text,
) -> Result<(), AllocError>
    ensures { OnOk result (IsIntervalAdded row.now def.now intervals.old intervals.new) }
{
    let Some(from) = row.from else {
        return Ok(());
    };
    if !row.def.is(def) {
        return Ok(());
    }
    intervals.push(Interval {
        id: row.id,
        from,
        to: row.to,
    })
}
