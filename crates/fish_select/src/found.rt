//! What was found in the lines or rows so far.

ghost use Rattle.std.specs.Prelude.{◌≡◌, ◌<◌, ◌+◌, ◌^◌, ◌≤◌, IsErrOf, OnOk};
ghost use Rattle.fish_select.specs.Selection.{most_records};
ghost use Rattle.fish_select.specs.declared.found.SelectRefusal.TheVariants.{TooMany};

use fish_value::{Row, Rows, Text};
use std::alloc::{AllocError, Global};

/// What was found in a file so far.
#[derive(Drop)]
pub struct Found {
    /// The records with the value, oldest first.
    pub rows: Rows,
    /// How many records there are.
    pub count: u64,
    /// How many lines or rows are none.
    pub refused: u64,
}

/// Why no more is selected.
#[derive(Clone, Copy, Debug, PartialEq, Eq)]
pub enum SelectRefusal {
    /// The file has over 4,294,967,296 records.
    TooMany,
    /// Out of memory.
    OutOfMemory,
}

impl From<AllocError> for SelectRefusal {
    ghost use Rattle.fish_select.specs.declared.found.SelectRefusal.TheVariants.{OutOfMemory};

    ghost from_gives = { λ _ refusal. refusal ≡ OutOfMemory };

    fn from(_: AllocError) -> SelectRefusal {
        SelectRefusal::OutOfMemory
    }
}

impl Found {
    ghost use Rattle.fish_select.specs.within.Found.{nothing, with_record};

    /// Nothing yet. Takes no memory.
    pub(crate) fn nothing(alloc: Global) -> Found
        ensures { result ≡ nothing }
    {
        Found {
            rows: Rows::new(alloc),
            count: 0,
            refused: 0,
        }
    }

    /// Counts one more record, and puts it after the rows where its payload is kept.
    pub(crate) fn add(&mut self, kept: Option<Text>) -> Result<(), SelectRefusal>
        requires { self.old.count < 2 ^ 63 }
        ensures more { OnOk result (self.new ≡ with_record self.old kept) }
        ensures many { IsErrOf result TooMany → most_records ≤ self.old.count }
    {
        let Ok(number) = u32::try_from(self.count) else {
            drop(kept);
            return Err(SelectRefusal::TooMany);
        };
        if let Some(payload) = kept {
            self.rows.push(Row { number, payload })?;
        }
        self.count += 1;
        Ok(())
    }
}
