//! What stands at a number of the log.

ghost use Rattle.std.specs.Prelude.{◌≡◌, ◌↔◌, IsTrue, IfOk};

use fish_value::{Form, Sequence, Text};
use std::alloc::{AllocError, Global};

/// What stands at a number of a log that is closed.
#[derive(Debug, Drop)]
pub enum Entry {
    /// A record, with the lane that stored it, from 1 on.
    Stored { lane: u8, form: Form, payload: Text },
    /// The padding at a page's end.
    Void,
}

/// The entries of a log, by number.
pub type Entries = Sequence<Entry>;

impl Entry {
    /// Whether two entries are of one kind and equal in all parts.
    pub fn is(&self, other: &Entry) -> bool
        ensures { IsTrue result ↔ (self.now ≡ other.now) }
    {
        match (self, other) {
            (
                Entry::Stored {
                    lane,
                    form,
                    payload,
                },
                Entry::Stored {
                    lane: other_lane,
                    form: other_form,
                    payload: other_payload,
                },
            ) => lane == other_lane && form == other_form && payload.is(other_payload),
            (Entry::Void, Entry::Void) => true,
            _ => false,
        }
    }

    /// A second copy of it.
    pub fn again(&self, alloc: Global) -> Result<Entry, AllocError>
        ensures { IfOk result (λ entry. entry ≡ self.now) }
    {
        match self {
            Entry::Stored {
                lane,
                form,
                payload,
            } => Ok(Entry::Stored {
                lane: *lane,
                form: *form,
                payload: payload.again(alloc)?,
            }),
            Entry::Void => Ok(Entry::Void),
        }
    }
}
