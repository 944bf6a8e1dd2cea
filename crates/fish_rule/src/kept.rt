//! The entries of a closed log, which stay in the words of its table and are read from there.

ghost use Rattle.std.specs.Prelude.{◌≡◌, ◌+◌, ◌*◌, ◌<◌, ◌≤◌, IfOk, Some, length, map, slice_get, slice_index};
ghost use Rattle.std.specs.List.{range_with_len};
ghost use Rattle.core.specs.Mem.Slots.{IsFull, slots_items, slots_len};
ghost use Rattle.fish_layout.specs.Header.{lines_of};

use crate::area::{dir_at, log_at};
use crate::view::{Key, Kind};
use crate::word::{kind_of_word, line_of_word};
use atomic_table::Closed;
use fish_catalog::{Entries, Entry};
use fish_layout::{Payload, lines_in, read_payload};
use std::alloc::{AllocError, Global};
use std::marker::Model;

/// The entries of a closed log, by number. They stay in the words of the log's table: each is read anew where it is
/// asked for.
pub struct LogEntries {
    pub(crate) closed: Closed<bool, Global>,
    pub(crate) key: Key,
    pub(crate) count: usize,
}

impl Model for LogEntries {
    ghost use Rattle.std.specs.Prelude.{List};
    ghost use Rattle.fish_catalog.specs.declared.entry.Entry.{Entry};

    ghost Value = { List Entry };

    ghost use Rattle.fish_rule.specs.KeptEntries.{KeepsEntries, entries_kept};

    ghost view = { entries_kept };

    ghost invariant = { KeepsEntries };
}

impl Drop for LogEntries {
    fn drop(self) {
        let LogEntries {
            closed,
            key: _,
            count: _,
        } = self;
        closed.free();
    }
}

impl LogEntries {
    /// How many there are.
    pub fn len(&self) -> usize
        ensures { result ≡ length self.now }
    {
        self.count
    }

    /// The entry at a place.
    pub fn entry(&self, alloc: Global, place: usize) -> Result<Entry, AllocError>
        requires { place < length self.now }
        ensures { IfOk result (λ entry. slice_get self.now place ≡ Some entry) }
    {
        let word = self.closed.word(dir_at(&self.key) as usize + place);
        match kind_of_word(word) {
            Kind::Stored => {
                let first = log_at(&self.key) + (line_of_word(word) - self.key.line) * 4;
                let words = region_of(alloc, &self.closed, first as usize)?;
                let Payload {
                    lane,
                    form,
                    payload,
                } = read_payload(alloc, &words)?;
                Ok(Entry::Stored {
                    lane,
                    form,
                    payload,
                })
            }
            Kind::Void => Ok(Entry::Void),
            Kind::Mark => unreachable!(),
        }
    }

    /// All of them.
    pub fn all(&self, alloc: Global) -> Result<Entries, AllocError>
        ensures { IfOk result (λ entries. entries ≡ self.now) }
    {
        let mut entries = Entries::new(alloc);
        for place in 0..self.len() {
            let entry = self.entry(alloc, place)?;
            entries.push(entry)?;
        }
        Ok(entries)
    }
}

/// The words of the region that begins at a word, as many as its header says.
fn region_of(
    alloc: Global,
    closed: &Closed<bool, Global>,
    first: usize,
) -> Result<Vec<u64>, AllocError>
    requires full { IsFull closed.now.words }
    requires room { first + lines_of (slice_index (slots_items closed.now.words) first) * 4 ≤ slots_len
        closed.now.words }
    requires some { first < slots_len closed.now.words }
    ensures { IfOk result (λ words. words.items ≡ map (λ i. slice_index (slots_items closed.now.words) (first + i))
        (range_with_len 0 (lines_of (slice_index (slots_items closed.now.words) first) * 4))) }
{
    let size = lines_in(closed.word(first)) as usize * 4;
    let mut words = Vec::with_capacity(alloc, size)?;
    for offset in 0..size {
        words.push_reserved(closed.word(first + offset));
    }
    Ok(words)
}
