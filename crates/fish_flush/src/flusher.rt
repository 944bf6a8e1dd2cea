//! What is kept of the last commit.

ghost use Rattle.std.specs.Prelude.{◌≡◌, ◌≤◌, false, IfOk};
ghost use Rattle.fish_flush.specs.within.Carrying.{flusher_after};
ghost use Rattle.fish_flush.specs.Kept.{IsKeptOf};

use crate::drafting::Draft;
use fish_catalog::{Checked, Commit, PageStart, page_after};
use std::alloc::{AllocError, Global};

/// What is kept of the last commit: the next one goes on from there.
#[derive(Debug, Drop)]
pub struct Flusher {
    /// The slot whose gate is open.
    pub(crate) slot: u8,
    /// Its turn.
    pub(crate) turn: u8,
    /// How many entries it counts.
    pub(crate) count: u32,
    /// How many lines they take.
    pub(crate) line: u64,
    /// Of each bucket the place of the newest key entry among them, or 0.
    pub(crate) heads: Vec<u64>,
    /// The first page in which none of their regions begins.
    pub(crate) page: u64,
    /// Where the pages before that begin to hold regions.
    pub(crate) starts: Vec<PageStart>,
    /// Whether a call of the disk failed: then no commit may follow.
    pub(crate) shut: bool,
}

impl Flusher {
    /// The flusher of a commit that is alone in a slot, as its image was checked.
    pub fn resumed(
        alloc: Global,
        slot: u8,
        c: &Commit,
        checked: &Checked,
    ) -> Result<Flusher, AllocError>
        ensures kept { IfOk result (IsKeptOf slot c.now checked.now.heads checked.now.starts) }
        ensures live { IfOk result (λ f. f.shut ≡ false) }
    {
        Ok(Flusher {
            slot,
            turn: c.turn,
            count: c.count,
            line: c.lines,
            heads: Vec::from_slice(alloc, checked.heads.as_slice())?,
            page: page_after(checked.starts.as_slice()),
            starts: Vec::from_slice(alloc, checked.starts.as_slice())?,
            shut: false,
        })
    }

    /// Keeps what was committed into the other slot.
    pub(crate) fn keep(&mut self, draft: Draft)
        requires { self.old.slot ≤ 1 }
        ensures { self.new ≡ flusher_after self.old draft }
    {
        self.slot = 1 - self.slot;
        self.turn = draft.turn;
        self.count = draft.count;
        self.line = draft.line;
        let batch = draft.batch;
        self.heads = batch.heads;
        self.page = batch.page;
        self.starts = batch.starts;
    }

    /// How many entries the last commit counts.
    pub fn count(&self) -> u32
        ensures { result ≡ self.now.count }
    {
        self.count
    }

    /// How many lines they take.
    pub fn line(&self) -> u64
        ensures { result ≡ self.now.line }
    {
        self.line
    }

    /// Of each bucket the place of the newest key entry of the last commit, or 0.
    pub fn heads(&self) -> &[u64]
        ensures { result.now ≡ self.now.heads.items }
    {
        self.heads.as_slice()
    }

    /// Where the pages of the last commit begin to hold regions.
    pub fn starts(&self) -> &[PageStart]
        ensures { result.now ≡ self.now.starts.items }
    {
        self.starts.as_slice()
    }

    /// Whether a call of the disk failed.
    pub fn is_shut(&self) -> bool
        ensures { result ≡ self.now.shut }
    {
        self.shut
    }
}
