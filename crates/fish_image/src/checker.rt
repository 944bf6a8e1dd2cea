//! Words held to a commit, in pieces of any size.

use crate::opening::{checked_of, first, index_rows, is_whole};
use crate::progress::Progress;
use crate::refusal::ImageRefusal;
use crate::resumption::resume;
use crate::terms::Terms;
use fish_catalog::{Checked, Commit};
use fish_read::RecordReader;
use std::alloc::{AllocError, Global};

/// Holds the words of a log's lines to a commit. It keeps one word for each bucket, where pages begin,
/// and words of one region at most between two pieces.
#[derive(Drop)]
pub struct Checker {
    pub(crate) terms: Terms,
    reader: RecordReader,
    pub(crate) at: Progress,
    pub(crate) left: Vec<u64>,
    pub(crate) damaged: Option<u32>,
}

impl Checker {
    ghost use Rattle.std.specs.Prelude.{◌≡◌, ◌++◌, ◌≤◌, List, ℕ, [], IfErr, IfOk};
    ghost use Rattle.fish_catalog.specs.declared.commit.Commit.{Commit as Told};
    ghost use Rattle.fish_image.specs.Checking.{Fed, HasChecked, HasSeen, IsImageCause, IsChecker};
    ghost use Rattle.fish_image.specs.Commits.{IsWithin};

    /// A checker that has seen no word.
    pub fn new(alloc: Global, c: &Commit) -> Result<Checker, AllocError>
        requires { IsWithin c.now }
        ensures seen { IfOk result (λ checker. HasSeen c.now checker []) }
        ensures checker { IfOk result IsChecker }
    {
        let checker = Checker::begin(alloc, c)?;
        Ok(checker)
    }

    /// The same, part by part.
    fn begin(alloc: Global, c: &Commit) -> Result<Checker, AllocError>
        requires { IsWithin c.now }
        ensures { IfOk result (λ checker. HasSeen c.now checker []) }
    {
        Ok(Checker {
            terms: Terms {
                count: c.count,
                lines: c.lines,
                rows: index_rows(alloc, c.rows.rows())?,
            },
            reader: RecordReader::new(alloc),
            at: first(alloc, c.bucket_bits)?,
            left: Vec::new(alloc),
            damaged: None,
        })
    }

    /// Takes the next words.
    pub fn feed(&mut self, words: &[u64]) -> Result<(), ImageRefusal>
        requires { IsChecker self.old }
        ensures fed { (c : Told) (w : List ℕ) → HasSeen c self.old w → Fed result c w words.now self.new }
        ensures checker { IsChecker self.new }
    {
        self.read(words)
    }

    /// The same by the words that were left.
    fn read(&mut self, words: &[u64]) -> Result<(), ImageRefusal>
        requires { IsChecker self.old }
        ensures { (c : Told) (w : List ℕ) → HasSeen c self.old w → Fed result c w words.now self.new }
    {
        if let Some(number) = self.damaged {
            return Err(ImageRefusal::Damaged { number });
        }
        if self.at.number >= self.terms.count {
            return Ok(());
        }
        let alloc = *self.left.allocator();
        let resumed = resume(
            alloc,
            &self.terms,
            &mut self.reader,
            &self.at,
            self.left.as_slice(),
            words,
        )?;
        self.at = resumed.at;
        self.left = resumed.left;
        self.damaged = resumed.damaged;
        match resumed.damaged {
            Some(number) => Err(ImageRefusal::Damaged { number }),
            None => Ok(()),
        }
    }

    /// Answers for all words.
    pub fn finish(self) -> Result<Checked, ImageRefusal>
        ensures found { IfOk result (λ checked. (c : Told) (w : List ℕ) → HasSeen c self w → HasChecked c w checked) }
        ensures damaged { IfErr result (λ e. (c : Told) (w : List ℕ) → HasSeen c self w → IsImageCause c w e) }
    {
        if let Some(number) = self.damaged {
            drop(self);
            return Err(ImageRefusal::Damaged { number });
        }
        let number = self.at.number;
        if !is_whole(&self.terms, &self.at) {
            drop(self);
            return Err(ImageRefusal::Damaged { number });
        }
        let checked = checked_of(*self.left.allocator(), &self.at);
        drop(self);
        Ok(checked?)
    }
}
