//! Regions on their way to the disk: a page of lines at most, and one region more.
//!
//! All memory is taken when a batch is made: no region that is added takes more.

ghost use Rattle.std.specs.Prelude.{◌≡◌, ◌<◌, ◌≤◌, ◌+◌, ◌-◌, ◌*◌, ◌++◌, ◌∷◌, [], ℕ, List, length, IfOk};
ghost use Rattle.std.specs.Vec.{vec_capacity, vec_len};
ghost use Rattle.fish_catalog.specs.PageStarts.{starts_after};
ghost use Rattle.fish_catalog.specs.declared.commit.Commit.{Commit};
ghost use Rattle.fish_catalog.specs.declared.entry.Entry.{Entry};
ghost use Rattle.fish_image.specs.Stands.{words_in};
ghost use Rattle.fish_layout.specs.Pages.{page_of};
ghost use Rattle.fish_rule.specs.Logs.{Extends, KnowsAs};
ghost use Rattle.fish_rule.specs.Passes.{IsPassOf, view};
ghost use Rattle.fish_flush.specs.within.Filling.{Begins, HasAdded, HasBatchRoom};
ghost use Rattle.fish_flush.specs.Reading.{IsLineAt};

use crate::flusher::Flusher;
use crate::region::{copy_region, put_words};
use fish_catalog::PageStart;
use fish_layout::{LINE_BYTES, LINE_WORDS, PAGE_LINES, page_of};
use fish_rule::{Log, Pass};
use std::alloc::{AllocError, Global};

/// The lines of the largest region.
const REGION_LINES: u64 = 18_625;

/// Regions that are copied after those of the last commit.
#[derive(Debug, Drop)]
pub(crate) struct Batch {
    /// The line at which they end.
    pub line: u64,
    /// The line up to which they are written.
    pub written: u64,
    /// The line at which the last of them will end.
    pub end: u64,
    /// The lines that aren't written yet, each word lowest byte first, and room for more.
    pub bytes: Vec<u8>,
    /// Room for the words of one region.
    pub words: Vec<u64>,
    /// Of each bucket the place of the newest key entry up to there, or 0.
    pub heads: Vec<u64>,
    /// The first page in which none of them begins.
    pub page: u64,
    /// Where the pages before that begin to hold regions.
    pub starts: Vec<PageStart>,
}

/// A batch without a region, with all memory for regions up to a line.
pub(crate) fn new_batch(alloc: Global, flusher: &Flusher, end: u64) -> Result<Batch, AllocError>
    ensures { IfOk result (Begins flusher.now end) }
{
    let pages = (page_of(end) + 1).saturating_sub(page_of(flusher.line));
    let mut starts = Vec::from_slice(alloc, flusher.starts.as_slice())?;
    starts.reserve(pages as usize)?;
    Ok(Batch {
        line: flusher.line,
        written: flusher.line,
        end,
        bytes: zero_bytes(alloc, (LINE_BYTES * (PAGE_LINES + REGION_LINES)) as usize)?,
        words: zero_words(alloc, (LINE_WORDS * REGION_LINES) as usize)?,
        heads: Vec::from_slice(alloc, flusher.heads.as_slice())?,
        page: flusher.page,
        starts,
    })
}

/// So many zero bytes.
fn zero_bytes(alloc: Global, count: usize) -> Result<Vec<u8>, AllocError>
    ensures { IfOk result (λ bytes. length bytes.items ≡ count) }
{
    vec![in alloc; 0u8; count]
}

/// So many zero words.
fn zero_words(alloc: Global, count: usize) -> Result<Vec<u64>, AllocError>
    ensures { IfOk result (λ words. length words.items ≡ count) }
{
    vec![in alloc; 0u64; count]
}

/// Copies the region of a settled number after the others. No memory is taken.
pub(crate) fn add_region(log: &Log, pass: &mut Pass, number: u32, batch: &mut Batch)
    requires pass { IsPassOf log.now pass.old }
    requires from { log.now.key.number ≤ number }
    requires counted { number < (view pass.old).learned.count }
    requires line { IsLineAt (view pass.old) number batch.old.line }
    requires end { (to : ℕ) × (number < to) × (to ≤ (view pass.old).learned.settled) × IsLineAt (view pass.old) to
        batch.old.end }
    requires some { 0 < length batch.old.heads.items }
    requires page { (batch.old.written ≤ batch.old.line) × (page_of batch.old.written ≡ page_of batch.old.line) }
    requires room { HasBatchRoom batch.old }
    ensures pass { IsPassOf log.now pass.new }
    ensures extends { Extends (view pass.old) (view pass.new) }
    ensures added { HasAdded (view pass.old) (view pass.new) log.now.key.end number batch.old batch.new }
{
    let from = (LINE_BYTES * (batch.line - batch.written)) as usize;
    let size = copy_region(
        log,
        pass,
        number,
        &mut batch.heads,
        batch.words.as_mut_slice(),
    );
    put_words(&mut batch.bytes, from, &batch.words[..size]);
    batch.page = keep_start(&mut batch.starts, batch.page, number, batch.line);
    batch.line += size as u64 / LINE_WORDS;
}

/// Keeps the region of a number at a line where it is the first of its page, and answers the next page.
fn keep_start(starts: &mut Vec<PageStart>, page: u64, number: u32, line: u64) -> u64
    requires room { page ≤ page_of line → vec_len starts.old < vec_capacity starts.old }
    ensures page { result ≡ page_of line + 1 }
    ensures starts { starts.new.items ≡ starts_after page number line starts.old.items }
    ensures few { vec_len starts.new ≤ vec_len starts.old + 1 }
    ensures kept { page_of line < page → vec_len starts.new ≡ vec_len starts.old }
    ensures capacity { vec_capacity starts.new ≡ vec_capacity starts.old }
{
    let here = page_of(line);
    if page <= here {
        starts.push_reserved(PageStart { number, line });
    }
    here + 1
}
