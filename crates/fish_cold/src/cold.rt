//! Records below the base, and the chains of their key entries, through a cache of pages.

ghost use Rattle.std.specs.Prelude.{◌≡◌, ◌≤◌};

use crate::decoding::{Asked, entry_on, node_on, row_on};
use crate::node::ColdNode;
use crate::page::Page;
use crate::reading::read_page;
use crate::refusal::ColdRefusal;
use crate::starts::{joined, start_of};
use fish_catalog::{Entry, PageStarts};
use fish_disk::Disk;
use fish_layout::{PAGE_WORDS, page_of};
use fish_psf::Steps;
use fish_rule::Base;
use lru::LruCache;
use std::alloc::{AllocError, Global};
use std::mem::replace;
use std::num::NonZeroUsize;
use std::sync::ledger::Ledger;

/// The older records of a store: how the log's pages below the base are read, and the 16 of them that were used last.
/// The page that holds the base's line is never among these: what of it lies below the base is kept beside them.
#[derive(Drop)]
pub struct Cold {
    alloc: Global,
    /// Where the log in memory begins.
    pub(crate) base: Base,
    /// Where the pages begin to hold regions.
    pub(crate) starts: PageStarts,
    /// The pages that were used last, by number.
    pub(crate) cache: LruCache<u64, Page>,
    /// The page that holds the base's line, as far as it lies below, if it was read.
    pub(crate) tail: Option<Page>,
    ghost few_lines: { base.line ≤ 68719176736 },
    ghost few_pages: { cache.cap ≡ 16 },
}

impl Cold {
    ghost use Rattle.std.specs.Prelude.{◌≡◌, ◌≢◌, ◌+◌, ◌*◌, ◌/◌, ◌%◌, ◌<◌, ◌≤◌, ◌-◌, ◌↔◌, ℕ, List, [], None, Some, Ok};
    ghost use Rattle.std.specs.Prelude.{IfErr, IfOk, IfSome, OnErr, OnOk, drop, option_copied};
    ghost use Rattle.std.specs.Option.{option_or};
    ghost use Rattle.fish_catalog.specs.declared.page_start.PageStart.{PageStart as Start};
    ghost use Rattle.fish_layout.specs.Pages.{page_of};
    ghost use Rattle.fish_catalog.specs.declared.entry.Entry.TheVariants.{Stored};
    ghost use Rattle.fish_rule.specs.declared.view.Key.{Key as TableKey};
    ghost use Rattle.fish_layout.specs.declared.parts.BodyParts.{BodyParts};
    ghost use Rattle.fish_layout.specs.declared.parts.KeyPart.{KeyPart as Key};
    ghost use Rattle.fish_cold.specs.Answers.{AnswersEntry, EndsWalk, IsDamageOf, IsLinkable, LoadsWords, Walks};
    ghost use Rattle.fish_cold.specs.Carries.{CarriesTable, IsEntryAnswer, IsEntryRead};
    ghost use Rattle.fish_cold.specs.Chains.{IsKeyAt};
    ghost use Rattle.fish_cold.specs.Regions.{Leads};
    ghost use Rattle.fish_cold.specs.Cached.{HasNodeOn, HasRegion, HoldsPage, IsReadFrom, LooksAtPage};
    ghost use Rattle.fish_cold.specs.within.Cached.{Answered, Brings};
    ghost use Rattle.fish_cold.specs.Cached.{ReadsAtMost, Uses, held_in, words_on};
    ghost use Rattle.fish_cold.specs.Pages.{page_words};
    ghost use Rattle.fish_cold.specs.Starts.{AddsFrom, IsStartIn, IsStartOf, with_starts};

    /// With this base and these page starts, and no page. Takes the memory of 16 entries of the list.
    pub fn new(alloc: Global, base: Base, starts: PageStarts) -> Result<Cold, AllocError>
        requires { base.line ≤ 68719176736 }
        ensures base { IfOk result (λ cold. cold.base ≡ base) }
        ensures starts { IfOk result (λ cold. cold.starts ≡ starts) }
        ensures none { IfOk result (λ cold. (cold.cache.entries ≡ []) × (cold.tail ≡ None)) }
        ensures read { IfOk result (λ cold. (c : List ℕ) → IsReadFrom c cold) }
    {
        let Some(pages) = NonZeroUsize::new(16) else {
            unreachable!()
        };
        Ok(Cold {
            alloc,
            base,
            starts,
            cache: LruCache::new(alloc, pages)?,
            tail: None,
        })
    }

    /// Where the log in memory begins.
    pub fn base(&self) -> Base
        ensures { result ≡ self.now.base }
    {
        self.base
    }

    /// The base becomes this one, and pages that had no start get theirs. The pages of the list stay. Takes a copy of
    /// the page starts.
    pub fn grow(&mut self, base: Base, starts: &PageStarts) -> Result<(), AllocError>
        requires few { base.line ≤ 68719176736 }
        requires later { (self.old.base.number ≤ base.number) × (self.old.base.line ≤ base.line) }
        ensures base { OnOk result (self.new.base ≡ base) }
        ensures starts { OnOk result (self.new.starts ≡ with_starts self.old.starts starts.now) }
        ensures read { OnOk result ((c : List ℕ) → AddsFrom self.old.starts self.old.base.line starts.now
            → IsReadFrom c self.old → IsReadFrom c self.new) }
        ensures pages { OnOk result ((self.new.cache ≡ self.old.cache) × (self.new.tail ≡ None)) }

        ensures refused { OnErr result (self.new ≡ self.old) }
    {
        let all = joined(self.alloc, self.starts.as_slice(), starts.as_slice())?;
        self.starts = all;
        self.base = base;
        self.tail = None;
        Ok(())
    }

    /// The entry of a number below the base. One load for each word of a record, and at most one call of the disk.
    pub fn cold_record<D: Disk, L: Ledger>(
        &mut self,
        disk: &mut D,
        number: u32,
        loads: &mut Steps<L>,
    ) -> Result<Entry, ColdRefusal>
        requires older { number < self.old.base.number }
        ensures entry { IfSome (D.content disk.new) (λ c. (rest : List ℕ) → IsReadFrom c self.old → HasRegion self.old c
            number rest → AnswersEntry number rest result × LoadsWords rest loads.old loads.new result) }
        ensures carried { (k : TableKey) (h : CarriesTable (D.content disk.new) k self.old) → IsEntryRead h number
            result }
        ensures looks { (start : Start) → IsStartOf self.old.starts number start → start.line < self.old.base.line
            → LooksAtPage D.Disk (page_of start.line) self.old self.new disk.old disk.new result }
        ensures reads { ReadsAtMost D.Disk self.old self.new disk.old disk.new result }

        ensures damage { IfErr result (IsDamageOf number) }
    {
        self.find_record(disk, number, loads)
    }

    /// The entry of a number, by the last page start that isn't after it.
    fn find_record<D: Disk, L: Ledger>(
        &mut self,
        disk: &mut D,
        number: u32,
        loads: &mut Steps<L>,
    ) -> Result<Entry, ColdRefusal>
        ensures entry { IfSome (D.content disk.new) (λ c. (rest : List ℕ) → IsReadFrom c self.old → HasRegion self.old c
            number rest → AnswersEntry number rest result × LoadsWords rest loads.old loads.new result) }
        ensures looks { (start : Start) → IsStartOf self.old.starts number start → start.line < self.old.base.line
            → LooksAtPage D.Disk (page_of start.line) self.old self.new disk.old disk.new result }
        ensures reads { ReadsAtMost D.Disk self.old self.new disk.old disk.new result }
        ensures damage { IfErr result (IsDamageOf number) }
    {
        match self.place_of(number) {
            Some((page, at)) => self.record_on(disk, page, at, number, loads),
            None => Err(ColdRefusal::Damaged { number }),
        }
    }

    /// The page of a number, and which of the page's regions it is, if a page start says so.
    fn place_of(&self, number: u32) -> Option<(u64, u32)>
        ensures found { (start : Start) → IsStartOf self.now.starts number start → start.line < self.now.base.line
            → result ≡ Some (page_of start.line, number - start.number) }
        ensures within { IfSome result (λ r. r.0 ≤ page_of self.now.base.line) }
    {
        let start = start_of(self.starts.as_slice(), number)?;
        if number < start.number || self.base.line <= start.line {
            return None;
        }
        Some((page_of(start.line), number - start.number))
    }

    /// The entry of a region of a page.
    fn record_on<D: Disk, L: Ledger>(
        &mut self,
        disk: &mut D,
        page: u64,
        at: u32,
        number: u32,
        loads: &mut Steps<L>,
    ) -> Result<Entry, ColdRefusal>
        requires within { page ≤ page_of self.old.base.line }
        ensures entry { IfSome (D.content disk.new) (λ c. (start : Start) (line : ℕ) → IsReadFrom c self.old → IsStartIn
            self.old.starts page start → Leads (page_words self.old.base.line page c) (start.line % 32768) at line
            → AnswersEntry number (drop (4 * line) (page_words self.old.base.line page c)) result
            × LoadsWords (drop (4 * line) (page_words self.old.base.line page c)) loads.old loads.new result) }
        ensures looks { LooksAtPage D.Disk page self.old self.new disk.old disk.new result }
        ensures damage { IfErr result (IsDamageOf number) }
    {
        match self.bring(disk, page) {
            Ok(fresh) => {
                let held = self.used(page, &fresh);
                let read = entry_on(self.alloc, held, at, number, loads);
                self.answer(page, fresh, read)
            }
            Err(refusal) => Err(refusal),
        }
    }

    /// The key entry at a place below the base's line, or none where there is no place, or the entry's record has
    /// a number below `from`. At most 38 loads, one where none is answered, and one call of the disk.
    pub fn cold_walk<D: Disk, L: Ledger>(
        &mut self,
        disk: &mut D,
        place: u64,
        below: u32,
        from: u32,
        loads: &mut Steps<L>,
    ) -> Result<Option<ColdNode>, ColdRefusal>
        requires older { place ≢ 0 → place < 4 * self.old.base.line }
        ensures node { IfSome (D.content disk.new) (λ c. (line : ℕ) (p : BodyParts) (j : ℕ) (k : Key) → IsReadFrom c
            self.old → HasNodeOn self.old c place line p j k → p.number < below → k.prev < place
            → Walks place from p j k result) }
        ensures ends { place ≢ 0 → IfSome (D.content disk.new) (λ c. IsReadFrom c self.old
            → EndsWalk (words_on self.old c place) (place % 131072) from result) }
        ensures carried { (t : TableKey) (h : CarriesTable (D.content disk.new) t self.old) (b n : ℕ) (p : BodyParts)
            (j : ℕ) (k : Key) → IsKeyAt h.prior b place n p j k → n < below → Walks place from p j k result }
        ensures linkable { IfOk result (λ o. IfSome o (IsLinkable place below from)) }
        ensures looks { place ≢ 0 → LooksAtPage D.Disk (place / 131072) self.old self.new disk.old disk.new result }
        ensures nowhere { place ≡ 0 → (result ≡ Ok None) × (self.new ≡ self.old) × (disk.new ≡ disk.old) }
        ensures reads { ReadsAtMost D.Disk self.old self.new disk.old disk.new result }
        ensures loads { loads.new ≤ loads.old + 38 }
        ensures none { IfOk result (λ o. o ≡ None → loads.new ≤ loads.old + 1) }

        ensures damage { IfErr result (IsDamageOf below) }
    {
        if place == 0 {
            return Ok(None);
        }
        self.walk_on(disk, Asked { place, below, from }, loads)
    }

    /// The key entry at a place.
    fn walk_on<D: Disk, L: Ledger>(
        &mut self,
        disk: &mut D,
        asked: Asked,
        loads: &mut Steps<L>,
    ) -> Result<Option<ColdNode>, ColdRefusal>
        requires older { asked.place < 4 * self.old.base.line }
        ensures node { IfSome (D.content disk.new) (λ c. (line : ℕ) (p : BodyParts) (j : ℕ) (k : Key) → IsReadFrom c
            self.old → HasNodeOn self.old c asked.place line p j k → p.number < asked.below → k.prev < asked.place
            → Walks asked.place asked.from p j k result) }
        ensures ends { IfSome (D.content disk.new) (λ c. IsReadFrom c self.old
            → EndsWalk (words_on self.old c asked.place) (asked.place % 131072) asked.from result) }
        ensures linkable { IfOk result (λ o. IfSome o (IsLinkable asked.place asked.below asked.from)) }
        ensures looks { LooksAtPage D.Disk (asked.place / 131072) self.old self.new disk.old disk.new result }
        ensures loads { loads.new ≤ loads.old + 38 }
        ensures none { IfOk result (λ o. o ≡ None → loads.new ≤ loads.old + 1) }
        ensures damage { IfErr result (IsDamageOf asked.below) }
    {
        let page = asked.place / PAGE_WORDS;
        match self.bring(disk, page) {
            Ok(fresh) => {
                let held = self.used(page, &fresh);
                let found = node_on(self.alloc, held, asked, loads);
                self.answer(page, fresh, found)
            }
            Err(refusal) => Err(refusal),
        }
    }

    /// The record of a key entry. One load for each of its words, and at most one call of the disk.
    pub fn cold_row<D: Disk, L: Ledger>(
        &mut self,
        disk: &mut D,
        node: &ColdNode,
        loads: &mut Steps<L>,
    ) -> Result<Entry, ColdRefusal>
        requires older { node.now.number < self.old.base.number }
        requires lower { node.now.place < 4 * self.old.base.line }
        ensures entry { IfSome (D.content disk.new) (λ c. (line : ℕ) (p : BodyParts) (k : Key) → IsReadFrom c self.old
            → HasNodeOn self.old c node.now.place line p node.now.key k
            → AnswersEntry node.now.number (drop (4 * line) (words_on self.old c node.now.place)) result
            × LoadsWords (drop (4 * line) (words_on self.old c node.now.place)) loads.old loads.new result) }
        ensures carried { (t : TableKey) (h : CarriesTable (D.content disk.new) t self.old) (b n : ℕ) (p : BodyParts)
            (k : Key) → IsKeyAt h.prior b node.now.place n p node.now.key k
            → IsEntryAnswer (Stored p.lane p.form p.payload) result }
        ensures looks { LooksAtPage D.Disk (node.now.place / 131072) self.old self.new disk.old disk.new result }

        ensures damage { IfErr result (IsDamageOf node.now.number) }
    {
        self.find_row(disk, node, loads)
    }

    /// The record of a key entry, on its page.
    fn find_row<D: Disk, L: Ledger>(
        &mut self,
        disk: &mut D,
        node: &ColdNode,
        loads: &mut Steps<L>,
    ) -> Result<Entry, ColdRefusal>
        requires lower { node.now.place < 4 * self.old.base.line }
        ensures entry { IfSome (D.content disk.new) (λ c. (line : ℕ) (p : BodyParts) (k : Key) → IsReadFrom c self.old
            → HasNodeOn self.old c node.now.place line p node.now.key k
            → AnswersEntry node.now.number (drop (4 * line) (words_on self.old c node.now.place)) result
            × LoadsWords (drop (4 * line) (words_on self.old c node.now.place)) loads.old loads.new result) }
        ensures looks { LooksAtPage D.Disk (node.now.place / 131072) self.old self.new disk.old disk.new result }
        ensures damage { IfErr result (IsDamageOf node.now.number) }
    {
        let page = node.place / PAGE_WORDS;
        match self.bring(disk, page) {
            Ok(fresh) => {
                let held = self.used(page, &fresh);
                let read = row_on(self.alloc, held, node, loads);
                self.answer(page, fresh, read)
            }
            Err(refusal) => Err(refusal),
        }
    }

    /// The page, if it isn't held, and none if it is.
    fn bring<D: Disk>(&self, disk: &mut D, page: u64) -> Result<Option<Page>, ColdRefusal>
        requires within { page ≤ page_of self.now.base.line }
        ensures { Brings D.Disk page self.now disk.old disk.new result }
    {
        if self.held(page).is_some() {
            return Ok(None);
        }
        let starts = self.starts.as_slice();
        match read_page(self.alloc, disk, self.base.line, starts, page) {
            Ok(read) => Ok(Some(read)),
            Err(refusal) => Err(refusal),
        }
    }

    /// The page, if it is held.
    fn held(&self, page: u64) -> Option<&Page>
        ensures { option_copied result ≡ held_in self.now page }
    {
        if page == page_of(self.base.line) {
            self.tail.as_ref()
        } else {
            self.cache.peek(&page)
        }
    }

    /// The page that was brought, or is held.
    fn used<'a>(&'a self, page: u64, fresh: &'a Option<Page>) -> &'a Page
        requires { fresh.now ≡ None → HoldsPage self.now page }
        ensures { Some result.now ≡ option_or fresh.now (held_in self.now page) }
    {
        match fresh {
            Some(page) => page,
            None => match self.held(page) {
                Some(page) => page,
                None => unreachable!(),
            },
        }
    }

    /// The answer that was read from a page, which is the first of the list from then on.
    fn answer<T: Drop>(
        &mut self,
        page: u64,
        fresh: Option<Page>,
        read: Result<T, ColdRefusal>,
    ) -> Result<T, ColdRefusal>
        requires { (fresh ≡ None) ↔ HoldsPage self.old page }
        ensures { Answered page fresh self.old self.new read result }
    {
        match read {
            Ok(value) => match self.keep(page, fresh) {
                Ok(()) => Ok(value),
                Err(want) => {
                    drop(value);
                    Err(ColdRefusal::from(want))
                }
            },
            Err(refusal) => {
                drop(fresh);
                Err(refusal)
            }
        }
    }

    /// The page becomes the first of the list, and is kept where it was brought.
    fn keep(&mut self, page: u64, fresh: Option<Page>) -> Result<(), AllocError>
        requires { (fresh ≡ None) ↔ HoldsPage self.old page }
        ensures kept { OnOk result ((p : Page) → Some p ≡ option_or fresh (held_in self.old page) → Uses page p self.old
            self.new) }
        ensures refused { OnErr result (self.new ≡ self.old) }
    {
        let last = page == page_of(self.base.line);
        match fresh {
            Some(read) if last => {
                drop(replace(&mut self.tail, Some(read)));
            }
            Some(read) => match self.cache.put(page, read) {
                Ok(old) => drop(old),
                Err(refused) => {
                    drop(refused);
                    return Err(AllocError);
                }
            },
            None if last => {}
            None => {
                self.cache.promote(&page);
            }
        }
        Ok(())
    }
}
