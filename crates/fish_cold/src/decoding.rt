//! Entries and key entries, from the words of a page. Nothing is believed of the words.

ghost use Rattle.std.specs.Prelude.{◌≡◌, ◌↔◌, ◌+◌, ◌*◌, ◌%◌, ◌^◌, ◌<◌, ◌≤◌, ℕ, None, Some};
ghost use Rattle.std.specs.Prelude.{IfErr, IfOk, IfSome, IsSome, MatchOption, drop, length};
ghost use Rattle.fish_catalog.specs.declared.entry.Entry.TheVariants.{Stored};
ghost use Rattle.fish_cold.specs.within.Shown.{IsShownIn, ShowsNode};
ghost use Rattle.fish_cold.specs.Answers.{AnswersEntry, EndsWalk, HasNodeAt, IsLinkable, IsOlderAt, LoadsWords, Walks};
ghost use Rattle.fish_cold.specs.within.Answers.{IsReadingOf};
ghost use Rattle.fish_cold.specs.Regions.{AreRegions, Leads};
ghost use Rattle.fish_cold.specs.within.Regions.{IsRegionWhole};
ghost use Rattle.fish_cold.specs.declared.decoding.Shown.TheVariants.{Older as OlderOne};
ghost use Rattle.fish_image.specs.Log.{region as region_of};
ghost use Rattle.fish_layout.specs.Cleared.{entry_at as key_at};
ghost use Rattle.fish_layout.specs.declared.parts.BodyParts.{BodyParts};
ghost use Rattle.fish_layout.specs.declared.parts.KeyPart.{KeyPart as Key};

use crate::node::ColdNode;
use crate::page::Page;
use crate::refusal::ColdRefusal;
use fish_catalog::Entry;
use fish_layout::{
    KeyPart, LINE_WORDS, PAGE_WORDS, Payload, entry_at as key_at, find_key, find_payload, lines_in,
    number_in, offset_in, place_in, size_in, void_header,
};
use fish_psf::Steps;
use std::alloc::{AllocError, Global};
use std::sync::ledger::Ledger;

/// The entry of a region of a page, counted from the page's first one. One load for each word of a record.
pub(crate) fn entry_on<L: Ledger>(
    alloc: Global,
    page: &Page,
    at: u32,
    number: u32,
    loads: &mut Steps<L>,
) -> Result<Entry, ColdRefusal>
    ensures entry { (first line : ℕ) → AreRegions page.now.words.items first page.now.regions.items
        → Leads page.now.words.items first at line → AnswersEntry number (drop (4 * line) page.now.words.items) result
        × LoadsWords (drop (4 * line) page.now.words.items) loads.old loads.new result }
    ensures damage { IfErr result (IsReadingOf number) }
{
    entry_in(
        alloc,
        page.words.as_slice(),
        page.regions.as_slice(),
        at,
        number,
        loads,
    )
}

/// The entry of a region, from the words of a page and the lines at which its regions begin.
fn entry_in<L: Ledger>(
    alloc: Global,
    words: &[u64],
    regions: &[u64],
    at: u32,
    number: u32,
    loads: &mut Steps<L>,
) -> Result<Entry, ColdRefusal>
    ensures entry { (first line : ℕ) → AreRegions words.now first regions.now → Leads words.now first at line
        → AnswersEntry number (drop (4 * line) words.now) result }
    ensures loads { (first line : ℕ) → AreRegions words.now first regions.now → Leads words.now first at line
        → LoadsWords (drop (4 * line) words.now) loads.old loads.new result }
    ensures damage { IfErr result (IsReadingOf number) }
{
    let at = at as usize;
    if regions.len() <= at {
        return Err(ColdRefusal::Damaged { number });
    }
    let line = regions[at];
    if words.len() as u64 / LINE_WORDS <= line {
        return Err(ColdRefusal::Damaged { number });
    }
    entry_at(alloc, &words[(LINE_WORDS * line) as usize..], number, loads)
}

/// The entry of the region at the front of words. One load for each word of a record.
fn entry_at<L: Ledger>(
    alloc: Global,
    rest: &[u64],
    number: u32,
    loads: &mut Steps<L>,
) -> Result<Entry, ColdRefusal>
    requires { 0 < length rest.now }
    ensures entry { AnswersEntry number rest.now result }
    ensures loads { LoadsWords rest.now loads.old loads.new result }
    ensures damage { IfErr result (IsReadingOf number) }
{
    let lines = lines_in(rest[0]);
    if lines == 0 {
        return Err(ColdRefusal::Damaged { number });
    }
    if rest[0] == void_header(lines) {
        return Ok(Entry::Void);
    }
    let Some(region) = region_in(rest) else {
        return Err(ColdRefusal::Damaged { number });
    };
    let Some(payload) = find_payload(alloc, region)? else {
        return Err(ColdRefusal::Damaged { number });
    };
    count_words(loads, region.len());
    Ok(entry_of(payload))
}

/// A record as an entry.
fn entry_of(payload: Payload) -> Entry
    ensures { result ≡ Stored payload.lane payload.form payload.payload }
{
    Entry::Stored {
        lane: payload.lane,
        form: payload.form,
        payload: payload.payload,
    }
}

/// Which key entry a walk asks for.
#[derive(Clone, Copy)]
pub(crate) struct Asked {
    /// Where it is, in words from the log's start.
    pub place: u64,
    /// Its record's number is below this one.
    pub below: u32,
    /// The walk ends at records below this number.
    pub from: u32,
}

/// The key entry that is asked for, on its page, or none where its record's number is below `from`. At most 38 loads.
pub(crate) fn node_on<L: Ledger>(
    alloc: Global,
    page: &Page,
    asked: Asked,
    loads: &mut Steps<L>,
) -> Result<Option<ColdNode>, ColdRefusal>
    ensures node { (line : ℕ) (p : BodyParts) (j : ℕ) (k : Key) → HasNodeAt page.now.words.items (asked.place % 131072)
        line p j k → p.number < asked.below → k.prev < asked.place → Walks asked.place asked.from p j k result }
    ensures ends { EndsWalk page.now.words.items (asked.place % 131072) asked.from result }
    ensures linkable { IfOk result (λ o. IfSome o (IsLinkable asked.place asked.below asked.from)) }
    ensures loads { loads.new ≤ loads.old + 38 }
    ensures none { IfOk result (λ o. o ≡ None → loads.new ≤ loads.old + 1) }
    ensures damage { IfErr result (IsReadingOf asked.below) }
{
    let at = (asked.place % PAGE_WORDS) as usize;
    node_in(alloc, page.words.as_slice(), at, asked, loads)
}

/// The key entry at a word of a page.
fn node_in<L: Ledger>(
    alloc: Global,
    words: &[u64],
    at: usize,
    asked: Asked,
    loads: &mut Steps<L>,
) -> Result<Option<ColdNode>, ColdRefusal>
    requires { at < 2 ^ 17 }
    ensures node { (line : ℕ) (p : BodyParts) (j : ℕ) (k : Key) → HasNodeAt words.now at line p j k
        → p.number < asked.below → k.prev < asked.place → Walks asked.place asked.from p j k result }
    ensures ends { EndsWalk words.now at asked.from result }
    ensures linkable { IfOk result (λ o. IfSome o (IsLinkable asked.place asked.below asked.from)) }
    ensures loads { loads.new ≤ loads.old + 38 }
    ensures none { IfOk result (λ o. o ≡ None → loads.new ≤ loads.old + 1) }
    ensures damage { IfErr result (IsReadingOf asked.below) }
{
    match shown_at(words, at, asked.below, asked.from) {
        Shown::Older => {
            loads.tick();
            Ok(None)
        }
        Shown::Damaged => Err(ColdRefusal::Damaged {
            number: asked.below,
        }),
        Shown::Entry {
            number,
            key,
            words: count,
        } => {
            count_words(loads, count);
            shown_node(alloc, words, at, asked, number, key)
        }
    }
}

/// What the second and third word of a key entry show.
#[derive(Clone, Copy)]
pub(crate) enum Shown {
    /// Its record's number is below the range.
    Older,
    /// It is no entry that can be there.
    Damaged,
    /// Its record has this number, it is the entry of this place in it, and so many words of the record say it.
    Entry { number: u32, key: u16, words: usize },
}

/// What the second and third word of a key entry at a word of a page show.
fn shown_at(words: &[u64], at: usize, below: u32, from: u32) -> Shown
    requires { at < 2 ^ 17 }
    ensures shown { (line : ℕ) (p : BodyParts) (j : ℕ) (k : Key) → HasNodeAt words.now at line p j k → p.number < below
        → ShowsNode from p j result }
    ensures within { IsShownIn (length words.now) at below from result }
    ensures older { (result ≡ OlderOne) ↔ IsOlderAt words.now at from }
{
    if words.len() <= at + 2 {
        return Shown::Damaged;
    }
    let number = number_in(words[at + 1]);
    let third = words[at + 2];
    if number < from {
        return Shown::Older;
    }
    if number >= below {
        return Shown::Damaged;
    }
    if size_in(third) > 256 {
        return Shown::Damaged;
    }
    Shown::Entry {
        number,
        key: place_in(words[at + 1]),
        words: 5 + (offset_in(third) % 8 + size_in(third) + 7) / 8,
    }
}

/// The key entry at a word of a page that shows this number and this place in its record.
fn shown_node(
    alloc: Global,
    words: &[u64],
    at: usize,
    asked: Asked,
    number: u32,
    key: u16,
) -> Result<Option<ColdNode>, ColdRefusal>
    requires room { at < length words.now }
    requires within { (asked.from ≤ number) × (number < asked.below) }
    ensures node { (line : ℕ) (p : BodyParts) (k : Key) → HasNodeAt words.now at line p key k → number ≡ p.number
        → k.prev < asked.place → Walks asked.place asked.from p key k result }
    ensures some { IfOk result (λ o. IsSome o) }
    ensures linkable { IfOk result (λ o. IfSome o (IsLinkable asked.place asked.below asked.from)) }
    ensures damage { IfErr result (IsReadingOf asked.below) }
{
    match linked_at(alloc, words, at, asked.place, key)? {
        Some(found) => Ok(Some(node_of(number, asked.place, key, found))),
        None => Err(ColdRefusal::Damaged {
            number: asked.below,
        }),
    }
}

/// The key entry of this place in its record at a word, with a previous node that is lower than a place, or none where
/// there can be none.
fn linked_at(
    alloc: Global,
    words: &[u64],
    at: usize,
    place: u64,
    key: u16,
) -> Result<Option<KeyPart>, AllocError>
    requires { at < length words.now }
    ensures found { IfOk result (λ o. (line : ℕ) (p : BodyParts) (k : Key) → HasNodeAt words.now at line p key k
        → k.prev < place → o ≡ Some k) }
    ensures lower { IfOk result (λ o. IfSome o (λ k. k.prev < place)) }
{
    match key_around(alloc, words, at, key)? {
        Some(found) => Ok(lower(found, place)),
        None => Ok(None),
    }
}

/// A key entry, if its previous node is lower than a place.
fn lower(found: KeyPart, place: u64) -> Option<KeyPart>
    ensures kept { found.prev < place → result ≡ Some found }
    ensures lower { IfSome result (λ k. k.prev < place) }
{
    if found.prev < place {
        Some(found)
    } else {
        drop(found);
        None
    }
}

/// A key entry with its place.
fn node_of(number: u32, place: u64, key: u16, found: KeyPart) -> ColdNode
    ensures { result ≡ record {
      number = number;
      place = place;
      id = found.id;
      key = key;
      prev = found.prev;
      value = found.value;
    } }
{
    ColdNode {
        number,
        place,
        id: found.id,
        key,
        prev: found.prev,
        value: found.value,
    }
}

/// The key entry of this place in its record at a word, or none where there can be none.
fn key_around(
    alloc: Global,
    words: &[u64],
    at: usize,
    key: u16,
) -> Result<Option<KeyPart>, AllocError>
    requires { at < length words.now }
    ensures { IfOk result (λ o. (line : ℕ) (p : BodyParts) (k : Key) → HasNodeAt words.now at line p key k
        → o ≡ Some k) }
{
    let Some(rest) = rest_around(words, at, key) else {
        return Ok(None);
    };
    let Some(region) = region_in(rest) else {
        return Ok(None);
    };
    find_key(alloc, region, usize::from(key))
}

/// The record of a key entry, on its page. One load for each of its words.
pub(crate) fn row_on<L: Ledger>(
    alloc: Global,
    page: &Page,
    node: &ColdNode,
    loads: &mut Steps<L>,
) -> Result<Entry, ColdRefusal>
    ensures entry { (line : ℕ) (p : BodyParts) (k : Key)
        → HasNodeAt page.now.words.items (node.now.place % 131072) line p
        node.now.key k → AnswersEntry node.now.number (drop (4 * line) page.now.words.items) result
        × LoadsWords (drop (4 * line) page.now.words.items) loads.old loads.new result }
    ensures damage { IfErr result (IsReadingOf node.now.number) }
{
    let at = (node.place % PAGE_WORDS) as usize;
    row_in(alloc, page.words.as_slice(), at, node, loads)
}

/// The record of a key entry at a word of a page.
fn row_in<L: Ledger>(
    alloc: Global,
    words: &[u64],
    at: usize,
    node: &ColdNode,
    loads: &mut Steps<L>,
) -> Result<Entry, ColdRefusal>
    ensures entry { (line : ℕ) (p : BodyParts) (k : Key) → HasNodeAt words.now at line p node.now.key k
        → AnswersEntry node.now.number (drop (4 * line) words.now) result }
    ensures loads { (line : ℕ) (p : BodyParts) (k : Key) → HasNodeAt words.now at line p node.now.key k
        → LoadsWords (drop (4 * line) words.now) loads.old loads.new result }
    ensures damage { IfErr result (IsReadingOf node.now.number) }
{
    let number = node.number;
    if words.len() <= at {
        return Err(ColdRefusal::Damaged { number });
    }
    match rest_around(words, at, node.key) {
        Some(rest) => entry_at(alloc, rest, number, loads),
        None => Err(ColdRefusal::Damaged { number }),
    }
}

/// The words from the header on of the record whose key entry of this place is at a word, if there can be one.
fn rest_around(words: &[u64], at: usize, key: u16) -> Option<&[u64]>
    requires { at < length words.now }
    ensures rest { MatchOption result ((line : ℕ) → at ≡ 4 * line + key_at key → ⊥)
        (λ r. (line : ℕ) → at ≡ 4 * line + key_at key → r.now ≡ drop (4 * line) words.now) }
    ensures some { IfSome result (λ r. 0 < length r.now) }
{
    let front = key_at(u64::from(key)) as usize;
    if at < front || (at - front) % 4 != 0 {
        return None;
    }
    Some(&words[at - front..])
}

/// The region at the front of words, if it ends within them.
fn region_in(rest: &[u64]) -> Option<&[u64]>
    requires { 0 < length rest.now }
    ensures { MatchOption result (¬ IsRegionWhole rest.now) (λ r. r.now ≡ region_of rest.now) }
{
    let count = (LINE_WORDS * lines_in(rest[0])) as usize;
    if rest.len() < count {
        return None;
    }
    Some(&rest[..count])
}

/// So many words more were loaded.
fn count_words<L: Ledger>(loads: &mut Steps<L>, words: usize)
    ensures { loads.new ≡ loads.old + words }
{
    for _ in 0..words {
        loads.tick();
    }
}
