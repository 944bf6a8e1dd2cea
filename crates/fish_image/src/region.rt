//! One region of a log: the padding at a page's end, or a record.
//!
//! Whoever calls has cut the region out of the words by its header, and has seen that it ends within
//! the committed lines.

ghost use Rattle.std.specs.Prelude.{◌≡◌, ◌≢◌, ◌-◌, ◌↔◌, ◌+◌, ◌*◌, ◌^◌, ◌≤◌, ◌<◌, ℕ, List, false, IfOk, IsTrue};
ghost use Rattle.std.specs.Prelude.{MatchOption, OnOk, length, slice_index};
ghost use Rattle.fish_catalog.specs.declared.commit.Commit.{Commit};
ghost use Rattle.fish_catalog.specs.declared.entry.Entry.{Entry};
ghost use Rattle.fish_catalog.specs.declared.entry.Entry.TheVariants.{Void};
ghost use Rattle.fish_layout.specs.Body.{IsBody, IsProper};
ghost use Rattle.fish_layout.specs.Header.{lines_of};
ghost use Rattle.fish_layout.specs.declared.parts.BodyParts.{BodyParts};
ghost use Rattle.fish_image.specs.Log.{FollowsIn, IsKeptAt, IsRecordAt, behind_record, void_words};
ghost use Rattle.fish_image.specs.Progress.{AreHeads, IsAt};
ghost use Rattle.fish_image.specs.within.Progress.{LinksKeys, TookRegion};
ghost use Rattle.fish_image.specs.Reached.{Reached, reached_after};
ghost use Rattle.fish_layout.specs.Pages.{page_of};
ghost use Rattle.fish_image.specs.Terms.{AreTermsOf};
ghost use Rattle.fish_image.specs.within.Regions.{CanTakeRegion, HasKeysIn};
ghost use Rattle.fish_psf.specs.Blanks.{IsBlankOf};

use crate::keys::has_keys;
use crate::progress::Progress;
use crate::terms::{IndexRow, Terms};
use fish_catalog::PageStart;
use fish_layout::{
    BodyParts, KeyPart, bucket_of, crosses_page, key_hash, lines_in, page_of, place_of, read_body,
    void_header,
};
use fish_psf::{PsfRefusal, Steps};
use fish_read::RecordReader;
use std::alloc::{AllocError, Global};
use std::marker::Brand;
use std::sync::ledger::{Blank, Ledger};

/// Reads the next region, and answers whether it agrees with what was committed.
pub(crate) fn take_region(
    alloc: Global,
    terms: &Terms,
    reader: &mut RecordReader,
    at: &mut Progress,
    r: &[u64],
) -> Result<bool, AllocError>
    requires some { 0 < length r.now }
    requires size { length r.now ≡ 4 * lines_of (slice_index r.now 0) }
    requires can { CanTakeRegion terms.now at.old (lines_of (slice_index r.now 0)) }
    ensures { IfOk result (λ yes. (c : Commit) (s : Reached) → AreTermsOf c terms.now → IsAt c s at.old
        → TookRegion yes c (FollowsIn c s (lines_of (slice_index r.now 0)) r.now) at.new) }
{
    let lines = lines_in(r[0]);
    if is_void(r, lines) {
        return take_void(at, lines);
    }
    take_record(alloc, terms, reader, at, r, lines)
}

/// Whether a region is padding.
fn is_void(r: &[u64], lines: u64) -> bool
    requires some { 0 < length r.now }
    requires size { length r.now ≡ 4 * lines }
    requires few { lines < 2 ^ 16 }
    ensures { IsTrue result ↔ (r.now ≡ void_words lines) }
{
    r[0] == void_header(lines) && r[1..].iter().all(|word| *word == 0)
}

/// Reads padding.
fn take_void(at: &mut Progress, lines: u64) -> Result<bool, AllocError>
    requires some { 1 ≤ lines }
    requires few { at.old.number < 2 ^ 28 }
    requires short { at.old.line + lines < 2 ^ 40 }
    ensures { IfOk result (λ yes. (c : Commit) (s : Reached) → IsAt c s at.old → TookRegion yes c
        (λ n. (page_of s.line < page_of (s.line + lines - 1)) × (n ≡ reached_after s lines s.places Void)) at.new) }
{
    if !crosses_page(at.line, lines) {
        return Ok(false);
    }
    pass(at, lines)?;
    Ok(true)
}

/// Goes on after a region of so many lines.
fn pass(at: &mut Progress, lines: u64) -> Result<(), AllocError>
    requires some { 1 ≤ lines }
    requires few { at.old.number < 2 ^ 28 }
    requires short { at.old.line + lines < 2 ^ 40 }
    ensures { OnOk result ((c : Commit) (s : Reached) (entry : Entry) → IsAt c s at.old
        → IsAt c (reached_after s lines s.places entry) at.new) }
{
    let page = page_of(at.line);
    if at.page <= page {
        let start = PageStart {
            number: at.number,
            line: at.line,
        };
        at.starts.push(start)?;
    }
    at.page = page + 1;
    at.line += lines;
    at.number += 1;
    Ok(())
}

/// Reads a record.
fn take_record(
    alloc: Global,
    terms: &Terms,
    reader: &mut RecordReader,
    at: &mut Progress,
    r: &[u64],
    lines: u64,
) -> Result<bool, AllocError>
    requires size { length r.now ≡ 4 * lines }
    requires can { CanTakeRegion terms.now at.old lines }
    requires some { 1 ≤ lines }
    ensures { IfOk result (λ yes. (c : Commit) (s : Reached) → AreTermsOf c terms.now → IsAt c s at.old
        → TookRegion yes c (λ n. (p : BodyParts) × IsRecordAt c s lines r.now p
        × (n ≡ behind_record c s lines p)) at.new) }
{
    let Some(parts) = read_numbered(alloc, r, at.number)? else {
        return Ok(false);
    };
    let taken = take_parts(alloc, terms, reader, at, &parts, lines);
    drop(parts);
    taken
}

/// The parts of the record with this number that words are, or none where they are no such record.
fn read_numbered(alloc: Global, r: &[u64], number: u32) -> Result<Option<BodyParts>, AllocError>
    requires { number < 2 ^ 28 }
    ensures { IfOk result (λ o. MatchOption o (¬ ((p : BodyParts) × IsBody p r.now × (p.number ≡ number)))
        (λ p. IsBody p r.now × (p.number ≡ number))) }
{
    let Some(parts) = read_body(alloc, r)? else {
        return Ok(None);
    };
    if parts.keys.is_empty() {
        // its number stands nowhere in its words
        return Ok(Some(numbered(parts, number)));
    }
    if parts.number != number {
        drop(parts);
        return Ok(None);
    }
    Ok(Some(parts))
}

/// The parts with another number.
fn numbered(parts: BodyParts, number: u32) -> BodyParts
    ensures { result ≡ record parts { number = number } }
{
    let mut parts = parts;
    parts.number = number;
    parts
}

/// Reads a record with these parts.
fn take_parts(
    alloc: Global,
    terms: &Terms,
    reader: &mut RecordReader,
    at: &mut Progress,
    parts: &BodyParts,
    lines: u64,
) -> Result<bool, AllocError>
    requires proper { IsProper parts.now }
    requires can { CanTakeRegion terms.now at.old lines }
    requires some { 1 ≤ lines }
    ensures { IfOk result (λ yes. (c : Commit) (s : Reached) → AreTermsOf c terms.now → IsAt c s at.old
        → TookRegion yes c (λ n. IsKeptAt c s lines parts.now × (n ≡ behind_record c s lines parts.now)) at.new) }
{
    if crosses_page(at.line, lines) {
        return Ok(false);
    }
    if !is_kept(alloc, terms.rows.as_slice(), reader, at.number, parts)? {
        return Ok(false);
    }
    if !link(&mut at.heads, at.line, parts.keys.as_slice()) {
        return Ok(false);
    }
    pass(at, lines)?;
    Ok(true)
}

/// Whether a record's payload is a record of its form, with the keys that it has to have. It is read once.
fn is_kept(
    alloc: Global,
    rows: &[IndexRow],
    reader: &mut RecordReader,
    number: u32,
    parts: &BodyParts,
) -> Result<bool, AllocError>
    requires { IsProper parts.now }
    ensures { IfOk result (λ yes. IsTrue yes ↔ HasKeysIn rows.now number parts.now) }
{
    is_kept_counted::<Brand>(alloc, rows, reader, Blank::new(1), number, parts)
}

/// The same with a counter of a blank.
fn is_kept_counted<L: Ledger>(
    alloc: Global,
    rows: &[IndexRow],
    reader: &mut RecordReader,
    blank: Blank,
    number: u32,
    parts: &BodyParts,
) -> Result<bool, AllocError>
    requires blank { IsBlankOf L.name L.parts blank }
    requires proper { IsProper parts.now }
    ensures { IfOk result (λ yes. IsTrue yes ↔ HasKeysIn rows.now number parts.now) }
{
    let mut parses = Steps::<L>::new(blank);
    let read = reader.read(alloc, parts.form, parts.payload.as_bytes(), &mut parses);
    match read {
        Ok(found) => {
            let kept = has_keys(alloc, rows, number, parts.keys.as_slice(), &found);
            drop(found);
            kept
        }
        Err(refusal) => refused(refusal),
    }
}

/// A payload that is no record is not kept; where memory runs out, that says nothing of it.
fn refused(refusal: PsfRefusal) -> Result<bool, AllocError>
    ensures { IfOk result (λ yes. (yes ≡ false) × (refusal ≢ PsfRefusal.OutOfMemory)) }
{
    match refusal {
        PsfRefusal::OutOfMemory => Err(AllocError),
        _ => Ok(false),
    }
}

/// Puts the key entries of the record at a line into the chains of their buckets, and answers whether
/// each previous node is the newest key entry that was there.
fn link(heads: &mut Vec<u64>, line: u64, keys: &[KeyPart]) -> bool
    requires line { line < 2 ^ 40 }
    requires few { length keys.now ≤ 256 }
    requires some { 0 < length heads.old.items }
    ensures { (places : List (ℕ × ℕ)) → AreHeads (length heads.old.items) places heads.old.items
        → LinksKeys result (length heads.old.items) line keys.now places heads.new.items }
{
    for (c, key) in keys.iter().enumerate() {
        let hash = key_hash(key.id, &key.value);
        let bucket = bucket_of(hash, heads.len() as u64) as usize;
        if heads[bucket] != key.prev {
            return false;
        }
        heads[bucket] = place_of(line, c as u64);
    }
    true
}
