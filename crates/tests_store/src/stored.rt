//! What the bytes of a store file stand for, read as an opening would read them: the slot that counts, its commit, and
//! its lines.

use byteorder::{ByteOrder, LittleEndian};
use fish_catalog::{Checked, Commit};
use fish_image::{check_image, is_within, read_slot};
use std::alloc::{AllocError, Global};

/// Where the second gate, the bodies and the first line are.
const SECOND_GATE: usize = 4_096;

const FIRST_BODY: usize = 8_192;

const SECOND_BODY: usize = 94_208;

const FIRST_LINE: usize = 180_224;

/// The bytes of a line.
const LINE_BYTES: usize = 32;

/// The commit of the slot that counts, if one does: of two open gates the one whose turn follows the other's.
pub(crate) fn counting(alloc: Global, bytes: &[u8]) -> Result<Option<Commit>, AllocError> {
    if bytes.len() < FIRST_LINE {
        return Ok(None);
    }
    let first = &bytes[FIRST_BODY..SECOND_BODY];
    let second = &bytes[SECOND_BODY..FIRST_LINE];
    match (bytes[0] == 1, bytes[SECOND_GATE] == 1) {
        (true, false) => read_slot(alloc, first),
        (false, true) => read_slot(alloc, second),
        (true, true) => of_both(alloc, first, second),
        (false, false) => Ok(None),
    }
}

/// Of two commits the one whose turn follows the other's, and none where one tells nothing.
fn later(first: Option<Commit>, second: Option<Commit>) -> Option<Commit> {
    let Some(first) = first else {
        drop(second);
        return None;
    };
    let Some(second) = second else {
        drop(first);
        return None;
    };
    if u32::from(second.turn) == (u32::from(first.turn) + 1) % 3 {
        drop(first);
        Some(second)
    } else {
        drop(second);
        Some(first)
    }
}

/// Of two slots that are both open the one that counts.
fn of_both(alloc: Global, first: &[u8], second: &[u8]) -> Result<Option<Commit>, AllocError> {
    let first = read_slot(alloc, first)?;
    match read_slot(alloc, second) {
        Ok(second) => Ok(later(first, second)),
        Err(error) => {
            drop(first);
            Err(error)
        }
    }
}

/// The words of so many lines, as far as they are there.
pub(crate) fn words_of(alloc: Global, bytes: &[u8], lines: u64) -> Result<Vec<u64>, AllocError> {
    let room = bytes.len().saturating_sub(FIRST_LINE) / LINE_BYTES;
    let count = room.min(lines as usize);
    let mut words = vec![in alloc; 0; 4 * count]?;
    if FIRST_LINE <= bytes.len() {
        LittleEndian::read_u64_into(
            &bytes[FIRST_LINE..FIRST_LINE + LINE_BYTES * count],
            &mut words,
        );
    }
    Ok(words)
}

/// The heads of the image that a commit counts, or none where its lines stand for no log.
pub(crate) fn checked(
    alloc: Global,
    bytes: &[u8],
    commit: &Commit,
) -> Result<Option<Checked>, AllocError> {
    if !is_within(commit) {
        return Ok(None);
    }
    let words = words_of(alloc, bytes, commit.lines)?;
    Ok(check_image(alloc, words.as_slice(), commit).ok())
}

/// How many entries the image stands for, `-` for no commit, and `x` for lines that stand for no log.
pub(crate) fn state(alloc: Global, bytes: &[u8]) -> Result<char, AllocError> {
    let Some(commit) = counting(alloc, bytes)? else {
        return Ok('-');
    };
    let count = commit.count;
    let image = checked(alloc, bytes, &commit);
    drop(commit);
    match image? {
        Some(checked) => {
            drop(checked);
            Ok(char::from_digit(count, 10).unwrap_or('?'))
        }
        None => Ok('x'),
    }
}
