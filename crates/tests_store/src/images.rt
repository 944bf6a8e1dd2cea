//! A small log whose words another program packed, held to a commit: whole, in pieces of every size, and
//! with each bit changed.

ghost use Rattle.std.specs.Prelude.{◌<◌};
ghost use Rattle.fish_image.specs.Commits.{IsWithin};

use crate::told::{expect, expect_all};
use fish_catalog::{CatRow, Catalog, Checked, Commit};
use fish_image::{Checker, ImageRefusal, check_image, is_within};
use fish_value::Text;
use std::alloc::{AllocError, Global};
use std::fmt::Write;
use std::test::Fail;

/// Three records of two lines each, by lanes 1, 2 and 1, whose `type` is `Push`, `Pull` and `Push`. Their
/// buckets are 5, 6 and 5 of 16.
pub(crate) const WORDS: &[u64] = &[
    0x3c0108040002,
    0,
    0,
    0x12,
    0x68737550,
    0x3a2265707974227b,
    0x7d226873755022,
    0,
    0x3c0110040002,
    0,
    1,
    0x12,
    0x6c6c7550,
    0x3a2265707974227b,
    0x7d226c6c755022,
    0,
    0x3c0108040002,
    1,
    2,
    0x12,
    0x68737550,
    0x3a2265707974227b,
    0x7d226873755022,
    0,
];

/// How many words each of them has.
const RECORD_WORDS: usize = 8;

/// How many entries and lines a commit counts, where the index of a second definition begins that gives a
/// value for each record, and the word that is changed, with the bits.
pub(crate) type Case = (u32, u64, Option<u32>, usize, u64);

/// What the answer is.
const CASES: &[(Case, &str)] = &[
    ((3, 6, None, 0, 0), "heads 5:17 6:9 starts 0 at 0"),
    ((2, 4, None, 0, 0), "heads 5:1 6:9 starts 0 at 0"),
    ((0, 0, None, 0, 0), "heads starts"),
    // fewer entries than lines, more entries than there are, and lines that end within the last or after it
    ((2, 6, None, 0, 0), "damaged behind 2 entries"),
    ((4, 6, None, 0, 0), "damaged behind 3 entries"),
    ((3, 5, None, 0, 0), "damaged behind 2 entries"),
    ((3, 7, None, 0, 0), "damaged behind 3 entries"),
    // a key entry is wanted from the second record on, and after the last
    ((3, 6, Some(1), 0, 0), "damaged behind 1 entries"),
    ((3, 6, Some(3), 0, 0), "heads 5:17 6:9 starts 0 at 0"),
    // the value of a key, the payload, a previous node, the record's number, and padding
    ((3, 6, None, 12, 1), "damaged behind 1 entries"),
    ((3, 6, None, 13, 1), "damaged behind 1 entries"),
    ((3, 6, None, 17, 1), "damaged behind 2 entries"),
    ((3, 6, None, 10, 2), "damaged behind 1 entries"),
    (
        (3, 6, None, 23, 0x8000_0000_0000_0000),
        "damaged behind 2 entries",
    ),
    // another lane: another log
    ((3, 6, None, 8, 0x2000_0000), "heads 5:17 6:9 starts 0 at 0"),
];

fn row(
    alloc: Global,
    id: u16,
    texts: (&str, &str),
    from: Option<u32>,
) -> Result<CatRow, AllocError> {
    Ok(CatRow {
        id,
        name: Text::copy_of(alloc, texts.0)?,
        def: Text::copy_of(alloc, texts.1)?,
        from,
        to: None,
    })
}

/// The definitions, or none of them if they should be refused.
pub(crate) fn catalog(alloc: Global, flag: Option<u32>) -> Result<Catalog, AllocError> {
    let mut rows = Vec::new(alloc);
    rows.push(row(alloc, 0, ("kind", "take type"), Some(0))?)?;
    rows.push(row(alloc, 1, ("flag", "flag when type exists"), flag)?)?;
    match Catalog::from_rows(alloc, rows)? {
        Some(catalog) => Ok(catalog),
        None => Ok(Catalog::new(alloc)),
    }
}

pub(crate) fn commit(alloc: Global, case: &Case) -> Result<Commit, AllocError> {
    Ok(Commit {
        format: 2,
        turn: 0,
        pages: 1,
        bucket_bits: 4,
        count: case.0,
        lines: case.1,
        rows: catalog(alloc, case.2)?,
    })
}

fn words(alloc: Global, at: usize, mask: u64) -> Result<Vec<u64>, AllocError> {
    let mut words = Vec::from_slice(alloc, WORDS)?;
    if at < words.len() {
        words[at] ^= mask;
    }
    Ok(words)
}

/// The heads that are there, by bucket, and where pages begin to hold regions.
pub(crate) fn checked_text(alloc: Global, checked: &Checked) -> Result<String, AllocError> {
    let mut told = String::from_str(alloc, "heads ")?;
    for (bucket, head) in checked.heads.as_slice().iter().enumerate() {
        if *head != 0 {
            write!(told, "{bucket}:{head} ")?;
        }
    }
    told.push_str("starts")?;
    for start in checked.starts.as_slice() {
        write!(told, " {} at {}", start.number, start.line)?;
    }
    Ok(told)
}

fn answer_text(alloc: Global, answer: Result<Checked, ImageRefusal>) -> Result<String, AllocError> {
    match answer {
        Ok(checked) => {
            let told = checked_text(alloc, &checked);
            drop(checked);
            told
        }
        Err(refusal) => format!(in alloc; "{refusal}"),
    }
}

fn image_text(alloc: Global, words: &[u64], c: &Commit) -> Result<String, AllocError> {
    if !is_within(c) {
        return String::from_str(alloc, "no commit");
    }
    answer_text(alloc, check_image(alloc, words, c))
}

fn case_told(alloc: Global, case: &Case) -> Result<String, AllocError> {
    let c = commit(alloc, case)?;
    let words = words(alloc, case.3, case.4)?;
    let told = image_text(alloc, words.as_slice(), &c);
    drop(c);
    told
}

#[test]
fn images(rt: HostRuntime) -> Result<(), Fail> {
    expect_all(&rt, rt.alloc(), CASES, case_told)?;
    Ok(())
}

/// Words of one record with the payload `{"tags":["a","b","a"]}`, with entries of `each tags`. Of sixteen buckets "a"
/// falls into 4, "b" into 13 and "c" into 10, under id 0.
///
/// No entry.
const NONE: &[u64] = &[
    0x5801_0800_0001,
    0x3a22_7367_6174_227b,
    0x2262_222c_2261_225b,
    0x7d5d_2261_222c,
];

/// An entry for each value, in the order of their first places.
const BOTH: &[u64] = &[
    0x5801_0808_0003,
    0,
    0,
    6,
    0,
    0x10_0000_0000,
    0x806,
    0x6261,
    0x3a22_7367_6174_227b,
    0x2262_222c_2261_225b,
    0x7d5d_2261_222c,
    0,
];

/// The first value alone.
const FIRST: &[u64] = &[
    0x5801_0804_0002,
    0,
    0,
    6,
    0x61,
    0x3a22_7367_6174_227b,
    0x2262_222c_2261_225b,
    0x7d5d_2261_222c,
];

/// The second alone.
const SECOND: &[u64] = &[
    0x5801_0804_0002,
    0,
    0,
    6,
    0x62,
    0x3a22_7367_6174_227b,
    0x2262_222c_2261_225b,
    0x7d5d_2261_222c,
];

/// Both, the second in front.
const TURNED: &[u64] = &[
    0x5801_0808_0003,
    0,
    0,
    6,
    0,
    0x10_0000_0000,
    0x806,
    0x6162,
    0x3a22_7367_6174_227b,
    0x2262_222c_2261_225b,
    0x7d5d_2261_222c,
    0,
];

/// The first one twice.
const TWICE: &[u64] = &[
    0x5801_0808_0003,
    0,
    0,
    6,
    1,
    0x10_0000_0000,
    0x806,
    0x6161,
    0x3a22_7367_6174_227b,
    0x2262_222c_2261_225b,
    0x7d5d_2261_222c,
    0,
];

/// A value that no element has.
const OTHER: &[u64] = &[
    0x5801_0808_0003,
    0,
    0,
    6,
    0,
    0x10_0000_0000,
    0x806,
    0x6361,
    0x3a22_7367_6174_227b,
    0x2262_222c_2261_225b,
    0x7d5d_2261_222c,
    0,
];

/// An entry of a definition that there is not.
const NO_ROW: &[u64] = &[
    0x5801_080c_0004,
    0,
    0,
    6,
    0,
    0x10_0000_0000,
    0x806,
    0,
    0x20_1000_0000,
    0x1006,
    0x61_6261,
    0x3a22_7367_6174_227b,
    0x2262_222c_2261_225b,
    0x7d5d_2261_222c,
    0,
    0,
];

/// Words, where the index of `each tags` begins and ends, and the answer.
const SEVERAL: &[((&[u64], Option<u32>, Option<u32>), &str)] = &[
    ((NONE, Some(0), None), "damaged behind 0 entries"),
    ((NONE, Some(0), Some(0)), "heads starts 0 at 0"),
    ((NONE, Some(1), None), "heads starts 0 at 0"),
    ((NONE, None, None), "heads starts 0 at 0"),
    ((BOTH, Some(0), None), "heads 4:1 13:4 starts 0 at 0"),
    ((BOTH, Some(0), Some(0)), "heads 4:1 13:4 starts 0 at 0"),
    ((BOTH, Some(1), None), "heads 4:1 13:4 starts 0 at 0"),
    ((BOTH, None, None), "heads 4:1 13:4 starts 0 at 0"),
    ((FIRST, Some(0), None), "damaged behind 0 entries"),
    ((FIRST, Some(0), Some(0)), "heads 4:1 starts 0 at 0"),
    ((FIRST, Some(1), None), "heads 4:1 starts 0 at 0"),
    ((FIRST, None, None), "heads 4:1 starts 0 at 0"),
    ((SECOND, Some(0), None), "damaged behind 0 entries"),
    ((SECOND, Some(0), Some(0)), "heads 13:1 starts 0 at 0"),
    ((SECOND, Some(1), None), "heads 13:1 starts 0 at 0"),
    ((SECOND, None, None), "heads 13:1 starts 0 at 0"),
    ((TURNED, Some(0), None), "damaged behind 0 entries"),
    ((TURNED, Some(1), None), "damaged behind 0 entries"),
    ((TWICE, Some(0), None), "damaged behind 0 entries"),
    ((TWICE, Some(1), None), "damaged behind 0 entries"),
    ((OTHER, Some(0), None), "damaged behind 0 entries"),
    ((OTHER, Some(1), None), "damaged behind 0 entries"),
    ((NO_ROW, Some(0), None), "damaged behind 0 entries"),
    ((NO_ROW, Some(1), None), "damaged behind 0 entries"),
];

fn tags_catalog(alloc: Global, from: Option<u32>, to: Option<u32>) -> Result<Catalog, AllocError> {
    let mut rows = Vec::new(alloc);
    let mut tags = row(alloc, 0, ("tags", "each tags"), from)?;
    tags.to = to;
    rows.push(tags)?;
    match Catalog::from_rows(alloc, rows)? {
        Some(catalog) => Ok(catalog),
        None => Ok(Catalog::new(alloc)),
    }
}

/// What one record is, with the definition `each tags`.
fn several_told(
    alloc: Global,
    case: &(&[u64], Option<u32>, Option<u32>),
) -> Result<String, AllocError> {
    let c = Commit {
        format: 2,
        turn: 0,
        pages: 1,
        bucket_bits: 4,
        count: 1,
        lines: case.0.len() as u64 / 4,
        rows: tags_catalog(alloc, case.1, case.2)?,
    };
    let told = image_text(alloc, case.0, &c);
    drop(c);
    told
}

#[test]
fn several(rt: HostRuntime) -> Result<(), Fail> {
    expect_all(&rt, rt.alloc(), SEVERAL, several_told)?;
    Ok(())
}

/// The same as of all words at once, in pieces of so many words.
fn check_pieces(
    alloc: Global,
    words: &[u64],
    size: usize,
    c: &Commit,
) -> Result<Checked, ImageRefusal>
    requires commit { IsWithin c.now }
    requires size { 0 < size }
{
    let mut checker = Checker::new(alloc, c)?;
    for piece in words.chunks(size) {
        if let Err(refusal) = checker.feed(piece) {
            drop(checker);
            return Err(refusal);
        }
    }
    checker.finish()
}

/// What all words are at once, and what they are in the first pieces of one size that differ from that.
fn sizes_text(alloc: Global, words: &[u64], c: &Commit) -> Result<String, AllocError> {
    if !is_within(c) {
        return String::from_str(alloc, "no commit");
    }
    let whole = answer_text(alloc, check_image(alloc, words, c))?;
    for size in 1..26 {
        let told = answer_text(alloc, check_pieces(alloc, words, size, c))?;
        if told.as_str() != whole.as_str() {
            return format!(in alloc; "{whole}, and in pieces of {size} {told}");
        }
    }
    Ok(whole)
}

fn pieces_told(alloc: Global, case: &Case) -> Result<String, AllocError> {
    let c = commit(alloc, case)?;
    let words = words(alloc, case.3, case.4)?;
    let told = sizes_text(alloc, words.as_slice(), &c);
    drop(c);
    told
}

#[test]
fn pieces(rt: HostRuntime) -> Result<(), Fail> {
    expect_all(&rt, rt.alloc(), CASES, pieces_told)?;
    Ok(())
}

/// Changes of one bit, by what they come to.
#[derive(Clone, Copy)]
struct Changes {
    /// The words stand for another log, or for the same.
    taken: u32,
    /// They are damaged where the word stands.
    there: u32,
    /// They are damaged elsewhere.
    elsewhere: u32,
}

/// What a change of one bit comes to.
fn change(alloc: Global, c: &Commit, at: usize, bit: u32) -> Result<Changes, AllocError>
    requires commit { IsWithin c.now }
    requires bit { bit < 64 }
{
    let words = words(alloc, at, 1 << bit)?;
    match check_image(alloc, words.as_slice(), c) {
        Ok(checked) => {
            drop(checked);
            Ok(Changes {
                taken: 1,
                there: 0,
                elsewhere: 0,
            })
        }
        Err(ImageRefusal::Damaged { number }) if number as usize == at / RECORD_WORDS => {
            Ok(Changes {
                taken: 0,
                there: 1,
                elsewhere: 0,
            })
        }
        Err(_) => Ok(Changes {
            taken: 0,
            there: 0,
            elsewhere: 1,
        }),
    }
}

/// What the changes of each bit come to.
fn changes_text(alloc: Global, c: &Commit) -> Result<String, AllocError> {
    if !is_within(c) {
        return String::from_str(alloc, "no commit");
    }
    let (mut taken, mut there, mut elsewhere) = (0u32, 0u32, 0u32);
    for at in 0..WORDS.len() {
        for bit in 0..64 {
            let one = change(alloc, c, at, bit)?;
            taken = taken.saturating_add(one.taken);
            there = there.saturating_add(one.there);
            elsewhere = elsewhere.saturating_add(one.elsewhere);
        }
    }
    format!(in alloc; "taken {taken} there {there} elsewhere {elsewhere}")
}

/// Of each header, three bits give another lane of 1 to 16, and nine another version of at most 512. Every
/// other bit is noticed in its own record.
#[test]
fn bits(rt: HostRuntime) -> Result<(), Fail> {
    let c = commit(rt.alloc(), &(3, 6, None, 0, 0))?;
    let told = changes_text(rt.alloc(), &c);
    drop(c);
    expect(&rt, told?.as_str(), "taken 36 there 1500 elsewhere 0");
    Ok(())
}
