//! The key entries that the records of a closed log have, each with its bucket among 16, and those
//! that walks gave.

ghost use Rattle.std.specs.Prelude.{◌≡◌, ◌<◌};
ghost use Rattle.fish_psf.specs.Blanks.{IsBlankOf};

use crate::cause::Cause;
use fish_catalog::{Entries, Entry};
use fish_chain::Node;
use fish_layout::{bucket_of, key_hash};
use fish_psf::{ActiveDef, KeyValue, Record, Steps, keys, parse};
use std::alloc::{AllocError, Global};
use std::marker::Brand;
use std::sync::ledger::{Blank, Ledger};

/// A key entry of a record.
#[derive(Clone, Copy, Debug, PartialEq, Eq)]
pub(crate) struct Linked {
    pub bucket: u64,
    /// The record's number.
    pub number: u32,
    /// The definition that gave its value.
    pub id: u16,
    /// Which of the record's entries it is.
    pub key: usize,
}

/// The entries of a record after those of others.
fn push_links(
    alloc: Global,
    defs: &[ActiveDef],
    number: usize,
    found: &Record,
    links: &mut Vec<Linked>,
) -> Result<(), Cause> {
    if number >= 1 << 28 {
        return Err(Cause("too great a number"));
    }
    let keys = keys(alloc, defs, found)?;
    let done = push_keys(keys.as_slice(), number as u32, links);
    drop(keys);
    Ok(done?)
}

/// Key entries of a record after those of others.
fn push_keys(keys: &[KeyValue], number: u32, links: &mut Vec<Linked>) -> Result<(), AllocError> {
    for (key, value) in keys.iter().enumerate() {
        links.push(Linked {
            bucket: bucket_of(key_hash(value.id, &value.value), 16),
            number,
            id: value.id,
            key,
        })?;
    }
    Ok(())
}

/// The key entries of an entry of the log after those of others.
fn push_entry<P: Ledger>(
    alloc: Global,
    defs: &[ActiveDef],
    number: usize,
    entry: &Entry,
    parses: &mut Steps<P>,
    links: &mut Vec<Linked>,
) -> Result<(), Cause> {
    match entry {
        Entry::Stored { form, payload, .. } => {
            let found = parse(alloc, *form, payload.as_bytes(), parses)?;
            let done = push_links(alloc, defs, number, &found, links);
            drop(found);
            done
        }
        Entry::Void => Ok(()),
    }
}

/// The entries of all records, oldest first, with a counter of a blank.
fn links_with<P: Ledger>(
    alloc: Global,
    blank: Blank,
    defs: &[ActiveDef],
    entries: &Entries,
) -> Result<Vec<Linked>, Cause>
    requires blank { IsBlankOf P.name P.parts blank }
{
    let mut parses = Steps::<P>::new(blank);
    let mut links = Vec::new(alloc);
    for (number, entry) in entries.as_slice().iter().enumerate() {
        push_entry(alloc, defs, number, entry, &mut parses, &mut links)?;
    }
    Ok(links)
}

/// The same with a counter of its own.
pub(crate) fn links_of(
    alloc: Global,
    defs: &[ActiveDef],
    entries: &Entries,
) -> Result<Vec<Linked>, Cause> {
    links_with::<Brand>(alloc, Blank::new(1), defs, entries)
}

/// The entries of one bucket, newest first, after those of others.
fn push_chain(links: &[Linked], bucket: u64, chains: &mut Vec<Linked>) -> Result<(), AllocError> {
    for link in links.iter().rev() {
        if link.bucket == bucket {
            chains.push(*link)?;
        }
    }
    Ok(())
}

/// The entries by bucket, and in each bucket newest first.
pub(crate) fn links_in(alloc: Global, links: &[Linked]) -> Result<Vec<Linked>, AllocError> {
    let mut chains = Vec::new(alloc);
    for bucket in 0..16 {
        push_chain(links, bucket, &mut chains)?;
    }
    Ok(chains)
}

/// What a walk down a bucket's chain gave, after what walks down others did.
pub(crate) fn push_nodes(
    bucket: u32,
    nodes: &[Node],
    found: &mut Vec<Linked>,
) -> Result<(), AllocError> {
    for node in nodes {
        found.push(Linked {
            bucket: u64::from(bucket),
            number: node.number,
            id: node.id,
            key: usize::from(node.key),
        })?;
    }
    Ok(())
}
