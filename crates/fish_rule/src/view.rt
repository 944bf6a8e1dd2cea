//! What a pass knows of the log, as plain data. The program never makes a view: it stands in
//! contracts alone, where an array is a list of any length.

use fish_catalog::{Catalog, Listed};
use fish_value::Numbers64;
use std::snapshot::Snapshot;

/// What is fixed when a table is made.
#[derive(Drop)]
pub struct Key {
    /// The number of the table's first claim.
    pub number: u64,
    /// The line of the table's first claim.
    pub line: u64,
    /// The first line after the log.
    pub end: u64,
    /// How many chains there are.
    pub buckets: u64,
    /// The version with which the table begins.
    pub version: u64,
    /// Of each bucket the place of its newest entry of an older record, or 0.
    pub heads: Snapshot<Numbers64>,
    /// The definitions with which the table begins.
    pub rows: Snapshot<Catalog>,
}

/// Where the next record goes.
#[derive(Clone, Copy, Debug, PartialEq, Eq)]
pub struct Position {
    /// The number that it takes.
    pub number: u64,
    /// Its first line.
    pub line: u64,
}

/// The claim that shut a pass: its region ends past the log's end.
#[derive(Clone, Copy, Debug, PartialEq, Eq)]
pub struct Shut {
    /// Its first line.
    pub line: u64,
    /// How many lines it asked for.
    pub lines: u64,
    /// The first line after the log.
    pub end: u64,
}

/// What a region of lines holds once its number is published.
#[derive(Clone, Copy)]
pub enum Kind {
    /// A record.
    Stored,
    /// Padding, since the region crosses the end of a page.
    Void,
    /// Nothing, since the region ends past the log's end.
    Mark,
}

/// A record that is claimed and not published.
pub struct Flight {
    pub number: u64,
    pub line: u64,
    pub lines: u64,
    /// The words that are stored so far.
    pub words: [u64; 0],
    /// How many of its key entries are linked.
    pub linked: u64,
}

/// A number that is published, and its region.
pub struct Found {
    pub number: u64,
    pub kind: Kind,
    pub line: u64,
    pub lines: u64,
}

/// A word of a published region.
pub struct Known {
    /// Its place, in words from the log's start.
    pub place: u64,
    pub value: u64,
}

/// The place of a key entry's first word, in words from the log's start, and its bucket.
pub struct EntryPlace {
    pub bucket: u64,
    pub place: u64,
}

/// A part of a bucket's chain: between two places lies no entry of a record below a number.
pub struct Gap {
    pub bucket: u64,
    /// The number. Every number below was settled.
    pub end: u64,
    /// The upper place, or the log's end.
    pub above: u64,
    /// The lower place, or 0.
    pub below: u64,
}

/// The second word of a linked key entry.
pub struct Label {
    /// The entry's place.
    pub place: u64,
    pub word: u64,
    /// Every number below was settled when the word was read.
    pub end: u64,
}

/// A published record and the words that were stored for it.
pub struct Recorded {
    pub number: u64,
    pub words: [u64; 0],
}

/// A record that a lane published.
pub struct Own {
    pub lane: u64,
    pub number: u64,
}

/// A word of the registry.
pub struct RegistryWord {
    /// Its index in the table.
    pub index: u64,
    pub value: u64,
}

/// How far a pass is entered.
pub enum Epoch {
    /// It is not.
    Out,
    /// It announced a version in its epoch word.
    Announced(u64),
    /// It announced a version, and found it to be the registry's afterwards.
    Confirmed(u64),
}

/// A registration that waits for the number at which its index begins.
pub struct Round {
    /// The row's id.
    pub id: u64,
    /// The version that the registration made.
    pub version: u64,
    /// Lanes of which none is entered at an older version.
    pub checked: [u64; 0],
    /// Once all lanes are such: the number.
    pub bound: Option<u64>,
}

/// A definition that had not ended at the version of any record below a number.
pub struct Unended {
    /// The row's id.
    pub id: u64,
    /// The number.
    pub below: u64,
}

/// Numbers that were found unpublished, one after the other, since a load of the tail.
pub struct Opens {
    /// How many numbers were claimed at that load. All of them lie below.
    pub count: u64,
    pub numbers: [u64; 0],
}

/// What a step loaded.
pub enum Noted {
    /// The directory word of a number.
    Directory(u64),
    /// The epoch word of a lane.
    Epoch(u64),
    /// The tail.
    Tail,
    /// The version.
    Version,
}

/// One load, and the value that it found.
pub struct Note {
    /// The pass's steps before it.
    pub step: u64,
    pub what: Noted,
    pub value: u64,
}

/// What a pass did so far.
pub struct Clock {
    /// Its steps.
    pub steps: u64,
    /// Its loads of words of the log.
    pub loads: u64,
    /// Its loads of other words, newest first.
    pub notes: [Note; 0],
}

/// Facts that stay true, whatever other passes do.
pub struct Learned {
    /// At least so many numbers are claimed.
    pub count: u64,
    /// Every number below is settled.
    pub settled: u64,
    /// The registry has reached this version.
    pub version: u64,
    /// Words of the registry that don't change.
    pub words: [RegistryWord; 0],
    pub found: [Found; 0],
    pub known: [Known; 0],
    pub records: [Recorded; 0],
    /// Key entries that are linked.
    pub nodes: [EntryPlace; 0],
    /// The first words of linked key entries are at least so great.
    pub least_previous: [Known; 0],
    /// The heads of buckets are at least at these places.
    pub least_heads: [EntryPlace; 0],
    pub gaps: [Gap; 0],
    pub labels: [Label; 0],
    pub unended: [Unended; 0],
    /// Numbers that were found unpublished, the newest list first. A look that finds one puts a longer list in front.
    pub opens: [Opens; 0],
}

/// What a pass knows.
pub struct View {
    /// The table's key.
    pub about: Key,
    /// Its lane, from 1 on, or 0 where the pass is spent.
    pub lane: u64,
    /// Of the control pass: the lanes that are out with other passes.
    pub out: [u64; 0],
    /// The claim that shut it.
    pub shut: Option<Shut>,
    /// Its record in flight.
    pub flight: Option<Flight>,
    /// How far it is entered.
    pub epoch: Epoch,
    /// Of the control pass: the definitions as the version has them.
    pub rows: [Listed; 0],
    /// Of the control pass: the words of the registry that it alone stores, newest first: the boundaries of
    /// rows, and the next operation and row.
    pub control_words: [RegistryWord; 0],
    /// Of the control pass: the registration that waits.
    pub round: Option<Round>,
    /// The tail as its last step left it, unless it joined another pass since.
    pub tail: Option<Position>,
    /// The records that its lanes published.
    pub own: [Own; 0],
    pub learned: Learned,
    pub clock: Clock,
}
