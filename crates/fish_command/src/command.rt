//! Commands: what words can ask for.

ghost use Rattle.fish_command.specs.Sizes.{AreBits, ArePages};

use fish_lang::Def;
use fish_value::{Form, Text, Value};

/// `select DEF VALUE FILE [--form F]`: the records of a file on which a definition has a value.
#[derive(Debug, Drop)]
pub struct Select {
    /// The definition.
    pub def: Def,
    /// The value asked for.
    pub value: Value,
    /// The form of the file's records.
    pub form: Form,
    /// Whether the first row of a file in CSV is dropped. Never so in JSON.
    pub header: bool,
    /// The name of the file.
    pub file: Text,
}

/// `run STORE SCRIPT [--pages N] [--bits N]`: a script over a store.
#[derive(Debug, Drop)]
pub struct Run {
    /// The name of the store.
    pub store: Text,
    /// The name of the script.
    pub script: Text,
    /// How many pages of 1 MiB a table in memory has, where it is said: 1 to 512.
    pub pages: Option<u16>,
    /// How many bits choose a bucket, where it is said: 4 to 16.
    pub bits: Option<u8>,
    pub ghost pages_within: { ArePages pages },
    pub ghost bits_within: { AreBits bits },
}

/// `sample N`: a store of so many records, and what it has.
#[derive(Clone, Copy, Debug)]
pub struct Sample {
    /// How many records: 0 to 60,000.
    pub number: u16,
}

/// What a command asks for.
#[derive(Debug, Drop)]
pub enum Command {
    /// The records of a file.
    Select(Select),
    /// A script over a store.
    Run(Run),
    /// A store of records that are made from their numbers.
    Sample(Sample),
}
