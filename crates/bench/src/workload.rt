//! What is stored: how large the log is, which definitions it begins with, and the payloads.

ghost use Rattle.std.specs.Prelude.{IfOk};
ghost use Rattle.bench.specs.Opening.{IsOpened};
ghost use Rattle.fish_rule.specs.Start.{IsShape};

use crate::definitions::{Sources, TAKING, definitions_of};
use crate::opening::{Opened, open};
use fish_rule::Shape;
use std::alloc::{AllocError, Global};

/// What is stored.
#[derive(Clone, Copy)]
pub enum Workload {
    /// Records of 1 KB without key entries.
    Stores,
    /// Records of 3 lines without key entries.
    Plain,
    /// Records of 3 lines with two key entries that are the same in all, in a log of 16 buckets.
    FewChains,
    /// Records of 3 lines with two key entries of their own, in a log of 65,536 buckets.
    ManyChains,
}

impl Workload {
    /// The word that its lines begin with.
    pub fn name(self) -> &'static str {
        match self {
            Workload::Stores => "stores",
            Workload::Plain => "plain",
            Workload::FewChains => "few",
            Workload::ManyChains => "many",
        }
    }

    /// The definitions that give its key entries.
    fn sources(self) -> Sources {
        match self {
            Workload::Stores | Workload::Plain => &[],
            Workload::FewChains | Workload::ManyChains => TAKING,
        }
    }

    /// A log in which all its records have room.
    fn shape(self) -> Shape
        ensures { IsShape result }
    {
        match self {
            Workload::Stores => Shape {
                pages: 256,
                bucket_bits: 4,
            },
            Workload::Plain | Workload::FewChains => Shape {
                pages: 32,
                bucket_bits: 4,
            },
            Workload::ManyChains => Shape {
                pages: 32,
                bucket_bits: 16,
            },
        }
    }

    /// The payload of a record at its place among those of a lane.
    pub fn payload(self, alloc: Global, lane: u8, position: u64) -> Result<String, AllocError> {
        match self {
            Workload::Stores => padded(alloc, "{\"p\":\"", 126),
            Workload::Plain => padded(alloc, "{\"a\":100000,\"b\":100000,\"p\":\"", 7),
            Workload::FewChains => pair_of(alloc, 100_000),
            Workload::ManyChains => {
                let number = position.saturating_mul(4).saturating_add(u64::from(lane));
                pair_of(alloc, 100_000 + number % 900_000)
            }
        }
    }
}

/// An empty log for a workload.
pub fn open_for(alloc: Global, workload: Workload) -> Result<Opened, AllocError>
    ensures { IfOk result IsOpened }
{
    let definitions = definitions_of(alloc, workload.sources())?;
    open(alloc, workload.shape(), definitions)
}

/// An object whose last text is a word of eight bytes, so many times.
fn padded(alloc: Global, begin: &str, words: u64) -> Result<String, AllocError> {
    let mut text = String::new(alloc);
    text.push_str(begin)?;
    for _ in 0..words {
        text.push_str("payload ")?;
    }
    text.push_str("\"}")?;
    Ok(text)
}

/// An object with the same number of six digits under both names that the definitions take.
fn pair_of(alloc: Global, value: u64) -> Result<String, AllocError> {
    format!(in alloc; "{{\"a\":{value},\"b\":{value}}}")
}
