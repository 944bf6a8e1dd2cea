//! A sink in memory that never fails.

ghost use Rattle.std.specs.Prelude.{◌≡◌, ◌≤◌, ◌++◌, [], Some, length, take, option_map, IfOk, IfSome};
ghost use Rattle.fish_outside.specs.Bounded.{content_in, content_within};
ghost use Rattle.fish_outside.specs.Causes.{HasCause};
ghost use Rattle.fish_outside.specs.Content.{Writes};

use crate::bounded::BoundedBytes;
use crate::fault::Failed;
use crate::sink::Sink;
use std::alloc::{AllocError, Global};
use std::marker::Model;

/// Keeps what is written in memory that it takes at the start, and never fails. It tells what was
/// written as long as that fits its room.
#[derive(Debug, Drop)]
pub struct SureSink {
    bytes: BoundedBytes,
}

impl Model for SureSink {
    ghost use Rattle.fish_outside.specs.Bounded.{Bounded};

    ghost Value = { Bounded };

    ghost view = { λ s. s.bytes };
}

impl SureSink {
    /// A sink with room for so many bytes, for which it takes the memory.
    pub fn new(alloc: Global, room: u64) -> Result<SureSink, AllocError>
        ensures room { IfOk result (λ sink. sink.room ≡ room) }
        ensures content { IfOk result (λ sink. content_in sink ≡ Some []) }
    {
        Ok(SureSink {
            bytes: BoundedBytes::new(alloc, room)?,
        })
    }

    /// What was written, as far as it fits the room.
    pub fn as_bytes(&self) -> &[u8]
        ensures kept { result.now ≡ self.now.kept }
        ensures content { IfSome (content_in self.now) (λ all. result.now ≡ all) }
        ensures fits { length result.now ≤ self.now.room }
    {
        self.bytes.as_bytes()
    }
}

impl Sink for SureSink {
    ghost written = { content_in };

    ghost faults = { λ _. 0 };

    /// Takes the whole piece, and keeps what the room has place for.
    fn write(&mut self, piece: &[u8]) -> Result<usize, Failed>
        ensures bound { IfOk result (λ n. n ≤ length piece.now) }
        ensures bytes { Writes (content_in self.old) (content_in self.new) result piece.now }
        ensures cause { HasCause 0 0 result }

        ensures content { content_in self.new
            ≡ content_within self.old.room (option_map (λ all. all ++ piece.now) (content_in self.old)) }
        ensures kept { self.new.kept ≡ take self.old.room (self.old.kept ++ piece.now) }
        ensures room { self.new.room ≡ self.old.room }
    {
        self.bytes.append(piece);
        Ok(piece.len())
    }
}
