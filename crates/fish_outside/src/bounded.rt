//! Bytes in memory, up to a room that is taken at the start.

ghost use Rattle.std.specs.Prelude.{◌≡◌, ◌≤◌, ◌+◌, ◌++◌, [], Some, drop, length, take, option_map, IfOk, IfSome};
ghost use Rattle.fish_outside.specs.Bounded.{content_in, content_within};

use std::alloc::{AllocError, Global};
use std::marker::Model;

/// Bytes in memory that it takes at the start. Bytes past its room are dropped, and then it tells its
/// content no longer. Contracts see its room, what it keeps, and whether that is told as its content.
#[derive(Debug, Drop)]
pub struct BoundedBytes {
    bytes: Vec<u8>,
    room: u64,
    told: bool,
}

impl Model for BoundedBytes {
    ghost use Rattle.std.specs.Prelude.{◌≤◌, length, vec_capacity};
    ghost use Rattle.fish_outside.specs.Bounded.{Bounded};

    ghost Value = { Bounded };

    ghost view = { λ b. record { room = b.room; kept = b.bytes.items; told = b.told } };

    ghost invariant = { λ b. (length b.bytes.items ≤ b.room) × (b.room ≤ vec_capacity b.bytes) };
}

impl BoundedBytes {
    /// No bytes, with room for so many, for which it takes the memory.
    pub fn new(alloc: Global, room: u64) -> Result<BoundedBytes, AllocError>
        ensures room { IfOk result (λ bytes. bytes.room ≡ room) }
        ensures content { IfOk result (λ bytes. content_in bytes ≡ Some []) }
    {
        Ok(BoundedBytes {
            bytes: Vec::with_capacity(alloc, room as usize)?,
            room,
            told: true,
        })
    }

    /// The bytes that it keeps.
    pub fn as_bytes(&self) -> &[u8]
        ensures kept { result.now ≡ self.now.kept }
        ensures content { IfSome (content_in self.now) (λ all. result.now ≡ all) }
        ensures fits { length result.now ≤ self.now.room }
    {
        self.bytes.as_slice()
    }

    /// Puts a piece after the others, as far as it fits the room. Takes no memory.
    pub fn append(&mut self, piece: &[u8])
        ensures content { content_in self.new
            ≡ content_within self.old.room (option_map (λ all. all ++ piece.now) (content_in self.old)) }
        ensures kept { self.new.kept ≡ take self.old.room (self.old.kept ++ piece.now) }
        ensures room { self.new.room ≡ self.old.room }
    {
        let left = self.room as usize - self.bytes.len();
        let fit = piece.len().min(left);
        let (front, _) = piece.split_at(fit);
        // It fits the memory that was taken at the start.
        self.bytes.extend_from_slice(front).unwrap();
        self.told = self.told && fit == piece.len();
    }

    /// Puts a piece over as many bytes from a place on.
    pub fn overwrite(&mut self, at: usize, piece: &[u8])
        requires { at + length piece.now ≤ length self.old.kept }
        ensures { self.new ≡ record self.old {
          kept = take at self.old.kept ++ (piece.now ++ drop (at + length piece.now) self.old.kept);
        } }
    {
        self.bytes[at..at + piece.len()].copy_from_slice(piece);
    }
}
