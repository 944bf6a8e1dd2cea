//! A disk in memory that never fails.

ghost use Rattle.std.specs.Prelude.{◌≡◌, ◌≤◌, ◌+◌, [], Some, length, take, option_map, IfOk, IfSome};
ghost use Rattle.fish_outside.specs.Bounded.{content_in, content_within};
ghost use Rattle.fish_outside.specs.Causes.{HasCause};
ghost use Rattle.fish_disk.specs.Content.{Gave, StillReads, Wrote, put_at};
ghost use Rattle.fish_disk.specs.Crash.{KeepsPast, LeavesOnly, TornFrom};

use crate::copy::copy_from;
use crate::disk::Disk;
use fish_outside::{BoundedBytes, Failed};
use std::alloc::{AllocError, Global};
use std::marker::Model;

/// Bytes in memory that it takes at the start. It never fails, and each call is done at once, so that
/// a crash leaves what is read. It tells its content as long as that fits its room.
#[derive(Debug, Drop)]
pub struct SureDisk {
    bytes: BoundedBytes,
}

impl Model for SureDisk {
    ghost use Rattle.fish_outside.specs.Bounded.{Bounded};

    ghost Value = { Bounded };

    ghost view = { λ d. d.bytes };
}

impl SureDisk {
    /// An empty disk with room for so many bytes, for which it takes the memory.
    pub fn new(alloc: Global, room: u64) -> Result<SureDisk, AllocError>
        ensures room { IfOk result (λ disk. disk.room ≡ room) }
        ensures content { IfOk result (λ disk. content_in disk ≡ Some []) }
    {
        Ok(SureDisk {
            bytes: BoundedBytes::new(alloc, room)?,
        })
    }

    /// Its bytes, as far as they fit the room.
    pub fn as_bytes(&self) -> &[u8]
        ensures kept { result.now ≡ self.now.kept }
        ensures content { IfSome (content_in self.now) (λ all. result.now ≡ all) }
        ensures fits { length result.now ≤ self.now.room }
    {
        self.bytes.as_bytes()
    }
}

/// Puts a piece over the bytes from a place on, as far as they fit the room. Takes no memory.
fn put_within(bytes: &mut BoundedBytes, at: usize, piece: &[u8])
    requires { at ≤ length bytes.old.kept }
    ensures content { content_in bytes.new
        ≡ content_within bytes.old.room (option_map (put_at at piece.now) (content_in bytes.old)) }
    ensures kept { bytes.new.kept ≡ take bytes.old.room (put_at at piece.now bytes.old.kept) }
    ensures room { bytes.new.room ≡ bytes.old.room }
{
    let over = piece.len().min(bytes.as_bytes().len() - at);
    let (front, rest) = piece.split_at(over);
    bytes.overwrite(at, front);
    bytes.append(rest);
}

impl Disk for SureDisk {
    ghost use Rattle.std.specs.Prelude.{false, is_some};
    ghost use Rattle.std.proofs.Common.{ap};
    ghost use Rattle.fish_disk.specs.within.Sure.{kept_with};

    ghost content = { content_in };

    ghost images = { λ disk c. content_in disk ≡ Some c };

    ghost moment = { λ _. 0 };

    ghost since = { λ disk _ c. content_in disk ≡ Some c };

    ghost keeps_past = { false };

    ghost faults = { λ _. 0 };

    ghost counts_now = { λ _ _ _ _ now. now };

    ghost only_now = { λ _ _ now. now };

    ghost fewer_later = { λ _ _ _ _ _ now. now };

    ghost as_read = { λ _ _ now. now };

    ghost told = { λ _ _ now. ap is_some now };

    fn read(&mut self, at: u64, buf: &mut [u8]) -> Result<usize, Failed> {
        Ok(copy_from(self.bytes.as_bytes(), at, buf))
    }

    fn write_at(&mut self, at: u64, piece: &[u8]) -> Result<(), Failed>
        requires { IfSome (content_in self.old) (λ c. at ≤ length c) }
        ensures content { Wrote (content_in self.old) (content_in self.new) at piece.now result }
        ensures crash { LeavesOnly (λ disk c. content_in disk ≡ Some c) (λ disk _ c. content_in disk ≡ Some c) (λ _. 0)
            self.old self.new (TornFrom (λ c. content_in self.old ≡ Some c) at (length piece.now)) }
        ensures one { 0 ≤ 0 + 1 }
        ensures past { KeepsPast false (λ disk _ c. content_in disk ≡ Some c) (λ _. 0) self.old self.new }
        ensures cause { HasCause 0 0 result }

        ensures fits { content_in self.new
            ≡ content_within self.old.room (option_map (put_at at piece.now) (content_in self.old)) }
        ensures kept { self.new.kept ≡ kept_with self.old.room at piece.now self.old.kept }
        ensures room { self.new.room ≡ self.old.room }
    {
        // Past the end only where bytes were dropped before, so that nothing is told any more.
        if at <= self.bytes.as_bytes().len() as u64 {
            put_within(&mut self.bytes, at as usize, piece);
        }
        Ok(())
    }

    fn sync(&mut self) -> Result<(), Failed> {
        Ok(())
    }

    fn length(&mut self) -> Result<u64, Failed> {
        Ok(self.bytes.as_bytes().len() as u64)
    }
}
