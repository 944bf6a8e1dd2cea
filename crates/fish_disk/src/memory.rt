//! A disk in memory that fails by a plan, keeps a record of its calls, and shows what a crash leaves.

ghost use Rattle.std.specs.Prelude.{◌≡◌, ◌≤◌, ◌+◌, ◌++◌, ◌∷◌, [], ℕ, List, Some, length, if◌then◌else◌, is_err, is_ok, true, IfOk, IfSome, OnErr, OnOk};
ghost use Rattle.fish_outside.specs.Causes.{HasCause};
ghost use Rattle.fish_disk.specs.Calls.{Only, after_call};
ghost use Rattle.fish_disk.specs.Content.{Gave, StillReads, Wrote, put_at};
ghost use Rattle.fish_disk.specs.Crash.{KeepsPast, LeavesOnly, Torn, TornFrom};

use crate::call::{Call, Calls};
use crate::copy::copy_from;
use crate::disk::Disk;
use fish_outside::{Failed, FaultPlan};
use fish_value::{Bytes, Numbers64};
use std::alloc::{AllocError, Global};

/// What every foreign byte is that a torn write leaves.
const FOREIGN: u8 = 1;

/// Bytes in memory, of which some calls fail. It keeps its first bytes and every call, so that it can
/// show what a crash leaves.
#[derive(Debug, Drop)]
pub struct MemoryDisk {
    alloc: Global,
    /// The bytes that it was made with.
    pub first: Bytes,
    /// All bytes as the last write left them.
    pub written: Option<Bytes>,
    /// The calls so far, but for those that memory refused to keep.
    pub calls: Calls,
    /// The calls that are to fail.
    pub plan: FaultPlan,
}

impl MemoryDisk {
    ghost use Rattle.fish_disk.specs.Memory.{IsNew, bytes_of, images_of, moment_of, since_of};
    ghost use Rattle.fish_disk.specs.within.Memory.{Planned, Records, after_step};

    /// A disk of these bytes, whose calls of these numbers, from 0, fail.
    pub fn new(alloc: Global, bytes: Bytes, fails: Numbers64) -> MemoryDisk
        ensures { IsNew result bytes fails }
    {
        MemoryDisk {
            alloc,
            first: bytes,
            written: None,
            calls: Calls::new(alloc),
            plan: FaultPlan::new(fails),
        }
    }

    /// All its bytes, as reads give them.
    pub fn as_bytes(&self) -> &[u8]
        ensures { result.now ≡ bytes_of self.now }
    {
        match &self.written {
            Some(bytes) => bytes.as_bytes(),
            None => self.first.as_bytes(),
        }
    }

    /// A disk with what a crash now may leave, none of whose calls fail. Two bits of `pick` for each
    /// write after the last sync, the lowest for the first of them, say what is left of it: nothing,
    /// its first half, all of it, or foreign bytes. Copies all bytes once for each call.
    pub fn crashed(&self, alloc: Global, pick: u64) -> Result<MemoryDisk, AllocError>
        ensures { IfOk result (λ disk. images_of self.now disk.first × IsNew disk disk.first []) }
    {
        let mut left = self.first.again(alloc)?;
        let mut rest = pick;
        for call in self.calls.as_slice() {
            left = left_by(alloc, call, left.as_bytes(), rest % 4)?;
            rest = match call {
                Call::Write { .. } => rest / 4,
                Call::Sync { .. } => pick,
                Call::Other => rest,
            };
        }
        Ok(MemoryDisk::new(alloc, left, Numbers64::new(alloc)))
    }

    /// Keeps a call in the record. Where memory refuses that, it counts as a fault.
    fn note(&mut self, call: Call) -> Result<(), Failed>
        ensures same { self.new ≡ record self.old {
          calls = self.new.calls;
          plan = after_step self.old.plan (is_err result);
        } }
        ensures ok { OnOk result (self.new.calls ≡ self.old.calls ++ call ∷ []) }
        ensures err { OnErr result (self.new.calls ≡ self.old.calls) }
    {
        match self.calls.push(call) {
            Ok(()) => Ok(()),
            Err(_) => Err(self.plan.fault()),
        }
    }

    /// Keeps a write in the record, with copies of its piece and of all bytes before it.
    fn note_write(&mut self, at: u64, piece: &[u8]) -> Result<(), Failed>
        ensures same { self.new ≡ record self.old {
          calls = self.new.calls;
          plan = after_step self.old.plan (is_err result);
        } }
        ensures ok { OnOk result (self.new.calls ≡ self.old.calls ++ Call.Write at piece.now (bytes_of self.old) ∷ []) }
        ensures err { OnErr result (self.new.calls ≡ self.old.calls) }
    {
        match write_of(self.alloc, at, piece, self.as_bytes()) {
            Ok(call) => self.note(call),
            Err(_) => Err(self.plan.fault()),
        }
    }

    /// Keeps a sync in the record, with a copy of all bytes.
    fn note_sync(&mut self) -> Result<(), Failed>
        ensures same { self.new ≡ record self.old {
          calls = self.new.calls;
          plan = after_step self.old.plan (is_err result);
        } }
        ensures ok { OnOk result (self.new.calls ≡ self.old.calls ++ Call.Sync (bytes_of self.old) ∷ []) }
        ensures err { OnErr result (self.new.calls ≡ self.old.calls) }
    {
        match Bytes::copy_of(self.alloc, self.as_bytes()) {
            Ok(content) => self.note(Call::Sync { content }),
            Err(_) => Err(self.plan.fault()),
        }
    }

    /// A call that changes nothing: counted, kept in the record, and failed where that is planned.
    fn look(&mut self) -> Result<(), Failed>
        ensures same { self.new ≡ record self.old { calls = self.new.calls; plan = self.new.plan } }
        ensures crash { LeavesOnly images_of since_of moment_of self.old self.new (images_of self.old) }
        ensures one { moment_of self.new ≤ moment_of self.old + 1 }
        ensures past { KeepsPast true since_of moment_of self.old self.new }

        ensures cause { HasCause self.old.plan.faults self.new.plan.faults result }
        ensures planned { Planned self.old.plan self.new.plan result }
        ensures recorded { Records self.old self.new Call.Other }
    {
        let planned = self.plan.call();
        self.note(Call::Other)?;
        planned
    }

    /// Puts a piece over the bytes from a place on.
    fn put(&mut self, at: usize, piece: &[u8]) -> Result<(), Failed>
        requires { at ≤ length (bytes_of self.old) }
        ensures same { self.new ≡ record self.old {
          written = self.new.written;
          plan = after_step self.old.plan (is_err result);
        } }
        ensures content { Wrote (Some (bytes_of self.old)) (Some (bytes_of self.new)) at piece.now result }
        ensures torn { Torn at (length piece.now) (bytes_of self.old) (bytes_of self.new) }
    {
        match written(self.alloc, self.as_bytes(), at, piece) {
            Ok(bytes) => {
                self.written = Some(bytes);
                Ok(())
            }
            Err(_) => Err(self.plan.fault()),
        }
    }
}

/// The call by which a piece is written over these bytes.
fn write_of(alloc: Global, at: u64, piece: &[u8], before: &[u8]) -> Result<Call, AllocError>
    ensures { IfOk result (λ call. call ≡ Call.Write at piece.now before.now) }
{
    let piece = Bytes::copy_of(alloc, piece)?;
    match Bytes::copy_of(alloc, before) {
        Ok(before) => Ok(Call::Write { at, piece, before }),
        Err(error) => {
            drop(piece);
            Err(error)
        }
    }
}

/// A copy of bytes with a piece put over those from `at` on.
fn written(alloc: Global, bytes: &[u8], at: usize, piece: &[u8]) -> Result<Bytes, AllocError>
    requires { at ≤ length bytes.now }
    ensures { IfOk result (λ all. all ≡ put_at at piece.now bytes.now) }
{
    let mut all = Bytes::copy_of(alloc, &bytes[..at])?;
    all.append(piece)?;
    if piece.len() < bytes.len() - at {
        all.append(&bytes[at + piece.len()..])?;
    }
    Ok(all)
}

/// What a crash right after a call leaves of these bytes, by choice where the call is a write.
fn left_by(alloc: Global, call: &Call, bytes: &[u8], choice: u64) -> Result<Bytes, AllocError>
    ensures { IfOk result (λ left. after_call call.now (Only bytes.now) left) }
{
    match call {
        Call::Write { at, piece, .. } => torn(alloc, bytes, *at, piece.as_bytes(), choice),
        Call::Sync { content } => content.again(alloc),
        Call::Other => Bytes::copy_of(alloc, bytes),
    }
}

/// What a crash leaves of a write, by choice: 0 nothing, 1 the first half of the piece, 2 all of it,
/// and else foreign bytes. Of a write past the end, whose ground was lost, it leaves nothing.
fn torn(
    alloc: Global,
    bytes: &[u8],
    at: u64,
    piece: &[u8],
    choice: u64,
) -> Result<Bytes, AllocError>
    ensures { IfOk result (λ left. Torn at (length piece.now) bytes.now left) }
{
    if at > bytes.len() as u64 || choice == 0 {
        return Bytes::copy_of(alloc, bytes);
    }
    let at = at as usize;
    match choice {
        1 => {
            let (half, _) = piece.split_at(piece.len() / 2);
            written(alloc, bytes, at, half)
        }
        2 => written(alloc, bytes, at, piece),
        _ => {
            let foreign = vec![in alloc; FOREIGN; piece.len()]?;
            written(alloc, bytes, at, foreign.as_slice())
        }
    }
}

impl Disk for MemoryDisk {
    ghost use Rattle.std.specs.Prelude.{unwrap_or};
    ghost use Rattle.std.proofs.Common.{ap, inl, refl, sym};
    ghost use Rattle.fish_disk.specs.Memory.{bytes_of, fewer_later_of, images_of, moment_of, only_now_of, since_of};
    ghost use Rattle.fish_disk.specs.within.Memory.{Planned, Records};

    ghost content = { λ disk. Some (bytes_of disk) };

    ghost images = { images_of };

    ghost moment = { moment_of };

    ghost since = { since_of };

    ghost keeps_past = { true };

    ghost faults = { λ disk. disk.plan.faults };

    ghost counts_now = { λ _ _ _ _ now. inl now };

    ghost only_now = { only_now_of };

    ghost fewer_later = { fewer_later_of };

    ghost as_read = { λ disk c same. inl (ap (λ told. unwrap_or told c) (sym same)) };

    ghost told = { λ _ _ _. refl };

    fn read(&mut self, at: u64, buf: &mut [u8]) -> Result<usize, Failed>
        ensures bound { IfOk result (λ n. n ≤ length buf.new) }
        ensures bytes { IfOk result (λ n. Gave (Some (bytes_of self.new)) at n buf.new) }
        ensures content { bytes_of self.new ≡ bytes_of self.old }
        ensures crash { LeavesOnly images_of since_of moment_of self.old self.new (images_of self.old) }
        ensures one { moment_of self.new ≤ moment_of self.old + 1 }
        ensures past { KeepsPast true since_of moment_of self.old self.new }

        ensures cause { HasCause self.old.plan.faults self.new.plan.faults result }
        ensures planned { Planned self.old.plan self.new.plan result }
        ensures recorded { Records self.old self.new Call.Other }
    {
        self.look()?;
        Ok(copy_from(self.as_bytes(), at, buf))
    }

    fn write_at(&mut self, at: u64, piece: &[u8]) -> Result<(), Failed>
        requires { at ≤ length (bytes_of self.old) }
        ensures content { Wrote (Some (bytes_of self.old)) (Some (bytes_of self.new)) at piece.now result }
        ensures crash { LeavesOnly images_of since_of moment_of self.old self.new
            (TornFrom (images_of self.old) at (length piece.now)) }
        ensures one { moment_of self.new ≤ moment_of self.old + 1 }
        ensures past { KeepsPast true since_of moment_of self.old self.new }

        ensures cause { HasCause self.old.plan.faults self.new.plan.faults result }
        ensures planned { Planned self.old.plan self.new.plan result }
        ensures recorded { Records self.old self.new (Call.Write at piece.now (bytes_of self.old)) }
    {
        let planned = self.plan.call();
        self.note_write(at, piece)?;
        planned?;
        self.put(at as usize, piece)
    }

    fn sync(&mut self) -> Result<(), Failed>
        ensures synced { OnOk result ((c : List ℕ) → images_of self.new c → Some (bytes_of self.new) ≡ Some c) }
        ensures content { bytes_of self.new ≡ bytes_of self.old }
        ensures crash { LeavesOnly images_of since_of moment_of self.old self.new (images_of self.old) }
        ensures one { moment_of self.new ≤ moment_of self.old + 1 }
        ensures past { KeepsPast true since_of moment_of self.old self.new }

        ensures cause { HasCause self.old.plan.faults self.new.plan.faults result }
        ensures planned { Planned self.old.plan self.new.plan result }
        ensures recorded { Records self.old self.new
            (if is_ok result then Call.Sync (bytes_of self.old) else Call.Other) }
    {
        match self.plan.call() {
            Ok(()) => self.note_sync(),
            Err(failed) => {
                self.note(Call::Other)?;
                Err(failed)
            }
        }
    }

    fn length(&mut self) -> Result<u64, Failed>
        ensures length { IfOk result (λ n. n ≡ length (bytes_of self.new)) }
        ensures content { bytes_of self.new ≡ bytes_of self.old }
        ensures crash { LeavesOnly images_of since_of moment_of self.old self.new (images_of self.old) }
        ensures one { moment_of self.new ≤ moment_of self.old + 1 }
        ensures past { KeepsPast true since_of moment_of self.old self.new }

        ensures cause { HasCause self.old.plan.faults self.new.plan.faults result }
        ensures planned { Planned self.old.plan self.new.plan result }
        ensures recorded { Records self.old self.new Call.Other }
    {
        self.look()?;
        Ok(self.as_bytes().len() as u64)
    }
}
