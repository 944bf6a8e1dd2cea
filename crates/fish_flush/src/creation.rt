//! A store without a record.

ghost use Rattle.std.specs.Prelude.{◌≡◌, ◌≤◌, ◌+◌, ◌*◌, [], false, ℕ, List, IfOk, IfSome, IsErrOf, OnOk, length};
ghost use Rattle.std.specs.Prelude.{replicate};
ghost use Rattle.fish_disk.specs.Crash.{LeavesOnly};
ghost use Rattle.fish_outside.specs.Causes.{HasCause};
ghost use Rattle.fish_image.specs.Progress.{AreHeads};
ghost use Rattle.fish_image.specs.Reading.{IsBodyOf};
ghost use Rattle.fish_slots.specs.Offsets.{body_bytes, lines_at};
ghost use Rattle.fish_slots.specs.Slots.{GatesAreSynced, body_in_slot};
ghost use Rattle.fish_rule.specs.Start.{IsShape};
ghost use Rattle.fish_flush.specs.Kept.{IsAtRest, first_commit};
ghost use Rattle.fish_flush.specs.Causes.{HasFlushCause};
ghost use Rattle.fish_flush.specs.within.Writing.{IsOnlyOpen};

use crate::flusher::Flusher;
use crate::refusal::FlushRefusal;
use fish_catalog::{Catalog, Commit, NEWEST_FORMAT};
use fish_disk::{Disk, write_synced};
use fish_image::slot_body;
use fish_layout::LINES_AT;
use fish_outside::Failed;
use fish_rule::Shape;
use fish_slots::{open_gate, seal};
use fish_value::Bytes;
use std::alloc::{AllocError, Global};

/// Makes a store without a record on an empty disk. Six calls of the disk; all memory is taken before the
/// first.
pub fn create<D: Disk>(alloc: Global, shape: Shape, disk: &mut D) -> Result<Flusher, FlushRefusal>
    requires shape { IsShape shape }
    requires empty { IfSome (D.content disk.old) (λ c. length c ≡ 0) }
    ensures made { IfOk result (λ f. IsAtRest (D.images disk.new) f (first_commit shape) []) }
    ensures live { IfOk result (λ f. f.shut ≡ false) }
    ensures gates { OnOk result (GatesAreSynced (D.images disk.new) (D.images disk.new)) }
    // Of a disk that tells nothing, a crash leaves nothing that is claimed.
    ensures crash { LeavesOnly D.images D.since D.moment disk.old disk.new (λ _. (i : List ℕ) × D.images disk.old i) }
    ensures calls { D.moment disk.new ≤ D.moment disk.old + 6 }

    ensures cause { HasFlushCause (D.faults disk.old) (D.faults disk.new) result }
    ensures memory { IsErrOf result FlushRefusal.OutOfMemory → disk.new ≡ disk.old }
{
    let zeros = zero_bytes(alloc, LINES_AT as usize)?;
    let heads = no_heads(alloc, 1 << shape.bucket_bits)?;
    let body = first_body(alloc, shape)?;
    put_first(disk, zeros.as_slice(), body.as_bytes())?;
    Ok(Flusher {
        slot: 0,
        turn: 0,
        count: 0,
        line: 0,
        heads,
        page: 0,
        starts: Vec::new(alloc),
        shut: false,
    })
}

/// So many zero bytes.
fn zero_bytes(alloc: Global, count: usize) -> Result<Vec<u8>, AllocError>
    ensures { IfOk result (λ bytes. bytes.items ≡ replicate count 0) }
{
    vec![in alloc; 0u8; count]
}

/// So many buckets without a key entry.
fn no_heads(alloc: Global, buckets: usize) -> Result<Vec<u64>, AllocError>
    ensures { IfOk result (λ heads. AreHeads buckets [] heads.items) }
{
    vec![in alloc; 0; buckets]
}

/// The body of the first commit.
fn first_body(alloc: Global, shape: Shape) -> Result<Bytes, AllocError>
    requires { IsShape shape }
    ensures { IfOk result (IsBodyOf (first_commit shape)) }
{
    let commit = Commit {
        format: NEWEST_FORMAT,
        turn: 0,
        pages: shape.pages,
        bucket_bits: shape.bucket_bits,
        count: 0,
        lines: 0,
        rows: Catalog::new(alloc),
    };
    let body = slot_body(alloc, &commit);
    drop(commit);
    body
}

/// Puts zero bytes over all before the lines, and then the first body.
fn put_first<D: Disk>(disk: &mut D, zeros: &[u8], body: &[u8]) -> Result<(), Failed>
    requires empty { IfSome (D.content disk.old) (λ c. length c ≡ 0) }
    requires zeros { zeros.now ≡ replicate lines_at 0 }
    requires size { length body.now ≡ body_bytes }
    ensures rests { OnOk result ((c : List ℕ) → D.images disk.new c → IsOnlyOpen 0 c × (body_in_slot 0 c ≡ body.now)) }
    ensures long { OnOk result ((c : List ℕ) → D.images disk.new c → lines_at ≤ length c) }
    ensures crash { LeavesOnly D.images D.since D.moment disk.old disk.new (λ _. (i : List ℕ) × D.images disk.old i) }
    ensures calls { D.moment disk.new ≤ D.moment disk.old + 6 }
    ensures cause { HasCause (D.faults disk.old) (D.faults disk.new) result }
{
    write_synced(disk, 0, zeros)?;
    seal(disk, 0, body)?;
    open_gate(disk, 0)
}
