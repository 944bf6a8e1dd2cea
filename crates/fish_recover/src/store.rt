//! A store as it is opened: an empty disk gets a store without a record, and any other is read and brought to rest.

ghost use Rattle.std.specs.Prelude.{◌≡◌, ◌≤◌, ◌+◌, ◌⊎◌, true, ℕ, List, [], Some, IfErr, IfOk, IfSome, OnOk, length};
ghost use Rattle.fish_catalog.specs.declared.commit.Commit.{Commit as Told};
ghost use Rattle.fish_catalog.specs.declared.entry.Entry.{Entry};
ghost use Rattle.fish_disk.specs.Content.{StillReads};
ghost use Rattle.fish_disk.specs.Crash.{LeavesOnly};
ghost use Rattle.fish_flush.specs.Kept.{first_commit};
ghost use Rattle.fish_image.specs.Stands.{Stands};
ghost use Rattle.fish_rule.specs.Start.{IsShape};
ghost use Rattle.fish_recover.specs.Choosing.{HasOpenCause};
ghost use Rattle.fish_recover.specs.Opening.{IsOfStore, IsOpenCause, IsFoundRead, pages_of};
ghost use Rattle.fish_recover.specs.within.Opening.{IsOutside};
ghost use Rattle.fish_recover.specs.Stores.{HasOpened, IsOpened, IsStoreCause, StandsSince};
ghost use Rattle.fish_recover.specs.within.Stores.{IsFlushed, Resumes};
ghost use Rattle.fish_recover.specs.Stores.{asked_shape};

use crate::finding::{Found, find_store};
use crate::opened::Opened;
use crate::refusal::{Asked, OpenRefusal};
use crate::resting::rest_store;
use crate::table::begin_table;
use fish_catalog::{Catalog, Commit};
use fish_disk::Disk;
use fish_flush::{FlushRefusal, Flusher, create};
use fish_rule::Shape;
use std::alloc::{AllocError, Global};

/// How many pages a store gets where none are asked for.
const PAGES: u16 = 8;

/// And how many bits its buckets.
const BUCKET_BITS: u8 = 12;

/// Opens the store on a disk; on an empty one a store of the shape that is asked for is made. Its table begins where
/// the last commit ends: older records stay in the file.
///
/// At most eight calls of the disk and one for each page of lines, and five more to bring the store to rest; to make
/// one takes eight.
pub fn open_store<D: Disk>(alloc: Global, asked: Asked, disk: &mut D) -> Result<Opened, OpenRefusal>
    requires { IsShape (asked_shape asked) }
    ensures opened { IfOk result (HasOpened (D.content disk.old) (D.content disk.new) (D.images disk.new) asked) }
    ensures since { OnOk result ((i : List ℕ) (c : Told) (log : List Entry) → D.content disk.old ≡ Some i → Stands c i
        log → StandsSince D.since D.moment disk.old disk.new c log) }
    ensures crash { (i : List ℕ) (c : Told) (log : List Entry) → D.content disk.old ≡ Some i → Stands c i log
        → LeavesOnly D.images D.since D.moment disk.old disk.new (λ e. D.images disk.old e ⊎ Stands c e log) }
    ensures calls { IfSome (D.content disk.new) (λ _. D.content disk.old ≡ Some [] → D.moment disk.new ≤ D.moment
        disk.old + 8) }
    ensures few { IfOk result (λ o. D.moment disk.new ≤ D.moment disk.old + pages_of o.log.key.line + 13) }

    ensures refused { IfErr result (λ e. IfSome (D.content disk.new) (λ c. IsStoreCause c asked e)) }
    ensures reads { IfErr result (λ e. IsOfStore e → StillReads (D.content disk.old) (D.content disk.new)) }
    ensures leaves { IfErr result (λ e. IsOfStore e → LeavesOnly D.images D.since D.moment disk.old disk.new (D.images
        disk.old)) }
    ensures cause { HasOpenCause (D.faults disk.old) (D.faults disk.new) result }
{
    disk.sync()?;
    open_synced(alloc, asked, disk)
}

/// The same after a sync.
fn open_synced<D: Disk>(alloc: Global, asked: Asked, disk: &mut D) -> Result<Opened, OpenRefusal>
    requires shape { IsShape (asked_shape asked) }
    requires synced { (c : List ℕ) → D.images disk.old c → D.content disk.old ≡ Some c }
    ensures opened { IfOk result (HasOpened (D.content disk.old) (D.content disk.new) (D.images disk.new) asked) }
    ensures crash { (i : List ℕ) (c : Told) (log : List Entry) → ((e : List ℕ) → D.images disk.old e → e ≡ i) → Stands c
        i log → LeavesOnly D.images D.since D.moment disk.old disk.new (λ e. Stands c e log) }
    ensures few { IfOk result (λ o. D.moment disk.new ≤ D.moment disk.old + pages_of o.log.key.line + 12) }
    ensures calls { IfSome (D.content disk.new) (λ _. ((i : List ℕ) → D.content disk.old ≡ Some i → i ≡ [])
        → D.moment disk.new ≤ D.moment disk.old + 7) }
    ensures refused { IfErr result (λ e. IfSome (D.content disk.new) (λ c. IsStoreCause c asked e)) }
    ensures reads { IfErr result (λ e. IsOfStore e → StillReads (D.content disk.old) (D.content disk.new)) }
    ensures leaves { IfErr result (λ e. IsOfStore e → LeavesOnly D.images D.since D.moment disk.old disk.new (D.images
        disk.old)) }
    ensures cause { HasOpenCause (D.faults disk.old) (D.faults disk.new) result }
{
    let size = disk.length()?;
    if size == 0 {
        make_store(alloc, asked, disk)
    } else {
        open_kept(alloc, asked, disk)
    }
}

/// Makes a store without a record.
fn make_store<D: Disk>(alloc: Global, asked: Asked, disk: &mut D) -> Result<Opened, OpenRefusal>
    requires shape { IsShape (asked_shape asked) }
    requires empty { IfSome (D.content disk.old) (λ c. length c ≡ 0) }
    ensures opened { IfOk result (λ o. IsOpened (D.content disk.new) (D.images disk.new)
        (first_commit (asked_shape asked)) [] o) }
    ensures made { IfOk result (λ o. o.made ≡ true) }
    ensures crash { LeavesOnly D.images D.since D.moment disk.old disk.new (λ _. (i : List ℕ) × D.images disk.old i) }
    ensures calls { D.moment disk.new ≤ D.moment disk.old + 6 }
    ensures refused { IfErr result IsOutside }
    ensures cause { HasOpenCause (D.faults disk.old) (D.faults disk.new) result }
{
    let shape = shape_of(asked);
    match create(alloc, shape, disk) {
        Ok(flusher) => Ok(begin_table(alloc, flusher, shape, Catalog::new(alloc), 0, true)?),
        Err(refusal) => Err(refusal_of(refusal)),
    }
}

/// The shape of a store that is made.
fn shape_of(asked: Asked) -> Shape
    ensures { result ≡ asked_shape asked }
{
    Shape {
        pages: asked.pages.unwrap_or(PAGES),
        bucket_bits: asked.bucket_bits.unwrap_or(BUCKET_BITS),
    }
}

/// The same refusal, of an opening.
fn refusal_of(refusal: FlushRefusal) -> OpenRefusal
    ensures { IsFlushed refusal result }
{
    match refusal {
        FlushRefusal::DiskFault => OpenRefusal::DiskFault,
        FlushRefusal::OutOfMemory => OpenRefusal::OutOfMemory,
    }
}

/// Opens the store that a disk holds.
fn open_kept<D: Disk>(alloc: Global, asked: Asked, disk: &mut D) -> Result<Opened, OpenRefusal>
    requires synced { (c : List ℕ) → D.images disk.old c → D.content disk.old ≡ Some c }
    ensures opened { IfOk result (HasOpened (D.content disk.old) (D.content disk.new) (D.images disk.new) asked) }
    ensures crash { (i : List ℕ) (c : Told) (log : List Entry) → ((e : List ℕ) → D.images disk.old e → e ≡ i) → Stands c
        i log → LeavesOnly D.images D.since D.moment disk.old disk.new (λ e. Stands c e log) }
    ensures few { IfOk result (λ o. D.moment disk.new ≤ D.moment disk.old + pages_of o.log.key.line + 11) }
    ensures before { IfSome (D.content disk.new) (λ _. (i : List ℕ) × (D.content disk.old ≡ Some i)) }
    ensures refused { IfErr result (λ e. IfSome (D.content disk.new) (λ c. IsOpenCause c asked e)) }
    ensures reads { IfErr result (λ e. IsOfStore e → StillReads (D.content disk.old) (D.content disk.new)) }
    ensures leaves { IfErr result (λ e. IsOfStore e → LeavesOnly D.images D.since D.moment disk.old disk.new (D.images
        disk.old)) }
    ensures cause { HasOpenCause (D.faults disk.old) (D.faults disk.new) result }
{
    match find_store(alloc, asked, disk) {
        Ok(found) => match rest_store(alloc, disk, found.slot, found.both) {
            Ok(()) => Ok(resume(alloc, found)?),
            Err(refusal) => {
                drop(found);
                Err(refusal)
            }
        },
        Err(refusal) => Err(refusal),
    }
}

/// The table of a store that was found and is at rest.
fn resume(alloc: Global, found: Found) -> Result<Opened, AllocError>
    requires { IsFoundRead found }
    ensures { IfOk result (Resumes found) }
{
    let Found {
        slot,
        commit,
        checked,
        ..
    } = found;
    let shape = Shape {
        pages: commit.pages,
        bucket_bits: commit.bucket_bits,
    };
    match Flusher::resumed(alloc, slot, &commit, &checked) {
        Ok(flusher) => {
            drop(checked);
            let Commit { rows, .. } = commit;
            begin_table(alloc, flusher, shape, rows, 0, false)
        }
        Err(want) => {
            drop(checked);
            drop(commit);
            Err(want)
        }
    }
}
