//! The table of a store: it begins where the commit ends that a flusher keeps, with its heads, and with rows cut to its
//! count.

ghost use Rattle.std.specs.Prelude.{◌≡◌, ◌≤◌, IfOk};
ghost use Rattle.fish_rule.specs.Start.{CanOpen, IsShape};
ghost use Rattle.fish_rule.specs.declared.table.Shape.{Shape as Formed};
ghost use Rattle.fish_recover.specs.Beginning.{BeginsAt, IsBase, IsFlusherKept, IsStartAfter, IsStoreUnread, OpensAt};

use crate::opened::Opened;
use fish_catalog::{Catalog, PageStart, PageStarts};
use fish_cold::Cold;
use fish_flush::Flusher;
use fish_rule::{Base, Shape, Start, open_log};
use fish_value::Numbers64;
use std::alloc::{AllocError, Global};

/// A table of this shape after the commit that a flusher keeps, with these rows, cut to its count, and at a version. No
/// call of the disk is made. What the table is on a disk whose images all stand for that commit's log, the lemma
/// `begun_open` says.
///
/// # Errors
///
/// Memory ran out.
pub fn begin_table(
    alloc: Global,
    flusher: Flusher,
    shape: Shape,
    rows: Catalog,
    version: u16,
    made: bool,
) -> Result<Opened, AllocError>
    requires shape { IsShape shape }
    requires few { version ≤ 512 }
    requires kept { IsFlusherKept shape flusher }
    ensures { IfOk result (BeginsAt flusher shape rows version made) }
{
    match start_at(alloc, &flusher, rows, version) {
        Ok(start) => match cold_at(alloc, &flusher) {
            Ok(cold) => open_at(alloc, shape, start, cold, flusher, made),
            Err(want) => {
                drop(start);
                drop(flusher);
                Err(want)
            }
        },
        Err(want) => {
            drop(flusher);
            Err(want)
        }
    }
}

/// What the table begins with.
fn start_at(
    alloc: Global,
    flusher: &Flusher,
    mut rows: Catalog,
    version: u16,
) -> Result<Start, AllocError>
    requires few { version ≤ 512 }
    ensures after { IfOk result (IsStartAfter flusher.now rows version) }
    ensures can { IfOk result (λ start. (s : Formed) → IsFlusherKept s flusher.now → CanOpen s start) }
{
    match copied_heads(alloc, flusher.heads()) {
        Ok(heads) => {
            rows.clamp(flusher.count());
            Ok(Start {
                base: base_of(flusher),
                heads,
                catalog: rows,
                version,
            })
        }
        Err(want) => {
            drop(rows);
            Err(want)
        }
    }
}

/// Where the commit ends.
fn base_of(flusher: &Flusher) -> Base
    ensures { IsBase flusher.now result }
{
    Base {
        number: flusher.count(),
        line: flusher.line(),
    }
}

/// A copy of heads.
fn copied_heads(alloc: Global, heads: &[u64]) -> Result<Numbers64, AllocError>
    ensures { IfOk result (λ copy. copy ≡ heads.now) }
{
    let mut copy = Numbers64::new(alloc);
    for head in heads {
        copy.push(*head)?;
    }
    Ok(copy)
}

/// A copy of page starts.
fn copied_starts(alloc: Global, starts: &[PageStart]) -> Result<PageStarts, AllocError>
    ensures { IfOk result (λ copy. copy ≡ starts.now) }
{
    let mut copy = PageStarts::new(alloc);
    for start in starts {
        copy.push(*start)?;
    }
    Ok(copy)
}

/// The older records, of which no page was read.
fn cold_at(alloc: Global, flusher: &Flusher) -> Result<Cold, AllocError>
    requires { flusher.now.line ≤ 68719176736 }
    ensures { IfOk result (IsStoreUnread flusher.now) }
{
    let starts = copied_starts(alloc, flusher.starts())?;
    Cold::new(alloc, base_of(flusher), starts)
}

/// Opens the table, which takes memory last.
fn open_at(
    alloc: Global,
    shape: Shape,
    start: Start,
    cold: Cold,
    flusher: Flusher,
    made: bool,
) -> Result<Opened, AllocError>
    requires shape { IsShape shape }
    requires start { CanOpen shape start }
    requires cold { IsStoreUnread flusher cold }
    ensures { IfOk result (OpensAt flusher shape start made) }
{
    match open_log(alloc, shape, &start) {
        Ok((log, pass)) => {
            let count = flusher.count();
            let Start { heads, catalog, .. } = start;
            drop(heads);
            Ok(Opened {
                log,
                pass,
                flusher,
                catalog,
                cold,
                made,
                count,
            })
        }
        Err(want) => {
            drop(start);
            drop(cold);
            drop(flusher);
            Err(want)
        }
    }
}
