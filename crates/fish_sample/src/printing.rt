//! A sample, from its number to what is printed of it.

ghost use Rattle.std.specs.Prelude.{◌≡◌, ◌≤◌, [], IfOk, IsErrOf, Some};
ghost use Rattle.fish_outside.specs.Causes.{Rose};
ghost use Rattle.fish_sample.specs.within.Blocks.{IsAlwaysShown, IsSample};
ghost use Rattle.fish_sample.specs.Printed.{HasPrinted, HasPrintedSome};

use crate::filling::fill;
use crate::opening::{Sampled, close, make_store};
use fish_disk::{Disk, MemoryDisk};
use fish_outside::{Sink, write_whole};
use fish_rule::Remains;
use fish_value::{Bytes, Numbers64};
use std::alloc::{AllocError, Global};
use std::thread::Threads;

/// Why a sample wasn't printed.
#[derive(Clone, Copy, Debug, PartialEq, Eq)]
pub enum SampleFault {
    /// Memory ran out, or a lane's items aren't those of a sample.
    Memory,
    /// The output failed.
    Output,
}

impl From<AllocError> for SampleFault {
    ghost use Rattle.std.specs.Prelude.{◌≡◌};
    ghost use Rattle.fish_sample.specs.declared.printing.SampleFault.TheVariants.{Memory};

    ghost from_gives = { λ _ fault. fault ≡ Memory };

    fn from(_: AllocError) -> Self {
        SampleFault::Memory
    }
}

/// Stores the records below a number by four lanes in a store of its own, counts its values by scans, and prints the
/// counts. A number whose records don't fit into a table of 8 pages ends as `Memory`; 60,000 do.
pub fn sample<R: Threads + Sync, W: Sink>(
    rt: &R,
    alloc: Global,
    number: u32,
    out: &mut W,
) -> Result<Remains, SampleFault>
    ensures sample { IfOk result (HasPrinted number (W.written out.old) (W.written out.new)) }
    ensures part { IsErrOf result SampleFault.Output → HasPrintedSome number (W.written out.old) (W.written out.new) }
    ensures memory { IsErrOf result SampleFault.Memory → out.new ≡ out.old }
    ensures later { W.faults out.old ≤ W.faults out.new }
    ensures output { IsErrOf result SampleFault.Output → Rose (W.faults out.old) (W.faults out.new) }
{
    let Sampled { text, remains } = made(rt, alloc, number)?;
    match write_whole(out, text.as_bytes()) {
        Ok(()) => Ok(remains),
        Err(_) => {
            drop(remains);
            Err(SampleFault::Output)
        }
    }
}

/// Fills and scans the store of a sample, and answers what is printed.
fn made<R: Threads + Sync>(rt: &R, alloc: Global, number: u32) -> Result<Sampled, AllocError>
    ensures { IfOk result (λ s. IsSample number s.text s.remains) }
{
    let mut disk = MemoryDisk::new(alloc, Bytes::new(alloc), Numbers64::new(alloc));
    let sampled = made_on(rt, alloc, number, &mut disk);
    drop(disk);
    sampled
}

/// Fills and scans a store on an empty disk.
fn made_on<R: Threads + Sync, D: Disk + Send>(
    rt: &R,
    alloc: Global,
    number: u32,
    disk: &mut D,
) -> Result<Sampled, AllocError>
    requires content { IsAlwaysShown D.content }
    requires empty { D.content disk.old ≡ Some [] }
    ensures { IfOk result (λ s. IsSample number s.text s.remains) }
{
    let mut store = make_store(alloc, disk)?;
    match fill(rt, alloc, number, &mut store, disk) {
        Ok(text) => close(alloc, store, text),
        Err(want) => {
            drop(store);
            Err(want)
        }
    }
}
