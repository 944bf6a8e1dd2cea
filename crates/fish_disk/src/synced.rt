//! A write that is on the disk when it has succeeded.

ghost use Rattle.std.specs.Prelude.{◌≤◌, ◌+◌, length, IfSome, OnOk};
ghost use Rattle.fish_outside.specs.Causes.{HasCause};
ghost use Rattle.fish_disk.specs.Content.{WrittenThrough};
ghost use Rattle.fish_disk.specs.Crash.{LeavesOnly, TornFrom};

use crate::disk::Disk;
use fish_outside::Failed;

/// Writes a piece and syncs: two calls of the disk. After a fault a crash may leave any bytes in the
/// range.
pub fn write_synced<D: Disk>(disk: &mut D, at: u64, piece: &[u8]) -> Result<(), Failed>
    requires { IfSome (D.content disk.old) (λ c. at ≤ length c) }
    ensures done { OnOk result (WrittenThrough (D.content disk.old) (D.content disk.new)
        (D.images disk.new) at piece.now) }
    ensures crash { LeavesOnly D.images D.since D.moment disk.old disk.new
        (TornFrom (D.images disk.old) at (length piece.now)) }
    ensures two { D.moment disk.new ≤ D.moment disk.old + 2 }

    ensures cause { HasCause (D.faults disk.old) (D.faults disk.new) result }
{
    disk.write_at(at, piece)?;
    disk.sync()
}
