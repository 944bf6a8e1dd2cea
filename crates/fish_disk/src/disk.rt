//! What a disk does, and what a crash may leave of it at each moment.

ghost use Rattle.std.specs.Prelude.{◌≡◌, ◌≤◌, ◌+◌, ◌⊎◌, ℕ, Bool, List, Option, Some, length, IfOk, IfSome, IsSome, OnOk};
ghost use Rattle.fish_outside.specs.Causes.{HasCause};
ghost use Rattle.fish_disk.specs.Content.{Gave, StillReads, Wrote};
ghost use Rattle.fish_disk.specs.Crash.{KeepsPast, LeavesOnly, TornFrom};

use fish_outside::Failed;

/// Bytes by place, which outlive the program. A crash at some moment leaves one of that moment's
/// images. After a call that failed, the disk is opened again before anything else is claimed.
pub trait Disk {
    /// What reads give, or `None` where that is no longer told.
    ghost content: { Self → Option (List ℕ) };

    /// What a crash at this moment may leave.
    ghost images: { Self → List ℕ → Type 0 };

    /// How many calls are told apart so far. It never falls.
    ghost moment: { Self → ℕ };

    /// What a crash at some moment from that one on may have left.
    ghost since: { Self → ℕ → List ℕ → Type 0 };

    /// Whether what a crash could have left at a moment stays among what one may have left since then. Of a disk
    /// that doesn't keep its past, `since` may tell of now alone.
    ghost keeps_past: { Bool };

    /// How often a call has failed. It never falls.
    ghost faults: { Self → ℕ };

    /// Reads the bytes from a place on into the front of a buffer, as many as there are and fit, and
    /// answers how many.
    fn read(&mut self, at: u64, buf: &mut [u8]) -> Result<usize, Failed>
        ensures bound { IfOk result (λ n. n ≤ length buf.new) }
        ensures bytes { IfOk result (λ n. Gave (content self.new) at n buf.new) }
        ensures content { StillReads (content self.old) (content self.new) }
        ensures crash { LeavesOnly images since moment self.old self.new (images self.old) }
        ensures one { moment self.new ≤ moment self.old + 1 }
        ensures past { KeepsPast keeps_past since moment self.old self.new }

        ensures cause { HasCause (faults self.old) (faults self.new) result };

    /// Writes a piece over the bytes from a place on, which is at most the end. Until a sync succeeds,
    /// a crash may leave any bytes there.
    fn write_at(&mut self, at: u64, piece: &[u8]) -> Result<(), Failed>
        requires { IfSome (content self.old) (λ c. at ≤ length c) }
        ensures content { Wrote (content self.old) (content self.new) at piece.now result }
        ensures crash { LeavesOnly images since moment self.old self.new
            (TornFrom (images self.old) at (length piece.now)) }
        ensures one { moment self.new ≤ moment self.old + 1 }
        ensures past { KeepsPast keeps_past since moment self.old self.new }

        ensures cause { HasCause (faults self.old) (faults self.new) result };

    /// Brings everything to the disk: from then on a crash leaves what is read.
    fn sync(&mut self) -> Result<(), Failed>
        ensures synced { OnOk result
            ((c : List ℕ) → images self.new c → content self.new ≡ Some c) }
        ensures content { StillReads (content self.old) (content self.new) }
        ensures crash { LeavesOnly images since moment self.old self.new (images self.old) }
        ensures one { moment self.new ≤ moment self.old + 1 }
        ensures past { KeepsPast keeps_past since moment self.old self.new }

        ensures cause { HasCause (faults self.old) (faults self.new) result };

    /// How many bytes there are.
    fn length(&mut self) -> Result<u64, Failed>
        ensures length { IfOk result (λ n. IfSome (content self.new) (λ c. n ≡ length c)) }
        ensures content { StillReads (content self.old) (content self.new) }
        ensures crash { LeavesOnly images since moment self.old self.new (images self.old) }
        ensures one { moment self.new ≤ moment self.old + 1 }
        ensures past { KeepsPast keeps_past since moment self.old self.new }

        ensures cause { HasCause (faults self.old) (faults self.new) result };

    /// What a crash now may leave counts among what one may have left since each moment so far.
    ghost counts_now: { (disk : Self) (t : ℕ) (c : List ℕ) →
        t ≤ moment disk → images disk c → since disk t c };

    /// Since now there is nothing else than now.
    ghost only_now: { (disk : Self) (c : List ℕ) → since disk (moment disk) c → images disk c };

    /// Since a later moment a crash may have left less.
    ghost fewer_later: { (disk : Self) (t u : ℕ) (c : List ℕ) →
        t ≤ u → since disk u c → since disk t c };

    /// The disk as read is one of its images.
    ghost as_read: { (disk : Self) (c : List ℕ) → content disk ≡ Some c → images disk c };

    /// There are images only where the content is told.
    ghost told: { (disk : Self) (c : List ℕ) → images disk c → IsSome (content disk) };
}
