//! Where files are.

ghost use Rattle.std.specs.Prelude.{◌≡◌, ℕ, Option, IfOk, IfSome, IsSome, OnErr};
ghost use Rattle.fish_outside.specs.Causes.{counted_on, HasFeedCause};
ghost use Rattle.fish_outside.specs.Content.{Files, HasFile, SameFiles};

use crate::fault::FeedRefusal;
use crate::source::Source;
use fish_value::Text;
use std::alloc::Global;

/// Has files by name. A file is read through a feed, which goes back to the host when it has been
/// read, with its faults.
pub trait Host {
    /// One file that is being read. It can move to another thread.
    type Feed: Source + Send;

    /// The files, or `None` where they are no longer told.
    ghost files: { Self → Option Files };

    /// How often a call or a feed that came back has failed. It never falls.
    ghost faults: { Self → ℕ };

    /// Begins to read the file of a name. A name that the host doesn't have is a fault.
    fn feed(&mut self, alloc: Global, name: &Text) -> Result<Self::Feed, FeedRefusal>
        ensures rest { IfOk result (λ feed.
            IfSome (files self.new) (λ told. HasFile told name.now (Self.Feed.left feed))) }
        ensures fresh { IfOk result (λ feed. Self.Feed.faults feed ≡ 0) }
        ensures content { SameFiles (files self.old) (files self.new) }

        ensures refused { OnErr result (files self.new ≡ files self.old) }
        ensures cause { HasFeedCause (faults self.old) (faults self.new) result };

    /// Takes a feed back, and counts its faults as the host's.
    fn done(&mut self, feed: Self::Feed)
        ensures content { SameFiles (files self.old) (files self.new) }
        // A host that is still told had a feed that was told to its end.
        ensures feed { IsSome (files self.new) → IsSome (Self.Feed.left feed) }
        ensures faults { faults self.new ≡ counted_on (faults self.old) (Self.Feed.faults feed) };
}
