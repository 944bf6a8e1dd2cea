//! What a call of the outside answers where it didn't do its work.

use std::alloc::AllocError;
use thiserror::Error;

/// The one fault of the outside: a read, a write or the opening of a file failed.
#[derive(Clone, Copy, Debug, PartialEq, Eq, Error)]
#[error("the outside failed")]
pub struct Failed;

/// Why a host gave no feed of a file.
#[derive(Clone, Copy, Debug, PartialEq, Eq, Error)]
pub enum FeedRefusal {
    /// The host failed, or has no file of that name.
    #[error("the outside failed")]
    Failed,
    /// Memory ran out.
    #[error("out of memory")]
    OutOfMemory,
}

impl From<Failed> for FeedRefusal {
    ghost use Rattle.fish_outside.specs.declared.fault.FeedRefusal.TheVariants as refusal;
    ghost use Rattle.std.specs.Prelude.{◌≡◌};

    ghost from_gives = { λ _ made. made ≡ refusal.Failed };

    /// A fault of the outside stays one.
    fn from(_: Failed) -> Self {
        FeedRefusal::Failed
    }
}

impl From<AllocError> for FeedRefusal {
    ghost use Rattle.fish_outside.specs.declared.fault.FeedRefusal.TheVariants as refusal;
    ghost use Rattle.std.specs.Prelude.{◌≡◌};

    ghost from_gives = { λ _ made. made ≡ refusal.OutOfMemory };

    /// Want of memory stays what it is.
    fn from(_: AllocError) -> Self {
        FeedRefusal::OutOfMemory
    }
}
