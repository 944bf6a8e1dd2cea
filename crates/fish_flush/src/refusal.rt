//! Why nothing was committed.

ghost use Rattle.std.specs.Prelude.{◌≡◌};

use fish_outside::Failed;
use std::alloc::AllocError;
use thiserror::Error;

/// Why nothing was committed.
#[derive(Clone, Copy, Debug, PartialEq, Eq, Error)]
pub enum FlushRefusal {
    /// A call of the disk failed. The store is opened again before anything else is claimed.
    #[error("the disk failed")]
    DiskFault,
    #[error("out of memory")]
    OutOfMemory,
}

impl From<AllocError> for FlushRefusal {
    ghost use Rattle.fish_flush.specs.declared.refusal.FlushRefusal.TheVariants.{OutOfMemory};

    ghost from_gives = { λ _ refusal. refusal ≡ OutOfMemory };

    fn from(_: AllocError) -> Self {
        FlushRefusal::OutOfMemory
    }
}

impl From<Failed> for FlushRefusal {
    ghost use Rattle.fish_flush.specs.declared.refusal.FlushRefusal.TheVariants.{DiskFault};

    ghost from_gives = { λ _ refusal. refusal ≡ DiskFault };

    fn from(_: Failed) -> Self {
        FlushRefusal::DiskFault
    }
}
