//! Why an older record isn't answered.

use fish_outside::Failed;
use std::alloc::AllocError;
use thiserror::Error;

/// Why an older record isn't answered.
#[derive(Clone, Copy, Debug, Error)]
pub enum ColdRefusal {
    #[error("the disk failed")]
    DiskFault,
    #[error("damaged at {number}")]
    Damaged {
        /// The number that was asked for.
        number: u32,
    },
    #[error("out of memory")]
    OutOfMemory,
}

impl From<AllocError> for ColdRefusal {
    ghost use Rattle.std.specs.Prelude.{◌≡◌};
    ghost use Rattle.fish_cold.specs.declared.refusal.ColdRefusal.TheVariants.{OutOfMemory};

    ghost from_gives = { λ _ refusal. refusal ≡ OutOfMemory };

    fn from(_: AllocError) -> Self {
        ColdRefusal::OutOfMemory
    }
}

impl From<Failed> for ColdRefusal {
    ghost use Rattle.std.specs.Prelude.{◌≡◌};
    ghost use Rattle.fish_cold.specs.declared.refusal.ColdRefusal.TheVariants.{DiskFault};

    ghost from_gives = { λ _ refusal. refusal ≡ DiskFault };

    fn from(_: Failed) -> Self {
        ColdRefusal::DiskFault
    }
}
