//! Why the words of an image were not taken.

ghost use Rattle.std.specs.Prelude.{◌≡◌};

use std::alloc::AllocError;
use thiserror::Error;

/// Why the words of an image were not taken.
#[derive(Clone, Copy, Debug, PartialEq, Eq, Error)]
pub enum ImageRefusal {
    /// They stand for no log.
    #[error("damaged behind {number} entries")]
    Damaged {
        /// How many leading entries agree.
        number: u32,
    },
    #[error("out of memory")]
    OutOfMemory,
}

impl From<AllocError> for ImageRefusal {
    ghost use Rattle.fish_image.specs.declared.refusal.ImageRefusal.TheVariants.{OutOfMemory};

    ghost from_gives = { λ _ refusal. refusal ≡ OutOfMemory };

    fn from(_: AllocError) -> Self {
        ImageRefusal::OutOfMemory
    }
}
