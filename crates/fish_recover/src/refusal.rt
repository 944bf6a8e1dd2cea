//! Why a store isn't opened.

use fish_outside::Failed;
use fish_rule::Shape;
use std::alloc::AllocError;
use std::error::Error;
use std::fmt;

/// The shape that is asked for, as far as one is.
#[derive(Clone, Copy, Debug, PartialEq, Eq)]
pub struct Asked {
    /// How many pages the table has.
    pub pages: Option<u16>,
    /// It has as many buckets as two to this power.
    pub bucket_bits: Option<u8>,
}

/// Why a store isn't opened, in the order in which it is found.
#[derive(Clone, Copy, Debug, PartialEq, Eq)]
pub enum OpenRefusal {
    /// No gate is open.
    NotAStore,
    /// No slot counts, or its lines stand for no log.
    Damaged {
        /// How many leading entries agree.
        number: u32,
    },
    /// The store has another shape than the one that is asked for.
    ShapeDiffers {
        /// The store's.
        kept: Shape,
        /// What is asked for.
        asked: Asked,
    },
    DiskFault,
    OutOfMemory,
}

/// Why it isn't. A number of a shape that isn't asked for is told as the store's.
impl fmt::Display for OpenRefusal {
    ghost use Rattle.std.specs.Prelude.{Some};
    ghost use Rattle.fish_recover.specs.RefusalText.{open_refusal_text};

    ghost output = { λ refusal. Some (open_refusal_text refusal) };

    fn fmt<W: fmt::Write>(&self, f: &mut fmt::Formatter<W>) -> fmt::Result {
        match self {
            OpenRefusal::NotAStore => write!(f, "not a store"),
            OpenRefusal::Damaged { number } => write!(f, "damaged {number}"),
            OpenRefusal::ShapeDiffers { kept, asked } => {
                let Shape { pages, bucket_bits } = *kept;
                let asked_pages = asked.pages.unwrap_or(pages);
                let asked_bits = asked.bucket_bits.unwrap_or(bucket_bits);
                write!(
                    f,
                    "shape {pages} {bucket_bits} asked {asked_pages} {asked_bits}"
                )
            }
            OpenRefusal::DiskFault => write!(f, "disk"),
            OpenRefusal::OutOfMemory => write!(f, "out of memory"),
        }
    }
}

impl Error for OpenRefusal {}

impl From<AllocError> for OpenRefusal {
    ghost use Rattle.std.specs.Prelude.{◌≡◌};
    ghost use Rattle.fish_recover.specs.declared.refusal.OpenRefusal.TheVariants.{OutOfMemory};

    ghost from_gives = { λ _ refusal. refusal ≡ OutOfMemory };

    fn from(_: AllocError) -> Self {
        OpenRefusal::OutOfMemory
    }
}

impl From<Failed> for OpenRefusal {
    ghost use Rattle.std.specs.Prelude.{◌≡◌};
    ghost use Rattle.fish_recover.specs.declared.refusal.OpenRefusal.TheVariants.{DiskFault};

    ghost from_gives = { λ _ refusal. refusal ≡ DiskFault };

    fn from(_: Failed) -> Self {
        OpenRefusal::DiskFault
    }
}
