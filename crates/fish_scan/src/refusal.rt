//! Why a scan isn't answered.

use fish_cold::ColdRefusal;
use std::alloc::AllocError;
use thiserror::Error;

/// Why a scan isn't answered, in the order in which it is found; memory may be wanting in place of any.
#[derive(Clone, Copy, Debug, Error)]
pub enum ScanRefusal {
    #[error("no definition up to version {version} has the name")]
    UnknownName {
        /// The version that the scan loaded.
        version: u16,
    },
    #[error("the range {from}..{to} is empty")]
    EmptyRange {
        from: u32,
        to: u32,
    },
    #[error("no index holds the numbers {from}..{to}")]
    NotCovered {
        /// The first of the newest settled numbers that no index holds.
        from: u32,
        to: u32,
    },
    #[error("the log begins at {base}")]
    ColdRange {
        /// The log's first number.
        base: u32,
    },
    #[error("the disk failed")]
    DiskFault,
    #[error("damaged at {number}")]
    Damaged {
        /// The number that was looked for in the file.
        number: u32,
    },
    #[error("out of memory")]
    OutOfMemory,
}

impl From<AllocError> for ScanRefusal {
    ghost use Rattle.std.specs.Prelude.{◌≡◌};
    ghost use Rattle.fish_scan.specs.declared.refusal.ScanRefusal.TheVariants.{OutOfMemory};

    ghost from_gives = { λ _ refusal. refusal ≡ OutOfMemory };

    fn from(_: AllocError) -> Self {
        ScanRefusal::OutOfMemory
    }
}

impl From<ColdRefusal> for ScanRefusal {
    ghost use Rattle.std.specs.Prelude.{◌≡◌};
    ghost use Rattle.fish_scan.specs.Refusals.{scan_refusal_of};

    ghost from_gives = { λ cold refusal. refusal ≡ scan_refusal_of cold };

    fn from(refusal: ColdRefusal) -> Self {
        match refusal {
            ColdRefusal::DiskFault => ScanRefusal::DiskFault,
            ColdRefusal::Damaged { number } => ScanRefusal::Damaged { number },
            ColdRefusal::OutOfMemory => ScanRefusal::OutOfMemory,
        }
    }
}
