//! Why a run stops.

ghost use Rattle.std.specs.Prelude.{◌≡◌};
ghost use Rattle.fish_run.specs.Faults.{lane_fault};

use fish_flush::FlushRefusal;
use fish_lanes::LaneFault;
use fish_outside::FeedRefusal;
use fish_report::WriteRefusal;

/// Why a run stopped before its script's end.
#[derive(Clone, Copy, Debug, PartialEq, Eq)]
pub enum RunFault {
    /// A file couldn't be read.
    Input,
    /// The output failed.
    Output,
    /// Memory ran out.
    Memory,
    /// The disk failed.
    Disk,
    /// What the disk has of a record below the table's first number is none.
    Damaged {
        /// That number, or the table's first.
        number: u32,
    },
}

impl From<FeedRefusal> for RunFault {
    ghost use Rattle.std.specs.Prelude.{◌≡◌};
    ghost use Rattle.fish_run.specs.Faults.{feed_fault};

    ghost from_gives = { λ refusal fault. fault ≡ feed_fault refusal };

    fn from(refusal: FeedRefusal) -> RunFault {
        match refusal {
            FeedRefusal::Failed => RunFault::Input,
            FeedRefusal::OutOfMemory => RunFault::Memory,
        }
    }
}

impl From<WriteRefusal> for RunFault {
    ghost use Rattle.std.specs.Prelude.{◌≡◌};
    ghost use Rattle.fish_run.specs.Faults.{write_fault};

    ghost from_gives = { λ refusal fault. fault ≡ write_fault refusal };

    fn from(refusal: WriteRefusal) -> RunFault {
        match refusal {
            WriteRefusal::Failed => RunFault::Output,
            WriteRefusal::OutOfMemory => RunFault::Memory,
        }
    }
}

impl From<FlushRefusal> for RunFault {
    ghost use Rattle.std.specs.Prelude.{◌≡◌};
    ghost use Rattle.fish_run.specs.Faults.{flush_fault};

    ghost from_gives = { λ refusal fault. fault ≡ flush_fault refusal };

    fn from(refusal: FlushRefusal) -> RunFault {
        match refusal {
            FlushRefusal::DiskFault => RunFault::Disk,
            FlushRefusal::OutOfMemory => RunFault::Memory,
        }
    }
}

/// The fault at which a lane stopped, if it did.
pub(crate) fn lane_fault(stopped: LaneFault) -> Option<RunFault>
    ensures { result ≡ lane_fault stopped }
{
    match stopped {
        LaneFault::None => None,
        LaneFault::Memory => Some(RunFault::Memory),
        LaneFault::Disk => Some(RunFault::Disk),
        LaneFault::Damaged { number } => Some(RunFault::Damaged { number }),
    }
}
