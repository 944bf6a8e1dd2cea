//! Why a payload was not stored.

use fish_psf::PsfRefusal;
use fish_rule::Shut;
use std::alloc::AllocError;
use thiserror::Error;

/// Why a payload was not stored.
#[derive(Clone, Copy, Debug, PartialEq, Eq, Error)]
pub enum IngestRefusal {
    #[error("a record has at most 524288 bytes")]
    TooLong,
    #[error("no record of its form")]
    NotRecord,
    #[error("out of memory")]
    OutOfMemory,
    /// The claim that shut the pass, in this call or earlier, ends past the log's end.
    #[error("full at line {line}, {lines} lines of {end}")]
    Full {
        /// Its first line.
        line: u64,
        /// How many lines it asked for.
        lines: u64,
        /// The first line after the log.
        end: u64,
    },
}

impl From<Shut> for IngestRefusal {
    ghost use Rattle.std.specs.Prelude.{◌≡◌};
    ghost use Rattle.fish_ingest.specs.Refusal.{full_of};

    ghost from_gives = { λ shut refusal. refusal ≡ full_of shut };

    fn from(shut: Shut) -> IngestRefusal {
        IngestRefusal::Full {
            line: shut.line,
            lines: shut.lines,
            end: shut.end,
        }
    }
}

impl From<AllocError> for IngestRefusal {
    ghost use Rattle.std.specs.Prelude.{◌≡◌};
    ghost use Rattle.fish_ingest.specs.declared.refusal.IngestRefusal.TheVariants.{OutOfMemory};

    ghost from_gives = { λ _ refusal. refusal ≡ OutOfMemory };

    fn from(_: AllocError) -> IngestRefusal {
        IngestRefusal::OutOfMemory
    }
}

impl From<PsfRefusal> for IngestRefusal {
    ghost use Rattle.std.specs.Prelude.{◌≡◌};
    ghost use Rattle.fish_ingest.specs.Refusal.{ingest_refusal};

    ghost from_gives = { λ found refusal. refusal ≡ ingest_refusal found };

    fn from(found: PsfRefusal) -> IngestRefusal {
        match found {
            PsfRefusal::TooLong => IngestRefusal::TooLong,
            PsfRefusal::NotRecord => IngestRefusal::NotRecord,
            PsfRefusal::OutOfMemory => IngestRefusal::OutOfMemory,
        }
    }
}
