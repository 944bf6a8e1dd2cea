//! What was found in a file, and why a file is refused.

ghost use Rattle.std.specs.Prelude.{◌≡◌, ◌+◌, ◌<◌, ◌++◌, ◌∷◌, [], OnOk};

use fish_value::{Text, Texts};
use std::alloc::{AllocError, Global};
use thiserror::Error;

/// The records of a file.
#[derive(Debug, Drop)]
pub struct Records {
    /// Their payloads in order.
    pub payloads: Texts,
    /// How many lines or rows are no record.
    pub refused: u64,
}

/// Why a file was not read.
#[derive(Clone, Copy, Debug, PartialEq, Eq, Error)]
pub enum RecordsRefusal {
    #[error("a file in CSV has at most 67108864 bytes")]
    FileTooLong,
    #[error("out of memory")]
    OutOfMemory,
}

impl From<AllocError> for RecordsRefusal {
    ghost use Rattle.std.specs.Prelude.{◌≡◌};
    ghost use Rattle.fish_lines.specs.declared.found.RecordsRefusal.TheVariants.{OutOfMemory};

    ghost from_gives = { λ _ refusal. refusal ≡ OutOfMemory };

    fn from(_: AllocError) -> RecordsRefusal {
        RecordsRefusal::OutOfMemory
    }
}

impl Records {
    ghost use Rattle.fish_value.specs.Outcomes.{accepted, refused as refused_of};

    /// No record.
    pub(crate) fn new(alloc: Global) -> Records
        ensures payloads { result.payloads ≡ [] }
        ensures refused { result.refused ≡ 0 }
    {
        Records {
            payloads: Texts::new(alloc),
            refused: 0,
        }
    }

    /// Puts a payload after the others, or counts a line as refused.
    pub(crate) fn count(&mut self, outcome: Option<Text>) -> Result<(), AllocError>
        requires { self.old.refused < u64.MAX }
        ensures payloads { OnOk result (self.new.payloads ≡ self.old.payloads ++ accepted (outcome ∷ [])) }
        ensures refused { OnOk result (self.new.refused ≡ self.old.refused + refused_of (outcome ∷ [])) }
    {
        match outcome {
            Some(text) => self.payloads.push(text),
            None => {
                self.refused += 1;
                Ok(())
            }
        }
    }
}
