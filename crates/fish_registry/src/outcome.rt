//! What a registrar answers.

use fish_catalog::{CatRefusal, MAX_ACTIVE};
use std::alloc::AllocError;
use thiserror::Error;

/// Why a definition was not registered, or not ended.
#[derive(Clone, Copy, Debug, PartialEq, Eq, Error)]
pub enum RegRefusal {
    /// The index of the definition with this id hasn't begun.
    #[error("the index of definition {id} hasn't begun")]
    Rolling { id: u16 },
    /// As many versions were made as may be.
    #[error("512 versions were made")]
    TooManyVersions,
    /// An active definition has the name.
    #[error("the name is active")]
    NameActive,
    /// As many definitions are active as may be.
    #[error("{} definitions are active", MAX_ACTIVE)]
    TooManyActive,
    /// As many definitions are there as may be.
    #[error("256 definitions are there")]
    TooManyDefinitions,
    /// Memory ran out.
    #[error("out of memory")]
    OutOfMemory,
    /// No active definition has the name.
    #[error("no active definition has the name")]
    UnknownName,
}

impl From<CatRefusal> for RegRefusal {
    ghost use Rattle.std.specs.Prelude.{◌≡◌};
    ghost use Rattle.fish_registry.specs.Refusing.{refusal_of};

    ghost from_gives = { λ found refusal. refusal ≡ refusal_of found };

    fn from(found: CatRefusal) -> RegRefusal {
        match found {
            CatRefusal::NameActive => RegRefusal::NameActive,
            CatRefusal::TooManyActive => RegRefusal::TooManyActive,
            CatRefusal::TooManyDefinitions => RegRefusal::TooManyDefinitions,
            CatRefusal::OutOfMemory => RegRefusal::OutOfMemory,
            CatRefusal::UnknownName => RegRefusal::UnknownName,
        }
    }
}

impl From<AllocError> for RegRefusal {
    ghost use Rattle.std.specs.Prelude.{◌≡◌};
    ghost use Rattle.fish_registry.specs.declared.outcome.RegRefusal.TheVariants.{OutOfMemory};

    ghost from_gives = { λ _ refusal. refusal ≡ OutOfMemory };

    fn from(_: AllocError) -> RegRefusal {
        RegRefusal::OutOfMemory
    }
}

/// What became of the registration that waits.
#[derive(Clone, Copy, Debug, PartialEq, Eq)]
pub enum Poll {
    /// None waits.
    Idle,
    /// The pass of a lane is still entered at an older version.
    NotYet { seat: u8, version: u16 },
    /// The index of the definition with this id begins at this number.
    Bound { id: u16, from: u32 },
}
