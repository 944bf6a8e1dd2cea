//! What stops a test: an error that is small, where a `Fail` holds its text itself, so that each call that
//! hands one on would cost the check more.

use fish_catalog::CatRefusal;
use fish_lang::LangRefusal;
use fish_psf::PsfRefusal;
use std::alloc::{AllocError, AllocFailed};

/// Why a test can't go on.
#[derive(Debug, Drop)]
pub struct Cause(pub &'static str);

impl From<AllocError> for Cause {
    fn from(_: AllocError) -> Self {
        Cause("no memory")
    }
}

impl<T: Drop> From<AllocFailed<T>> for Cause {
    fn from(_: AllocFailed<T>) -> Self {
        Cause("no memory")
    }
}

impl From<CatRefusal> for Cause {
    fn from(_: CatRefusal) -> Self {
        Cause("not cataloged")
    }
}

impl From<LangRefusal> for Cause {
    fn from(_: LangRefusal) -> Self {
        Cause("no definition")
    }
}

impl From<PsfRefusal> for Cause {
    fn from(_: PsfRefusal) -> Self {
        Cause("no record of its form")
    }
}
