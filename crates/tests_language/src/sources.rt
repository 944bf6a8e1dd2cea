//! Definitions by their texts.

use fish_lang::{Def, parse_def};
use std::alloc::{AllocError, Global};

/// The definition that a text is. One that is none counts as memory that ran out, so that it shows.
pub(crate) fn definition(alloc: Global, source: &str) -> Result<Def, AllocError> {
    match parse_def(alloc, source.as_bytes()) {
        Ok(def) => Ok(def),
        Err(_) => Err(AllocError),
    }
}
