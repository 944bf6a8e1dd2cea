//! Ingesting: a record from the bytes of its payload to its place in every chain.
//!
//! A payload is parsed once. Then the pass enters the registry's version, each definition that is
//! active there is evaluated on that parse, and the words are made with number 0. All memory is taken
//! before the claim. Every shared word is touched by `fish_rule` alone.
#![tactic(auto)]

mod ingestion;
mod placement;
mod preparation;
mod refusal;

pub use ingestion::{finish, ingest, law_full, law_ingested, start};
pub use placement::{Pending, write_record};
pub use preparation::{Origin, Prepared, prepare};
pub use refusal::IngestRefusal;
