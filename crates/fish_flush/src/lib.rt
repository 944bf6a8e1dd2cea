//! Checkpoints: a prefix of the log that lanes still write goes to the store file, at once or not at all.
//!
//! The words of settled records are copied and take their lines in the file, after those of the last
//! commit; then the body of the slot that is closed, which counts them; then its gate opens and the other
//! one closes. Whenever a crash comes, what is left stands for the log of the last commit or of the new
//! one.
#![tactic(auto)]

mod batch;
mod bucket;
mod creation;
mod drafting;
mod exchange;
mod flusher;
mod law;
mod linking;
mod loading;
mod pages;
mod refusal;
mod region;
mod rows;
mod saving;

pub use creation::create;
pub use flusher::Flusher;
pub use law::{law_carries, law_page_starts, law_rows_grow, law_rows_held};
pub use refusal::FlushRefusal;
pub use saving::checkpoint;
