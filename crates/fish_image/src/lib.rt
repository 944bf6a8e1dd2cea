//! What bytes stand for a log: the body of a slot of a store file, and the words of its lines.
//!
//! A commit tells how many entries and lines a log has, and its definitions. The words of its lines are
//! read region by region, in pieces of any size, and each is held to what the commit tells.
#![tactic(auto)]

mod advance;
mod checker;
mod image;
mod keys;
mod law;
mod opening;
mod progress;
mod read;
mod refusal;
mod region;
mod resumption;
mod slot;
mod step;
mod terms;
mod words;

pub use checker::Checker;
pub use image::check_image;
pub use law::{
    checked_heads_are_older, checked_is_one_log, damage_is_one, damaged_is_no_log,
    heads_are_newest, log_is_of_any_format,
};
pub use read::read_slot;
pub use refusal::ImageRefusal;
pub use slot::{has_format, is_within, slot_body};
pub use words::words_in;
