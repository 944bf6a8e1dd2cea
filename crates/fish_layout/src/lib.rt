//! The words of a record: its header, the entries of its indexed properties, their values, and its
//! payload, as they stand in the log, both ways; and the hash that puts a key into its bucket.
//!
//! Words have 64 bits, and bytes fill them low byte first. A line has four words. What the words of
//! a record are is a definition on its parts, in `specs/`.
#![tactic(auto)]

mod body;
mod hash;
mod header;
mod keys;
mod operation;
mod outline;
mod page;
mod parts;
mod proper;
mod read;
mod word;
mod write;

pub use body::{Body, set_number};
pub use fish_value::{MAX_LANE, MAX_PAYLOAD};
pub use hash::{bucket_of, hash_of_id, hash_step, key_hash};
pub use header::{Header, header_of, void_header};
pub use keys::find_key;
pub use operation::{end_word, ended_id, register_word, registers};
pub use page::{
    LINE_BYTES, LINE_WORDS, LINES_AT, PAGE_BYTES, PAGE_LINES, PAGE_WORDS, crosses_page, entry_at,
    page_of, place_of,
};
pub use parts::{BodyHead, BodyParts, KeyPart, KeyParts, MAX_KEYS, MAX_VERSION};
pub use read::{Payload, find_payload, read_body, read_payload};
pub use word::{id_in, keys_in, kind_in, lines_in, number_in, offset_in, place_in, size_in};
pub use write::{body_from, body_of};
