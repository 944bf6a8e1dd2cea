//! The rule of the log: what its shared words say at every moment, whatever the interleaving of the
//! passes, and one function for each kind of atomic step.
//!
//! A line has 32 bytes, which are four words. Numbers, lines and places are counted from the log's
//! start. No other crate touches a shared word.
#![tactic(auto)]

mod area;
mod boundaries;
mod close;
mod entry;
mod kept;
mod law;
mod linking;
mod opening;
mod registry;
mod seats;
mod space;
mod step_kinds;
mod table;
mod view;
mod walk;
mod word;

pub use boundaries::{check_lane, load_bound, load_boundary, store_from, store_to};
pub use close::{CloseWant, Remains, close_log};
pub use entry::read_region;
pub use kept::LogEntries;
pub use law::{law_closed_log, law_every_schedule, law_found_regions, law_intervals, law_opens};
pub use linking::{aim_entry, load_head, load_node, load_previous, splice_entry, swing_head};
pub use registry::{
    announce, define_operation, define_row_word, load_opened, load_operation, load_row,
    load_version, raise_version, retire,
};
pub use seats::{Start, base, buckets, first_version, join_pass, open_log, shape, split_pass};
pub use space::{
    claim_lines, in_flight, is_shut, kind_in, lane, load_settled, load_tail, look_at,
    publish_region, raise_settled, read_word, region_index, store_at, store_word,
};
pub use table::{Base, Log, LogRule, Pass, Region, Shape, Walk};
pub use view::{
    Clock, EntryPlace, Epoch, Flight, Found, Gap, Key, Kind, Known, Label, Learned, Note, Noted,
    Own, Position, Recorded, RegistryWord, Shut, View,
};
pub use walk::{keep_walk, kept_walk};
pub use word::{kind_of_word, line_of_word};
