//! What a store knows: the entries of its log in the order of their numbers, and the rows of its
//! definitions in the order of their ids.
#![tactic(auto)]

mod canonical;
mod catalog;
mod clamp;
mod commit;
mod entry;
mod interval;
mod law;
mod listed;
mod page_start;
mod restore;
mod row;
mod words;

pub use canonical::{is_canonical, parse_canonical};
pub use catalog::{CatRefusal, Catalog, MAX_ACTIVE, MAX_ROWS};
pub use commit::{Checked, Commit, MAX_ACTIVE_AT_FIRST, NEWEST_FORMAT};
pub use entry::{Entries, Entry};
pub use fish_value::MAX_NAME;
pub use interval::{Interval, Intervals};
pub use law::clamps_cover_alike;
pub use listed::Listed;
pub use page_start::{PageStart, PageStarts, page_after};
pub use restore::count_active;
pub use row::{CatRow, is_name};
pub use words::{ROW_WORDS, active_in, read_row, row_words};
