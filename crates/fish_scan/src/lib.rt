//! Scans: the records of a range on which a definition has a value, through the index where it is
//! complete and by reading them elsewhere.
//!
//! A scan waits for nobody. A number whose record isn't published yet when it is looked at is named as
//! open. Nothing here changes a shared word but the settled number.
#![tactic(auto)]

mod across;
mod ask;
mod below;
mod chained;
mod cutting;
mod indexed;
mod intervals;
mod law;
mod matching;
mod naming;
mod older;
mod pieces;
mod planning;
mod reach;
mod reading;
mod refusal;
mod scanning;

pub use across::scan_with;
pub use ask::{Answer, Ask, Explained, How};
pub use law::law_selection;
pub use refusal::ScanRefusal;
pub use scanning::{explain, scan};
