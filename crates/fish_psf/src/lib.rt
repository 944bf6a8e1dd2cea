//! Predicated subset functions: what a definition gives for a record, and which records of a log
//! have a value (the FishStore paper, section 3).
#![tactic(auto)]

mod condition;
mod key;
mod law;
mod parsed;
mod properties;
mod reading;
mod record;
mod steps;
mod value;

pub use condition::holds;
pub use key::{ActiveDef, KeyValue, Keys};
pub use law::{buckets_round_down, selects_matches};
pub use parsed::Parsed;
pub use properties::keys;
pub use reading::{PsfRefusal, parse};
pub use record::Record;
pub use steps::Steps;
pub use value::{Given, evaluate, gives, has, values};
