//! Scripts: what a run is to do, from the text of the script.
//!
//! A script is a list of blocks, a block a list of lanes, and a lane a list of statements.
#![tactic(auto)]

mod builder;
mod law;
mod line;
mod name;
mod parse;
mod refusal;
mod script;
mod script_line;
mod word;

pub use law::{law_one_outcome, law_scripts_can_run};
pub use parse::parse_script;
pub use refusal::ScriptRefusal;
pub use script::{
    Block, By, LaneTexts, MAX_FEEDS, MAX_LANES, MAX_NUMBER, MAX_SCRIPT, Script, Statement,
    Statements,
};
