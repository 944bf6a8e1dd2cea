//! Lanes: each does its statements by a pass of its own, on threads that run at once, all on one log.
#![tactic(auto)]

mod block;
mod control;
mod finishing;
mod gate;
mod handing;
mod ingesting;
mod lane;
mod registering;
mod scanning;
mod seats;
mod statements;
mod work;

pub use block::{BlockEnd, Boundary, run_block};
pub use gate::{Gate, OpenGate, Point};
pub use lane::{Lane, LanePass};
pub use work::{LaneFault, Work, Works};
