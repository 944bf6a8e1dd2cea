//! Lanes that run at once, each on a thread of its own, and the line that says how long they took.

ghost use Rattle.std.specs.Prelude.{◌≤◌, All};

use std::io::Eprint;
use std::thread::{Threads, for_each_mut};
use std::time::{Clock, Instant};

/// How many lanes a measurement has.
#[derive(Clone, Copy)]
pub enum LaneCount {
    One,
    Two,
    Three,
    Four,
}

impl LaneCount {
    pub fn number(self) -> u8
        ensures { (1 ≤ result) × (result ≤ 4) }
    {
        match self {
            LaneCount::One => 1,
            LaneCount::Two => 2,
            LaneCount::Three => 3,
            LaneCount::Four => 4,
        }
    }
}

/// What one thread does in a measurement, with something that all threads share.
pub trait Lane<S> {
    /// When it may run.
    ghost can_run: { S → Self → Type 0 };

    /// Does its share.
    fn run(&mut self, shared: &S)
        requires { can_run shared.now self.old };

    /// How much was done, in the measurement's unit.
    fn done(&self) -> u64;
}

/// Runs all lanes at once, and writes the line of the measurement.
pub fn time_lanes<R: Threads + Sync + Clock + Eprint, S: Sync, L: Lane<S> + Send>(
    rt: &R,
    work: &str,
    unit: &str,
    shared: &S,
    lanes: &mut [L],
)
    requires { All (L.can_run shared.now) lanes.old }
{
    let count = lanes.len();
    let Ok(start) = Instant::now(rt) else {
        return;
    };
    if count > 0 {
        for_each_mut(rt, lanes, count, &|_, lane| lane.run(shared));
    }
    let Ok(took) = start.elapsed(rt) else {
        return;
    };
    let done = done_by::<S, L>(lanes);
    report(rt, work, count, took.as_nanos(), done, unit);
}

/// How much all lanes did.
fn done_by<S, L: Lane<S>>(lanes: &[L]) -> u64 {
    let mut done = 0u64;
    for lane in lanes {
        done = done.saturating_add(lane.done());
    }
    done
}

/// Writes the line of a measurement. Where standard error is closed, there is none.
pub fn report<R: Eprint>(
    rt: &R,
    work: &str,
    lanes: usize,
    nanoseconds: u128,
    done: u64,
    unit: &str,
) {
    let _ = rt.eprintln(format_args!("{work} {lanes} lanes {nanoseconds} ns {done} {unit}"));
}
