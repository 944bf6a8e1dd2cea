//! A gate that holds lanes until others have come somewhere, and so orders what they do.

use fish_lanes::{Gate, Point};
use std::alloc::{AllocError, Global};
use std::sync::atomic::{AtomicU64, Ordering};
use std::thread::yield_now;

/// How often a lane that is held looks whether it may go on, before it is let go.
const TURNS: u64 = 20_000_000;

/// A lane that is to be held at a point until another lane has come to one.
#[derive(Clone, Copy, Debug, PartialEq, Eq)]
pub struct Hold {
    /// The lane that is held, by its number.
    pub lane: u8,
    pub at: Point,
    /// How often it passes the point before.
    pub passes: u64,
    /// The lane that it waits for.
    pub other: u8,
    pub until: Point,
}

/// A hold, and what became of it.
#[derive(Drop)]
struct Held {
    hold: Hold,
    /// How often the lane has come to its point.
    arrivals: AtomicU64,
    /// How often the other lane has come to its own.
    signs: AtomicU64,
}

/// Holds, of which each is met once.
#[derive(Drop)]
pub struct HoldGate {
    holds: Vec<Held>,
    let_go: AtomicU64,
}

impl HoldGate {
    /// A gate that holds no lane yet. Takes no memory.
    pub fn new(alloc: Global) -> HoldGate {
        HoldGate {
            holds: Vec::new(alloc),
            let_go: AtomicU64::new(0),
        }
    }

    /// Holds a lane, too.
    pub fn add(&mut self, hold: Hold) -> Result<(), AllocError> {
        self.holds.push(Held {
            hold,
            arrivals: AtomicU64::new(0),
            signs: AtomicU64::new(0),
        })?;
        Ok(())
    }

    /// How often a lane was let go since the other one never came.
    pub fn let_go(&self) -> u64 {
        self.let_go.load(Ordering::SeqCst)
    }

    /// Comes back once the other lane has come, or after so many turns.
    fn hold(&self, held: &Held) {
        for _ in 0..TURNS {
            if held.signs.load(Ordering::SeqCst) != 0 {
                return;
            }
            yield_now();
        }
        self.let_go.fetch_add(1, Ordering::SeqCst);
    }
}

impl Gate for HoldGate {
    fn reach(&self, lane: u8, point: Point) {
        for held in &self.holds {
            if held.hold.other == lane && held.hold.until == point {
                held.signs.fetch_add(1, Ordering::SeqCst);
            }
        }
        for held in &self.holds {
            if held.hold.lane == lane && held.hold.at == point && held.arrives() {
                self.hold(held);
            }
        }
    }
}

impl Held {
    /// The lane has come to its point. Whether it is to be held now.
    fn arrives(&self) -> bool {
        self.arrivals.fetch_add(1, Ordering::SeqCst) == self.hold.passes
    }
}
