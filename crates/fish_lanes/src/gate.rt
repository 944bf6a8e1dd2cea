//! Gates: what is told where each lane is, and may hold it there until another lane has come somewhere. A test orders
//! by one what lanes do; the program's holds nobody. Nothing that is promised depends on it.

/// Where a lane is. A statement is named by its position in its lane, from 0.
#[derive(Clone, Copy, Debug, PartialEq, Eq)]
pub enum Point {
    /// Before a statement.
    Before(u32),
    /// After the claim of a record, whose key entries are linked and which isn't published yet.
    Claimed,
    /// After a statement that has its item.
    After(u32),
}

/// What is told where each lane is.
pub trait Gate {
    /// The lane with a number has come to a point. Comes back once it may go on.
    fn reach(&self, lane: u8, point: Point);
}

/// A gate that holds no lane.
#[derive(Clone, Copy, Debug)]
pub struct OpenGate;

impl Gate for OpenGate {
    fn reach(&self, _lane: u8, _point: Point) {}
}
