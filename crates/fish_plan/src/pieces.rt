//! The pieces of a range, and how each is read. Numbers are those of records; `to` is the first after.

ghost use Rattle.std.specs.Prelude.{◌≡◌, ◌↔◌, IfSome, IsSome};

use fish_value::Sequence;
use std::marker::Model;

/// One part of a range of numbers.
#[derive(Clone, Copy, Debug, PartialEq, Eq)]
pub enum Piece {
    /// It is read by the index of one row.
    Index {
        /// The row's id.
        id: u16,
        from: u32,
        to: u32,
    },
    /// Every number of it is looked at.
    Full {
        from: u32,
        to: u32,
    },
}

/// Numbers that follow one another.
#[derive(Clone, Copy, Debug, PartialEq, Eq)]
pub struct Stretch {
    /// The first.
    pub from: u32,
    /// The first after them.
    pub to: u32,
}

/// The pieces of a range, newest first. Contracts see their list.
#[derive(Debug, Drop)]
pub struct Plan {
    pieces: Sequence<Piece>,
}

impl Model for Plan {
    ghost use Rattle.std.specs.Prelude.{List};
    ghost use Rattle.fish_plan.specs.declared.pieces.Piece.{Piece};

    ghost Value = { List Piece };

    ghost view = { λ p. p.pieces };
}

impl Piece {
    ghost use Rattle.fish_plan.specs.Pieces.{piece_from, piece_to};

    /// The first number.
    pub fn from(&self) -> u32
        ensures { result ≡ piece_from self.now }
    {
        match self {
            Piece::Index { from, .. } => *from,
            Piece::Full { from, .. } => *from,
        }
    }

    /// The first number after it.
    pub fn to(&self) -> u32
        ensures { result ≡ piece_to self.now }
    {
        match self {
            Piece::Index { to, .. } => *to,
            Piece::Full { to, .. } => *to,
        }
    }
}

impl Plan {
    ghost use Rattle.fish_plan.specs.Gaps.{HasGap, IsFirstGap};

    /// These pieces.
    pub(crate) fn of(pieces: Sequence<Piece>) -> Plan
        ensures { result ≡ pieces }
    {
        Plan { pieces }
    }

    /// The pieces, newest first.
    pub fn pieces(&self) -> &[Piece]
        ensures { result.now ≡ self.now }
    {
        self.pieces.as_slice()
    }

    /// The first piece that is full and lies below settled: numbers that no index holds.
    pub fn uncovered(&self, settled: u32) -> Option<Stretch>
        ensures first { IfSome result (λ s. IsFirstGap self.now settled s.from s.to) }
        ensures some { IsSome result ↔ HasGap self.now settled }
    {
        for piece in self.pieces() {
            if let Piece::Full { from, to } = *piece {
                if to <= settled {
                    return Some(Stretch { from, to });
                }
            }
        }
        None
    }
}
