//! Where bytes go.

ghost use Rattle.std.specs.Prelude.{◌≤◌, ℕ, List, Option, length, IfOk, OnOk, OnErr};
ghost use Rattle.fish_outside.specs.Causes.{HasCause};
ghost use Rattle.fish_outside.specs.Content.{Gained, GainedPart, Writes};

use crate::fault::Failed;

/// Takes bytes in order.
pub trait Sink {
    /// All bytes that were written, or `None` where that is no longer told.
    ghost written: { Self → Option (List ℕ) };

    /// How often a write has failed. It never falls.
    ghost faults: { Self → ℕ };

    /// Writes a first part of a piece, and answers how many bytes it has. To take nothing of a piece
    /// that has bytes is a fault.
    fn write(&mut self, piece: &[u8]) -> Result<usize, Failed>
        ensures bound { IfOk result (λ n. n ≤ length piece.now) }
        ensures bytes { Writes (written self.old) (written self.new) result piece.now }

        ensures cause { HasCause (faults self.old) (faults self.new) result };
}

/// Writes a whole piece, in as many writes as the sink needs: at most one for each byte. After a
/// fault a first part of the piece was written.
pub fn write_whole<W: Sink>(sink: &mut W, piece: &[u8]) -> Result<(), Failed>
    ensures ok { OnOk result (Gained (W.written sink.old) (W.written sink.new) piece.now) }

    ensures err { OnErr result (GainedPart (W.written sink.old) (W.written sink.new) piece.now) }
    ensures cause { HasCause (W.faults sink.old) (W.faults sink.new) result }
{
    let mut sent = 0;
    while sent < piece.len() {
        let (_, rest) = piece.split_at(sent);
        let count = sink.write(rest)?;
        sent += count;
    }
    Ok(())
}
