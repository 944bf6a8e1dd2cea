//! Where bytes come from.

ghost use Rattle.std.specs.Prelude.{◌≤◌, ℕ, List, Option, length, IfOk};
ghost use Rattle.fish_outside.specs.Causes.{HasCause};
ghost use Rattle.fish_outside.specs.Content.{Reads};

use crate::fault::Failed;

/// Gives bytes in order.
pub trait Source {
    /// The bytes that reads will still give, or `None` where that is no longer told.
    ghost left: { Self → Option (List ℕ) };

    /// How often a read has failed. It never falls.
    ghost faults: { Self → ℕ };

    /// Takes the next bytes into the front of a buffer, and answers how many. With room in the
    /// buffer, 0 is the end of the input.
    fn read(&mut self, buf: &mut [u8]) -> Result<usize, Failed>
        ensures bound { IfOk result (λ n. n ≤ length buf.new) }
        ensures bytes { Reads (left self.old) (left self.new) result buf.new }

        ensures cause { HasCause (faults self.old) (faults self.new) result };
}
