//! Standard output: the trusted edge for output. Nothing is told of what was written.

ghost use Rattle.std.specs.Prelude.{◌≡◌, ◌<◌, ◌≤◌, None, length, IfSome};

use crate::fault::Failed;
use crate::sink::Sink;
use std::io::ErrorKind;

/// How often a write is tried that signals interrupt.
const TRIES: u32 = 64;

/// The standard output of a runtime.
#[derive(Drop)]
pub struct OutSink<P: Print + Drop> {
    rt: P,
    faults: u64,
}

impl<P: Print + Drop> OutSink<P> {
    /// The standard output of this runtime.
    pub fn new(rt: P) -> OutSink<P>
        ensures { ⟦<OutSink<P> as Sink>⟧.faults result ≡ 0 }
    {
        OutSink { rt, faults: 0 }
    }

    /// How often a write has failed, up to the largest number of 64 bits.
    pub fn faults(&self) -> u64
        ensures { result ≡ ⟦<OutSink<P> as Sink>⟧.faults self.now }
    {
        self.faults
    }
}

impl<P: Print + Drop> Sink for OutSink<P> {
    ghost written = { λ _. None };

    ghost faults = { λ sink. sink.faults };

    /// Writes a first part of a piece. What isn't written in the end is one fault.
    fn write(&mut self, piece: &[u8]) -> Result<usize, Failed> {
        if let Some(count) = write_some(&self.rt, piece) {
            return Ok(count);
        }
        self.faults = self.faults.saturating_add(1);
        Err(Failed)
    }
}

/// Nothing of a piece that has bytes is no answer.
fn write_some(rt: &impl Print, piece: &[u8]) -> Option<usize>
    ensures bound { IfSome result (λ n. n ≤ length piece.now) }
    ensures some { IfSome result (λ n. 0 < length piece.now → 0 < n) }
{
    for _ in 0..TRIES {
        match rt.write_some(piece) {
            Ok(count) if count > 0 || piece.is_empty() => return Some(count),
            Err(error) if error.kind() == ErrorKind::Interrupted => {}
            _ => return None,
        }
    }
    None
}
