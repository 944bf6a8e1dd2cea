//! Where a field stands in a record: names from the outside in. Contracts see the list of names.

ghost use Rattle.std.specs.Prelude.{◌≡◌, ◌++◌, ◌∷◌, [], OnOk, OnErr};

use crate::text::Text;
use std::alloc::{AllocError, Global};
use std::marker::Model;

/// A list of names, of which there is at least one.
#[derive(Debug, Drop)]
pub struct Path {
    first: Text,
    more: Vec<Text>,
}

impl Model for Path {
    ghost use Rattle.std.specs.Prelude.{◌∷◌, ℕ, List};

    ghost Value = { List (List ℕ) };

    ghost view = { λ p. p.first ∷ p.more.items };
}

impl Path {
    /// The path of one name. Takes no memory.
    pub fn new(alloc: Global, first: Text) -> Path
        ensures { result ≡ first ∷ [] }
    {
        Path {
            first,
            more: Vec::new(alloc),
        }
    }

    /// Goes one name further in.
    pub fn push(&mut self, step: Text) -> Result<(), AllocError>
        ensures ok { OnOk result (self.new ≡ self.old ++ step ∷ []) }
        ensures err { OnErr result (self.new ≡ self.old) }
    {
        self.more.push(step)?;
        Ok(())
    }

    /// The first name, and those after it.
    pub fn parts(&self) -> (&Text, &[Text])
        ensures { self.now ≡ result.0.now ∷ result.1.now }
    {
        (&self.first, self.more.as_slice())
    }
}
