//! The list type that comes after every small list type of the project. Contracts see the list.

ghost use Rattle.std.specs.Prelude.{◌≡◌, ◌==◌, ◌++◌, ◌∷◌, [], length, reverse, IfOk, OnOk, OnErr};

use crate::field::Field;
use crate::text::Text;
use crate::value::Value;
use std::alloc::{AllocError, Global};
use std::marker::Model;

/// Elements in order.
#[derive(Debug, Drop)]
pub struct Sequence<T> {
    items: Vec<T>,
}

/// Texts in order.
pub type Texts = Sequence<Text>;

/// Values in order.
pub type Values = Sequence<Value>;

/// Fields in order.
pub type Fields = Sequence<Field>;

/// Record numbers in order.
pub type Numbers = Sequence<u32>;

/// Wide numbers in order.
pub type Numbers64 = Sequence<u64>;

impl<T> Model for Sequence<T> {
    ghost use Rattle.std.specs.Prelude.{List};

    ghost Value = { List T };

    ghost view = { λ s. s.items.items };
}

impl<T> Sequence<T> {
    /// No element. Takes no memory.
    pub fn new(alloc: Global) -> Sequence<T>
        ensures { result ≡ [] }
    {
        Sequence {
            items: Vec::new(alloc),
        }
    }

    /// One element alone. Takes room for no other.
    pub fn one(alloc: Global, item: T) -> Result<Sequence<T>, AllocError>
    where
        T: Drop,
        ensures { IfOk result (λ sequence. sequence ≡ item ∷ []) }
    {
        match Vec::with_capacity(alloc, 1) {
            Ok(items) => Sequence { items }.with(item),
            Err(error) => {
                drop(item);
                Err(error)
            }
        }
    }

    /// The elements with one more after them.
    fn with(mut self, item: T) -> Result<Sequence<T>, AllocError>
    where
        T: Drop,
        ensures { IfOk result (λ sequence. sequence ≡ self ++ item ∷ []) }
    {
        self.items.push(item)?;
        Ok(self)
    }

    /// How many there are.
    pub fn len(&self) -> usize
        ensures { result ≡ length self.now }
    {
        self.items.len()
    }

    /// Whether there are none.
    pub fn is_empty(&self) -> bool
        ensures { result ≡ (length self.now == 0) }
    {
        self.items.is_empty()
    }

    /// The elements.
    pub fn as_slice(&self) -> &[T]
        ensures { result.now ≡ self.now }
    {
        self.items.as_slice()
    }

    /// Puts an element after the others.
    pub fn push(&mut self, item: T) -> Result<(), AllocError>
    where
        T: Drop,
        ensures ok { OnOk result (self.new ≡ self.old ++ item ∷ []) }
        ensures err { OnErr result (self.new ≡ self.old) }
    {
        self.items.push(item)?;
        Ok(())
    }

    /// The elements by themselves.
    pub fn into_vec(self) -> Vec<T>
        ensures { result.items ≡ self }
    {
        self.items
    }

    /// Turns the order round.
    pub fn reverse(&mut self)
        ensures { self.new ≡ reverse self.old }
    {
        self.items.reverse()
    }
}
