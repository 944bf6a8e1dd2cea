//! Values: what a definition gives for a record, and what a scan asks for.

ghost use Rattle.std.specs.Prelude.{◌≡◌, ◌↔◌, IfOk, IsTrue};
ghost use Rattle.fish_value.specs.Same.{same_value};

use crate::text::Text;
use std::alloc::{AllocError, Global};

/// What a definition gives for a record.
#[derive(Debug, Drop)]
pub enum Value {
    /// A truth value.
    Bool(bool),
    /// A whole number of 64 bits.
    Int(i64),
    /// A text, of at most 256 bytes wherever a definition gave it or it was read.
    Text(Text),
}

impl Value {
    /// Whether two values are of one kind and equal.
    pub fn is(&self, other: &Value) -> bool
        ensures value { result ≡ same_value self.now other.now }
        ensures same { IsTrue result ↔ (self.now ≡ other.now) }
    {
        match (self, other) {
            (Value::Bool(a), Value::Bool(b)) => *a == *b,
            (Value::Int(a), Value::Int(b)) => *a == *b,
            (Value::Text(a), Value::Text(b)) => a.is(b),
            _ => false,
        }
    }

    /// A copy.
    pub fn again(&self, alloc: Global) -> Result<Value, AllocError>
        ensures { IfOk result (λ copy. copy ≡ self.now) }
    {
        Ok(match self {
            Value::Bool(bool) => Value::Bool(*bool),
            Value::Int(int) => Value::Int(*int),
            Value::Text(text) => Value::Text(text.again(alloc)?),
        })
    }
}
