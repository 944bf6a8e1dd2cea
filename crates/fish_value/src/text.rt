//! Text in UTF-8, as every crate hands it on. Contracts see its bytes.

ghost use Rattle.std.specs.Prelude.{◌≡◌, ◌↔◌, ℕ, List, IfOk, IfSome, IsSome, IsTrue, IsUtf8, string_bytes};

use std::alloc::{AllocError, Global};
use std::convert::AsStr;
use std::marker::Model;

/// A text in UTF-8, which owns its bytes.
#[derive(Debug, Drop)]
pub struct Text {
    inner: String,
}

impl Model for Text {
    ghost use Rattle.std.specs.Prelude.{ℕ, List, string_bytes};

    ghost Value = { List ℕ };

    ghost view = { λ t. string_bytes t.inner };
}

impl AsStr for Text {
    ghost text = { λ t. t };

    fn as_str(&self) -> &str {
        self.inner.as_str()
    }
}

impl Text {
    /// A copy of a text.
    pub fn copy_of(alloc: Global, s: &str) -> Result<Text, AllocError>
        ensures { IfOk result (λ t. t ≡ s.now) }
    {
        Ok(Text {
            inner: String::from_str(alloc, s)?,
        })
    }

    /// A copy of bytes that are a text, or `None` where they are not UTF-8.
    pub fn from_bytes(alloc: Global, b: &[u8]) -> Result<Option<Text>, AllocError>
        ensures value { IfOk result (λ o. IfSome o (λ t. t ≡ b.now)) }
        ensures text { IfOk result (λ o. IsSome o ↔ IsUtf8 b.now) }
    {
        match simdutf8::basic::from_utf8(b) {
            Ok(s) => Ok(Some(Text::copy_of(alloc, s)?)),
            Err(_) => Ok(None),
        }
    }

    /// The text that a string holds, which is not copied.
    pub fn from_string(inner: String) -> Text
        ensures { result ≡ string_bytes inner }
    {
        Text { inner }
    }

    /// Its bytes.
    pub fn as_bytes(&self) -> &[u8]
        ensures value { result.now ≡ self.now }
        ensures utf8 { IsUtf8 result.now }
    {
        self.as_str().as_bytes()
    }

    /// The text.
    pub fn as_str(&self) -> &str
        ensures { result.now ≡ self.now }
    {
        self.inner.as_str()
    }

    /// A second copy of it.
    pub fn again(&self, alloc: Global) -> Result<Text, AllocError>
        ensures { IfOk result (λ t. t ≡ self.now) }
    {
        Text::copy_of(alloc, self.as_str())
    }

    /// Whether two texts have the same bytes.
    pub fn is(&self, other: &Text) -> bool
        ensures { IsTrue result ↔ (self.now ≡ other.now) }
    {
        self.as_str() == other.as_str()
    }
}
