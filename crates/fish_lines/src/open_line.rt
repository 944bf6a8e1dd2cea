//! The line that no LF has ended yet: its first bytes, one more than a line may have.
//!
//! A CR at its end isn't among them, since it may be the one that is dropped. So the line is whole
//! as it stands, and giving it takes no memory.

ghost use Rattle.std.specs.Prelude.{◌≡◌, ◌≤◌, ◌++◌, ◌∷◌, ℕ, List, [], length, take, IfOk, OnOk, OnErr, option_to_list};
ghost use Rattle.std.specs.List.{slice_split};
ghost use Rattle.fish_json.specs.Lines.{is_line_end};
ghost use Rattle.fish_lines.specs.Lines.{given_of};
ghost use Rattle.fish_lines.specs.Open.{IsLineOpen, ends_in_cr, line_in, longest_kept};
ghost use Rattle.fish_lines.specs.within.Open.{cr_if};

use crate::line::is_blank;
use crate::splitter::Line;
use fish_json::{MAX_PAYLOAD, without_carriage_return};
use fish_value::Bytes;
use std::alloc::{AllocError, Global};

/// How many bytes of an unfinished line are kept.
const KEPT: usize = MAX_PAYLOAD + 1;

/// An unfinished line.
#[derive(Debug, Drop)]
pub(crate) struct OpenLine {
    /// Its first bytes, without a CR at its end.
    bytes: Bytes,
    /// Whether it ends in a CR.
    ends_in_cr: bool,
}

impl OpenLine {
    /// The line of no bytes. Takes no memory.
    pub(crate) fn new(alloc: Global) -> OpenLine
        ensures open { IsLineOpen result [] }
        ensures none { line_in result ≡ [] }
    {
        OpenLine {
            bytes: Bytes::new(alloc),
            ends_in_cr: false,
        }
    }

    /// The line that bytes are.
    pub(crate) fn of_part(alloc: Global, part: &[u8]) -> Result<OpenLine, AllocError>
        requires { slice_split is_line_end part.now ≡ part.now ∷ [] }
        ensures { IfOk result (λ line. IsLineOpen line part.now) }
    {
        let mut line = OpenLine::new(alloc);
        line.grow(alloc, part)?;
        Ok(line)
    }

    /// Puts bytes after the line.
    pub(crate) fn grow(&mut self, alloc: Global, piece: &[u8]) -> Result<(), AllocError>
        requires { slice_split is_line_end piece.now ≡ piece.now ∷ [] }
        ensures open { OnOk result ((t : List ℕ) → IsLineOpen self.old t → IsLineOpen self.new (t ++ piece.now)) }
        ensures err { OnErr result (self.new ≡ self.old) }
    {
        if piece.is_empty() {
            return Ok(());
        }
        let text = without_carriage_return(piece);
        append(alloc, &mut self.bytes, self.ends_in_cr, text)?;
        self.ends_in_cr = ends_in_cr(piece);
        Ok(())
    }

    /// The line with bytes after it.
    pub(crate) fn grown(&self, alloc: Global, piece: &[u8]) -> Result<OpenLine, AllocError>
        requires { slice_split is_line_end piece.now ≡ piece.now ∷ [] }
        ensures { IfOk result (λ line. (t : List ℕ) → IsLineOpen self.now t → IsLineOpen line (t ++ piece.now)) }
    {
        let mut line = OpenLine {
            bytes: self.bytes.again(alloc)?,
            ends_in_cr: self.ends_in_cr,
        };
        line.grow(alloc, piece)?;
        Ok(line)
    }

    /// The bytes that are kept.
    pub(crate) fn as_bytes(&self) -> &[u8]
        ensures { result.now ≡ self.now.bytes }
    {
        self.bytes.as_bytes()
    }

    /// The line as it is given, unless it is blank. Takes no memory.
    pub(crate) fn into_line(self) -> Option<Line>
        ensures { option_to_list result ≡ line_in self }
    {
        if is_blank(self.bytes.as_bytes()) {
            return None;
        }
        if self.bytes.len() > MAX_PAYLOAD {
            return Some(Line::TooLong);
        }
        Some(Line::Whole(self.bytes))
    }
}

/// Whether bytes end in a CR.
fn ends_in_cr(b: &[u8]) -> bool
    ensures { result ≡ ends_in_cr b.now }
{
    match b {
        [.., b'\r'] => true,
        _ => false,
    }
}

/// Puts a CR, where there is to be one, and a text after bytes, as far as they are kept.
fn append(alloc: Global, bytes: &mut Bytes, cr: bool, text: &[u8]) -> Result<(), AllocError>
    ensures ok { OnOk result (length bytes.old ≤ longest_kept → bytes.new ≡ take longest_kept (bytes.old ++ cr_if cr ++ text.now)) }
    ensures err { OnErr result (bytes.new ≡ bytes.old) }
{
    if !cr {
        return append_kept(bytes, text);
    }
    let mut more = Bytes::copy_of(alloc, b"\r")?;
    more.append(first(text, KEPT))?;
    append_kept(bytes, more.as_bytes())
}

/// Puts as much of a text after bytes as is kept.
fn append_kept(bytes: &mut Bytes, text: &[u8]) -> Result<(), AllocError>
    ensures ok { OnOk result (length bytes.old ≤ longest_kept → bytes.new ≡ take longest_kept (bytes.old ++ text.now)) }
    ensures err { OnErr result (bytes.new ≡ bytes.old) }
{
    bytes.append(first(text, KEPT.saturating_sub(bytes.len())))
}

/// The first bytes of a text, so many at most.
fn first(text: &[u8], count: usize) -> &[u8]
    ensures { result.now ≡ take count text.now }
{
    let (front, _) = text.split_at(count.min(text.len()));
    front
}
