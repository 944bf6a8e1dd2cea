//! The lines of a file whose bytes come in pieces. They are the same however the bytes are cut.

ghost use Rattle.std.specs.Prelude.{◌≡◌, ◌++◌, ◌∷◌, ℕ, List, [], true, false, IfOk, OnOk, OnErr, option_to_list};
ghost use Rattle.std.specs.List.{concat, slice_split};
ghost use Rattle.fish_json.specs.Lines.{is_line_end};
ghost use Rattle.fish_lines.specs.Lines.{ended_parts, given_of, last_part, given_lines};
ghost use Rattle.fish_lines.specs.Open.{IsLineOpen, line_in};
ghost use Rattle.fish_lines.specs.Split.{HasTaken, is_undecided};

use crate::line::without_mark;
use crate::open_line::OpenLine;
use fish_json::cut_line;
use fish_value::{Bytes, Sequence};
use std::alloc::{AllocError, Global};
use std::collections::VecDeque;
use std::mem;

/// A line of a file.
#[derive(Debug, Drop)]
pub enum Line {
    /// All of its bytes, without one CR at its end.
    Whole(Bytes),
    /// It has more than 524,288 bytes.
    TooLong,
}

/// Lines in order.
pub type LineList = Sequence<Line>;

/// Gives the lines of a file whose bytes come in pieces. It holds the lines that were not taken and
/// one more of at most 524,289 bytes.
#[derive(Drop)]
pub struct Splitter {
    alloc: Global,
    /// The lines that an LF ended and that were not taken.
    ready: VecDeque<Line>,
    /// The line after the last LF.
    last: OpenLine,
    /// Whether all bytes so far are the beginning of a byte order mark.
    at_start: bool,
    /// Whether no more bytes come.
    finished: bool,
}

impl Splitter {
    ghost use Rattle.fish_lines.specs.Split.{HasTaken, IsSplitterSame, due, is_undecided};

    /// A splitter that was given no bytes. Takes no memory.
    pub fn new(alloc: Global) -> Splitter
        ensures taken { HasTaken result [] [] }
        ensures going { result.finished ≡ false }
    {
        Splitter {
            alloc,
            ready: VecDeque::new(alloc),
            last: OpenLine::new(alloc),
            at_start: true,
            finished: false,
        }
    }

    /// Takes the next bytes of the file. A byte is copied once, and once more where its line was
    /// begun by a piece before.
    pub fn feed(&mut self, piece: &[u8]) -> Result<(), AllocError>
        requires { self.old.finished ≡ false }
        ensures fed { OnOk result ((b : List ℕ) (taken : List Line)
            → HasTaken self.old b taken → HasTaken self.new (b ++ piece.now) taken) }
        ensures going { self.new.finished ≡ false }
        ensures unchanged { OnErr result (IsSplitterSame self.old self.new) }
    {
        if !self.at_start {
            return take_piece(self.alloc, &mut self.last, &mut self.ready, piece);
        }
        if self.last.as_bytes().is_empty() {
            return self.begin(piece);
        }
        let whole = joined(self.alloc, self.last.as_bytes(), piece)?;
        self.begin(whole.as_bytes())
    }

    /// Ends the file. The line after the last LF is whole then. Takes no memory.
    pub fn finish(&mut self)
        ensures taken { (b : List ℕ) (taken : List Line) → HasTaken self.old b taken → HasTaken self.new b taken }
        ensures finished { self.new.finished ≡ true }
    {
        self.finished = true;
    }

    /// The next line that is whole: each that an LF ended, and at the end of the file the last one.
    /// Blank lines are passed over. Takes no memory.
    pub fn next_line(&mut self) -> Option<Line>
        ensures next { due self.old ≡ option_to_list result ++ due self.new }
        ensures none { result ≡ None → due self.old ≡ [] }
        ensures taken { (b : List ℕ) (taken : List Line)
            → HasTaken self.old b taken → HasTaken self.new b (taken ++ option_to_list result) }
        ensures finished { self.new.finished ≡ self.old.finished }
    {
        if let Some(line) = self.ready.pop_front() {
            return Some(line);
        }
        if !self.finished {
            return None;
        }
        let last = mem::replace(&mut self.last, OpenLine::new(self.alloc));
        last.into_line()
    }

    /// Takes all bytes so far at once, in place of those that may begin a byte order mark.
    fn begin(&mut self, whole: &[u8]) -> Result<(), AllocError>
        requires { self.old.finished ≡ false }
        ensures fed { OnOk result ((b : List ℕ) (taken : List Line)
            → is_undecided b ≡ true → HasTaken self.old b taken → HasTaken self.new whole.now taken) }
        ensures going { self.new.finished ≡ false }
        ensures unchanged { OnErr result (IsSplitterSame self.old self.new) }
    {
        let mut last = OpenLine::new(self.alloc);
        take_piece(self.alloc, &mut last, &mut self.ready, without_mark(whole))?;
        self.last = last;
        self.at_start = may_begin_mark(whole);
        Ok(())
    }
}

/// The lines of a file that came in pieces.
///
/// Its contract is the law of cutting: they are those of all bytes in one, whatever the pieces are.
pub fn lines_of_pieces(alloc: Global, pieces: &[Bytes]) -> Result<LineList, AllocError>
    ensures { IfOk result (λ found. found ≡ given_lines (concat pieces.now)) }
{
    let mut splitter = Splitter::new(alloc);
    for piece in pieces {
        splitter.feed(piece.as_bytes())?;
    }
    splitter.finish();
    let mut found = LineList::new(alloc);
    while let Some(line) = splitter.next_line() {
        found.push(line)?;
    }
    Ok(found)
}

/// Whether bytes are the beginning of a byte order mark, and not all of it.
fn may_begin_mark(b: &[u8]) -> bool
    ensures { result ≡ is_undecided b.now }
{
    b.len() < 3 && [0xef, 0xbb, 0xbf].starts_with(b)
}

/// Two texts, one after the other.
fn joined(alloc: Global, front: &[u8], behind: &[u8]) -> Result<Bytes, AllocError>
    ensures { IfOk result (λ bytes. bytes ≡ front.now ++ behind.now) }
{
    let mut bytes = Bytes::copy_of(alloc, front)?;
    bytes.append(behind)?;
    Ok(bytes)
}

/// Puts a piece after the open line. The lines that its LFs end become ready, and what follows
/// the last LF is open then.
fn take_piece(
    alloc: Global,
    last: &mut OpenLine,
    ready: &mut VecDeque<Line>,
    piece: &[u8],
) -> Result<(), AllocError>
    ensures lines { OnOk result ((t : List ℕ) → IsLineOpen last.old t
        → ready.new.items ≡ ready.old.items ++ given_of (ended_parts (slice_split is_line_end (t ++ piece.now)))) }
    ensures rest { OnOk result ((t : List ℕ) → IsLineOpen last.old t
        → IsLineOpen last.new (last_part (slice_split is_line_end (t ++ piece.now)))) }

    ensures same_last { OnErr result (last.new ≡ last.old) }
    ensures same_lines { OnErr result (ready.new.items ≡ ready.old.items) }
{
    let Some((front, behind)) = cut_line(piece) else {
        return last.grow(alloc, piece);
    };
    let mut more = VecDeque::new(alloc);
    push_line(&mut more, last.grown(alloc, front)?)?;
    let rest = push_parts(alloc, &mut more, behind)?;
    let next = OpenLine::of_part(alloc, rest)?;
    ready.append(&mut more)?;
    *last = next;
    Ok(())
}

/// Puts the line of each part that an LF ends after others, and answers the last part.
fn push_parts<'b>(
    alloc: Global,
    lines: &mut VecDeque<Line>,
    b: &'b [u8],
) -> Result<&'b [u8], AllocError>
    ensures lines { OnOk result
        (lines.new.items ≡ lines.old.items ++ given_of (ended_parts (slice_split is_line_end b.now))) }
    ensures rest { IfOk result (λ rest. rest.now ≡ last_part (slice_split is_line_end b.now)) }
    ensures no_end { IfOk result (λ rest. slice_split is_line_end rest.now ≡ rest.now ∷ []) }
{
    let mut rest = b;
    while let Some((part, behind)) = cut_line(rest) {
        push_line(lines, OpenLine::of_part(alloc, part)?)?;
        rest = behind;
    }
    Ok(rest)
}

/// Puts a line after others, unless it is blank.
fn push_line(lines: &mut VecDeque<Line>, line: OpenLine) -> Result<(), AllocError>
    ensures { OnOk result (lines.new.items ≡ lines.old.items ++ line_in line) }
{
    if let Some(line) = line.into_line() {
        lines.push_back(line)?;
    }
    Ok(())
}
