//! The lines of a file that is held whole, one after another.

ghost use Rattle.std.specs.Prelude.{◌≡◌, ◌<◌, ◌≤◌, ◌∷◌, [], length, IfSome, MatchOption};
ghost use Rattle.std.specs.List.{slice_split};
ghost use Rattle.fish_json.specs.Lines.{is_line_end, lines_of_parts};
ghost use Rattle.fish_lines.specs.within.Lines.{with_line};

use crate::line::{is_blank, without_mark};
use fish_json::{cut_line, without_carriage_return};

/// Goes over a file's lines. It copies none.
#[derive(Drop)]
pub struct Lines<'b> {
    rest: &'b [u8],
}

impl<'b> Lines<'b> {
    ghost use Rattle.fish_lines.specs.Left.{lines_left};
    ghost use Rattle.fish_lines.specs.Lines.{file_lines};

    /// Stands before the first line. A byte order mark at the file's start is dropped.
    #[tactic(auto, unfolding(crate::specs::Left::lines_left))]
    pub fn new(b: &'b [u8]) -> Lines<'b>
        ensures lines { lines_left result ≡ file_lines b.now }
        ensures within { length result.rest.now ≤ length b.now }
    {
        Lines {
            rest: without_mark(b),
        }
    }

    /// Stands before the first of these lines, which stand after others in a file.
    pub fn after(b: &'b [u8]) -> Lines<'b>
        ensures { result.rest.now ≡ b.now }
    {
        Lines { rest: b }
    }

    /// The bytes of the lines that are left.
    pub fn rest(&self) -> &'b [u8]
        ensures { result.now ≡ self.now.rest.now }
    {
        self.rest
    }

    /// The next line, without one CR at its end. Blank lines are passed over.
    #[tactic(auto, unfolding(crate::specs::Left::lines_left))]
    pub fn next_line(&mut self) -> Option<&'b [u8]>
        ensures lines { MatchOption result (lines_left self.old ≡ [])
            (λ line. lines_left self.old ≡ line.now ∷ lines_left self.new) }
        ensures shorter { IfSome result (λ _. length self.new.rest.now < length self.old.rest.now) }
    {
        while !self.rest.is_empty() {
            let (line, behind) = first_line(self.rest);
            self.rest = behind;
            if !is_blank(line) {
                return Some(line);
            }
        }
        None
    }
}

/// The line before the first LF, or the whole where there is none, and what follows.
fn first_line(b: &[u8]) -> (&[u8], &[u8])
    requires { 0 < length b.now }
    ensures lines { lines_of_parts (slice_split is_line_end b.now)
        ≡ with_line result.0.now (lines_of_parts (slice_split is_line_end result.1.now)) }
    ensures shorter { length result.1.now < length b.now }
{
    match cut_line(b) {
        Some((part, behind)) => (without_carriage_return(part), behind),
        None => (without_carriage_return(b), b.split_at(b.len()).1),
    }
}
