//! Where a line of bytes ends, and what of it counts.

ghost use Rattle.std.specs.Prelude.{◌≡◌, ◌∷◌, ◌+◌, [], length, IfSome, MatchOption};
ghost use Rattle.std.specs.List.{slice_split};
ghost use Rattle.std.specs.Str.Lines.{strip_carriage_return};
ghost use Rattle.fish_json.specs.Lines.{is_line_end};

use memchr::memchr;

/// What comes before the first LF, and what follows it. One pass up to the LF.
pub fn cut_line(b: &[u8]) -> Option<(&[u8], &[u8])>
    ensures parts { MatchOption result (slice_split is_line_end b.now ≡ b.now ∷ [])
        (λ p. slice_split is_line_end b.now ≡ p.0.now ∷ slice_split is_line_end p.1.now) }
    ensures no_end { IfSome result (λ p. slice_split is_line_end p.0.now ≡ p.0.now ∷ []) }
    ensures shorter { IfSome result (λ p. length p.0.now + length p.1.now + 1 ≡ length b.now) }
{
    let end = memchr(b'\n', b)?;
    let (part, _) = b.split_at(end);
    let (_, behind) = b.split_at(end + 1);
    Some((part, behind))
}

/// A line without one CR at its end.
pub fn without_carriage_return(line: &[u8]) -> &[u8]
    ensures { result.now ≡ strip_carriage_return line.now }
{
    match line {
        [front @ .., b'\r'] => front,
        _ => line,
    }
}
