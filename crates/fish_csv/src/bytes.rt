//! The front of a text: its first byte, line ends, and a byte order mark.

ghost use Rattle.std.specs.Prelude.{◌≡◌, ◌==◌, ◌||◌, ◌≤◌, ◌∷◌, [], length, MatchOption, IfSome, slice_get, false};
ghost use Rattle.csv.specs.Reading.{is_bom, strip_bom};
ghost use Rattle.fish_csv.specs.Reading.{rows_in};

/// The first byte, and those after it.
pub(crate) fn first_and_rest(b: &[u8]) -> Option<(u8, &[u8])>
    ensures { MatchOption result (b.now ≡ []) (λ parts. b.now ≡ parts.0 ∷ parts.1.now) }
{
    let (first, rest) = b.split_first()?;
    Some((*first, rest))
}

/// Whether a byte ends a line.
pub(crate) fn is_line_end(c: u8) -> bool
    ensures { result ≡ (c == 13 || c == 10) }
{
    c == b'\r' || c == b'\n'
}

/// The text from the first byte on that ends no line.
pub(crate) fn without_ends(b: &[u8]) -> &[u8]
    ensures same { rows_in result.now ≡ rows_in b.now }
    ensures within { length result.now ≤ length b.now }
    ensures begins { IfSome (slice_get result.now 0) (λ c. (c == 13 || c == 10) ≡ false) }
{
    let mut rest = b;
    while let Some((c, more)) = first_and_rest(rest) {
        if !is_line_end(c) {
            return rest;
        }
        rest = more;
    }
    rest
}

/// The text without a byte order mark at its front.
pub(crate) fn without_mark(b: &[u8]) -> &[u8]
    ensures { result.now ≡ strip_bom b.now }
{
    if b.len() < 3 || !is_mark(b[0], b[1], b[2]) {
        return b;
    }
    let (_, rest) = b.split_at(3);
    rest
}

/// Whether three bytes are the byte order mark, U+FEFF in UTF-8.
fn is_mark(first: u8, second: u8, third: u8) -> bool
    ensures { result ≡ is_bom first second third }
{
    first == 0xef && second == 0xbb && third == 0xbf
}
