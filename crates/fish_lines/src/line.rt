//! What of a file and of a line counts: no byte order mark, and no blank line.

ghost use Rattle.std.specs.Prelude.{◌≡◌};
ghost use Rattle.std.specs.List.{list_all};
ghost use Rattle.fish_json.specs.Lines.{is_blank_line, is_blank_byte, without_mark};

use fish_json::MAX_PAYLOAD;

/// A file without a byte order mark at its start.
pub(crate) fn without_mark(b: &[u8]) -> &[u8]
    ensures { result.now ≡ without_mark b.now }
{
    match b {
        [0xef, 0xbb, 0xbf, rest @ ..] => rest,
        _ => b,
    }
}

/// Whether a line is all spaces, tabs and CRs, and no longer than a record may be.
pub(crate) fn is_blank(line: &[u8]) -> bool
    ensures { result ≡ is_blank_line line.now }
{
    line.len() <= MAX_PAYLOAD && has_blank_bytes_only(line)
}

fn has_blank_bytes_only(line: &[u8]) -> bool
    ensures { result ≡ list_all is_blank_byte line.now }
{
    line.iter()
        .all(|b| *b == b' ' || *b == b'\t' || *b == b'\r')
}
