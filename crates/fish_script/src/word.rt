//! The words of a line. Spaces and tabs separate them; where one begins with a `"`, the string that begins
//! there is in it, blanks and all.

ghost use Rattle.std.specs.Prelude.{◌≡◌, ◌≤◌, false, length, drop};
ghost use Rattle.std.specs.List.{list_all};
ghost use Rattle.fish_lang.specs.Token.{is_blank, string_length};
ghost use Rattle.fish_script.specs.Words.{is_comment, is_skipped, word_length, unblank, word_of, word_size};
ghost use Rattle.fish_script.specs.Words.{words_behind};

/// The first word of a line, and what follows it. The word is empty where there is none.
#[tactic(auto, unfolding(crate::specs::Words::word_of, crate::specs::Words::words_behind))]
pub(crate) fn first_word(b: &[u8]) -> (&[u8], &[u8])
    ensures word { result.0.now ≡ word_of b.now }
    ensures behind { result.1.now ≡ words_behind b.now }
{
    let line = unblank(b);
    line.split_at(word_size(line))
}

/// Bytes from the first on that is no blank.
pub(crate) fn unblank(b: &[u8]) -> &[u8]
    ensures { result.now ≡ unblank b.now }
{
    let (_, rest) = b.split_at(blanks(b));
    rest
}

/// How many blanks stand at the front.
fn blanks(b: &[u8]) -> usize
    ensures value { drop result b.now ≡ unblank b.now }
    ensures bound { result ≤ length b.now }
{
    for (i, c) in b.iter().enumerate() {
        if !is_blank(*c) {
            return i;
        }
    }
    b.len()
}

/// Whether a byte separates words.
fn is_blank(c: u8) -> bool
    ensures { result ≡ is_blank c }
{
    c == b' ' || c == b'\t'
}

/// Whether there are blanks alone.
pub(crate) fn is_end(b: &[u8]) -> bool
    ensures { result ≡ list_all is_blank b.now }
{
    b.iter().all(|c| is_blank(*c))
}

/// Whether a line says nothing: it is blank or a comment.
pub(crate) fn is_skipped(b: &[u8]) -> bool
    ensures { result ≡ is_skipped b.now }
{
    is_comment(unblank(b))
}

/// Whether bytes are none, or begin with `#`.
fn is_comment(b: &[u8]) -> bool
    ensures { result ≡ is_comment b.now }
{
    match b {
        [] => true,
        [first, ..] => *first == b'#',
    }
}

/// How many bytes the word at the front has.
#[tactic(auto, unfolding(crate::specs::Words::word_size))]
fn word_size(b: &[u8]) -> usize
    ensures value { result ≡ word_size b.now }
    ensures bound { result ≤ length b.now }
{
    match b.split_first() {
        Some((b'"', behind)) => {
            let inside = string(behind);
            let (_, rest) = behind.split_at(inside);
            1 + inside + run(rest)
        }
        _ => run(b),
    }
}

/// How many bytes stand before the next blank.
fn run(b: &[u8]) -> usize
    ensures value { result ≡ word_length b.now }
    ensures bound { result ≤ length b.now }
{
    for (i, c) in b.iter().enumerate() {
        if is_blank(*c) {
            return i;
        }
    }
    b.len()
}

/// How many bytes there are to the end of a string, after its first `"`; all where it has none.
fn string(b: &[u8]) -> usize
    ensures value { result ≡ string_length false b.now }
    ensures bound { result ≤ length b.now }
{
    let mut odd = false;
    for (i, c) in b.iter().enumerate() {
        if *c == b'"' && !odd {
            return i + 1;
        }
        odd = *c == b'\\' && !odd;
    }
    b.len()
}
