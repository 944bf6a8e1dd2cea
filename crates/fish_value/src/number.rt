//! Whole numbers as text, in the one form that stands for a number.

ghost use Rattle.std.specs.Prelude.{◌≡◌};
ghost use Rattle.std.specs.Char.{is_ascii_digit};
ghost use Rattle.std.specs.List.{list_all};
ghost use Rattle.fish_value.specs.Number.{int_of, is_number, is_positive};

/// The number that a text stands for: `0`, or digits that begin with none, perhaps after a `-`.
///
/// There is none off this form (`007`, `+1`, `-0` and blanks among it), and none outside an `i64`.
pub fn read_int(b: &[u8]) -> Option<i64>
    ensures { result ≡ int_of b.now }
{
    if !has_number_form(b) {
        return None;
    }
    let Ok(text) = str::from_utf8(b) else {
        return None;
    };
    text.parse::<i64>().ok()
}

fn has_number_form(b: &[u8]) -> bool
    ensures { result ≡ is_number b.now }
{
    match b {
        [b'0'] => true,
        [b'-', digits @ ..] => has_positive_form(digits),
        _ => has_positive_form(b),
    }
}

fn has_positive_form(b: &[u8]) -> bool
    ensures { result ≡ is_positive b.now }
{
    !b.is_empty() && b[0] != b'0' && has_digits_only(b)
}

fn has_digits_only(b: &[u8]) -> bool
    ensures { result ≡ list_all is_ascii_digit b.now }
{
    b.iter().all(|c| c.is_ascii_digit())
}
