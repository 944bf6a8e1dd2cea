//! The text of a JSON number as `serde_json` takes it: a whole number of 64 bits, or a double.

ghost use Rattle.std.specs.Char.{is_ascii_digit};
ghost use Rattle.std.specs.List.{list_all};
ghost use Rattle.std.specs.Prelude.{◌≡◌, true, false, ◌==◌, ◌<◌, ◌≤◌, length, slice_index, IsTrue, is_some, Some};
ghost use Rattle.std.specs.Prelude.{MatchOption, option_and_then};
ghost use Rattle.serde_json.specs.Data.{unsigned, negative};
ghost use Rattle.serde_json.specs.Find.{as_i64};
ghost use Rattle.serde_json.specs.Read.{float_of, number_from, number_of};

use fast_float::Numeral;

/// Whether a number's text is in the range of a double.
#[tactic(auto, using(crate::proofs::Short::short_number))]
pub(crate) fn in_range(text: &str) -> bool
    ensures { result ≡ is_some (number_of text.now) }
{
    if is_short(text.as_bytes()) {
        return true;
    }
    let (is_negative, numeral) = parts(text);
    let is_whole = if is_negative {
        negative_int(&numeral).is_some()
    } else {
        positive_int(&numeral).is_some()
    };
    is_whole || numeral.to_float::<f64>(is_negative).is_finite()
}

/// Whether bytes are one to eighteen digits, which are a whole number of 64 bits.
fn is_short(bytes: &[u8]) -> bool
    ensures { IsTrue result → (0 < length bytes.now) × (length bytes.now ≤ 18)
        × (list_all is_ascii_digit bytes.now ≡ true) }
{
    !bytes.is_empty() && bytes.len() <= 18 && are_digits(bytes)
}

/// Whether bytes are digits.
fn are_digits(bytes: &[u8]) -> bool
    ensures { result ≡ list_all is_ascii_digit bytes.now }
{
    bytes.iter().all(|byte| byte.is_ascii_digit())
}

/// The whole number of 64 bits with a sign that a number's text is.
pub(crate) fn as_int(text: &str) -> Option<i64>
    ensures { result ≡ option_and_then as_i64 (number_of text.now) }
{
    let (is_negative, numeral) = parts(text);
    if is_negative {
        return negative_int(&numeral);
    }
    match positive_int(&numeral) {
        Some(n) if n <= i64::MAX as u64 => Some(n as i64),
        _ => None,
    }
}

/// Whether a number's text has a minus, and what is after it.
fn parts(text: &str) -> (bool, Numeral<'_>)
    ensures { number_of text.now ≡ number_from result.0 result.1 }
{
    let bytes = text.as_bytes();
    if has_minus(bytes) {
        let (_, digits) = bytes.split_at(1);
        (true, Numeral::scan(digits))
    } else {
        (false, Numeral::scan(bytes))
    }
}

fn has_minus(bytes: &[u8]) -> bool
    ensures value { result ≡ (slice_index bytes.now 0 == 45) }
    ensures len { IsTrue result → 0 < length bytes.now }
{
    !bytes.is_empty() && bytes[0] == b'-'
}

fn positive_int(numeral: &Numeral<'_>) -> Option<u64>
    ensures { MatchOption result (number_from false numeral.now ≡ float_of false numeral.now)
        (λ n. number_from false numeral.now ≡ Some (unsigned n)) }
{
    numeral.to_u64()
}

/// The number after a minus, with it. `-0` is no whole number, but a double.
fn negative_int(numeral: &Numeral<'_>) -> Option<i64>
    ensures { MatchOption result (number_from true numeral.now ≡ float_of true numeral.now)
        (λ n. number_from true numeral.now ≡ Some (negative n)) }
{
    match numeral.to_i64(true) {
        Some(n) if n < 0 => Some(n),
        _ => None,
    }
}
