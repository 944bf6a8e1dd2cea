//! Words that stand for themselves, without quotation marks.

ghost use Rattle.std.specs.Prelude.{◌≡◌};
ghost use Rattle.std.specs.List.{list_all};
ghost use Rattle.fish_value.specs.BareWord.{is_bare_byte, is_bare_word};

/// Whether a name can stand without quotation marks: graphic ASCII but `"` and `#`, and not empty.
pub fn is_bare_word(name: &[u8]) -> bool
    ensures { result ≡ is_bare_word name.now }
{
    !name.is_empty() && has_bare_bytes(name)
}

fn has_bare_bytes(name: &[u8]) -> bool
    ensures { result ≡ list_all is_bare_byte name.now }
{
    name.iter().all(|b| is_bare_byte(*b))
}

fn is_bare_byte(b: u8) -> bool
    ensures { result ≡ is_bare_byte b }
{
    0x21 <= b && b <= 0x7e && b != b'"' && b != b'#'
}
