//! The lines of a script's text.

ghost use Rattle.std.specs.Prelude.{◌≡◌, ◌∷◌, ◌<◌, length};
ghost use Rattle.fish_script.specs.Lines.{script_lines};

use fish_json::{cut_line, without_carriage_return};

/// The first line of a text, and what follows it.
pub(crate) fn first_line(b: &[u8]) -> (&[u8], &[u8])
    requires { 0 < length b.now }
    ensures lines { script_lines b.now ≡ result.0.now ∷ script_lines result.1.now }
    ensures shorter { length result.1.now < length b.now }
{
    match cut_line(b) {
        Some((part, behind)) => (without_carriage_return(part), behind),
        None => b.split_at(b.len()),
    }
}
