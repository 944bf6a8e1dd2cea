//! The definition that a name means.

ghost use Rattle.std.specs.Prelude.{◌≡◌, ◌↔◌, IsTrue, MatchOption};
ghost use Rattle.fish_scan.specs.Naming.{HasNone, IsNewestListed};

use fish_catalog::Listed;
use fish_value::Text;

/// The place of the newest definition of a name, active or not, if one has it.
pub(crate) fn newest(rows: &[Listed], name: &Text) -> Option<usize>
    ensures { MatchOption result (HasNone rows.now name.now) (IsNewestListed rows.now name.now) }
{
    let mut position = rows.len();
    while position > 0 {
        position -= 1;
        if is_named(&rows[position], name) {
            return Some(position);
        }
    }
    None
}

/// Whether a definition has a name.
fn is_named(row: &Listed, name: &Text) -> bool
    ensures { IsTrue result ↔ (row.now.name ≡ name.now) }
{
    row.name.as_bytes() == name.as_bytes()
}
