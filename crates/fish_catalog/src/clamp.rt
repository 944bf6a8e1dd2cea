//! Boundaries of the index that are cut to a count: as a store is opened that holds fewer entries than
//! its catalogue tells.

ghost use Rattle.std.specs.Prelude.{◌≡◌, map};
ghost use Rattle.fish_catalog.specs.Clamps.{clamped};

use crate::row::CatRow;

/// Cuts the boundaries of all rows.
pub(crate) fn clamp_rows(rows: &mut [CatRow], count: u32)
    ensures { rows.new ≡ map (clamped count) rows.old }
{
    for row in rows.iter_mut() {
        clamp_row(row, count);
    }
}

/// Cuts the boundaries of a row; one without a beginning begins at the count.
fn clamp_row(row: &mut CatRow, count: u32)
    ensures { row.new ≡ clamped count row.old }
{
    row.from = match row.from {
        Some(from) => Some(from.min(count)),
        None => Some(count),
    };
    if let Some(to) = row.to {
        row.to = Some(to.min(count));
    }
}
