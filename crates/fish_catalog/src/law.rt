//! Laws of the rows. The functions do nothing; their contracts are the laws.

ghost use Rattle.std.specs.Prelude.{ℕ, ◌<◌, ◌↔◌};
ghost use Rattle.fish_catalog.specs.Clamps.{clamped};
ghost use Rattle.fish_catalog.specs.Covering.{Covers};
ghost use Rattle.fish_catalog.specs.declared.row.CatRow.{CatRow};

/// Of the numbers below a count, a row covers as many before as after its boundaries are cut to the count.
pub fn clamps_cover_alike()
    ensures { (count : ℕ) (row : CatRow) (number : ℕ) → number < count
        → (Covers (clamped count row) number ↔ Covers row number) }
{}
