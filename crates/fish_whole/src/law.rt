//! What the whole has of what passes knew. No call of the program needs it.

ghost use Rattle.std.specs.Prelude.{ℕ, ◌≡◌, ◌≤◌, length, Some, slice_get};
ghost use Rattle.fish_catalog.specs.declared.entry.Entry.{Entry};
ghost use Rattle.fish_rule.specs.Logs.{KnowsAs};
ghost use Rattle.fish_rule.specs.declared.view.View.{View};
ghost use Rattle.fish_whole.specs.Laws.{DefinitionsStay, PartsStay, TablesEnd, TablesGoOn};
ghost use Rattle.fish_whole.specs.Whole.{MustHold, Whole};

/// An entry that a pass was told of stands at its number in each whole that may be in the end, whatever stood before
/// the table and whatever comes after it; all that it knows to be settled is there; so are the definitions that it
/// knows of a version, and each part of the log that it knows. What stands when a table is closed may be in the end,
/// and another table may go on from there.
///
/// Its contract is that law.
pub fn law_whole()
    ensures entries { (past : Whole) (v : View) (n : ℕ) (e : Entry) → length past.log ≤ n → KnowsAs v n e
        → MustHold past v (λ w. slice_get w.log n ≡ Some e) }
    ensures settled { (past : Whole) (v : View) (n : ℕ) → n ≤ v.learned.settled
        → MustHold past v (λ w. n ≤ length w.log) }
    ensures definitions { DefinitionsStay }
    ensures parts { PartsStay }
    ensures ends { TablesEnd }
    ensures goes_on { TablesGoOn }
{}
