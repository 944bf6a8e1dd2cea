//! What follows of every answer. No call of the program needs it.

ghost use Rattle.fish_scan.specs.Laws.{FindsSelection};

/// The rows of an answer are the selection from the log, its range and its open numbers: in every moment of a pass
/// that knows as much, whatever list spells the log there.
///
/// Its contract is that law.
pub fn law_selection()
    ensures { FindsSelection }
{}
