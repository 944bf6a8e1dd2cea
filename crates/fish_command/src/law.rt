//! What follows for every list of words. No call of the program needs it.

ghost use Rattle.fish_command.specs.Laws.{OneOutcome, OneReading, SomeOutcome};

/// Words are a command or are refused with one cause, and have one reading by the grammar.
///
/// Its contract is that law.
pub fn law_one_outcome()
    ensures some { SomeOutcome }
    ensures one { OneOutcome }
    ensures reading { OneReading }
{}
