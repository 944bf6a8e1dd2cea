//! The laws of the log: the theorem over every schedule, what a closed log has of what passes knew, and what
//! passes know together. No call of the program needs them.

ghost use Rattle.fish_rule.specs.ClosedLaws.{DefinitionsAreClosed, EndsWhereNextBegins, OwnIsClosed, KnownIsClosed};
ghost use Rattle.fish_rule.specs.Comparing.{OneLineIsOneClaim, OneNumberIsOneClaim, RegionsFollow};
ghost use Rattle.fish_rule.specs.Intervals.{CoveredAreBetween, IntervalsAreCovered, IntervalsAreIndexed, IntervalsStay};
ghost use Rattle.fish_rule.specs.Machine.{EverySchedule, EveryStepIsFinal};
ghost use Rattle.fish_rule.specs.OpenNumbers.{OpensAreLast};

/// From an empty log on, the rule holds after every list of steps of any passes, in any order; and
/// each step keeps for good what lasts.
///
/// Its contract is that theorem.
pub fn law_every_schedule()
    ensures rule { EverySchedule }
    ensures final_words { EveryStepIsFinal }
{}

/// Once a log is closed, each entry that a pass was told of is the one at its number, and the records of
/// a lane are exactly the own numbers of the pass that has the lane. The definitions at the version that is left are
/// those that the control pass knows, and what is left may begin the next log.
///
/// Its contract is that law.
pub fn law_closed_log()
    ensures known { KnownIsClosed }
    ensures own { OwnIsClosed }
    ensures definitions { DefinitionsAreClosed }
    ensures next { EndsWhereNextBegins }
{}

/// A pass that knows of an interval, knows it for good, and so does each that knows as much: every record of the
/// interval has the keys of a version at which the definition was active. Of the numbers before the table's first one
/// an interval has those that the row covers with which the table begins.
///
/// Its contract is that law.
pub fn law_intervals()
    ensures indexed { IntervalsAreIndexed }
    ensures stay { IntervalsStay }
    ensures covered { IntervalsAreCovered }
    ensures between { CoveredAreBetween }
{}

/// Two regions that passes found, as the marks of claims past the log's end that shut them, are compared where one
/// pass knows of both, as after a join: with one line or one number they are one claim, and else the one with the
/// lower number ends at or before the line of the other.
///
/// Its contract is that law.
pub fn law_found_regions()
    ensures line { OneLineIsOneClaim }
    ensures number { OneNumberIsOneClaim }
    ensures follow { RegionsFollow }
{}

/// A number that a pass found unpublished is the last that its lane ever stores of those that were claimed when the
/// pass loaded the tail: a lane claims a number when its record before is published.
///
/// Its contract is that law.
pub fn law_opens()
    ensures { OpensAreLast }
{}
