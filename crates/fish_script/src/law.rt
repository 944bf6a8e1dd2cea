//! What follows for every text. No call of the program needs it.

ghost use Rattle.fish_script.specs.Laws.{NoScriptIsRefused, OneRefusal, OneScript};
ghost use Rattle.fish_script.specs.Runnable.{ScriptsCanRun};

/// A text is one script, or is refused for one cause, unless memory runs out; and none is both.
///
/// Its contract is that law.
pub fn law_one_outcome()
    ensures apart { NoScriptIsRefused }
    ensures once { OneRefusal }
    ensures one { OneScript }
{}

/// The statements of a script can be run: names and definitions are in order, and blocks keep the limits of lanes.
///
/// Its contract is that law.
pub fn law_scripts_can_run()
    ensures { ScriptsCanRun }
{}
