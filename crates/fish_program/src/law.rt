//! What the ends of a run say of the disk. The function does nothing; its contract is the laws.

ghost use Rattle.fish_program.specs.Laws.{StoppedRunsKeep, WholeRunsKeep};

use fish_disk::Disk;

/// A run keeps what the disk held at the start, and what it told as committed; one that came to its end, all.
///
/// Its contract is that law. No call of the program needs it.
pub fn law_runs_keep<D: Disk>()
    ensures whole { WholeRunsKeep D.Disk }
    ensures stopped { StoppedRunsKeep D.Disk }
{}
