//! What a checkpoint asks for is there once a store is made, and stays. The functions do nothing; their contracts are
//! the laws.

ghost use Rattle.fish_flush.specs.Laws.{CarriesOn, FirstCarries, FirstHolds, GrownBegins, GrownClamps, GrownEnds};
ghost use Rattle.fish_flush.specs.Laws.{GrownPolls};
ghost use Rattle.fish_flush.specs.Laws.{HoldsOn, KnownAreHeld, PagesFollowStarts};

use fish_disk::Disk;

/// A store that was made carries the first view of an empty log that begins at 0, and what a disk carries stays so,
/// whatever its pass learns, while the rows go on.
///
/// Its contract is that law. No call of the program needs it.
pub fn law_carries<D: Disk>()
    ensures first { (disk : D) → FirstCarries (D.images disk) }
    ensures on { (disk : D) → CarriesOn (D.images disk) }
{}

/// The rows that the control pass knows: those with which a log begins, and those that its registrar keeps.
///
/// Its contract is that law. No call of the program needs it.
pub fn law_rows_held()
    ensures first { FirstHolds }
    ensures known { KnownAreHeld }
    ensures on { HoldsOn }
{}

/// Rows that went on since a commit go on by each call of the registrar, and by a cut to a count.
///
/// Its contract is that law. No call of the program needs it.
pub fn law_rows_grow()
    ensures begins { GrownBegins }
    ensures polls { GrownPolls }
    ensures ends { GrownEnds }
    ensures clamps { GrownClamps }
{}

/// The page from which a flusher goes on is told by the page starts that an opening checked.
///
/// Its contract is that law. No call of the program needs it.
pub fn law_page_starts()
    ensures { PagesFollowStarts }
{}
