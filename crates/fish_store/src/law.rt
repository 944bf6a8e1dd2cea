//! How an open store goes on. The functions do nothing; their contracts are the laws.

ghost use Rattle.fish_store.specs.Laws.{BothGoOn, OpensParts, OpensSound, StaysCarried, StepsGoOn};

use fish_disk::Disk;

/// A table that a file carries by the lines of a commit is carried by every image that goes on from it.
///
/// Its contract is that law. No call of the program needs it.
pub fn law_carried()
    ensures { StaysCarried }
{}

/// A store that was opened is sound, and stays so over steps of its table.
///
/// Its contract is that law. No call of the program needs it.
pub fn law_sound<D: Disk>()
    ensures opens { OpensSound D.Disk }
    ensures parts { OpensParts D.Disk }
    ensures steps { StepsGoOn D.Disk }
    ensures both { BothGoOn D.Disk }
{}
