//! What each step tells its pass.
ghost use Rattle.fish_rule.specs.Told.{ToldClaimLines, ToldLoadTail, ToldLoadHead, ToldLookAt, ToldLoadPrevious};
ghost use Rattle.fish_rule.specs.Told.{ToldRaiseSettled, ToldLoadRegistry, ToldLoadSettled, ToldSpliceEntry};
ghost use Rattle.fish_rule.specs.Told.{ToldSwingHead, ToldLoadVersion, told_aim_entry, told_announce};
ghost use Rattle.fish_rule.specs.Told.{told_raise_version, told_define_word, told_load_node, told_publish_region};
ghost use Rattle.fish_rule.specs.Told.{told_read_word, told_retire, told_store_word, ToldLoadBound, ToldLoadBoundary};
ghost use Rattle.fish_rule.specs.Told.{ToldCheckLane, told_store_from, told_store_to};

use crate::view::View;
use atomic_table::Play;

/// A claim.
pub(crate) struct ClaimLines;

impl Play<bool, View> for ClaimLines {
    ghost then = { ToldClaimLines };
}

/// A store of a word of the region in flight.
pub(crate) struct StoreWord;

impl Play<bool, View> for StoreWord {
    ghost then = { told_store_word };
}

/// A publication.
pub(crate) struct PublishRegion;

impl Play<bool, View> for PublishRegion {
    ghost then = { told_publish_region };
}

/// A load of a directory word.
pub(crate) struct LookAt;

impl Play<bool, View> for LookAt {
    ghost then = { ToldLookAt };
}

/// A load of a word of a published region.
pub(crate) struct ReadWord;

impl Play<bool, View> for ReadWord {
    ghost then = { told_read_word };
}

/// A load of the tail.
pub(crate) struct LoadTail;

impl Play<bool, View> for LoadTail {
    ghost then = { ToldLoadTail };
}

/// A load of the settled number.
pub(crate) struct LoadSettled;

impl Play<bool, View> for LoadSettled {
    ghost then = { ToldLoadSettled };
}

/// A raise of the settled number.
pub(crate) struct RaiseSettled;

impl Play<bool, View> for RaiseSettled {
    ghost then = { ToldRaiseSettled };
}

/// A load of a head.
pub(crate) struct LoadHead;

impl Play<bool, View> for LoadHead {
    ghost then = { ToldLoadHead };
}

/// A load of the first word of a linked entry.
pub(crate) struct LoadPrevious;

impl Play<bool, View> for LoadPrevious {
    ghost then = { ToldLoadPrevious };
}

/// A load of the second word of a linked entry.
pub(crate) struct LoadNode;

impl Play<bool, View> for LoadNode {
    ghost then = { told_load_node };
}

/// A store of the own first word.
pub(crate) struct AimEntry;

impl Play<bool, View> for AimEntry {
    ghost then = { told_aim_entry };
}

/// A compare-and-exchange on a head.
pub(crate) struct SwingHead;

impl Play<bool, View> for SwingHead {
    ghost then = { ToldSwingHead };
}

/// A compare-and-exchange on the first word of a linked entry.
pub(crate) struct SpliceEntry;

impl Play<bool, View> for SpliceEntry {
    ghost then = { ToldSpliceEntry };
}

/// A load of the version.
pub(crate) struct LoadVersion;

impl Play<bool, View> for LoadVersion {
    ghost then = { ToldLoadVersion };
}

/// A store of the version in the own epoch word.
pub(crate) struct Announce;

impl Play<bool, View> for Announce {
    ghost then = { told_announce };
}

/// A store of 0 in the own epoch word.
pub(crate) struct Retire;

impl Play<bool, View> for Retire {
    ghost then = { told_retire };
}

/// A load of a word of the registry that lasts.
pub(crate) struct LoadRegistry;

impl Play<bool, View> for LoadRegistry {
    ghost then = { ToldLoadRegistry };
}

/// A store of a word of the next operation or row.
pub(crate) struct DefineWord;

impl Play<bool, View> for DefineWord {
    ghost then = { told_define_word };
}

/// A store of the version plus one.
pub(crate) struct RaiseVersion;

impl Play<bool, View> for RaiseVersion {
    ghost then = { told_raise_version };
}

/// A load of a lane's epoch word.
pub(crate) struct CheckLane;

impl Play<bool, View> for CheckLane {
    ghost then = { ToldCheckLane };
}

/// A load of the tail after the last lane.
pub(crate) struct LoadBound;

impl Play<bool, View> for LoadBound {
    ghost then = { ToldLoadBound };
}

/// A store of where the index of the row that waits begins.
pub(crate) struct StoreFrom;

impl Play<bool, View> for StoreFrom {
    ghost then = { told_store_from };
}

/// A store of where the index of an active row ends.
pub(crate) struct StoreTo;

impl Play<bool, View> for StoreTo {
    ghost then = { told_store_to };
}

/// A load of a boundary.
pub(crate) struct LoadBoundary;

impl Play<bool, View> for LoadBoundary {
    ghost then = { ToldLoadBoundary };
}
