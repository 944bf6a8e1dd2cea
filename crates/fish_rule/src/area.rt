//! Where the areas of a table lie among its words.
//!
//! After the tail and the settled number come the version, the count of opened rows, 16 epochs, 512
//! operations, 256 rows of 39 words, the heads of the chains, the directory and the log.

ghost use Rattle.std.specs.Prelude.{◌≡◌, ◌<◌, ◌≤◌, ◌+◌, ◌-◌, ◌*◌};
ghost use Rattle.fish_rule.specs.Parts.{FitsTable};
ghost use Rattle.fish_rule.specs.Registry.{epoch_at};
ghost use Rattle.fish_rule.specs.Told.{place_at};
ghost use Rattle.fish_rule.specs.World.{dir_at as first_directory_word, log_at as first_log_word};

use crate::table::Log;
use crate::view::Key;

/// The version.
pub(crate) const VERSION: u64 = 2;

/// The count of rows at the start.
pub(crate) const OPENED: u64 = 3;

/// The epoch word of lane 1.
pub(crate) const EPOCHS: u64 = 4;

/// The operation that made version 1.
pub(crate) const OPERATIONS: u64 = 20;

/// The first word of the first row.
pub(crate) const ROWS: u64 = 532;

/// The first head.
pub(crate) const HEADS: u64 = 10_516;

/// The first directory word of a table.
pub(crate) fn dir_at(key: &Key) -> u64
    requires { FitsTable key.now }
    ensures { result ≡ first_directory_word key.now }
{
    HEADS + key.buckets
}

/// The first word of the log of a table.
pub(crate) fn log_at(key: &Key) -> u64
    requires { FitsTable key.now }
    ensures { result ≡ first_log_word key.now }
{
    dir_at(key) + (key.end - key.line + 16)
}

/// The index of the word at a place of the log.
pub(crate) fn word_index(log: &Log, place: u64) -> usize
    requires { (log.now.key.line * 4 ≤ place) × (place < log.now.key.end * 4) }
    ensures within { result < log.now.table.shared.table_id.words }
    ensures is { result ≡ first_log_word log.now.key + (place - log.now.key.line * 4) }
    ensures back { place_at log.now.key result ≡ place }
{
    (log_at(&log.key) + (place - log.key.line * 4)) as usize
}

/// The index of a lane's epoch word.
pub(crate) fn epoch_index(lane: u8) -> usize
    ensures { result ≡ epoch_at lane }
{
    (EPOCHS - 1) as usize + usize::from(lane)
}
