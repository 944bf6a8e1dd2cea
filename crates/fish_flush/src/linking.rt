//! The previous nodes of a record's key entries, as they stand in an image: each is the newest key entry of
//! its bucket before it.
//!
//! They are made anew from the heads of the image, and not read: the words of the log have the same ones
//! below the settled number.

ghost use Rattle.std.specs.Prelude.{◌≡◌, ◌<◌, ◌^◌, ◌*◌, length, slice_index};
ghost use Rattle.fish_layout.specs.Header.{keys_of};
ghost use Rattle.fish_flush.specs.within.Linking.{AreSpelled};

use crate::bucket::entry_bucket;
use fish_layout::{entry_at, keys_in, place_of};

/// Puts the previous nodes of the record at a line into its words, and its key entries into the heads. For a
/// void nothing changes. The words of which a bucket is made are none of those that change.
pub(crate) fn link(heads: &mut Vec<u64>, line: u64, words: &mut [u64])
    requires line { line < 2 ^ 40 }
    requires some { 0 < length heads.old.items }
    requires room { 3 * keys_of (slice_index words.old 0) < length words.old }
    ensures heads { length heads.new.items ≡ length heads.old.items }
    ensures size { length words.new ≡ length words.old }
    ensures spelled { AreSpelled line words.old heads.old.items heads.new.items words.new }
{
    let keys = u64::from(keys_in(words[0]));
    for c in 0..keys {
        let bucket = entry_bucket(words, c, heads.len() as u64) as usize;
        words[entry_at(c) as usize] = heads[bucket];
        heads[bucket] = place_of(line, c);
    }
}
