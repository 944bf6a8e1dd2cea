//! The bucket of a key entry, from the words of its record.

ghost use Rattle.std.specs.Prelude.{◌≡◌, ◌+◌, ◌*◌, ◌/◌, ◌%◌, ◌^◌, ◌<◌, map, slice_index};
ghost use Rattle.std.specs.List.{range_with_len};
ghost use Rattle.fish_layout.specs.Bucket.{bucket_of, byte_behind};
ghost use Rattle.fish_layout.specs.Hash.{fnv1a_behind};

use fish_layout::{
    bucket_of as bucket_in, entry_at, hash_of_id, hash_step, id_in, keys_in, offset_in, size_in,
};

/// The bucket of key entry c among so many. Nothing is taken from memory.
pub(crate) fn entry_bucket(words: &[u64], c: u64, buckets: u64) -> u64
    requires some { 0 < buckets }
    requires few { c < 2 ^ 9 }
    ensures bucket { result ≡ bucket_of buckets (slice_index words.now) c }
    ensures fits { result < buckets }
{
    let behind = entry_at(u64::from(keys_in(word(words, 0))));
    let third = word(words, entry_at(c) + 2);
    let id = id_in(word(words, entry_at(c) + 1));
    let hash = hash_of_id(id);
    let from = offset_in(third) as u64;
    let size = size_in(third) as u64;
    let mixed = mix_value(words, behind, from, size, hash);
    bucket_in(mixed, buckets)
}

/// The hash of the bytes so far with so many bytes of words after them.
fn mix_value(words: &[u64], behind: u64, from: u64, size: u64, hash: u64) -> u64
    requires behind { behind < 2 ^ 11 }
    requires from { from < 2 ^ 18 }
    requires size { size < 2 ^ 9 }
    ensures { result ≡ fnv1a_behind hash (map (λ j. byte_behind (slice_index words.now) behind (from + j))
        (range_with_len 0 size)) }
{
    let mut mixed = hash;
    for j in 0..size {
        mixed = hash_step(mixed, byte(words, behind, from + j));
    }
    mixed
}

/// Byte o of the words from one on, low byte first.
fn byte(words: &[u64], at: u64, o: u64) -> u8
    requires at { at < 2 ^ 20 }
    requires o { o < 2 ^ 20 }
    ensures { result ≡ byte_behind (slice_index words.now) at o }
{
    let word = word(words, at + o / 8);
    word.to_le_bytes()[(o % 8) as usize]
}

/// The word at a place, or 0 past the end.
fn word(words: &[u64], at: u64) -> u64
    requires { at < 2 ^ 40 }
    ensures { result ≡ slice_index words.now at }
{
    words.get(at as usize).copied().unwrap_or(0)
}
