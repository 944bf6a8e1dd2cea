//! The hash of a key, and the bucket that it falls in.
//!
//! Definitions and values of one bucket share a chain, so a bucket says nothing of equality.

ghost use Rattle.std.specs.Prelude.{◌≡◌, ◌<◌};
ghost use Rattle.std.specs.Int.{to_le_bytes};
ghost use Rattle.std.specs.Int.Width.{w16};
ghost use Rattle.fish_layout.specs.Hash.{bucket_in, fnv1a, fnv1a_behind, fnv_step, key_hash_of};
ghost use Rattle.fish_layout.specs.Values.{value_bytes};

use fish_value::Value;

/// Where FNV-1a of 64 bits, by Fowler, Noll and Vo, begins.
const START: u64 = 0xcbf2_9ce4_8422_2325;

/// What each step of it multiplies by.
const PRIME: u64 = 0x100_0000_01b3;

/// The hash of a definition's id and a value: FNV-1a of 64 bits over the id's two bytes, low byte
/// first, and then the value's bytes. It takes no memory, and a step for each byte.
pub fn key_hash(id: u16, value: &Value) -> u64
    ensures { result ≡ key_hash_of id value.now }
{
    mix_value(hash_of_id(id), value)
}

/// The hash of a definition's id, with which that of a key begins.
pub fn hash_of_id(id: u16) -> u64
    ensures { result ≡ fnv1a (to_le_bytes w16 id) }
{
    mix(START, &id.to_le_bytes())
}

/// The bucket of a hash, of so many: its low bits, where the number of buckets is a power of 2.
pub fn bucket_of(hash: u64, buckets: u64) -> u64
    requires { 0 < buckets }
    ensures value { result ≡ bucket_in hash buckets }
    ensures fits { result < buckets }
{
    if buckets.is_power_of_two() {
        // a mask takes one step, a division some twenty
        hash & (buckets - 1)
    } else {
        hash % buckets
    }
}

/// The hash with a value's bytes after those that it has seen.
fn mix_value(hash: u64, value: &Value) -> u64
    ensures { result ≡ fnv1a_behind hash (value_bytes value.now) }
{
    match value {
        Value::Bool(truth) => mix(hash, &[u8::from(*truth)]),
        Value::Int(number) => mix(hash, &number.to_le_bytes()),
        Value::Text(text) => mix(hash, text.as_bytes()),
    }
}

/// The hash with bytes after those that it has seen.
fn mix(hash: u64, bytes: &[u8]) -> u64
    ensures { result ≡ fnv1a_behind hash bytes.now }
{
    bytes.iter().fold(hash, |hash, byte| hash_step(hash, *byte))
}

/// The hash with one more byte after those that it has seen.
pub fn hash_step(hash: u64, byte: u8) -> u64
    ensures { result ≡ fnv_step hash byte }
{
    (hash ^ u64::from(byte)).wrapping_mul(PRIME)
}
