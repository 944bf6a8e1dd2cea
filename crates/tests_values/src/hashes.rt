//! Hashes of keys: the vectors that the authors of FNV-1a give, and keys that another program hashed.

use crate::expecting::expect_all;
use fish_layout::{bucket_of, hash_of_id, hash_step, key_hash};
use fish_value::{Value, read_value};
use std::alloc::{AllocError, Global};
use std::test::Fail;

/// An id, a value's text, and the hash of the id's two bytes and the value's.
const HASHES: &[((u16, &str), &str)] = &[
    // `fo`, `foo`, `foob`, `fooba`, `foobar` and `chongo was here!` with a line's end, whose first two
    // bytes are the id.
    ((0x6f66, "\"\""), "08985907b541d342"),
    ((0x6f66, "\"o\""), "dcb27518fed9d577"),
    ((0x6f66, "\"ob\""), "dd120e790c2512af"),
    ((0x6f66, "\"oba\""), "cac165afa2fef40a"),
    ((0x6f66, "\"obar\""), "85944171f73967e8"),
    ((0x6863, "\"ongo was here!\\n\""), "46810940eff5f915"),
    ((0, "\"Push\""), "4cb5b66ad1f41df5"),
    ((0, "\"\""), "08328807b4eb6fed"),
    ((1, "7"), "32331fbf92b78323"),
    ((0x102, "-1"), "238a59cd8ba3e884"),
    ((255, "true"), "f9210a1be4164051"),
    ((255, "false"), "f921091be4163e9e"),
];

/// The hash of a key with this id and value in hexadecimal digits, or `none` where the text is no value.
fn hash_of(alloc: Global, case: &(u16, &str)) -> Result<String, AllocError> {
    let (id, text) = case;
    let value = read_value(alloc, text.as_bytes())?;
    let told = hash_text(alloc, *id, &value);
    drop(value);
    told
}

fn hash_text(alloc: Global, id: u16, value: &Option<Value>) -> Result<String, AllocError> {
    match value {
        Some(value) => format!(in alloc; "{:016x}", key_hash(id, value)),
        None => String::from_str(alloc, "none"),
    }
}

#[test]
fn hashes(rt: HostRuntime) -> Result<(), Fail> {
    expect_all(&rt, rt.alloc(), HASHES, hash_of)?;
    Ok(())
}

/// An id, the bytes that follow its two as a text, and the hash of all: again `fo`, `foo` and `foobar`.
const STEPS: &[((u16, &str), &str)] = &[
    ((0x6f66, ""), "08985907b541d342"),
    ((0x6f66, "o"), "dcb27518fed9d577"),
    ((0x6f66, "obar"), "85944171f73967e8"),
];

/// The hash of an id in hexadecimal digits, with one step for each of the bytes that follow.
fn stepped(alloc: Global, case: &(u16, &str)) -> Result<String, AllocError> {
    let (id, text) = case;
    let mut hash = hash_of_id(*id);
    for byte in text.as_bytes() {
        hash = hash_step(hash, *byte);
    }
    format!(in alloc; "{hash:016x}")
}

#[test]
fn steps(rt: HostRuntime) -> Result<(), Fail> {
    expect_all(&rt, rt.alloc(), STEPS, stepped)?;
    Ok(())
}

/// A hash and how many buckets there are, and its bucket.
const BUCKETS: &[((u64, u64), &str)] = &[
    ((0x4cb5_b66a_d1f4_1df5, 65_536), "1df5"),
    ((0x4cb5_b66a_d1f4_1df5, 1), "0"),
    ((0x4cb5_b66a_d1f4_1df5, 10), "7"),
    ((18_446_744_073_709_551_615, 1_000), "267"),
];

/// The bucket in hexadecimal digits, or `none` where there are no buckets.
fn bucket_told(alloc: Global, case: &(u64, u64)) -> Result<String, AllocError> {
    let (hash, buckets) = case;
    if *buckets == 0 {
        return String::from_str(alloc, "none");
    }
    format!(in alloc; "{:x}", bucket_of(*hash, *buckets))
}

#[test]
fn buckets(rt: HostRuntime) -> Result<(), Fail> {
    expect_all(&rt, rt.alloc(), BUCKETS, bucket_told)?;
    Ok(())
}
