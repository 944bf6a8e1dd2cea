//! Records of a sample, and the fields that the first of them have.

use crate::expecting::expect_all;
use fish_gen::sample_record;
use std::alloc::{AllocError, Global};
use std::test::Fail;

/// Numbers and their records: the first ten, and the last of a full sample and of all.
const RECORDS: &[(u32, &str)] = &[
    (0, "{\"type\":\"T0\",\"n\":0,\"k\":0}"),
    (1, "{\"type\":\"T1\",\"n\":1,\"k\":761}"),
    (2, "{\"type\":\"T2\",\"n\":2,\"k\":226}"),
    (3, "{\"type\":\"T3\",\"n\":3,\"k\":987}"),
    (4, "{\"type\":\"T4\",\"n\":4,\"k\":452}"),
    (5, "{\"type\":\"T5\",\"n\":5,\"k\":917}"),
    (6, "{\"type\":\"T6\",\"n\":6,\"k\":678}"),
    (7, "{\"type\":\"T0\",\"n\":7,\"k\":143}"),
    (8, "{\"type\":\"T1\",\"n\":8,\"k\":904}"),
    (9, "{\"type\":\"T2\",\"n\":9,\"k\":369}"),
    (59_999, "{\"type\":\"T2\",\"n\":59999,\"k\":263}"),
    (
        4_294_967_295,
        "{\"type\":\"T3\",\"n\":4294967295,\"k\":535}",
    ),
];

/// A record as text.
fn record_of(alloc: Global, number: &u32) -> Result<String, AllocError> {
    let record = sample_record(alloc, *number)?;
    let told = String::from_str(alloc, record.as_str());
    drop(record);
    told
}

#[test]
fn sample_records(rt: HostRuntime) -> Result<(), Fail> {
    expect_all(&rt, rt.alloc(), RECORDS, record_of)?;
    Ok(())
}
