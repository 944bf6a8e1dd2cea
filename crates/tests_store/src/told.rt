//! Answers as texts, so that tables hold what is wanted in plain words, and the two assertions.

use fish_value::{Bytes, Numbers64};
use std::alloc::{AllocError, Global};
use std::process::Abort;

/// Asserts of each row that what is told of its case is what is wanted.
pub fn expect_all<R: Abort, C, E, F: Fn(Global, &C) -> Result<String, E>>(
    rt: &R,
    alloc: Global,
    rows: &[(C, &str)],
    told: F,
) -> Result<(), E>
    requires { F.IsAlwaysCallable told }
{
    for (number, row) in rows.iter().enumerate() {
        let (case, want) = row;
        let found = told(alloc, case)?;
        assert_eq!(rt; found.as_str(), *want, "row {number}");
    }
    Ok(())
}

/// The same of one text.
pub fn expect<R: Abort>(rt: &R, found: &str, want: &str) {
    assert_eq!(rt; found, want);
}

/// A list of numbers.
pub fn numbers(alloc: Global, all: &[u64]) -> Result<Numbers64, AllocError> {
    let mut numbers = Numbers64::new(alloc);
    for number in all {
        numbers.push(*number)?;
    }
    Ok(numbers)
}

/// Puts bytes that are letters after a text.
pub fn put_bytes(told: &mut String, bytes: &[u8]) -> Result<(), AllocError> {
    for byte in bytes {
        told.push(char::from(*byte))?;
    }
    Ok(())
}

/// So many bytes of one kind.
pub fn bytes_of(alloc: Global, byte: u8, count: usize) -> Result<Bytes, AllocError> {
    let all = vec![in alloc; byte; count]?;
    Bytes::copy_of(alloc, all.as_slice())
}
