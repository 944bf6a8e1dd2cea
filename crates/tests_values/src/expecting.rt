//! Assertions: each stands here once, and the tests call it.

use std::alloc::Global;
use std::process::Abort;

/// Asserts of each row that what is told of its case is what is wanted.
pub(crate) fn expect_all<R: Abort, C, E, F: Fn(Global, &C) -> Result<String, E>>(
    rt: &R,
    alloc: Global,
    rows: &[(C, &str)],
    told: F,
) -> Result<(), E>
    requires { F.IsAlwaysCallable told }
{
    for (number, row) in rows.iter().enumerate() {
        let (case, want) = row;
        let found = told(alloc, case)?;
        assert_eq!(rt; found.as_str(), *want, "row {number}");
    }
    Ok(())
}

/// The same of one text.
pub(crate) fn expect<R: Abort>(rt: &R, found: &str, want: &str) {
    assert_eq!(rt; found, want);
}
