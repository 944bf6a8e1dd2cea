//! Claims at the ends of pages and of the log, with each record stored and published.

ghost use Rattle.std.specs.Prelude.{◌≡◌, ◌≤◌, []};
ghost use Rattle.fish_rule.specs.Passes.{IsPassOf};
ghost use Rattle.fish_rule.specs.Start.{IsShape};

use crate::bodies::store_lines;
use crate::cause::Cause;
use crate::expecting::expect;
use crate::logs::{ONE_PAGE, empty_log};
use crate::openings::TWO_PAGES;
use fish_claim::Claimed;
use fish_rule::{Base, Log, Pass, Shape, Shut, base, is_shut};
use std::alloc::Global;
use std::process::Abort;
use std::test::Fail;

/// Where the log of an empty store begins, and one that has nine lines left up to the greatest
/// number.
const FIRST: Base = Base { number: 0, line: 0 };

const FAR_ON: Base = Base {
    number: 268_435_430,
    line: 300_000_000,
};

/// The claims that end past the end of one page, and past that of the log far on.
const PAST_THE_PAGE: Shut = Shut {
    line: 32_752,
    lines: 19,
    end: 32_768,
};

const PAST_THE_NUMBERS: Shut = Shut {
    line: 300_000_000,
    lines: 10,
    end: 300_000_009,
};

/// The places of the first two claims that fill a page but for 16 lines.
const FIRST_PLACE: Claimed = Claimed::Placed { number: 0, line: 0 };

const SECOND_PLACE: Claimed = Claimed::Placed {
    number: 1,
    line: 16_376,
};

/// The lines of each claim, and its answer: on one page, on two, and far on.
const ON_ONE_PAGE: &[(u64, Claimed)] = &[
    (16_376, FIRST_PLACE),
    (16_376, SECOND_PLACE),
    (
        19,
        Claimed::Overflow {
            shut: PAST_THE_PAGE,
        },
    ),
];

const ON_TWO_PAGES: &[(u64, Claimed)] = &[
    (16_376, FIRST_PLACE),
    (16_376, SECOND_PLACE),
    (19, Claimed::Void { number: 2 }),
    (
        19,
        Claimed::Placed {
            number: 3,
            line: 32_771,
        },
    ),
];

const NEAR_THE_END: &[(u64, Claimed)] = &[(
    10,
    Claimed::Overflow {
        shut: PAST_THE_NUMBERS,
    },
)];

/// Asserts what each claim of a pass becomes.
fn expect_claims<R: Abort>(
    rt: &R,
    alloc: Global,
    log: &Log,
    pass: &mut Pass,
    claims: &[(u64, Claimed)],
) -> Result<(), Cause>
    requires pass { IsPassOf log.now pass.old }
    requires rows { log.now.key.rows.value ≡ [] }
    ensures { IsPassOf log.now pass.new }
{
    for &(lines, want) in claims {
        let answer = store_lines(alloc, log, pass, lines)?;
        expect(rt, "a claim", &answer, &want);
    }
    Ok(())
}

/// Opens a log, and asserts what each claim of its control pass becomes.
fn expect_log<R: Abort>(
    rt: &R,
    alloc: Global,
    shape: Shape,
    start: Base,
    claims: &[(u64, Claimed)],
) -> Result<Option<Shut>, Cause>
    requires shape { IsShape shape }
    requires start { (start.number ≤ 268435439) × (start.line ≤ 68719176736) }
{
    let (log, mut pass) = empty_log(alloc, shape, start)?;
    let done = expect_claims(rt, alloc, &log, &mut pass, claims);
    expect(rt, "the base", &base(&log), &start);
    let shut = is_shut(&pass);
    drop((log, pass));
    done?;
    Ok(shut)
}

#[test]
fn one_page(rt: HostRuntime) -> Result<(), Fail> {
    let shut = expect_log(&rt, rt.alloc(), ONE_PAGE, FIRST, ON_ONE_PAGE)?;
    expect(&rt, "shut", &shut, &Some(PAST_THE_PAGE));
    Ok(())
}

#[test]
fn two_pages(rt: HostRuntime) -> Result<(), Fail> {
    let shut = expect_log(&rt, rt.alloc(), TWO_PAGES, FIRST, ON_TWO_PAGES)?;
    expect(&rt, "shut", &shut, &None);
    Ok(())
}

#[test]
fn a_log_far_on(rt: HostRuntime) -> Result<(), Fail> {
    let shut = expect_log(&rt, rt.alloc(), ONE_PAGE, FAR_ON, NEAR_THE_END)?;
    expect(&rt, "shut", &shut, &Some(PAST_THE_NUMBERS));
    Ok(())
}
