//! Reports with the texts that a user is to see, written out by hand.

use crate::expecting::expect_all;
use crate::items::{Plain, item_of, put_items};
use fish_report::{
    DeregisterCause, Items, RegisterCause, Report, ScanCause, push_item, report_text,
};
use std::alloc::{AllocError, Global};
use std::test::Fail;

/// Names of files in an item, which is a refusal, and its text.
const NAMES: &[(Plain, &str)] = &[
    (
        Plain::SelectTooLong("a.jsonl"),
        "a refusal: refused select a.jsonl too long\n",
    ),
    (
        Plain::SelectTooLong("~/d_1/!.json"),
        "a refusal: refused select ~/d_1/!.json too long\n",
    ),
    (
        Plain::SelectTooLong(""),
        "a refusal: refused select \"\" too long\n",
    ),
    (
        Plain::SelectTooLong("a b"),
        "a refusal: refused select \"a b\" too long\n",
    ),
    (
        Plain::SelectTooLong("a\"b"),
        "a refusal: refused select \"a\\\"b\" too long\n",
    ),
    (
        Plain::SelectTooLong("a#b"),
        "a refusal: refused select \"a#b\" too long\n",
    ),
    (
        Plain::SelectTooLong("a\u{7f}"),
        "a refusal: refused select \"a\u{7f}\" too long\n",
    ),
    (
        Plain::SelectTooLong("a\nb"),
        "a refusal: refused select \"a\\nb\" too long\n",
    ),
    (
        Plain::SelectTooLong("é"),
        "a refusal: refused select \"é\" too long\n",
    ),
    (
        Plain::Ingested("a b", 3, 1),
        "no refusal: ingested \"a b\" stored 3 refused 1\n",
    ),
    (
        Plain::IngestTooLong("a b", 0, 0),
        "a refusal: refused ingest \"a b\" too long stored 0 refused 0\n",
    ),
    (
        Plain::IngestFull("a#", (32_752, 19, 32_768), 2, 1),
        "a refusal: refused ingest \"a#\" full line 32752 lines 19 end 32768 stored 2 refused 1\n",
    ),
];

/// Items that tell what was done, and whether they are refusals and their texts.
const DONE: &[(Plain, &str)] = &[
    (
        Plain::Select(
            &[
                (2, "{\"type\":\"Push\",\"n\":3}"),
                (0, "{\"type\":\"Push\",\"n\":1}"),
            ],
            3,
            0,
        ),
        "no refusal: select found 2 of 3 refused 0\n2 21 {\"type\":\"Push\",\"n\":3}\n0 21 {\"type\":\"Push\",\"n\":1}\n",
    ),
    (
        Plain::Select(&[], 18_446_744_073_709_551_615, 10),
        "no refusal: select found 0 of 18446744073709551615 refused 10\n",
    ),
    (
        Plain::Select(&[(7, "é,1")], 8, 0),
        "no refusal: select found 1 of 8 refused 0\n7 4 é,1\n",
    ),
    (Plain::Created, "no refusal: created\n"),
    (Plain::Opened(6), "no refusal: opened 6\n"),
    (Plain::Statement(3, 6), "no refusal: "),
    (
        Plain::Lanes(0, 268_435_455),
        "no refusal: lanes 0..268435455\n",
    ),
    (Plain::Lane(16), "no refusal: lane 16\n"),
    (Plain::End, "no refusal: end\n"),
    (
        Plain::Registered("t", 0, 3),
        "no refusal: registered t id 0 from 3\n",
    ),
    (
        Plain::Rolling("_t9", 255),
        "no refusal: registered _t9 id 255 rolling\n",
    ),
    (Plain::Bound(1, 91), "no refusal: bound id 1 from 91\n"),
    (
        Plain::Deregistered("t", 0, 3),
        "no refusal: deregistered t id 0 to 3\n",
    ),
    (
        Plain::Ingested("a", 3, 0),
        "no refusal: ingested a stored 3 refused 0\n",
    ),
    (Plain::Checkpointed(90), "no refusal: checkpoint 90\n"),
    (Plain::Closed(6), "no refusal: closed 6\n"),
];

/// Scans and plans, and the same.
const SCANS: &[(Plain, &str)] = &[
    (
        Plain::Scanned(
            "t",
            "\"Push\"",
            (0, 2),
            &[0],
            &[(1, "{\"type\":\"Push\",\"n\":5}")],
        ),
        "no refusal: scan t = \"Push\" in 0..2 found 1 open 0\n1 21 {\"type\":\"Push\",\"n\":5}\n",
    ),
    (
        Plain::Scanned("band", "-100", (4, 9), &[1, 5, 7], &[]),
        "no refusal: scan band = -100 in 4..9 found 0 open 1,5,7\n",
    ),
    (
        Plain::Scanned("late", "true", (0, 0), &[], &[]),
        "no refusal: scan late = true in 0..0 found 0 open none\n",
    ),
    (
        Plain::Scanned("w", "\"a\\nb\"", (2, 9), &[], &[(8, "a\nb"), (3, "")]),
        "no refusal: scan w = \"a\\nb\" in 2..9 found 2 open none\n8 3 a\nb\n3 0 \n",
    ),
    (
        Plain::Explained("t", "\"Push\"", (0, 0, 0), &[]),
        "no refusal: explain t = \"Push\" in 0..0: none\n",
    ),
    (
        Plain::Explained("t", "7", (0, 3, 3), &[(0, 0, None)]),
        "no refusal: explain t = 7 in 0..3: index 0..3 by 0\n",
    ),
    (
        Plain::Explained("t", "\"Push\"", (0, 6, 6), &[(0, 3, None)]),
        "no refusal: explain t = \"Push\" in 0..6: index 3..6 by 0 full 0..3\n",
    ),
    (
        Plain::Explained("t", "\"Push\"", (0, 9, 9), &[(0, 0, Some(3)), (1, 6, None)]),
        "no refusal: explain t = \"Push\" in 0..9: index 6..9 by 1 full 3..6 index 0..3 by 0\n",
    ),
];

/// Refusals, and the same.
const REFUSALS: &[(Plain, &str)] = &[
    (
        Plain::RegisterRefused("t", RegisterCause::Rolling { id: 4 }),
        "a refusal: refused register t rolling id 4\n",
    ),
    (
        Plain::RegisterRefused("t", RegisterCause::TooManyVersions),
        "a refusal: refused register t too many versions 512\n",
    ),
    (
        Plain::RegisterRefused("t", RegisterCause::NameActive),
        "a refusal: refused register t name active\n",
    ),
    (
        Plain::RegisterRefused("t", RegisterCause::TooManyActive),
        "a refusal: refused register t too many active 32\n",
    ),
    (
        Plain::RegisterRefused("t", RegisterCause::TooManyDefinitions),
        "a refusal: refused register t too many definitions 256\n",
    ),
    (
        Plain::DeregisterRefused("t", DeregisterCause::Rolling { id: 4 }),
        "a refusal: refused deregister t rolling id 4\n",
    ),
    (
        Plain::DeregisterRefused("t", DeregisterCause::TooManyVersions),
        "a refusal: refused deregister t too many versions 512\n",
    ),
    (
        Plain::DeregisterRefused("t", DeregisterCause::UnknownName),
        "a refusal: refused deregister t unknown name\n",
    ),
    (
        Plain::IngestFull("three", (32_752, 19, 32_768), 2, 0),
        "a refusal: refused ingest three full line 32752 lines 19 end 32768 stored 2 refused 0\n",
    ),
    (
        Plain::IngestTooLong("c.csv", 0, 0),
        "a refusal: refused ingest c.csv too long stored 0 refused 0\n",
    ),
    (
        Plain::ScanRefused("t", 0, ScanCause::UnknownName),
        "a refusal: refused scan t unknown name version 0\n",
    ),
    (
        Plain::ScanRefused("t", 1, ScanCause::EmptyRange { from: 5, to: 4 }),
        "a refusal: refused scan t empty range 5..4\n",
    ),
    (
        Plain::ScanRefused("t", 1, ScanCause::NotCovered { from: 0, to: 3 }),
        "a refusal: refused scan t not covered 0..3\n",
    ),
    (
        Plain::ExplainRefused("t", 512, ScanCause::UnknownName),
        "a refusal: refused explain t unknown name version 512\n",
    ),
    (
        Plain::ExplainRefused("t", 1, ScanCause::EmptyRange { from: 5, to: 5 }),
        "a refusal: refused explain t empty range 5..5\n",
    ),
    (
        Plain::ExplainRefused("t", 1, ScanCause::NotCovered { from: 2, to: 3 }),
        "a refusal: refused explain t not covered 2..3\n",
    ),
];

/// Whole reports: none, one with two lanes, one with a refused statement in a lane and a boundary that was found later.
pub const REPORTS: &[(&[Plain], &str)] = &[
    (&[], ""),
    (
        &[
            Plain::Created,
            Plain::Statement(0, 0),
            Plain::Registered("t", 0, 0),
            Plain::Lanes(0, 2),
            Plain::Lane(1),
            Plain::Ingested("b", 1, 0),
            Plain::Scanned(
                "t",
                "\"Push\"",
                (0, 2),
                &[0],
                &[(1, "{\"type\":\"Push\",\"n\":5}")],
            ),
            Plain::Lane(2),
            Plain::Ingested("c", 1, 0),
            Plain::End,
            Plain::Statement(2, 2),
            Plain::Scanned(
                "t",
                "\"Push\"",
                (0, 2),
                &[],
                &[
                    (1, "{\"type\":\"Push\",\"n\":5}"),
                    (0, "{\"type\":\"Push\",\"n\":6}"),
                ],
            ),
            Plain::Closed(2),
        ],
        "created\nregistered t id 0 from 0\nlanes 0..2\nlane 1\ningested b stored 1 refused 0\n\
scan t = \"Push\" in 0..2 found 1 open 0\n1 21 {\"type\":\"Push\",\"n\":5}\nlane 2\ningested c stored 1 refused 0\nend\n\
scan t = \"Push\" in 0..2 found 2 open none\n1 21 {\"type\":\"Push\",\"n\":5}\n0 21 {\"type\":\"Push\",\"n\":6}\nclosed 2\n",
    ),
    (
        &[
            Plain::Opened(6),
            Plain::Lanes(6, 7),
            Plain::Lane(1),
            Plain::Rolling("u", 1),
            Plain::RegisterRefused("v", RegisterCause::Rolling { id: 1 }),
            Plain::Bound(1, 7),
            Plain::Lane(2),
            Plain::Lane(3),
            Plain::Ingested("a b", 1, 2),
            Plain::End,
            Plain::Statement(7, 7),
            Plain::Checkpointed(7),
            Plain::Closed(7),
        ],
        "opened 6\nlanes 6..7\nlane 1\nregistered u id 1 rolling\nrefused register v rolling id 1\nbound id 1 from 7\n\
lane 2\nlane 3\ningested \"a b\" stored 1 refused 2\nend\ncheckpoint 7\nclosed 7\n",
    ),
];

/// Whether an item is a refusal, and the text of it alone.
fn told(alloc: Global, plain: &Plain) -> Result<String, AllocError> {
    let item = item_of(alloc, plain)?;
    let kind = if item.is_refusal() {
        "a refusal: "
    } else {
        "no refusal: "
    };
    let mut text = String::from_str(alloc, kind)?;
    let pushed = push_item(alloc, &mut text, &item);
    drop(item);
    match pushed {
        Ok(()) => Ok(text),
        Err(error) => Err(error),
    }
}

/// The text of a report.
fn report_told(alloc: Global, plain: &&[Plain]) -> Result<String, AllocError> {
    let mut items = Items::new(alloc);
    let put = put_items(alloc, &mut items, plain);
    let report = Report { items };
    let text = report_text(alloc, &report);
    drop(report);
    match put {
        Ok(()) => String::from_str(alloc, text?.as_str()),
        Err(error) => Err(error),
    }
}

#[test]
fn names_of_files(rt: HostRuntime) -> Result<(), Fail> {
    expect_all(&rt, rt.alloc(), NAMES, told)?;
    Ok(())
}

#[test]
fn items_of_what_was_done(rt: HostRuntime) -> Result<(), Fail> {
    expect_all(&rt, rt.alloc(), DONE, told)?;
    Ok(())
}

#[test]
fn scans_and_plans(rt: HostRuntime) -> Result<(), Fail> {
    expect_all(&rt, rt.alloc(), SCANS, told)?;
    Ok(())
}

#[test]
fn refusals(rt: HostRuntime) -> Result<(), Fail> {
    expect_all(&rt, rt.alloc(), REFUSALS, told)?;
    Ok(())
}

#[test]
fn whole_reports(rt: HostRuntime) -> Result<(), Fail> {
    expect_all(&rt, rt.alloc(), REPORTS, report_told)?;
    Ok(())
}
