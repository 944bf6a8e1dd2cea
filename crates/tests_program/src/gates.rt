//! Lanes that a gate holds: one scans while the record of another has its number and isn't published yet. So the two
//! run at once, and what the scan tells doesn't depend on who comes first. The first lane is the control pass's; the
//! others have threads of their own, and run beside each other too.

use crate::expecting::{expect, expect_text};
use crate::holds::{Hold, HoldGate};
use crate::outside::{content_in, disk_of, host_of, sink_of, words_of};
use fish_disk::MemoryDisk;
use fish_lanes::Point;
use fish_outside::{MemoryHost, MemorySink};
use fish_program::run_gated;
use std::alloc::{AllocError, Global};
use std::process::Abort;
use std::test::Fail;
use std::thread::Threads;

/// A record for each of the lanes.
const FILES: &[(&str, &str)] = &[
    ("b", "{\"type\":\"Push\",\"n\":5}\n"),
    ("c", "{\"type\":\"Push\",\"n\":6}\n"),
];

/// Two lanes, after a registration and before a scan.
const TWO: &str = "register t as take type\n\
lanes\n\
lane\n\
ingest json b\n\
scan t = \"Push\"\n\
lane\n\
ingest json c\n\
end\n\
scan t = \"Push\"\n";

/// What they tell: the record of the second lane has number 0, and it is open as the first one scans.
const TWO_WRITTEN: &str = "0 fault none false 2\n\
created\n\
registered t id 0 from 0\n\
lanes 0..2\n\
lane 1\n\
ingested b stored 1 refused 0\n\
scan t = \"Push\" in 0..2 found 1 open 0\n\
1 21 {\"type\":\"Push\",\"n\":5}\n\
lane 2\n\
ingested c stored 1 refused 0\n\
end\n\
scan t = \"Push\" in 0..2 found 2 open none\n\
1 21 {\"type\":\"Push\",\"n\":5}\n\
0 21 {\"type\":\"Push\",\"n\":6}\n\
closed 2\n";

/// The first lane waits before its first statement after the registration until the second one has claimed, and
/// the second one waits there until the first one has scanned.
const TWO_HOLDS: &[Hold] = &[
    Hold {
        lane: 1,
        at: Point::Before(0),
        passes: 1,
        other: 2,
        until: Point::Claimed,
    },
    Hold {
        lane: 2,
        at: Point::Claimed,
        passes: 0,
        other: 1,
        until: Point::After(1),
    },
];

/// Three lanes, the last of which scans while the record of the second is in flight.
const THREE: &str = "register t as take type\n\
lanes\n\
lane\n\
scan t = \"Push\"\n\
lane\n\
ingest json b\n\
lane\n\
scan t = \"Push\"\n\
end\n";

/// What they tell: the record is open as the third lane scans, and published as the first one does.
const THREE_WRITTEN: &str = "0 fault none false 1\n\
created\n\
registered t id 0 from 0\n\
lanes 0..1\n\
lane 1\n\
scan t = \"Push\" in 0..1 found 1 open none\n\
0 21 {\"type\":\"Push\",\"n\":5}\n\
lane 2\n\
ingested b stored 1 refused 0\n\
lane 3\n\
scan t = \"Push\" in 0..1 found 0 open 0\n\
end\n\
closed 1\n";

/// The third lane waits until the second one has claimed, which waits there until the third one has scanned; the
/// first one waits until the second one is done.
const THREE_HOLDS: &[Hold] = &[
    Hold {
        lane: 3,
        at: Point::Before(0),
        passes: 0,
        other: 2,
        until: Point::Claimed,
    },
    Hold {
        lane: 2,
        at: Point::Claimed,
        passes: 0,
        other: 3,
        until: Point::After(0),
    },
    Hold {
        lane: 1,
        at: Point::Before(0),
        passes: 1,
        other: 2,
        until: Point::After(0),
    },
];

/// Scripts with the holds of their lanes, and what they write.
const ROWS: &[(&str, &[Hold], &str)] = &[
    (TWO, TWO_HOLDS, TWO_WRITTEN),
    (THREE, THREE_HOLDS, THREE_WRITTEN),
];

/// A gate of holds.
fn gate_of(alloc: Global, holds: &[Hold]) -> Result<HoldGate, AllocError> {
    let mut gate = HoldGate::new(alloc);
    for hold in holds {
        gate.add(*hold)?;
    }
    Ok(gate)
}

/// Runs a script on one page, held by a gate, and tells how it ended.
fn ended_by<R: Threads + Sync>(
    rt: &R,
    alloc: Global,
    host: &mut MemoryHost,
    disk: &mut MemoryDisk,
    out: &mut MemorySink,
    gate: &HoldGate,
) -> Result<String, AllocError> {
    let words = words_of(alloc, "run|store|script|--pages|1|")?;
    let outcome = run_gated(rt, alloc, words.as_slice(), host, disk, out, gate);
    content_in(alloc, &outcome, out)
}

/// Asserts what a script tells, and that each lane came to where another one waited for it.
fn expect_ran<R: Threads + Sync + Abort>(
    rt: &R,
    alloc: Global,
    row: &(&str, &[Hold], &str),
) -> Result<(), AllocError> {
    let (script, holds, written) = *row;
    let gate = gate_of(alloc, holds)?;
    let mut host = host_of(alloc, script, FILES, None)?;
    let mut disk = disk_of(alloc, b"", None)?;
    let mut out = sink_of(alloc, None)?;
    let found = ended_by(rt, alloc, &mut host, &mut disk, &mut out, &gate)?;
    expect_text(rt, script, found.as_str(), written);
    expect(rt, "let go", &gate.let_go(), &0);
    Ok(())
}

#[test]
fn a_lane_scans_while_a_record_of_another_is_in_flight(rt: HostRuntime) -> Result<(), Fail> {
    for row in ROWS {
        expect_ran(&rt, rt.alloc(), row)?;
    }
    Ok(())
}
