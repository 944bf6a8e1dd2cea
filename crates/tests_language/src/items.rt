//! Items of a report by plain values, so that a table can hold them.

ghost use Rattle.std.specs.Prelude.{◌≤◌};

use fish_catalog::{Interval, Intervals};
use fish_plan::{Plan, full, plan};
use fish_report::{DeregisterCause, Item, Items, RegisterCause, ScanCause};
use fish_value::{Numbers, Row, Rows, Text, Value, read_value};
use std::alloc::{AllocError, Global};

/// Rows by their number and payload.
pub type Found = &'static [(u32, &'static str)];

/// The intervals in which an index holds, by the id of its row, where it begins and where it ends.
pub type Held = &'static [(u16, u32, Option<u32>)];

/// An item. Names stand before numbers, a value is written as a user writes it, and a plan is that of a range, with where
/// the log is settled in the middle. What is kept and never printed is the same in all.
#[derive(Clone, Copy)]
pub enum Plain {
    Select(Found, u64, u64),
    SelectTooLong(&'static str),
    Created,
    Opened(u32),
    Statement(u32, u32),
    Lanes(u32, u32),
    Lane(u8),
    End,
    Registered(&'static str, u16, u32),
    Rolling(&'static str, u16),
    Bound(u16, u32),
    Deregistered(&'static str, u16, u32),
    Ingested(&'static str, u32, u32),
    Scanned(&'static str, &'static str, (u32, u32), &'static [u32], Found),
    Explained(&'static str, &'static str, (u32, u32, u32), Held),
    Checkpointed(u32),
    Closed(u32),
    RegisterRefused(&'static str, RegisterCause),
    DeregisterRefused(&'static str, DeregisterCause),
    IngestFull(&'static str, (u64, u64, u64), u32, u32),
    IngestTooLong(&'static str, u32, u32),
    ScanRefused(&'static str, u16, ScanCause),
    ExplainRefused(&'static str, u16, ScanCause),
}

/// The item.
pub fn item_of(alloc: Global, plain: &Plain) -> Result<Item, AllocError> {
    match *plain {
        Plain::Select(found, count, refused) => selection(alloc, found, count, refused),
        Plain::SelectTooLong(file) => select_too_long(alloc, file),
        Plain::Created => Ok(Item::Created),
        Plain::Opened(count) => Ok(Item::Opened { count }),
        Plain::Statement(from, to) => Ok(Item::Statement { from, to }),
        Plain::Lanes(from, to) => Ok(Item::Lanes { from, to }),
        Plain::Lane(number) => Ok(Item::Lane { number }),
        Plain::End => Ok(Item::End),
        Plain::Registered(name, id, from) => registered(alloc, name, id, from),
        Plain::Rolling(name, id) => rolling(alloc, name, id),
        Plain::Bound(id, from) => Ok(Item::Bound { id, from }),
        Plain::Deregistered(name, id, to) => deregistered(alloc, name, id, to),
        Plain::Ingested(file, stored, refused) => ingested(alloc, file, stored, refused),
        Plain::Scanned(name, value, range, opens, found) => {
            scanned(alloc, name, value, range, opens, found)
        }
        Plain::Explained(name, value, range, held) => explained(alloc, name, value, range, held),
        Plain::Checkpointed(count) => Ok(Item::Checkpointed { count }),
        Plain::Closed(count) => Ok(Item::Closed { count }),
        Plain::RegisterRefused(name, cause) => register_refused(alloc, name, cause),
        Plain::DeregisterRefused(name, cause) => deregister_refused(alloc, name, cause),
        Plain::IngestFull(file, shut, stored, refused) => {
            ingest_full(alloc, file, shut, stored, refused)
        }
        Plain::IngestTooLong(file, stored, refused) => {
            ingest_too_long(alloc, file, stored, refused)
        }
        Plain::ScanRefused(name, version, cause) => scan_refused(alloc, name, version, cause),
        Plain::ExplainRefused(name, version, cause) => explain_refused(alloc, name, version, cause),
    }
}

/// Puts items after the others.
pub fn put_items(alloc: Global, items: &mut Items, plain: &[Plain]) -> Result<(), AllocError> {
    for one in plain {
        let item = item_of(alloc, one)?;
        items.push(item)?;
    }
    Ok(())
}

fn rows_of(alloc: Global, found: &[(u32, &str)]) -> Result<Rows, AllocError> {
    let mut rows = Rows::new(alloc);
    for &(number, payload) in found {
        let payload = Text::copy_of(alloc, payload)?;
        rows.push(Row { number, payload })?;
    }
    Ok(rows)
}

fn numbers_of(alloc: Global, opens: &[u32]) -> Result<Numbers, AllocError> {
    let mut numbers = Numbers::new(alloc);
    for number in opens {
        numbers.push(*number)?;
    }
    Ok(numbers)
}

/// The value that is written so, or `false` where it is none.
fn value_of(alloc: Global, text: &str) -> Result<Value, AllocError> {
    match read_value(alloc, text.as_bytes())? {
        Some(value) => Ok(value),
        None => Ok(Value::Bool(false)),
    }
}

fn intervals_of(alloc: Global, held: &[(u16, u32, Option<u32>)]) -> Result<Intervals, AllocError> {
    let mut intervals = Intervals::new(alloc);
    for &(id, from, to) in held {
        intervals.push(Interval { id, from, to })?;
    }
    Ok(intervals)
}

fn plan_of(alloc: Global, range: (u32, u32, u32), held: Held) -> Result<Plan, AllocError> {
    let (from, settled, to) = range;
    let intervals = intervals_of(alloc, held)?;
    if from <= to {
        plan(alloc, from, settled, to, intervals.as_slice())
    } else {
        full(alloc, from, to)
    }
}

fn selection(
    alloc: Global,
    found: &[(u32, &str)],
    count: u64,
    refused: u64,
) -> Result<Item, AllocError> {
    Ok(Item::Select {
        rows: rows_of(alloc, found)?,
        count,
        refused,
    })
}

fn select_too_long(alloc: Global, file: &str) -> Result<Item, AllocError> {
    Ok(Item::SelectTooLong {
        file: Text::copy_of(alloc, file)?,
    })
}

fn registered(alloc: Global, name: &str, id: u16, from: u32) -> Result<Item, AllocError> {
    let def = Text::copy_of(alloc, "take type")?;
    let name = Text::copy_of(alloc, name)?;
    Ok(Item::Registered {
        name,
        id,
        from,
        def,
    })
}

fn rolling(alloc: Global, name: &str, id: u16) -> Result<Item, AllocError> {
    let def = Text::copy_of(alloc, "take type")?;
    let name = Text::copy_of(alloc, name)?;
    Ok(Item::Rolling {
        name,
        id,
        def,
        seat: 3,
        version: 11,
    })
}

fn deregistered(alloc: Global, name: &str, id: u16, to: u32) -> Result<Item, AllocError> {
    Ok(Item::Deregistered {
        name: Text::copy_of(alloc, name)?,
        id,
        to,
    })
}

fn ingested(alloc: Global, file: &str, stored: u32, refused: u32) -> Result<Item, AllocError> {
    Ok(Item::Ingested {
        file: Text::copy_of(alloc, file)?,
        stored,
        refused,
    })
}

fn scanned(
    alloc: Global,
    name: &str,
    value: &str,
    range: (u32, u32),
    opens: &[u32],
    found: &[(u32, &str)],
) -> Result<Item, AllocError> {
    let (from, to) = range;
    let opens = numbers_of(alloc, opens)?;
    let rows = rows_of(alloc, found)?;
    let name = Text::copy_of(alloc, name)?;
    let value = value_of(alloc, value)?;
    Ok(Item::Scanned {
        name,
        value,
        from,
        to,
        opens,
        rows,
        version: 11,
    })
}

fn explained(
    alloc: Global,
    name: &str,
    value: &str,
    range: (u32, u32, u32),
    held: Held,
) -> Result<Item, AllocError> {
    let plan = plan_of(alloc, range, held)?;
    let name = Text::copy_of(alloc, name)?;
    let value = value_of(alloc, value)?;
    Ok(Item::Explained {
        name,
        value,
        from: range.0,
        to: range.2,
        plan,
        version: 11,
    })
}

fn register_refused(alloc: Global, name: &str, cause: RegisterCause) -> Result<Item, AllocError> {
    Ok(Item::RegisterRefused {
        name: Text::copy_of(alloc, name)?,
        cause,
    })
}

fn deregister_refused(
    alloc: Global,
    name: &str,
    cause: DeregisterCause,
) -> Result<Item, AllocError> {
    Ok(Item::DeregisterRefused {
        name: Text::copy_of(alloc, name)?,
        cause,
    })
}

fn ingest_full(
    alloc: Global,
    file: &str,
    shut: (u64, u64, u64),
    stored: u32,
    refused: u32,
) -> Result<Item, AllocError> {
    let (line, lines, end) = shut;
    Ok(Item::IngestFull {
        file: Text::copy_of(alloc, file)?,
        line,
        lines,
        end,
        stored,
        refused,
    })
}

fn ingest_too_long(
    alloc: Global,
    file: &str,
    stored: u32,
    refused: u32,
) -> Result<Item, AllocError> {
    Ok(Item::IngestTooLong {
        file: Text::copy_of(alloc, file)?,
        stored,
        refused,
    })
}

fn scan_refused(
    alloc: Global,
    name: &str,
    version: u16,
    cause: ScanCause,
) -> Result<Item, AllocError> {
    Ok(Item::ScanRefused {
        name: Text::copy_of(alloc, name)?,
        version,
        cause,
    })
}

fn explain_refused(
    alloc: Global,
    name: &str,
    version: u16,
    cause: ScanCause,
) -> Result<Item, AllocError> {
    Ok(Item::ExplainRefused {
        name: Text::copy_of(alloc, name)?,
        version,
        cause,
    })
}
