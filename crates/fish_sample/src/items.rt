//! What the items of a sample's lanes have to be.

ghost use Rattle.std.specs.Prelude.{◌≡◌, [], IsTrue};
ghost use Rattle.std.specs.List.{list_all};
ghost use Rattle.fish_sample.specs.within.Items.{is_all_stored, is_registered, is_scanned, is_stored, is_whole_lane};

use fish_lanes::{Lane, LaneFault};
use fish_report::Item;

/// Whether lanes met no fault, and hand nothing back.
pub(crate) fn are_whole(lanes: &[Lane]) -> bool
    ensures { result ≡ list_all is_whole_lane lanes.now }
{
    lanes.iter().all(|lane| is_whole(lane))
}

/// Whether a lane met no fault, and hands nothing back.
fn is_whole(lane: &Lane) -> bool
    ensures { result ≡ is_whole_lane lane.now }
{
    lane.fault == LaneFault::None && lane.left.len() == 0
}

/// Whether each item says that a definition was registered, and where its index begins.
pub(crate) fn are_registered(items: &[Item]) -> bool
    ensures { result ≡ list_all is_registered items.now }
{
    items.iter().all(|item| is_registered(item))
}

/// Whether an item says that a definition was registered, and where its index begins.
fn is_registered(item: &Item) -> bool
    ensures { result ≡ is_registered item.now }
{
    matches!(item, Item::Registered { .. })
}

/// Whether the items of each lane say that files were stored of which each line is a record.
pub(crate) fn are_stored(lanes: &[Lane]) -> bool
    ensures { result ≡ list_all is_all_stored lanes.now }
{
    lanes
        .iter()
        .all(|lane| are_all_stored(lane.items.as_slice()))
}

/// Whether items say that files were stored of which each line is a record.
fn are_all_stored(items: &[Item]) -> bool
    ensures { result ≡ list_all is_stored items.now }
{
    items.iter().all(|item| is_stored(item))
}

/// Whether an item says so of one file.
fn is_stored(item: &Item) -> bool
    ensures { result ≡ is_stored item.now }
{
    match item {
        Item::Ingested { refused, .. } => *refused == 0,
        _ => false,
    }
}

/// Whether each item says what a scan found that left no number open.
pub(crate) fn are_scanned(items: &[Item]) -> bool
    ensures { result ≡ list_all is_scanned items.now }
{
    items.iter().all(|item| is_scanned(item))
}

/// Whether an item is a scan that left no number open.
fn is_scanned(item: &Item) -> bool
    ensures { result ≡ is_scanned item.now }
{
    match item {
        Item::Scanned { opens, .. } => opens.is_empty(),
        _ => false,
    }
}

/// How many records the items of lanes say are stored.
pub(crate) fn stored_by(lanes: &[Lane]) -> u32 {
    let mut stored: u32 = 0;
    for lane in lanes {
        stored = stored.saturating_add(stored_in(lane.items.as_slice()));
    }
    stored
}

/// How many those of one lane say.
fn stored_in(items: &[Item]) -> u32 {
    let mut many: u32 = 0;
    for item in items {
        if let Item::Ingested { stored, .. } = item {
            many = many.saturating_add(*stored);
        }
    }
    many
}
