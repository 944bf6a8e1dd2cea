//! What the lanes of a block say over its rounds.

ghost use Rattle.std.specs.Prelude.{◌≡◌, ◌++◌, ◌∷◌, [], Bool, false, true, reverse, None, IfOk, IfSome, OnOk};
ghost use Rattle.fish_lanes.specs.Controlling.{bound_items};
ghost use Rattle.fish_report.specs.declared.item.Item.{Item};
ghost use Rattle.fish_run.specs.Joins.{first_joined, is_part, joined_items, nothing_said, said_after, sum_of};
ghost use Rattle.fish_run.specs.Joins.{with_more};
ghost use Rattle.fish_run.specs.within.Saying.{TakesPart};

use fish_lanes::{Boundary, Lane};
use fish_report::{Item, Items};
use std::alloc::{AllocError, Global};
use std::marker::Model;

/// Items in order, of which the last may be taken away.
#[derive(Drop)]
pub(crate) struct ItemList {
    items: Vec<Item>,
}

impl Model for ItemList {
    ghost use Rattle.std.specs.Prelude.{List};
    ghost use Rattle.fish_report.specs.declared.item.Item.{Item};

    ghost Value = { List Item };

    ghost view = { λ s. s.items.items };
}

/// How many records of a file are stored, and how many of its lines are none.
#[derive(Clone, Copy)]
pub(crate) struct Counted {
    pub stored: u32,
    pub refused: u32,
}

/// What a lane says.
#[derive(Drop)]
pub(crate) struct Said {
    /// Its number.
    pub number: u8,
    pub items: ItemList,
}

impl ItemList {
    /// No item.
    fn new(alloc: Global) -> ItemList
        ensures { result ≡ [] }
    {
        ItemList {
            items: Vec::new(alloc),
        }
    }

    /// The items.
    pub(crate) fn as_slice(&self) -> &[Item]
        ensures { result.now ≡ self.now }
    {
        self.items.as_slice()
    }

    /// Puts an item after the others.
    fn push(&mut self, item: Item) -> Result<(), AllocError>
        ensures { OnOk result (self.new ≡ self.old ++ item ∷ []) }
    {
        self.items.push(item)?;
        Ok(())
    }

    /// Takes away the last item where it is of a file that may go on.
    fn take_part(&mut self) -> Result<Option<Item>, AllocError>
        ensures { IfOk result (λ part. (fresh : Bool) → TakesPart fresh self.old self.new part) }
    {
        let Some(last) = self.items.pop() else {
            return Ok(None);
        };
        if is_part(&last) {
            return Ok(Some(last));
        }
        self.push(last)?;
        Ok(None)
    }

    /// Puts items after the others, the last of which comes first here.
    fn push_all(&mut self, mut reversed: Vec<Item>) -> Result<(), AllocError>
        ensures { OnOk result (self.new ≡ self.old ++ reverse reversed.items) }
    {
        while let Some(item) = reversed.pop() {
            self.push(item)?;
        }
        Ok(())
    }
}

/// Whether an item is of a file that may go on.
fn is_part(item: &Item) -> bool
    ensures { result ≡ is_part item.now }
{
    match item {
        Item::Ingested { .. } => true,
        Item::IngestFull { .. } => true,
        _ => false,
    }
}

/// The counts of the first parts of a file to which those of the next one are added.
fn counts_of(fresh: bool, part: &Item) -> Option<Counted>
    ensures none { result ≡ None → (y : Item) → joined_items fresh part.now y ≡ part.now }
    ensures some { IfSome result (λ c. (y : Item) → joined_items fresh part.now y ≡ with_more c.stored c.refused y) }
{
    match part {
        Item::Ingested {
            stored,
            refused,
            ..
        } => Some(Counted {
            stored: *stored,
            refused: *refused,
        }),
        Item::IngestFull {
            stored,
            refused,
            ..
        } => counts_of_full(fresh, *stored, *refused),
        _ => None,
    }
}

/// The counts of a part that found the table full: none where no new one was begun.
fn counts_of_full(fresh: bool, stored: u32, refused: u32) -> Option<Counted>
    ensures none { result ≡ None → fresh ≡ false }
    ensures some { IfSome result (λ c. (fresh ≡ true) × (c ≡ record { stored = stored; refused = refused })) }
{
    if fresh {
        Some(Counted { stored, refused })
    } else {
        None
    }
}

/// The item of the first parts of a file and that of the next one, in one.
fn joined(fresh: bool, part: Item, item: Item) -> Item
    ensures { result ≡ joined_items fresh part item }
{
    match counts_of(fresh, &part) {
        Some(counted) => {
            drop(part);
            with_more(counted, item)
        }
        None => {
            drop(item);
            part
        }
    }
}

/// Counts that are added up, up to the greatest of 32 bits: a file of the greatest length can have more lines that are
/// none.
fn sum_of(a: u32, b: u32) -> u32
    ensures { result ≡ sum_of a b }
{
    a.saturating_add(b)
}

/// An item of the rest of a file, told of the whole of it.
fn with_more(counted: Counted, item: Item) -> Item
    ensures { result ≡ with_more counted.stored counted.refused item }
{
    match item {
        Item::Ingested {
            file,
            stored,
            refused,
        } => Item::Ingested {
            file,
            stored: sum_of(counted.stored, stored),
            refused: sum_of(counted.refused, refused),
        },
        Item::IngestFull {
            file,
            line,
            lines,
            end,
            stored,
            refused,
        } => Item::IngestFull {
            file,
            line,
            lines,
            end,
            stored: sum_of(counted.stored, stored),
            refused: sum_of(counted.refused, refused),
        },
        Item::IngestTooLong {
            file,
            stored,
            refused,
        } => Item::IngestTooLong {
            file,
            stored: sum_of(counted.stored, stored),
            refused: sum_of(counted.refused, refused),
        },
        other => other,
    }
}

/// What a lane says in a round, after what it said before and a boundary that was found in between; where it goes on
/// with the file of its last item, its first one is told in that.
pub(crate) fn say(
    said: &mut ItemList,
    fresh: bool,
    goes: bool,
    bound: Option<Boundary>,
    items: Items,
) -> Result<(), AllocError>
    ensures { OnOk result (said.new ≡ said_after fresh goes said.old (bound_items bound) items) }
{
    if !goes {
        return say_apart(said, bound, items);
    }
    match said.take_part() {
        Ok(Some(part)) => say_joined(said, fresh, part, bound, items),
        Ok(None) => say_apart(said, bound, items),
        Err(lost) => {
            drop(items);
            Err(lost)
        }
    }
}

/// Puts a boundary and items after the others.
fn say_apart(said: &mut ItemList, bound: Option<Boundary>, items: Items) -> Result<(), AllocError>
    ensures { OnOk result (said.new ≡ said.old ++ (bound_items bound ++ items)) }
{
    match push_bound(said, bound) {
        Ok(()) => {
            let mut rest = items.into_vec();
            rest.reverse();
            said.push_all(rest)
        }
        Err(lost) => {
            drop(items);
            Err(lost)
        }
    }
}

/// Puts a boundary and items after the others, with an item of the first parts of a file in the first of them.
fn say_joined(
    said: &mut ItemList,
    fresh: bool,
    part: Item,
    bound: Option<Boundary>,
    items: Items,
) -> Result<(), AllocError>
    ensures { OnOk result (said.new ≡ said.old ++ (bound_items bound ++ first_joined fresh part items)) }
{
    match push_bound(said, bound) {
        Ok(()) => {
            let mut rest = items.into_vec();
            rest.reverse();
            push_joined(said, fresh, part, &mut rest)?;
            said.push_all(rest)
        }
        Err(lost) => {
            drop((part, items));
            Err(lost)
        }
    }
}

/// Puts a boundary after the others, if one was found.
fn push_bound(said: &mut ItemList, bound: Option<Boundary>) -> Result<(), AllocError>
    ensures { OnOk result (said.new ≡ said.old ++ bound_items bound) }
{
    match bound {
        Some(bound) => said.push(Item::Bound {
            id: bound.id,
            from: bound.from,
        }),
        None => Ok(()),
    }
}

/// Puts an item after the others, with the first of items whose last comes first here.
fn push_joined(
    said: &mut ItemList,
    fresh: bool,
    part: Item,
    reversed: &mut Vec<Item>,
) -> Result<(), AllocError>
    ensures { OnOk result (said.new ++ reverse reversed.new.items
        ≡ said.old ++ first_joined fresh part (reverse reversed.old.items)) }
{
    match reversed.pop() {
        Some(first) => said.push(joined(fresh, part, first)),
        None => said.push(part),
    }
}

/// Lanes that have said nothing.
pub(crate) fn say_nothing(alloc: Global, lanes: &[Lane]) -> Result<Vec<Said>, AllocError>
    ensures { IfOk result (λ said. said.items ≡ nothing_said lanes.now) }
{
    let mut said = Vec::new(alloc);
    for lane in lanes {
        said.push(Said {
            number: lane.number,
            items: ItemList::new(alloc),
        })?;
    }
    Ok(said)
}
