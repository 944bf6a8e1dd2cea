//! The text of a sample: what its scans counted.

ghost use Rattle.std.specs.Prelude.{◌≡◌, ◌++◌, IfOk, OnOk, string_bytes};
ghost use Rattle.fish_sample.specs.within.Items.{item_line, items_text};
ghost use Rattle.fish_sample.specs.Sample.{count_line};

use fish_report::Item;
use fish_value::{Text, Value, print_value};
use std::alloc::{AllocError, Global};

/// The summary of a sample of so many records, by the items of its scans.
pub(crate) fn summary_of(alloc: Global, number: u32, items: &[Item]) -> Result<Text, AllocError>
    ensures { IfOk result (λ text. text ≡ items_text number items.now) }
{
    let mut text = String::new(alloc);
    write!(text, "sample {number}\n")?;
    for item in items {
        push_count(alloc, &mut text, item)?;
    }
    write!(text, "stored {number}\n")?;
    Ok(Text::from_string(text))
}

/// Puts the line of a scan after the others.
fn push_count(alloc: Global, text: &mut String, item: &Item) -> Result<(), AllocError>
    ensures { OnOk result (string_bytes text.new ≡ string_bytes text.old ++ item_line item.now) }
{
    match item {
        Item::Scanned {
            name,
            value,
            rows,
            ..
        } => push_line(alloc, text, name, value, rows.len()),
        _ => Ok(()),
    }
}

/// Puts a line of a name, a value and a count after the others.
fn push_line(
    alloc: Global,
    text: &mut String,
    name: &Text,
    value: &Value,
    count: usize,
) -> Result<(), AllocError>
    ensures { OnOk result (string_bytes text.new ≡ string_bytes text.old ++ count_line name.now value.now count) }
{
    let printed = print_value(alloc, value)?;
    let name = name.as_str();
    let value = printed.as_str();
    write!(text, "{name} {value} {count}\n")
}
