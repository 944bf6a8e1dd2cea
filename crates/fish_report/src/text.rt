//! The text of a report. Each line ends by LF, and numbers are plain decimals.

ghost use Rattle.std.specs.Prelude.{◌≡◌, ◌++◌, IfOk, OnOk, string_bytes};
ghost use Rattle.fish_report.specs.ReportText.{item_text, report_text};

use crate::head::{push_head, rows_of};
use crate::item::{Item, Report};
use crate::parts::push_rows;
use fish_value::Text;
use std::alloc::{AllocError, Global};

/// The text of a report: that of its items, one after the other.
pub fn report_text(alloc: Global, r: &Report) -> Result<Text, AllocError>
    ensures { IfOk result (λ text. text ≡ report_text r.now.items) }
{
    let mut text = String::new(alloc);
    for item in r.items.as_slice() {
        push_item(alloc, &mut text, item)?;
    }
    Ok(Text::from_string(text))
}

/// Puts the text of an item after the others.
pub fn push_item(alloc: Global, text: &mut String, item: &Item) -> Result<(), AllocError>
    ensures { OnOk result (string_bytes text.new ≡ string_bytes text.old ++ item_text item.now) }
{
    push_head(alloc, text, item)?;
    push_rows(text, rows_of(item))
}
