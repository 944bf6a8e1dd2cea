//! The texts of what was done, by statement.

ghost use Rattle.std.specs.Prelude.{◌≡◌, ◌++◌, codes, OnOk, string_bytes};
ghost use Rattle.fish_report.specs.StatementText.{bound_text, count_text, deregistered_text, explain_text, found_text};
ghost use Rattle.fish_report.specs.StatementText.{ingested_text, lanes_text, plan_text, question_text, registered_text};
ghost use Rattle.fish_report.specs.StatementText.{rolling_text, scan_text, select_line};

use crate::parts::{file_name, push_numbers, push_pieces};
use fish_plan::Plan;
use fish_value::{Numbers, Text, Value, print_value};
use std::alloc::{AllocError, Global};

/// Puts the line of a selection after the others.
#[tactic(auto, unfolding(crate::specs::StatementText::select_line))]
pub(crate) fn push_select(
    text: &mut String,
    found: usize,
    count: u64,
    refused: u64,
) -> Result<(), AllocError>
    ensures { OnOk result
        (string_bytes text.new ≡ string_bytes text.old ++ select_line found count refused) }
{
    write!(text, "select found {found} of {count} refused {refused}\n")
}

/// Puts a line of a word and a number after the others.
#[tactic(auto, unfolding(crate::specs::StatementText::count_text))]
pub(crate) fn push_count(text: &mut String, word: &str, count: u32) -> Result<(), AllocError>
    ensures { OnOk result
        (string_bytes text.new ≡ string_bytes text.old ++ count_text word.now count) }
{
    write!(text, "{word} {count}\n")
}

/// Puts the head of a lane after the others.
#[tactic(auto, unfolding(crate::specs::StatementText::count_text))]
pub(crate) fn push_lane(text: &mut String, number: u8) -> Result<(), AllocError>
    ensures { OnOk result
        (string_bytes text.new ≡ string_bytes text.old ++ count_text (codes "lane") number) }
{
    write!(text, "lane {number}\n")
}

/// Puts the head of a block by `lanes` after the others.
#[tactic(auto, unfolding(crate::specs::StatementText::lanes_text, crate::specs::Parts::range_text))]
pub(crate) fn push_lanes(text: &mut String, from: u32, to: u32) -> Result<(), AllocError>
    ensures { OnOk result (string_bytes text.new ≡ string_bytes text.old ++ lanes_text from to) }
{
    write!(text, "lanes {from}..{to}\n")
}

/// Puts the line of a registration with its boundary after the others.
#[tactic(auto, unfolding(crate::specs::StatementText::registered_text))]
pub(crate) fn push_registered(
    text: &mut String,
    name: &Text,
    id: u16,
    from: u32,
) -> Result<(), AllocError>
    ensures { OnOk result
        (string_bytes text.new ≡ string_bytes text.old ++ registered_text name.now id from) }
{
    write!(text, "registered {} id {id} from {from}\n", name.as_str())
}

/// Puts the line of a registration without its boundary after the others.
#[tactic(auto, unfolding(crate::specs::StatementText::rolling_text))]
pub(crate) fn push_rolling(text: &mut String, name: &Text, id: u16) -> Result<(), AllocError>
    ensures { OnOk result
        (string_bytes text.new ≡ string_bytes text.old ++ rolling_text name.now id) }
{
    write!(text, "registered {} id {id} rolling\n", name.as_str())
}

/// Puts the line of a boundary that was found after the others.
#[tactic(auto, unfolding(crate::specs::StatementText::bound_text))]
pub(crate) fn push_bound(text: &mut String, id: u16, from: u32) -> Result<(), AllocError>
    ensures { OnOk result (string_bytes text.new ≡ string_bytes text.old ++ bound_text id from) }
{
    write!(text, "bound id {id} from {from}\n")
}

/// Puts the line of a deregistration after the others.
#[tactic(auto, unfolding(crate::specs::StatementText::deregistered_text))]
pub(crate) fn push_deregistered(
    text: &mut String,
    name: &Text,
    id: u16,
    to: u32,
) -> Result<(), AllocError>
    ensures { OnOk result
        (string_bytes text.new ≡ string_bytes text.old ++ deregistered_text name.now id to) }
{
    write!(text, "deregistered {} id {id} to {to}\n", name.as_str())
}

/// Puts the line of a file that was stored after the others.
#[tactic(auto, unfolding(crate::specs::StatementText::ingested_text, crate::specs::Parts::counts_text))]
pub(crate) fn push_ingested(
    alloc: Global,
    text: &mut String,
    file: &Text,
    stored: u32,
    refused: u32,
) -> Result<(), AllocError>
    ensures { OnOk result
        (string_bytes text.new ≡ string_bytes text.old ++ ingested_text file.now stored refused) }
{
    let file = file_name(alloc, file)?;
    write!(
        text,
        "ingested {} stored {stored} refused {refused}\n",
        file.as_str()
    )
}

/// Puts what a scan was asked after the others.
#[tactic(auto, unfolding(crate::specs::StatementText::scan_text))]
pub(crate) fn push_scan(
    alloc: Global,
    text: &mut String,
    name: &Text,
    value: &Value,
    from: u32,
    to: u32,
) -> Result<(), AllocError>
    ensures { OnOk result
        (string_bytes text.new ≡ string_bytes text.old ++ scan_text name.now value.now from to) }
{
    text.push_str("scan ")?;
    push_question(alloc, text, name, value, from, to)
}

/// Puts what an `explain` was asked after the others.
#[tactic(auto, unfolding(crate::specs::StatementText::explain_text))]
pub(crate) fn push_explain(
    alloc: Global,
    text: &mut String,
    name: &Text,
    value: &Value,
    from: u32,
    to: u32,
) -> Result<(), AllocError>
    ensures { OnOk result
        (string_bytes text.new ≡ string_bytes text.old ++ explain_text name.now value.now from to) }
{
    text.push_str("explain ")?;
    push_question(alloc, text, name, value, from, to)
}

/// Puts a name, a value and a range after the others.
#[tactic(auto, unfolding(crate::specs::StatementText::question_text, crate::specs::Parts::range_text))]
fn push_question(
    alloc: Global,
    text: &mut String,
    name: &Text,
    value: &Value,
    from: u32,
    to: u32,
) -> Result<(), AllocError>
    ensures { OnOk result
        (string_bytes text.new ≡ string_bytes text.old ++ question_text name.now value.now from to) }
{
    let value = print_value(alloc, value)?;
    write!(
        text,
        "{} = {} in {from}..{to}",
        name.as_str(),
        value.as_str()
    )
}

/// Puts what a scan found after the others: the rest of its line.
pub(crate) fn push_found(text: &mut String, found: usize, opens: &Numbers) -> Result<(), AllocError>
    ensures { OnOk result
        (string_bytes text.new ≡ string_bytes text.old ++ found_text found opens.now) }
{
    write!(text, " found {found} open ")?;
    push_numbers(text, opens.as_slice())?;
    text.push_str("\n")?;
    Ok(())
}

/// Puts the pieces of a plan after the others: the rest of the line of an `explain`.
pub(crate) fn push_plan(text: &mut String, plan: &Plan) -> Result<(), AllocError>
    ensures { OnOk result (string_bytes text.new ≡ string_bytes text.old ++ plan_text plan.now) }
{
    text.push_str(": ")?;
    push_pieces(text, plan.pieces())?;
    text.push_str("\n")?;
    Ok(())
}
