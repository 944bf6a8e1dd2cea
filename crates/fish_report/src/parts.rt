//! The parts of an item's text: names of files, lists of numbers, rows and plans.

ghost use Rattle.std.specs.Prelude.{◌≡◌, ◌++◌, codes, decimal, IfOk, OnOk, string_bytes};
ghost use Rattle.std.specs.List.{flat_map, list_all};
ghost use Rattle.fish_report.specs.Parts.{counts_text, file_text, numbers_text, piece_text};
ghost use Rattle.fish_report.specs.Parts.{pieces_text, row_text, rows_text};

use fish_plan::Piece;
use fish_value::{Row, Text, is_bare_word, json_text};
use itoa::Buffer;
use std::alloc::{AllocError, Global};

/// The name of a file as it stands in a line: bare where it can be, else a JSON string.
#[tactic(auto, unfolding(crate::specs::Parts::file_text))]
pub(crate) fn file_name(alloc: Global, file: &Text) -> Result<Text, AllocError>
    ensures { IfOk result (λ name. name ≡ file_text file.now) }
{
    if is_bare_word(file.as_bytes()) {
        file.again(alloc)
    } else {
        json_text(alloc, file)
    }
}

/// Puts how many were stored and refused after the others, and ends the line.
#[tactic(auto, unfolding(crate::specs::Parts::counts_text))]
pub(crate) fn push_counts(text: &mut String, stored: u32, refused: u32) -> Result<(), AllocError>
    ensures { OnOk result
        (string_bytes text.new ≡ string_bytes text.old ++ counts_text stored refused) }
{
    write!(text, " stored {stored} refused {refused}\n")
}

/// Puts numbers after the others, with a comma between each two.
pub(crate) fn push_numbers(text: &mut String, numbers: &[u32]) -> Result<(), AllocError>
    ensures { OnOk result
        (string_bytes text.new ≡ string_bytes text.old ++ numbers_text numbers.now) }
{
    match numbers.split_first() {
        None => text.push_str("none"),
        Some((first, rest)) => {
            push_decimal(text, u64::from(*first))?;
            push_more_numbers(text, rest)
        }
    }
}

/// Puts numbers after the others, each after a comma.
fn push_more_numbers(text: &mut String, numbers: &[u32]) -> Result<(), AllocError>
    ensures { OnOk result
        (string_bytes text.new ≡ string_bytes text.old ++ flat_map (λ n. codes "," ++ decimal n) numbers.now) }
{
    for number in numbers {
        write!(text, ",{number}")?;
    }
    Ok(())
}

/// Puts a line for each row after the others.
pub(crate) fn push_rows(text: &mut String, rows: &[Row]) -> Result<(), AllocError>
    ensures { OnOk result
        (string_bytes text.new ≡ string_bytes text.old ++ rows_text rows.now) }
{
    for row in rows {
        push_row(text, row)?;
    }
    Ok(())
}

/// Puts the line of a row after the others.
#[tactic(auto, unfolding(crate::specs::Parts::row_text))]
pub(crate) fn push_row(text: &mut String, row: &Row) -> Result<(), AllocError>
    ensures { OnOk result (string_bytes text.new ≡ string_bytes text.old ++ row_text row.now) }
{
    push_decimal(text, u64::from(row.number))?;
    text.push_str(" ")?;
    push_decimal(text, row.payload.as_bytes().len() as u64)?;
    text.push_str(" ")?;
    text.push_str(row.payload.as_str())?;
    text.push_str("\n")
}

/// Puts a number in decimals after the others.
fn push_decimal(text: &mut String, number: u64) -> Result<(), AllocError>
    ensures { OnOk result (string_bytes text.new ≡ string_bytes text.old ++ decimal number) }
{
    let mut digits = Buffer::new();
    text.push_str(digits.format(number))
}

/// Puts the pieces of a plan after the others, with a blank between each two.
pub(crate) fn push_pieces(text: &mut String, pieces: &[Piece]) -> Result<(), AllocError>
    ensures { OnOk result
        (string_bytes text.new ≡ string_bytes text.old ++ pieces_text pieces.now) }
{
    match pieces.split_first() {
        None => text.push_str("none"),
        Some((first, rest)) => {
            push_piece(text, first)?;
            push_more_pieces(text, rest)
        }
    }
}

/// Puts pieces after the others, each after a blank.
fn push_more_pieces(text: &mut String, pieces: &[Piece]) -> Result<(), AllocError>
    ensures { OnOk result (string_bytes text.new ≡ string_bytes text.old ++ flat_map
        (λ piece. codes " " ++ piece_text piece) pieces.now) }
{
    for piece in pieces {
        text.push_str(" ")?;
        push_piece(text, piece)?;
    }
    Ok(())
}

/// Puts a piece after the others.
#[tactic(auto, unfolding(crate::specs::Parts::range_text))]
fn push_piece(text: &mut String, piece: &Piece) -> Result<(), AllocError>
    ensures { OnOk result (string_bytes text.new ≡ string_bytes text.old ++ piece_text piece.now) }
{
    match piece {
        Piece::Index { id, from, to } => write!(text, "index {from}..{to} by {id}"),
        Piece::Full { from, to } => write!(text, "full {from}..{to}"),
    }
}
