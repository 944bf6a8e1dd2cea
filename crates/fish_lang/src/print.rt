//! The canonical text of a definition: the one spelling that is kept and shown.
//!
//! Each function here puts its part after what was written before.

ghost use Rattle.std.specs.Prelude.{◌≡◌, ◌++◌, List, codes, string_bytes, option_map, IfOk, OnOk};
ghost use Rattle.std.specs.Fmt.{signed_decimal};
ghost use Rattle.fish_value.specs.Json.{quoted};
ghost use Rattle.fish_value.specs.ValueText.{value_print};
ghost use Rattle.fish_lang.specs.Canonical.{step_text, steps_text, path_text, op_text, opening, closing, closes_and};
ghost use Rattle.fish_lang.specs.Canonical.{closes_or, formula_text, when_text, definition_text};
ghost use Rattle.fish_lang.specs.Definition.{formula_of, definition_of};

use crate::definition::{Cond, Def, Op};
use crate::token::is_ident;
use fish_value::{Path, Text, Value, json_text, print_value};
use std::alloc::{AllocError, Global};

/// Which part of a condition stands at a position.
#[derive(Clone, Copy, PartialEq, Eq)]
pub enum Part {
    /// A whole condition.
    Whole,
    /// A part of an `or`, which is no `or` itself.
    OfOr,
    /// A part of an `and`, which is neither an `and` nor an `or` itself.
    OfAnd,
}

/// The canonical text of a definition.
pub fn print_def(alloc: Global, def: &Def) -> Result<Text, AllocError>
    ensures { IfOk result (λ text. text ≡ definition_text (definition_of def.now)) }
{
    let mut out = String::new(alloc);
    write_def(alloc, &mut out, def)?;
    Ok(Text::from_string(out))
}

/// Writes a definition.
fn write_def(alloc: Global, out: &mut String, def: &Def) -> Result<(), AllocError>
    ensures { OnOk result
        (string_bytes out.new ≡ string_bytes out.old ++ definition_text (definition_of def.now)) }
{
    match def {
        Def::Take { path, when } => {
            out.push_str("take ")?;
            write_path(alloc, out, path)?;
            write_when(alloc, out, when)
        }
        Def::Each { path, when } => {
            out.push_str("each ")?;
            write_path(alloc, out, path)?;
            write_when(alloc, out, when)
        }
        Def::Bucket { path, width, when } => {
            out.push_str("bucket ")?;
            write_path(alloc, out, path)?;
            write_width(alloc, out, *width)?;
            write_when(alloc, out, when)
        }
        Def::Flag { when } => {
            out.push_str("flag when ")?;
            write_cond(alloc, out, Part::Whole, when)
        }
    }
}

/// Writes ` by ` and a width.
fn write_width(alloc: Global, out: &mut String, width: i64) -> Result<(), AllocError>
    ensures { OnOk result
        (string_bytes out.new ≡ string_bytes out.old ++ (codes " by " ++ signed_decimal width)) }
{
    out.push_str(" by ")?;
    let text = width.to_string(alloc)?;
    out.push_str(text.as_str())
}

/// Writes ` when ` and a condition, where there is one.
fn write_when(alloc: Global, out: &mut String, when: &Option<Cond>) -> Result<(), AllocError>
    ensures { OnOk result
        (string_bytes out.new
        ≡ string_bytes out.old ++ when_text (option_map formula_of when.now)) }
{
    match when {
        None => Ok(()),
        Some(cond) => {
            out.push_str(" when ")?;
            write_cond(alloc, out, Part::Whole, cond)
        }
    }
}

/// Writes a condition, in parentheses where its position asks for them.
#[cycle(conditions)]
fn write_cond(alloc: Global, out: &mut String, part: Part, cond: &Cond) -> Result<(), AllocError>
    ensures { OnOk result
        (string_bytes out.new ≡ string_bytes out.old ++ formula_text part (formula_of cond.now)) }
{
    match cond {
        Cond::Compare { path, op, literal } => write_comparison(alloc, out, path, *op, literal),
        Cond::Exists { path } => write_exists(alloc, out, path),
        Cond::Starts { path, prefix } => write_starts(alloc, out, path, prefix),
        Cond::Not(a) => write_behind(alloc, out, "not ", Part::OfAnd, a),
        Cond::And(a, b) => {
            write_behind(alloc, out, opening(closes_and(part)), Part::OfOr, a)?;
            write_behind(alloc, out, " and ", Part::OfAnd, b)?;
            out.push_str(closing(closes_and(part)))
        }
        Cond::Or(a, b) => {
            write_behind(alloc, out, opening(closes_or(part)), Part::Whole, a)?;
            write_behind(alloc, out, " or ", Part::OfOr, b)?;
            out.push_str(closing(closes_or(part)))
        }
    }
}

/// Writes a text and a condition after it.
#[cycle(conditions)]
fn write_behind(
    alloc: Global,
    out: &mut String,
    front: &str,
    part: Part,
    cond: &Cond,
) -> Result<(), AllocError>
    ensures { OnOk result (string_bytes out.new
        ≡ string_bytes out.old ++ (front.now ++ formula_text part (formula_of cond.now))) }
{
    out.push_str(front)?;
    write_cond(alloc, out, part, cond)
}

/// Writes a path and ` exists`.
fn write_exists(alloc: Global, out: &mut String, path: &Path) -> Result<(), AllocError>
    ensures { OnOk result
        (string_bytes out.new ≡ string_bytes out.old ++ (path_text path.now ++ codes " exists")) }
{
    write_path(alloc, out, path)?;
    out.push_str(" exists")
}

/// Writes a path, a sign of comparison and a literal.
fn write_comparison(
    alloc: Global,
    out: &mut String,
    path: &Path,
    op: Op,
    literal: &Value,
) -> Result<(), AllocError>
    ensures { OnOk result
        (string_bytes out.new ≡ string_bytes out.old ++ (path_text path.now ++ (op_text op ++ value_print literal.now))) }
{
    write_path(alloc, out, path)?;
    out.push_str(op_text(op))?;
    let text = print_value(alloc, literal)?;
    out.push_str(text.as_str())
}

/// Writes a path, ` starts ` and a string.
fn write_starts(
    alloc: Global,
    out: &mut String,
    path: &Path,
    prefix: &Text,
) -> Result<(), AllocError>
    ensures { OnOk result
        (string_bytes out.new ≡ string_bytes out.old ++ (path_text path.now ++ (codes " starts " ++ quoted prefix.now))) }
{
    write_path(alloc, out, path)?;
    out.push_str(" starts ")?;
    let text = json_text(alloc, prefix)?;
    out.push_str(text.as_str())
}

/// Whether an `and` needs parentheses at a position.
fn closes_and(part: Part) -> bool
    ensures { result ≡ closes_and part }
{
    matches!(part, Part::OfAnd)
}

/// Whether an `or` needs parentheses at a position.
fn closes_or(part: Part) -> bool
    ensures { result ≡ closes_or part }
{
    matches!(part, Part::OfOr | Part::OfAnd)
}

/// `(` where it is wanted.
fn opening(wanted: bool) -> &'static str
    ensures { result.now ≡ opening wanted }
{
    if wanted { "(" } else { "" }
}

/// `)` where it is wanted.
fn closing(wanted: bool) -> &'static str
    ensures { result.now ≡ closing wanted }
{
    if wanted { ")" } else { "" }
}

/// A sign of comparison between two spaces.
fn op_text(op: Op) -> &'static str
    ensures { result.now ≡ op_text op }
{
    match op {
        Op::Eq => " = ",
        Op::Ne => " != ",
        Op::Lt => " < ",
        Op::Le => " <= ",
        Op::Gt => " > ",
        Op::Ge => " >= ",
    }
}

/// Writes the steps of a path with dots between.
fn write_path(alloc: Global, out: &mut String, path: &Path) -> Result<(), AllocError>
    ensures { OnOk result (string_bytes out.new ≡ string_bytes out.old ++ path_text path.now) }
{
    let (first, more) = path.parts();
    write_step(alloc, out, first)?;
    write_steps(alloc, out, more)
}

/// Each step with a dot in front.
fn write_steps(alloc: Global, out: &mut String, more: &[Text]) -> Result<(), AllocError>
    ensures { OnOk result (string_bytes out.new ≡ string_bytes out.old ++ steps_text more.now) }
{
    for step in more {
        out.push_str(".")?;
        write_step(alloc, out, step)?;
    }
    Ok(())
}

/// A step is bare where it can be, and else a JSON string.
#[tactic(auto, unfolding(crate::specs::Canonical::step_text))]
fn write_step(alloc: Global, out: &mut String, s: &Text) -> Result<(), AllocError>
    ensures { OnOk result (string_bytes out.new ≡ string_bytes out.old ++ step_text s.now) }
{
    if is_ident(s.as_bytes()) {
        out.push_str(s.as_str())
    } else {
        out.push_str(json_text(alloc, s)?.as_str())
    }
}
