//! The parts of a command, as words.

ghost use Rattle.std.specs.Prelude.{◌≡◌, IfOk, IfSome, option_and_then, option_map};
ghost use Rattle.clap.specs.Words.{found_of, rows_of};
ghost use Rattle.fish_command.specs.within.Parts.{IsSized, request_of_parts};
ghost use Rattle.fish_command.specs.within.Matched.{found_in};
ghost use Rattle.fish_command.specs.within.Reading.{request_of, run_in, run_of, sample_in, sample_of, select_in};
ghost use Rattle.fish_command.specs.within.Reading.{select_of};

use crate::line::{has_minus, line_of, values_of};
use crate::options::{Layout, MAX_RECORDS, number_within, options_in};
use clap::ArgMatches;
use fish_value::Text;
use std::alloc::{AllocError, Global};

/// The words of a command by their parts. They are borrowed.
#[derive(Clone, Copy)]
pub(crate) enum CommandParts<'a> {
    Select {
        def: &'a str,
        value: &'a str,
        file: &'a str,
        layout: Layout,
    },
    Run {
        store: &'a Text,
        script: &'a str,
        pages: Option<u16>,
        bits: Option<u8>,
    },
    Sample {
        number: u16,
    },
}

/// The parts of the command that words are.
pub(crate) fn request_of<'a>(
    alloc: Global,
    words: &'a [Text],
) -> Result<Option<CommandParts<'a>>, AllocError>
    ensures parts { IfOk result (λ request. option_map request_of_parts request ≡ request_of words.now) }
    ensures sized { IfOk result (λ request. IfSome request IsSized) }
{
    let [verb, behind @ ..] = words else {
        return Ok(None);
    };
    match verb.as_str() {
        "select" => select_in(alloc, behind),
        "run" => run_in(alloc, behind),
        "sample" => sample_in(alloc, behind),
        _ => Ok(None),
    }
}

/// The parts of `select` that the words after it are.
fn select_in<'a>(alloc: Global, behind: &'a [Text]) -> Result<Option<CommandParts<'a>>, AllocError>
    ensures parts { IfOk result (λ request. option_map request_of_parts request ≡ select_in behind.now) }
    ensures sized { IfOk result (λ request. IfSome request IsSized) }
{
    let Some(line) = line_of(alloc, behind)? else {
        return Ok(None);
    };
    let request = select_of(&line);
    drop(line);
    Ok(request)
}

/// A line as the parts of `select`.
fn select_of<'a>(line: &ArgMatches<'a>) -> Option<CommandParts<'a>>
    ensures parts { option_map request_of_parts result ≡ option_and_then (λ f. select_of f.plain f.options)
        (found_in (rows_of (found_of line.now))) }
    ensures sized { IfSome result IsSized }
{
    let options = options_in(line)?;
    match values_of(line, "words") {
        Some([def, value, file]) if options.pages.is_none() && options.bits.is_none() => {
            Some(CommandParts::Select {
                def: *def,
                value: *value,
                file: *file,
                layout: options.layout.unwrap_or(Layout::json_lines()),
            })
        }
        _ => None,
    }
}

/// The parts of `run` that the words after it are.
fn run_in<'a>(alloc: Global, behind: &'a [Text]) -> Result<Option<CommandParts<'a>>, AllocError>
    ensures parts { IfOk result (λ request. option_map request_of_parts request ≡ run_in behind.now) }
    ensures sized { IfOk result (λ request. IfSome request IsSized) }
{
    let [store, behind @ ..] = behind else {
        return Ok(None);
    };
    if has_minus(store) {
        return Ok(None);
    }
    let Some(line) = line_of(alloc, behind)? else {
        return Ok(None);
    };
    let request = run_of(store, &line);
    drop(line);
    Ok(request)
}

/// A line as the parts of `run`, after the store.
fn run_of<'a>(store: &'a Text, line: &ArgMatches<'a>) -> Option<CommandParts<'a>>
    ensures parts { option_map request_of_parts result ≡ option_and_then (λ f. run_of store.now f.plain f.options)
        (found_in (rows_of (found_of line.now))) }
    ensures sized { IfSome result IsSized }
{
    let options = options_in(line)?;
    match values_of(line, "words") {
        Some([script]) if options.layout.is_none() => Some(CommandParts::Run {
            store,
            script: *script,
            pages: options.pages,
            bits: options.bits,
        }),
        _ => None,
    }
}

/// The parts of `sample` that the words after it are.
fn sample_in<'a>(alloc: Global, behind: &'a [Text]) -> Result<Option<CommandParts<'a>>, AllocError>
    ensures parts { IfOk result (λ request. option_map request_of_parts request ≡ sample_in behind.now) }
    ensures sized { IfOk result (λ request. IfSome request IsSized) }
{
    let Some(line) = line_of(alloc, behind)? else {
        return Ok(None);
    };
    let request = sample_of(&line);
    drop(line);
    Ok(request)
}

/// A line as the parts of `sample`.
fn sample_of<'a>(line: &ArgMatches<'a>) -> Option<CommandParts<'a>>
    ensures parts { option_map request_of_parts result ≡ option_and_then (λ f. sample_of f.plain f.options)
        (found_in (rows_of (found_of line.now))) }
    ensures sized { IfSome result IsSized }
{
    let options = options_in(line)?;
    match values_of(line, "words") {
        Some([number])
            if options.layout.is_none() && options.pages.is_none() && options.bits.is_none() => {
            let number = number_within(0, MAX_RECORDS, number.as_bytes())?;
            Some(CommandParts::Sample { number })
        }
        _ => None,
    }
}
