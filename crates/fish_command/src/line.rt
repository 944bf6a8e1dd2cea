//! What comes after the first words of a command: plain words and options, in any order.
//!
//! `clap` reads it, after a test of what its model has no place for: where a `-` alone and `--` may be. That an option
//! is given once, and how many plain words there are, is read off the matches.

ghost use Rattle.std.specs.Prelude.{◌≡◌, IfOk, false, map, not, option_and_then, option_map};
ghost use Rattle.std.specs.List.{list_all};
ghost use Rattle.std.specs.Str.Parse.{starts_with_minus};
ghost use Rattle.clap.specs.Words.{all_of, app_of, found_of, rows_of, rule_of};
ghost use Rattle.fish_command.specs.Line.{is_options_end};
ghost use Rattle.fish_command.specs.within.Matched.{found_in, line_app, at_most_one, option_rule, values_for_id};
ghost use Rattle.fish_command.specs.within.Reading.{are_placed, are_placed_after, at_part, has_one_minus};
ghost use Rattle.fish_command.specs.within.Reading.{nothing_found, read};

use clap::error::ErrorKind;
use clap::{Arg, ArgAction, ArgMatches, Command};
use fish_value::Text;
use std::alloc::{AllocError, Global};

/// The matches of a line, if it is one. Takes memory for them, for other words too.
pub(crate) fn line_of<'a>(
    alloc: Global,
    words: &'a [Text],
) -> Result<Option<ArgMatches<'a>>, AllocError>
    ensures { IfOk result (λ line. option_and_then (λ m. found_in (rows_of (found_of m))) line ≡ read words.now
        (at_part nothing_found)) }
{
    if !are_placed(words) {
        return Ok(None);
    }
    match grammar(alloc)?.try_get_matches_from(words) {
        Ok(matches) => Ok(Some(matches)),
        Err(error) => {
            let kind = error.kind();
            drop(error);
            match kind {
                ErrorKind::OutOfMemory => Err(AllocError),
                _ => Ok(None),
            }
        }
    }
}

/// The command of a line: plain words and three options, each any number of times.
fn grammar<'a>(alloc: Global) -> Result<Command<'a>, AllocError>
    ensures { IfOk result (λ command. app_of command ≡ line_app) }
{
    let words = Arg::new(alloc, "words").action(ArgAction::Append);
    Command::new(alloc, "line")
        .no_binary_name(true)
        .disable_help_flag(true)
        .arg(words)?
        .arg(option(alloc, "form"))?
        .arg(option(alloc, "pages"))?
        .arg(option(alloc, "bits"))
}

/// An option of this name.
fn option<'a>(alloc: Global, name: &'a str) -> Arg<'a>
    ensures rule { rule_of result ≡ option_rule name.now }
    ensures local { result.global ≡ false }
{
    Arg::new(alloc, name).long(name).action(ArgAction::Append)
}

/// Whether each word that begins with `-` may be where it is, whatever the options are.
fn are_placed(words: &[Text]) -> bool
    ensures { result ≡ are_placed words.now }
{
    let mut rest = words;
    while let [word, behind @ ..] = rest {
        if is_mark(word) {
            return are_placed_after(behind);
        }
        if has_one_minus(word.as_bytes()) {
            return false;
        }
        rest = behind;
    }
    true
}

/// Whether words may be after `--`.
#[tactic(auto, using(crate::proofs::LineLemmas::are_placed_after_some))]
fn are_placed_after(words: &[Text]) -> bool
    ensures { result ≡ are_placed_after words.now }
{
    !words.is_empty() && are_unmarked(words)
}

/// Whether no word is `--`.
fn are_unmarked(words: &[Text]) -> bool
    ensures { result ≡ list_all (λ w. not (is_options_end w)) words.now }
{
    words.iter().all(|word| !is_mark(word))
}

/// Whether a word is `--`.
fn is_mark(word: &Text) -> bool
    ensures { result ≡ is_options_end word.now }
{
    word.as_str() == "--"
}

/// Whether a word begins with one `-` and no second.
fn has_one_minus(word: &[u8]) -> bool
    ensures { result ≡ has_one_minus word.now }
{
    match word {
        [] => false,
        [a] => *a == b'-',
        [a, b, ..] => *a == b'-' && *b != b'-',
    }
}

/// Whether a word begins with `-`.
pub(crate) fn has_minus(word: &Text) -> bool
    ensures { result ≡ starts_with_minus word.now }
{
    let word = word.as_bytes();
    !word.is_empty() && word[0] == b'-'
}

/// The values of an argument.
pub(crate) fn values_of<'m, 'a>(matches: &'m ArgMatches<'a>, id: &str) -> Option<&'m [&'a str]>
    ensures { option_map (λ s. map (λ v. v.now) s.now) result ≡ all_of id.now (rows_of (found_of matches.now)) }
{
    matches.get_raw(id)
}

/// The one value of an argument, where it was given once at most.
#[tactic(auto, using(crate::proofs::LineLemmas::only_none, crate::proofs::LineLemmas::only_one, crate::proofs::LineLemmas::only_many))]
pub(crate) fn only<'a>(matches: &ArgMatches<'a>, id: &str) -> Option<Option<&'a str>>
    ensures { option_map (option_map (λ s. s.now)) result
        ≡ at_most_one (values_for_id id.now (rows_of (found_of matches.now))) }
{
    let Some(values) = values_of(matches, id) else {
        return Some(None);
    };
    match values {
        [] => Some(None),
        [value] => Some(Some(*value)),
        _ => None,
    }
}
