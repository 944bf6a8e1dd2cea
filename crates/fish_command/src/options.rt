//! Options of commands, by name and value.

ghost use Rattle.std.specs.Prelude.{◌≡◌, ◌≤◌, IfSome};
ghost use Rattle.clap.specs.Words.{found_of, rows_of};
ghost use Rattle.fish_value.specs.Number.{int_of};
ghost use Rattle.fish_command.specs.within.Matched.{options_in};
ghost use Rattle.fish_command.specs.Options.{json_lines, layout_of, within};
ghost use Rattle.fish_command.specs.Sizes.{AreBits, ArePages};

use crate::line::only;
use clap::ArgMatches;
use fish_value::{Form, read_int};

/// The most pages that `--pages` takes.
const MAX_PAGES: u16 = 512;

/// The fewest bits that `--bits` takes.
const MIN_BITS: u16 = 4;

/// The most bits that `--bits` takes.
const MAX_BITS: u16 = 16;

/// The most records that `sample` makes.
pub(crate) const MAX_RECORDS: u16 = 60_000;

/// How the records of a file are laid out.
#[derive(Clone, Copy)]
pub(crate) struct Layout {
    /// Their form.
    pub form: Form,
    /// Whether the first row is dropped.
    pub header: bool,
}

/// The options of a command, each where it was given.
#[derive(Clone, Copy)]
pub(crate) struct Options {
    /// `--form F`
    pub layout: Option<Layout>,
    /// `--pages N`
    pub pages: Option<u16>,
    /// `--bits N`
    pub bits: Option<u8>,
}

impl Layout {
    /// Where no form is given.
    pub fn json_lines() -> Layout
        ensures { result ≡ json_lines }
    {
        Layout {
            form: Form::Json,
            header: false,
        }
    }
}

/// The options among the matches of a line.
pub(crate) fn options_in(matches: &ArgMatches<'_>) -> Option<Options>
    ensures options { result ≡ options_in (rows_of (found_of matches.now)) }
    ensures pages { IfSome result (λ o. ArePages o.pages) }
    ensures bits { IfSome result (λ o. AreBits o.bits) }
{
    let layout = match only(matches, "form")? {
        Some(value) => Some(layout_of(value.as_bytes())?),
        None => None,
    };
    let pages = match only(matches, "pages")? {
        Some(value) => Some(number_within(1, MAX_PAGES, value.as_bytes())?),
        None => None,
    };
    let bits = match only(matches, "bits")? {
        Some(value) => Some(number_within(MIN_BITS, MAX_BITS, value.as_bytes())? as u8),
        None => None,
    };
    Some(Options {
        layout,
        pages,
        bits,
    })
}

/// The layout of a name.
fn layout_of(value: &[u8]) -> Option<Layout>
    ensures { result ≡ layout_of value.now }
{
    if value == b"json".as_slice() {
        return Some(Layout::json_lines());
    }
    let form = Form::Csv;
    if value == b"csv".as_slice() {
        return Some(Layout {
            form,
            header: false,
        });
    }
    if value == b"csv-header".as_slice() {
        return Some(Layout { form, header: true });
    }
    None
}

/// The number that a text stands for, within bounds.
pub(crate) fn number_within(low: u16, high: u16, value: &[u8]) -> Option<u16>
    ensures number { result ≡ within low high (int_of value.now) }
    ensures bounds { IfSome result (λ n. (low ≤ n) × (n ≤ high)) }
{
    let number = u16::try_from(read_int(value)?).ok()?;
    if low <= number && number <= high {
        Some(number)
    } else {
        None
    }
}
