//! The texts of what was refused, by statement, and of the causes.

ghost use Rattle.std.specs.Prelude.{◌≡◌, ◌++◌, codes, OnOk, string_bytes};
ghost use Rattle.fish_report.specs.RefusalText.{deregister_text, ingest_full_text, ingest_too_long_text, refused_text};
ghost use Rattle.fish_report.specs.RefusalText.{register_text, scan_cause, select_too_long_text};

use crate::item::{DeregisterCause, RegisterCause, ScanCause};
use crate::parts::file_name;
use fish_catalog::{MAX_ACTIVE, MAX_ROWS};
use fish_layout::MAX_VERSION;
use fish_value::Text;
use std::alloc::{AllocError, Global};
use std::fmt;

/// Why a definition was not registered, as the line of the refusal tells it.
impl fmt::Display for RegisterCause {
    ghost use Rattle.std.specs.Prelude.{Some};
    ghost use Rattle.fish_report.specs.RefusalText.{register_text};

    ghost output = { λ cause. Some (register_text cause) };

    fn fmt<W: fmt::Write>(&self, f: &mut fmt::Formatter<W>) -> fmt::Result {
        match self {
            RegisterCause::Rolling { id } => write!(f, "rolling id {id}"),
            RegisterCause::TooManyVersions => write!(f, "too many versions {MAX_VERSION}"),
            RegisterCause::NameActive => write!(f, "name active"),
            RegisterCause::TooManyActive => write!(f, "too many active {MAX_ACTIVE}"),
            RegisterCause::TooManyDefinitions => write!(f, "too many definitions {MAX_ROWS}"),
        }
    }
}

/// Why a definition was not deregistered, as the line of the refusal tells it.
impl fmt::Display for DeregisterCause {
    ghost use Rattle.std.specs.Prelude.{Some};
    ghost use Rattle.fish_report.specs.RefusalText.{deregister_text};

    ghost output = { λ cause. Some (deregister_text cause) };

    fn fmt<W: fmt::Write>(&self, f: &mut fmt::Formatter<W>) -> fmt::Result {
        match self {
            DeregisterCause::Rolling { id } => write!(f, "rolling id {id}"),
            DeregisterCause::TooManyVersions => write!(f, "too many versions {MAX_VERSION}"),
            DeregisterCause::UnknownName => write!(f, "unknown name"),
        }
    }
}

/// Puts the line of a file that is too long after the others.
#[tactic(auto, unfolding(crate::specs::RefusalText::select_too_long_text))]
pub(crate) fn push_select_too_long(
    alloc: Global,
    text: &mut String,
    file: &Text,
) -> Result<(), AllocError>
    ensures { OnOk result (string_bytes text.new ≡ string_bytes text.old ++ select_too_long_text file.now) }
{
    let file = file_name(alloc, file)?;
    write!(text, "refused select {} too long\n", file.as_str())
}

/// Puts the line of a registration that was refused after the others.
#[tactic(auto, unfolding(crate::specs::RefusalText::refused_text))]
pub(crate) fn push_register_refused(
    text: &mut String,
    name: &Text,
    cause: RegisterCause,
) -> Result<(), AllocError>
    ensures { OnOk result (string_bytes text.new
        ≡ string_bytes text.old ++ refused_text (codes "register") name.now (register_text cause)) }
{
    write!(text, "refused register {} {cause}\n", name.as_str())
}

/// Puts the line of a deregistration that was refused after the others.
#[tactic(auto, unfolding(crate::specs::RefusalText::refused_text))]
pub(crate) fn push_deregister_refused(
    text: &mut String,
    name: &Text,
    cause: DeregisterCause,
) -> Result<(), AllocError>
    ensures { OnOk result (string_bytes text.new
        ≡ string_bytes text.old ++ refused_text (codes "deregister") name.now (deregister_text cause)) }
{
    write!(text, "refused deregister {} {cause}\n", name.as_str())
}

/// Puts the line of a `scan` or `explain` that was refused after the others.
#[tactic(auto, unfolding(crate::specs::RefusalText::refused_text, crate::specs::Parts::range_text))]
pub(crate) fn push_scan_refused(
    text: &mut String,
    statement: &str,
    name: &Text,
    version: u16,
    cause: ScanCause,
) -> Result<(), AllocError>
    ensures { OnOk result (string_bytes text.new
        ≡ string_bytes text.old ++ refused_text statement.now name.now (scan_cause version cause)) }
{
    let name = name.as_str();
    match cause {
        ScanCause::UnknownName => {
            write!(
                text,
                "refused {statement} {name} unknown name version {version}\n"
            )
        }
        ScanCause::EmptyRange { from, to } => {
            write!(
                text,
                "refused {statement} {name} empty range {from}..{to}\n"
            )
        }
        ScanCause::NotCovered { from, to } => {
            write!(
                text,
                "refused {statement} {name} not covered {from}..{to}\n"
            )
        }
    }
}

/// Puts the first part of the line of a file for which the log is too full after the others.
#[tactic(auto, unfolding(crate::specs::RefusalText::ingest_full_text))]
pub(crate) fn push_ingest_full(
    alloc: Global,
    text: &mut String,
    file: &Text,
    line: u64,
    lines: u64,
    end: u64,
) -> Result<(), AllocError>
    ensures { OnOk result
        (string_bytes text.new ≡ string_bytes text.old ++ ingest_full_text file.now line lines end) }
{
    let file = file_name(alloc, file)?;
    write!(
        text,
        "refused ingest {} full line {line} lines {lines} end {end}",
        file.as_str()
    )
}

/// Puts the line of a file that was not stored to its end, being too long, after the others.
#[tactic(auto, unfolding(crate::specs::RefusalText::ingest_too_long_text, crate::specs::Parts::counts_text))]
pub(crate) fn push_ingest_too_long(
    alloc: Global,
    text: &mut String,
    file: &Text,
    stored: u32,
    refused: u32,
) -> Result<(), AllocError>
    ensures { OnOk result
        (string_bytes text.new ≡ string_bytes text.old ++ ingest_too_long_text file.now stored refused) }
{
    let file = file_name(alloc, file)?;
    let file = file.as_str();
    write!(
        text,
        "refused ingest {file} too long stored {stored} refused {refused}\n"
    )
}
