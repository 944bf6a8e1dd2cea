//! The definitions of a sample and the values that are scanned, as lanes that register and scan.

ghost use Rattle.std.specs.Prelude.{◌≡◌, ◌++◌, ◌∷◌, ◌<◌, [], IfOk, OnOk};
ghost use Rattle.fish_sample.specs.within.Works.{AreDefining, Defines, IsDefiningLane, IsScanningLane};
ghost use Rattle.fish_sample.specs.within.Works.{all_scans, band_scans, kind_scans};
ghost use Rattle.fish_sample.specs.within.Works.{scan_band, scan_by, scan_kind};

use fish_lanes::{Lane, Work, Works};
use fish_lang::parse_def;
use fish_scan::{Ask, How};
use fish_value::{Text, Value};
use std::alloc::{AllocError, Global};

/// A lane that is to register the definitions.
pub(crate) fn defining_lane(alloc: Global) -> Result<Lane, AllocError>
    ensures { IfOk result IsDefiningLane }
{
    let mut lane = Lane::new(alloc, 1);
    match push_definitions(alloc, &mut lane.works) {
        Ok(()) => Ok(lane),
        Err(want) => {
            drop(lane);
            Err(want)
        }
    }
}

/// Puts their registrations into an empty list.
fn push_definitions(alloc: Global, works: &mut Works) -> Result<(), AllocError>
    requires { works.old ≡ [] }
    ensures { OnOk result (AreDefining works.new) }
{
    push_definition(alloc, works, "kind", "take type")?;
    push_definition(
        alloc,
        works,
        "late",
        "flag when n >= 10000 and type = \"T3\"",
    )?;
    push_definition(alloc, works, "band", "bucket k by 100")
}

/// Puts the registration of a definition after the others.
fn push_definition(
    alloc: Global,
    works: &mut Works,
    name: &str,
    source: &str,
) -> Result<(), AllocError>
    ensures { OnOk result (Defines name.now source.now works.old works.new) }
{
    let name = Text::copy_of(alloc, name)?;
    match parse_def(alloc, source.as_bytes()) {
        Ok(def) => works.push(Work::Register { name, def }),
        Err(_) => Err(AllocError),
    }
}

/// A lane that is to scan each value.
pub(crate) fn scanning_lane(alloc: Global) -> Result<Lane, AllocError>
    ensures { IfOk result IsScanningLane }
{
    let mut lane = Lane::new(alloc, 1);
    match push_scans(alloc, &mut lane.works) {
        Ok(()) => Ok(lane),
        Err(want) => {
            drop(lane);
            Err(want)
        }
    }
}

/// Puts the scans after the others.
fn push_scans(alloc: Global, works: &mut Works) -> Result<(), AllocError>
    ensures { OnOk result (works.new ≡ works.old ++ all_scans) }
{
    push_kinds(alloc, works)?;
    push_scan(alloc, works, "late", Value::Bool(true))?;
    push_bands(alloc, works)
}

/// Puts the scans of all kinds after the others.
fn push_kinds(alloc: Global, works: &mut Works) -> Result<(), AllocError>
    ensures { OnOk result (works.new ≡ works.old ++ kind_scans 7) }
{
    for kind in 0..7u32 {
        push_kind(alloc, works, kind)?;
    }
    Ok(())
}

/// Puts the scan of a kind after the others.
fn push_kind(alloc: Global, works: &mut Works, kind: u32) -> Result<(), AllocError>
    ensures { OnOk result (works.new ≡ works.old ++ scan_kind kind ∷ []) }
{
    let mut text = String::new(alloc);
    write!(text, "T{kind}")?;
    push_scan(alloc, works, "kind", Value::Text(Text::from_string(text)))
}

/// Puts the scans of all bands after the others.
fn push_bands(alloc: Global, works: &mut Works) -> Result<(), AllocError>
    ensures { OnOk result (works.new ≡ works.old ++ band_scans 10) }
{
    for band in 0..10u32 {
        push_band(alloc, works, band)?;
    }
    Ok(())
}

/// Puts the scan of a band after the others.
fn push_band(alloc: Global, works: &mut Works, band: u32) -> Result<(), AllocError>
    requires { band < 10 }
    ensures { OnOk result (works.new ≡ works.old ++ scan_band band ∷ []) }
{
    push_scan(alloc, works, "band", Value::Int((band * 100) as i64))
}

/// Puts the scan of a value after the others.
fn push_scan(alloc: Global, works: &mut Works, name: &str, value: Value) -> Result<(), AllocError>
    ensures { OnOk result (works.new ≡ works.old ++ scan_by name.now value ∷ []) }
{
    match Text::copy_of(alloc, name) {
        Ok(name) => works.push(Work::Scan {
            ask: Ask {
                name,
                value,
                from: None,
                to: None,
                how: How::Auto,
            },
        }),
        Err(want) => {
            drop(value);
            Err(want)
        }
    }
}
