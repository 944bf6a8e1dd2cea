//! The time of one scan of older records.

ghost use Rattle.std.specs.Prelude.{◌≡◌, ◌<◌};
ghost use Rattle.fish_epoch.specs.Definitions.{IsDefsOf};
ghost use Rattle.fish_psf.specs.Blanks.{IsBlankOf};
ghost use Rattle.fish_rule.specs.Passes.{IsPassOf, view};
ghost use Rattle.fish_scan.specs.Colder.{IsBelow};

use crate::scans::{Timed, rows_in};
use fish_cold::Cold;
use fish_disk::Disk;
use fish_epoch::Defs;
use fish_psf::Steps;
use fish_rule::{Log, Pass};
use fish_scan::{Answer, Ask, How, ScanRefusal, scan_with};
use fish_value::{Text, Value};
use std::alloc::{AllocError, Global};
use std::marker::Brand;
use std::sync::ledger::{Blank, Ledger};
use std::time::Instant;

/// A scan for a type of events.
#[derive(Clone, Copy)]
pub struct Scan<'a> {
    pub kind: &'a str,
    /// The first number.
    pub from: u32,
    pub how: How,
}

/// Times a scan.
pub fn time_older<D: Disk>(
    rt: &HostRuntime,
    log: &Log,
    pass: &mut Pass,
    cold: &mut Cold,
    disk: &mut D,
    scan: Scan<'_>,
) -> Result<Timed, AllocError>
    requires pass { IsPassOf log.now pass.old }
    requires below { IsBelow log.now.key cold.old }
    ensures pass { IsPassOf log.now pass.new }
    ensures below { IsBelow log.now.key cold.new }
{
    let ask = ask_of(rt.alloc(), scan)?;
    let timed = time_asked(rt, log, pass, cold, disk, &ask);
    drop(ask);
    match timed {
        Some(timed) => Ok(timed),
        None => Err(AllocError),
    }
}

/// What it asks.
fn ask_of(alloc: Global, scan: Scan<'_>) -> Result<Ask, AllocError> {
    let value = Value::Text(Text::copy_of(alloc, scan.kind)?);
    let name = match Text::copy_of(alloc, "type") {
        Ok(name) => name,
        Err(want) => {
            drop(value);
            return Err(want);
        }
    };
    Ok(Ask {
        name,
        value,
        from: Some(scan.from),
        to: None,
        how: scan.how,
    })
}

/// The same of what is asked.
fn time_asked<D: Disk>(
    rt: &HostRuntime,
    log: &Log,
    pass: &mut Pass,
    cold: &mut Cold,
    disk: &mut D,
    ask: &Ask,
) -> Option<Timed>
    requires pass { IsPassOf log.now pass.old }
    requires below { IsBelow log.now.key cold.old }
    ensures pass { IsPassOf log.now pass.new }
    ensures below { IsBelow log.now.key cold.new }
{
    let mut defs = Defs::new(rt.alloc());
    let Ok(start) = Instant::now(rt) else {
        drop(defs);
        return None;
    };
    let answer = scanned::<D, Brand, Brand>(
        rt.alloc(),
        Blank::new(1),
        Blank::new(1),
        log,
        pass,
        &mut defs,
        cold,
        disk,
        ask,
    );
    let took = start.elapsed(rt);
    drop(defs);
    let rows = rows_in(answer)?;
    match took {
        Ok(took) => Some(Timed {
            rows,
            nanoseconds: took.as_nanos(),
        }),
        Err(_) => None,
    }
}

/// What a scan answers, with counters of two blanks.
fn scanned<D: Disk, P: Ledger, L: Ledger>(
    alloc: Global,
    parses: Blank,
    loads: Blank,
    log: &Log,
    pass: &mut Pass,
    defs: &mut Defs,
    cold: &mut Cold,
    disk: &mut D,
    ask: &Ask,
) -> Result<Answer, ScanRefusal>
    requires parses { IsBlankOf P.name P.parts parses }
    requires loads { IsBlankOf L.name L.parts loads }
    requires pass { IsPassOf log.now pass.old }
    requires defs { IsDefsOf (view pass.old) defs.old }
    requires below { IsBelow log.now.key cold.old }
    ensures pass { IsPassOf log.now pass.new }
    ensures below { IsBelow log.now.key cold.new }
{
    let mut parses = Steps::<P>::new(parses);
    let mut loads = Steps::<L>::new(loads);
    scan_with(
        alloc,
        log,
        pass,
        defs,
        ask,
        cold,
        disk,
        &mut parses,
        &mut loads,
    )
}
