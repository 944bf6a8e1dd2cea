//! A log of 300 pages, read down and up through the cache, and one that goes on: how often its disk is read.

ghost use Rattle.std.specs.Prelude.{◌≡◌, ◌<◌, ◌*◌, All, IfOk, Some};
ghost use Rattle.fish_catalog.specs.Clamps.{IsClamped};
ghost use Rattle.fish_disk.specs.Content.{no_content};
ghost use Rattle.fish_psf.specs.Blanks.{IsBlankOf};
ghost use Rattle.fish_rule.specs.Passes.{IsPassOf};
ghost use Rattle.fish_scan.specs.Colder.{IsBelow};

use crate::across;
use crate::across::{asked_told, opened_at};
use crate::flushing::definitions;
use crate::told::expect;
use fish_catalog::{Catalog, Entry, PageStart, PageStarts};
use fish_cold::Cold;
use fish_disk::Disk;
use fish_epoch::Defs;
use fish_layout::{PAGE_LINES, void_header};
use fish_outside::Failed;
use fish_psf::Steps;
use fish_rule::{Base, Log, Pass};
use fish_scan::How;
use std::alloc::{AllocError, Global};
use std::fmt::Write;
use std::marker::Brand;
use std::sync::ledger::{Blank, Ledger};
use std::test::Fail;

/// How many pages the log has.
const PAGES: u16 = 300;

/// A disk on which each page is one void, of which a read gives the first line. It tells nothing of its content.
#[derive(Drop)]
struct Voids {
    /// How often it was read.
    reads: u32,
}

impl Disk for Voids {
    ghost use Rattle.std.specs.Prelude.{is_some, true};
    ghost use Rattle.std.proofs.Common.{ap};

    ghost content = { λ _. no_content };

    ghost images = { λ _ c. no_content ≡ Some c };

    ghost moment = { λ _. 0 };

    ghost since = { λ _ _ c. no_content ≡ Some c };

    ghost keeps_past = { true };

    ghost faults = { λ _. 0 };

    ghost counts_now = { λ _ _ _ _ now. now };

    ghost only_now = { λ _ _ now. now };

    ghost fewer_later = { λ _ _ _ _ _ now. now };

    ghost as_read = { λ _ _ now. now };

    ghost told = { λ _ _ now. ap is_some now };

    fn read(&mut self, _: u64, buf: &mut [u8]) -> Result<usize, Failed> {
        self.reads = self.reads.saturating_add(1);
        if buf.len() < 32 {
            return Ok(0);
        }
        buf[..8].copy_from_slice(&void_header(PAGE_LINES).to_le_bytes());
        Ok(32)
    }

    fn write_at(&mut self, _: u64, _: &[u8]) -> Result<(), Failed> {
        Ok(())
    }

    fn sync(&mut self) -> Result<(), Failed> {
        Ok(())
    }

    fn length(&mut self) -> Result<u64, Failed> {
        Ok(0)
    }
}

/// The starts of so many pages. Each page begins with the void of its number.
fn starts_of(alloc: Global, pages: u16) -> Result<PageStarts, AllocError> {
    let mut starts = PageStarts::new(alloc);
    for page in 0..pages {
        starts.push(PageStart {
            number: u32::from(page),
            line: PAGE_LINES * u64::from(page),
        })?;
    }
    Ok(starts)
}

/// What comes after so many pages.
fn base_of(pages: u16) -> Base
    ensures number { result.number ≡ pages }
    ensures line { result.line ≡ 32768 * pages }
{
    Base {
        number: u32::from(pages),
        line: PAGE_LINES * u64::from(pages),
    }
}

/// Nothing read of so many pages.
fn nothing_read(alloc: Global, pages: u16) -> Result<Cold, AllocError> {
    Cold::new(alloc, base_of(pages), starts_of(alloc, pages)?)
}

/// Reads a number, which is a void.
fn is_void<L: Ledger>(
    cold: &mut Cold,
    disk: &mut Voids,
    number: u32,
    loads: &mut Steps<L>,
) -> bool {
    if number >= cold.base().number {
        return false;
    }
    match cold.cold_record(disk, number, loads) {
        Ok(entry) => {
            let void = entry.is(&Entry::Void);
            drop(entry);
            void
        }
        Err(_) => false,
    }
}

/// How often the disk was read after all numbers from the newest, after the first sixteen twice, and after the
/// seventeenth, with the numbers that were no void.
fn reads_told<L: Ledger>(
    alloc: Global,
    blank: Blank,
    cold: &mut Cold,
    disk: &mut Voids,
) -> Result<String, AllocError>
    requires blank { IsBlankOf L.name L.parts blank }
{
    let mut loads = Steps::<L>::new(blank);
    let mut told = String::new(alloc);
    for number in (0..u32::from(PAGES))
        .rev()
        .chain(0..16)
        .chain(0..17)
        .chain(1..17)
        .chain(0..1)
    {
        if !is_void(cold, disk, number, &mut loads) {
            write!(told, "no void {number} ")?;
        }
        if number == 0 || number >= 15 && number < 17 {
            write!(told, "{number}:{} ", disk.reads)?;
        }
    }
    Ok(told)
}

#[test]
fn each_page_is_read_once(rt: HostRuntime) -> Result<(), Fail> {
    let mut disk = Voids { reads: 0 };
    let mut cold = nothing_read(rt.alloc(), PAGES)?;
    let told = reads_told::<Brand>(rt.alloc(), Blank::new(1), &mut cold, &mut disk);
    drop((cold, disk));
    expect(
        &rt,
        told?.as_str(),
        "16:284 15:285 0:300 0:300 15:300 0:300 15:300 16:301 15:301 16:301 0:302 ",
    );
    Ok(())
}

/// The base moves on to the end of all pages.
fn grow(alloc: Global, cold: &mut Cold) -> Result<(), AllocError> {
    let base = base_of(PAGES);
    let starts = starts_of(alloc, PAGES)?;
    let old = cold.base();
    let grown = if old.number <= base.number && old.line <= base.line {
        cold.grow(base, &starts)
    } else {
        Err(AllocError)
    };
    drop(starts);
    grown
}

/// How often the disk was read after sixteen numbers, after the same below a later base, and after the last below it.
fn grown_told<L: Ledger>(
    alloc: Global,
    blank: Blank,
    cold: &mut Cold,
    disk: &mut Voids,
) -> Result<String, AllocError>
    requires blank { IsBlankOf L.name L.parts blank }
{
    let mut loads = Steps::<L>::new(blank);
    let mut told = String::new(alloc);
    for number in (4..20).chain(4..20).chain(299..300) {
        if number == 4 && disk.reads > 0 {
            grow(alloc, cold)?;
        }
        if !is_void(cold, disk, number, &mut loads) {
            write!(told, "no void {number} ")?;
        }
        if number >= 19 {
            write!(told, "{number}:{} ", disk.reads)?;
        }
    }
    Ok(told)
}

#[test]
fn pages_stay_as_the_base_moves(rt: HostRuntime) -> Result<(), Fail> {
    let mut disk = Voids { reads: 0 };
    let mut cold = nothing_read(rt.alloc(), 24)?;
    let told = grown_told::<Brand>(rt.alloc(), Blank::new(1), &mut cold, &mut disk);
    drop((cold, disk));
    expect(&rt, told?.as_str(), "19:16 19:16 299:17 ");
    Ok(())
}

/// The definition, whose index begins at 0.
fn clamped(alloc: Global) -> Result<Catalog, AllocError>
    ensures { IfOk result (λ catalog. All (IsClamped 300) catalog) }
{
    let mut rows = definitions(alloc, 0)?;
    rows.clamp(300);
    Ok(rows)
}

/// What a scan of all numbers answers, one by one.
fn full_told(
    alloc: Global,
    log: &Log,
    pass: &mut Pass,
    cold: &mut Cold,
    disk: &mut Voids,
) -> Result<String, AllocError>
    requires pass { IsPassOf log.now pass.old }
    requires base { IsBelow log.now.key cold.old }
{
    let mut defs = Defs::new(alloc);
    let told = asked_told(
        alloc,
        &(How::Full, None, None),
        log,
        pass,
        &mut defs,
        cold,
        disk,
    );
    drop(defs);
    told
}

/// The same with nothing read of the pages.
fn pages_told(
    alloc: Global,
    log: &Log,
    pass: &mut Pass,
    disk: &mut Voids,
) -> Result<String, AllocError>
    requires { IsPassOf log.now pass.old }
{
    let mut cold = across::nothing_read(alloc, log, starts_of(alloc, PAGES)?)?;
    let told = full_told(alloc, log, pass, &mut cold, disk);
    drop(cold);
    told
}

/// The same of a log that begins after all pages.
fn log_told(alloc: Global, disk: &mut Voids) -> Result<String, AllocError> {
    let (log, mut pass) = opened_at(alloc, base_of(PAGES), clamped(alloc)?)?;
    let told = pages_told(alloc, &log, &mut pass, disk);
    drop((log, pass));
    told
}

#[test]
fn a_full_scan_reads_each_page_once(rt: HostRuntime) -> Result<(), Fail> {
    let mut disk = Voids { reads: 0 };
    let told = log_told(rt.alloc(), &mut disk);
    let reads = disk.reads;
    drop(disk);
    expect(&rt, told?.as_str(), "in 0..300 full 0..300");
    assert_eq!(rt; reads, 300);
    Ok(())
}
