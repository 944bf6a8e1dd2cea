//! One catalogue through a table of calls, and one row as words, with answers worked out by hand.

ghost use Rattle.std.specs.Prelude.{◌≡◌, ◌≤◌, ℕ, IfOk, IsTrue, Some};
ghost use Rattle.fish_catalog.specs.Canonical.{IsCanonical};
ghost use Rattle.fish_catalog.specs.Closing.{MayClose};
ghost use Rattle.fish_catalog.specs.Rows.{AwaitsFrom, IsName, IsRow};

use crate::expecting::expect;
use fish_catalog::{
    CatRow, Catalog, Entry, Listed, ROW_WORDS, active_in, is_name, read_row, row_words,
};
use fish_lang::{parse_def, print_def};
use fish_value::{Form, Text};
use std::alloc::{AllocError, Global};
use std::process::Abort;
use std::test::Fail;

/// Names, and the ids of the active row of the name and of its newest.
const NONE_FOUND: &[(&str, &str)] = &[("kind", "none none")];

/// Names and definitions, and what adding them answers.
const FIRST: &[((&str, &str), &str)] = &[
    (("kind", "take  \"type\""), "0"),
    (("kind", "take n"), "the name is active"),
    (("Kind", "bucket n by 10 when not (n<3)"), "1"),
];

const FIRST_FOUND: &[(&str, &str)] = &[("kind", "0 0"), ("Kind", "1 1"), ("kin", "none none")];

const SECOND: &[((&str, &str), &str)] = &[(("2", "take type"), "2"), (("3", "take type"), "3")];

const THIRD: &[((&str, &str), &str)] = &[
    (("4", "take type"), "4"),
    (("5", "take type"), "5"),
    (("6", "take type"), "6"),
    (("7", "take type"), "7"),
    (("8", "take type"), "8"),
    (("9", "take type"), "9"),
    (("10", "take type"), "10"),
    (("11", "take type"), "11"),
    (("12", "take type"), "12"),
    (("13", "take type"), "13"),
    (("14", "take type"), "14"),
    (("15", "flag when n exists"), "15"),
    (("16", "take type"), "16"),
    (("17", "take type"), "17"),
    (("18", "take type"), "18"),
    (("19", "take type"), "19"),
    (("20", "take type"), "20"),
    (("21", "take type"), "21"),
    (("22", "take type"), "22"),
    (("23", "take type"), "23"),
    (("24", "take type"), "24"),
    (("25", "take type"), "25"),
    (("26", "take type"), "26"),
    (("27", "take type"), "27"),
    (("28", "take type"), "28"),
    (("29", "take type"), "29"),
    (("30", "take type"), "30"),
    (("31", "take type"), "31"),
    (("32", "take type"), "32 definitions are active"),
    (("15", "take n"), "the name is active"),
];

const ALL_FOUND: &[(&str, &str)] = &[("32", "none none"), ("31", "31 31"), ("15", "15 15")];

/// Names, numbers, and what ending the index of the active row with the name there answers.
const CLOSED: &[(&str, u32, &str)] = &[
    ("Kind", 6, "not begun"),
    ("2", 9, "not begun"),
    ("kin", 9, "no active definition has the name"),
    ("Kind", 7, "1"),
    ("Kind", 8, "no active definition has the name"),
];

const CLOSED_FOUND: &[(&str, &str)] = &[("Kind", "none 1"), ("kind", "0 0")];

/// Ids, and the rows at the end: the id, the name, the canonical text, the beginning and the end.
const ROWS: &[(usize, &str)] = &[
    (0, "0 kind take type, 0 none"),
    (1, "1 Kind bucket n by 10 when not n < 3, 7 none"),
    (2, "2 2 take type, none none"),
    (15, "15 15 flag when n exists, none none"),
    (31, "31 31 take type, none none"),
    (32, "none"),
];

/// The canonical text of a definition.
fn canonical(alloc: Global, source: &str) -> Result<Text, AllocError>
    ensures { IfOk result IsCanonical }
{
    match parse_def(alloc, source.as_bytes()) {
        Ok(def) => {
            let text = print_def(alloc, &def);
            drop(def);
            text
        }
        Err(_) => Err(AllocError),
    }
}

/// A number as a text, or `none`.
fn put_number(alloc: Global, told: &mut String, number: Option<u32>) -> Result<(), AllocError> {
    match number {
        Some(number) => {
            let text = format!(in alloc; " {number}")?;
            told.push_str(text.as_str())
        }
        None => told.push_str(" none"),
    }
}

/// What adding a definition answers, if the name may be one.
fn added(
    alloc: Global,
    catalog: &mut Catalog,
    name: &Text,
    def: &Text,
) -> Result<String, AllocError>
    requires { IsCanonical def.now }
{
    if !is_name(name) {
        return String::from_str(alloc, "no name");
    }
    match catalog.add(name, def) {
        Ok(id) => format!(in alloc; "{id}"),
        Err(refusal) => format!(in alloc; "{refusal}"),
    }
}

fn add(alloc: Global, catalog: &mut Catalog, case: &(&str, &str)) -> Result<String, AllocError> {
    let (name, source) = *case;
    let name = Text::copy_of(alloc, name)?;
    let def = canonical(alloc, source)?;
    added(alloc, catalog, &name, &def)
}

fn expect_added<R: Abort>(
    rt: &R,
    alloc: Global,
    catalog: &mut Catalog,
    rows: &[((&str, &str), &str)],
) -> Result<(), AllocError> {
    for (case, want) in rows {
        let found = add(alloc, catalog, case)?;
        expect(rt, found.as_str(), *want);
    }
    Ok(())
}

/// The ids of the active row of a name and of its newest.
fn found(alloc: Global, catalog: &Catalog, name: &str) -> Result<String, AllocError> {
    let text = Text::copy_of(alloc, name)?;
    let mut told = String::new(alloc);
    put_number(alloc, &mut told, catalog.find_active(&text).map(u32::from))?;
    put_number(alloc, &mut told, catalog.find_newest(&text).map(u32::from))?;
    String::from_str(alloc, told.as_str().trim_start())
}

fn row_text(alloc: Global, row: &CatRow) -> Result<String, AllocError> {
    let (name, def) = (row.name.as_str(), row.def.as_str());
    let mut told = format!(in alloc; "{} {name} {def},", row.id)?;
    put_number(alloc, &mut told, row.from)?;
    put_number(alloc, &mut told, row.to)?;
    Ok(told)
}

fn row_told(alloc: Global, catalog: &Catalog, id: usize) -> Result<String, AllocError> {
    match catalog.rows().get(id) {
        Some(row) => row_text(alloc, row),
        None => String::from_str(alloc, "none"),
    }
}

fn expect_found<R: Abort>(
    rt: &R,
    alloc: Global,
    catalog: &Catalog,
    rows: &[(&str, &str)],
) -> Result<(), AllocError> {
    for (name, want) in rows {
        let ids = found(alloc, catalog, name)?;
        expect(rt, ids.as_str(), *want);
    }
    Ok(())
}

fn expect_rows<R: Abort>(rt: &R, alloc: Global, catalog: &Catalog) -> Result<(), AllocError> {
    for &(id, want) in ROWS {
        let row = row_told(alloc, catalog, id)?;
        expect(rt, row.as_str(), want);
    }
    Ok(())
}

/// Whether a row is there and has no beginning.
fn awaits_from(catalog: &Catalog, id: u16) -> bool
    ensures { IsTrue result → AwaitsFrom catalog.now id }
{
    match catalog.rows().get(usize::from(id)) {
        Some(row) => row.from.is_none(),
        None => false,
    }
}

/// Sets where such a row's index begins.
fn set_from(catalog: &mut Catalog, id: u16, from: u32) {
    if awaits_from(catalog, id) {
        catalog.set_from(id, from);
    }
}

/// Whether a row's index has begun at a number or before it.
fn has_begun(row: &CatRow, to: u32) -> bool
    ensures { IsTrue result → (from : ℕ) × (row.now.from ≡ Some from) × (from ≤ to) }
{
    match row.from {
        Some(from) => from <= to,
        None => false,
    }
}

/// Whether the index of each active row with this name has begun at `to` or before it.
fn may_close(catalog: &Catalog, name: &Text, to: u32) -> bool
    ensures { IsTrue result → MayClose catalog.now name.now to }
{
    let rows = catalog.rows();
    for row in rows {
        if row.is_active() && row.name.is(name) && !has_begun(row, to) {
            return false;
        }
    }
    true
}

/// What ending the index of an active row answers, if it may end.
fn closed(alloc: Global, catalog: &mut Catalog, name: &str, to: u32) -> Result<String, AllocError> {
    let name = Text::copy_of(alloc, name)?;
    if !may_close(catalog, &name, to) {
        return String::from_str(alloc, "not begun");
    }
    match catalog.close_row(&name, to) {
        Ok(id) => format!(in alloc; "{id}"),
        Err(refusal) => format!(in alloc; "{refusal}"),
    }
}

fn expect_closed<R: Abort>(rt: &R, alloc: Global, catalog: &mut Catalog) -> Result<(), AllocError> {
    for &(name, to, want) in CLOSED {
        let found = closed(alloc, catalog, name, to)?;
        expect(rt, found.as_str(), want);
    }
    expect_found(rt, alloc, catalog, CLOSED_FOUND)
}

fn expect_first<R: Abort>(rt: &R, alloc: Global, catalog: &mut Catalog) -> Result<(), AllocError> {
    expect_found(rt, alloc, catalog, NONE_FOUND)?;
    expect_added(rt, alloc, catalog, FIRST)?;
    expect_found(rt, alloc, catalog, FIRST_FOUND)?;
    set_from(catalog, 1, 7);
    Ok(())
}

fn expect_calls<R: Abort>(rt: &R, alloc: Global, catalog: &mut Catalog) -> Result<(), AllocError> {
    expect_first(rt, alloc, catalog)?;
    expect_added(rt, alloc, catalog, SECOND)?;
    set_from(catalog, 0, 0);
    expect_added(rt, alloc, catalog, THIRD)?;
    expect_found(rt, alloc, catalog, ALL_FOUND)?;
    expect_rows(rt, alloc, catalog)?;
    expect_closed(rt, alloc, catalog)
}

#[test]
fn calls(rt: HostRuntime) -> Result<(), Fail> {
    let mut catalog = Catalog::new(rt.alloc());
    let met = expect_calls(&rt, rt.alloc(), &mut catalog);
    drop(catalog);
    Ok(met?)
}

fn stored(alloc: Global, payload: &str) -> Result<Entry, AllocError> {
    let payload = Text::copy_of(alloc, payload)?;
    Ok(Entry::Stored {
        lane: 2,
        form: Form::Csv,
        payload,
    })
}

/// Whether an entry is its copy, and whether it is a void.
fn sameness(alloc: Global, entry: &Entry) -> Result<&'static str, AllocError> {
    let copy = entry.again(alloc)?;
    let same = copy.is(entry);
    drop(copy);
    let void = Entry::Void;
    let none = entry.is(&void);
    drop(void);
    Ok(if same && !none {
        "a copy, no void"
    } else {
        "no copy, or a void"
    })
}

fn entry_told(alloc: Global) -> Result<&'static str, AllocError> {
    let entry = stored(alloc, "a,b")?;
    let told = sameness(alloc, &entry);
    drop(entry);
    told
}

#[test]
fn entries(rt: HostRuntime) -> Result<(), Fail> {
    expect(&rt, entry_told(rt.alloc())?, "a copy, no void");
    Ok(())
}

/// The words that are not 0 in hexadecimal digits, each after its place.
fn put_words(alloc: Global, told: &mut String, words: &[u64]) -> Result<(), AllocError> {
    for (position, word) in words.iter().enumerate() {
        if *word != 0 {
            let text = format!(in alloc; "{position}:{word:x} ")?;
            told.push_str(text.as_str())?;
        }
    }
    Ok(())
}

/// What is read of the words of a row: its id, whether it is active, its name and its text.
fn put_listed(alloc: Global, told: &mut String, listed: &Listed) -> Result<(), AllocError> {
    let text = format!(in alloc; "{} {} ", listed.id, listed.active)?;
    told.push_str(text.as_str())?;
    put_bytes(told, listed.name.as_bytes())?;
    put_bytes(told, listed.def.as_bytes())
}

fn put_bytes(told: &mut String, bytes: &[u8]) -> Result<(), AllocError> {
    for byte in bytes {
        told.push(char::from(*byte))?;
    }
    told.push('|')
}

fn put_read(alloc: Global, told: &mut String, words: &[u64; ROW_WORDS]) -> Result<(), AllocError> {
    let listed = read_row(alloc, 3, active_in(words[2]), words)?;
    let done = put_listed(alloc, told, &listed);
    drop(listed);
    done
}

/// The words of a row, and what is read of them again.
fn words_told(alloc: Global, row: &CatRow) -> Result<String, AllocError>
    requires { IsRow row.now }
{
    let mut told = String::new(alloc);
    let words = row_words(row);
    put_words(alloc, &mut told, &words)?;
    put_read(alloc, &mut told, &words)?;
    Ok(told)
}

/// A row that begins at record 6 and is active.
fn row_of(name: Text, def: Text) -> CatRow
    requires name { IsName name }
    requires def { IsCanonical def }
    ensures { IsRow result }
{
    CatRow {
        id: 3,
        name,
        def,
        from: Some(6),
        to: None,
    }
}

/// The same of a row of that name and definition.
fn both_ways(alloc: Global, name: &str, source: &str) -> Result<String, AllocError> {
    let name = Text::copy_of(alloc, name)?;
    if !is_name(&name) {
        return String::from_str(alloc, "no name");
    }
    let row = row_of(name, canonical(alloc, source)?);
    let told = words_told(alloc, &row);
    drop(row);
    told
}

#[test]
fn row_both_ways(rt: HostRuntime) -> Result<(), Fail> {
    let told = both_ways(rt.alloc(), "kind", "take type")?;
    let want = "0:7 2:10904 3:646e696b 7:70797420656b6174 8:65 3 true kind|take type|";
    expect(&rt, told.as_str(), want);
    Ok(())
}
