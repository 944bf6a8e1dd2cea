//! The rows of a whole file, each as the text that is stored for it.

ghost use Rattle.std.specs.Prelude.{◌≡◌, ◌≢◌, ◌↔◌, ◌+◌, ◌<◌, ◌≤◌, ◌++◌, ◌∷◌, [], false, true, length, take, drop, IfOk};
ghost use Rattle.std.specs.Prelude.{OnOk, IfSome, IsErrOf, MatchOption};
ghost use Rattle.std.specs.List.{list_any};
ghost use Rattle.csv.specs.Records.{fields_of};
ghost use Rattle.fish_value.specs.Limits.{longest_file};
ghost use Rattle.fish_csv.specs.Left.{rows_left};
ghost use Rattle.fish_csv.specs.Reading.{rows_in};
ghost use Rattle.fish_csv.specs.Rows.{kept, row_outcomes, row_outcomes_of, without_header};
ghost use Rattle.fish_value.specs.Outcomes.{accepted, refused as refused_of};
ghost use Rattle.fish_csv.specs.within.Turns.{IsStored, TakesRow, ends_line, is_mark};

use crate::bytes::{without_ends, without_mark};
use crate::machine::read_row;
use crate::text::read_one;
use crate::write::write_row;
use csv::ByteRecord;
use fish_value::{MAX_FILE, MAX_PAYLOAD, Text, Texts};
use memchr::memchr3;
use std::alloc::{AllocError, Global};
use thiserror::Error;

/// Why a file was not read.
#[derive(Clone, Copy, Debug, PartialEq, Eq, Error)]
pub enum CsvRefusal {
    #[error("a file in CSV has at most 67108864 bytes")]
    FileTooLong,
    #[error("out of memory")]
    OutOfMemory,
}

impl From<AllocError> for CsvRefusal {
    ghost use Rattle.std.specs.Prelude.{◌≡◌};
    ghost use Rattle.fish_csv.specs.declared.file.CsvRefusal.TheVariants.{OutOfMemory};

    ghost from_gives = { λ _ refusal. refusal ≡ OutOfMemory };

    fn from(_: AllocError) -> CsvRefusal {
        CsvRefusal::OutOfMemory
    }
}

/// The rows of a file that are records, and how many are none.
#[derive(Debug, Drop)]
pub struct CsvRows {
    /// The payloads in order.
    pub texts: Texts,
    /// How many rows were refused.
    pub refused: u64,
}

/// Reads a file's rows, in one pass. With `header` the first row is dropped.
pub fn rows(alloc: Global, b: &[u8], header: bool) -> Result<CsvRows, CsvRefusal>
    ensures texts { IfOk result (λ found. found.texts ≡ accepted (row_outcomes header b.now)) }
    ensures refused { IfOk result (λ found. found.refused ≡ refused_of (row_outcomes header b.now)) }

    ensures length { OnOk result (length b.now ≤ longest_file) }
    ensures too_long { IsErrOf result CsvRefusal.FileTooLong ↔ (longest_file < length b.now) }
{
    let mut texts = RowTexts::new(alloc, b, header)?;
    Ok(all_rows(alloc, &mut texts)?)
}

/// All rows that are left of a file.
fn all_rows(alloc: Global, texts: &mut RowTexts<'_>) -> Result<CsvRows, AllocError>
    requires { length texts.old.rest.now ≤ longest_file }
    ensures texts { IfOk result (λ found. found.texts ≡ accepted (rows_left texts.old)) }
    ensures refused { IfOk result (λ found. found.refused ≡ refused_of (rows_left texts.old)) }
{
    let mut found = CsvRows::new(alloc);
    while let Some(outcome) = texts.next_row(alloc)? {
        found.count(outcome)?;
    }
    Ok(found)
}

/// Goes over the rows of a file, each as the text that is stored for it.
#[derive(Drop)]
pub struct RowTexts<'b> {
    store: Store,
    rest: &'b [u8],
}

impl<'b> RowTexts<'b> {
    /// Stands before the first row, with `header` after it. A byte order mark at the file's start is dropped.
    #[tactic(auto, unfolding(crate::specs::Left::rows_left))]
    pub fn new(alloc: Global, b: &'b [u8], header: bool) -> Result<RowTexts<'b>, CsvRefusal>
        ensures rows { IfOk result (λ texts. rows_left texts ≡ row_outcomes header b.now) }
        ensures within { IfOk result (λ texts. length texts.rest.now ≤ length b.now) }

        ensures length { OnOk result (length b.now ≤ longest_file) }
        ensures too_long { IsErrOf result CsvRefusal.FileTooLong ↔ (longest_file < length b.now) }
    {
        if b.len() > MAX_FILE {
            return Err(CsvRefusal::FileTooLong);
        }
        let mut store = Store::new(alloc);
        let rest = store.behind_header(without_mark(b), header)?;
        Ok(RowTexts { store, rest })
    }

    /// Stands before the first of these rows, which stand after others in a file: so what may be a byte order mark belongs to
    /// a row.
    pub fn after(alloc: Global, b: &'b [u8]) -> RowTexts<'b>
        ensures { result.rest.now ≡ b.now }
    {
        RowTexts {
            store: Store::new(alloc),
            rest: b,
        }
    }

    /// The bytes of the rows that are left.
    pub fn rest(&self) -> &'b [u8]
        ensures { result.now ≡ self.now.rest.now }
    {
        self.rest
    }

    /// The payload of the next row, or none where the row is refused.
    #[tactic(auto, unfolding(crate::specs::Left::rows_left))]
    pub fn next_row(&mut self, alloc: Global) -> Result<Option<Option<Text>>, AllocError>
        ensures rows { IfOk result (λ row. MatchOption row (rows_left self.old ≡ []) (λ outcome.
            rows_left self.old ≡ outcome ∷ rows_left self.new)) }
        ensures shorter { IfOk result (λ row. IfSome row (λ _. length self.new.rest.now < length self.old.rest.now)) }
        ensures stays { length self.new.rest.now ≤ length self.old.rest.now }
    {
        let Some((outcome, rest)) = self.store.next_row(alloc, self.rest)? else {
            return Ok(None);
        };
        self.rest = rest;
        Ok(Some(outcome))
    }
}

impl CsvRows {
    /// No row.
    fn new(alloc: Global) -> CsvRows
        ensures texts { result.texts ≡ [] }
        ensures refused { result.refused ≡ 0 }
    {
        CsvRows {
            texts: Texts::new(alloc),
            refused: 0,
        }
    }

    /// Puts a row's payload after the others, or counts the row as refused.
    fn count(&mut self, outcome: Option<Text>) -> Result<(), AllocError>
        requires { self.old.refused < u64.MAX }
        ensures texts { OnOk result (self.new.texts ≡ self.old.texts ++ accepted (outcome ∷ [])) }
        ensures refused { OnOk result (self.new.refused ≡ self.old.refused + refused_of (outcome ∷ [])) }
    {
        match outcome {
            Some(text) => self.texts.push(text),
            None => {
                self.refused += 1;
                Ok(())
            }
        }
    }
}

/// The memory that is kept from row to row.
#[derive(Drop)]
struct Store {
    row: ByteRecord,
    field: Vec<u8>,
    text: Vec<u8>,
}

impl Store {
    fn new(alloc: Global) -> Store {
        Store {
            row: ByteRecord::new(alloc),
            field: Vec::new(alloc),
            text: Vec::new(alloc),
        }
    }

    /// The text after the first row, where that is a header.
    fn behind_header<'b>(&mut self, b: &'b [u8], header: bool) -> Result<&'b [u8], AllocError>
        ensures rows { IfOk result (λ rest. rows_in rest.now ≡ without_header header (rows_in b.now)) }
        ensures within { IfOk result (λ rest. length rest.now ≤ length b.now) }
    {
        if !header {
            return Ok(b);
        }
        let Some(rest) = read_row(b, &mut self.row, &mut self.field)? else {
            return Ok(b);
        };
        Ok(rest)
    }

    /// Takes the first row. A line without quotes is stored as it stands.
    fn next_row<'b>(
        &mut self,
        alloc: Global,
        b: &'b [u8],
    ) -> Result<Option<(Option<Text>, &'b [u8])>, AllocError>
        ensures { IfOk result (λ o. MatchOption o (rows_in b.now ≡ []) (λ turn. TakesRow b.now turn.0 turn.1.now)) }
    {
        let b = without_ends(b);
        let len = plain_len(b);
        if len == 0 {
            return self.next_quoted(alloc, b);
        }
        let (line, rest) = b.split_at(len);
        let outcome = payload(alloc, line, &mut self.row, &mut self.field)?;
        Ok(Some((outcome, rest)))
    }

    /// The same of a row that may have quotes.
    fn next_quoted<'b>(
        &mut self,
        alloc: Global,
        b: &'b [u8],
    ) -> Result<Option<(Option<Text>, &'b [u8])>, AllocError>
        ensures { IfOk result (λ o. MatchOption o (rows_in b.now ≡ []) (λ turn. TakesRow b.now turn.0 turn.1.now)) }
    {
        let Some(rest) = read_row(b, &mut self.row, &mut self.field)? else {
            return Ok(None);
        };
        write_row(&self.row, &mut self.text)?;
        let outcome = payload(alloc, self.text.as_slice(), &mut self.row, &mut self.field)?;
        Ok(Some((outcome, rest)))
    }
}

/// How many bytes a line without quotes has: 0 where a quote stands in it.
fn plain_len(b: &[u8]) -> usize
    ensures within { result ≤ length b.now }
    ensures plain { list_any is_mark (take result b.now) ≡ false }
    ensures ends { 0 < result → ends_line (drop result b.now) ≡ true }
{
    let Some(at) = memchr3(b'"', b'\r', b'\n', b) else {
        return b.len();
    };
    if b[at] == b'"' { 0 } else { at }
}

/// A text that is stored for a row as its payload, where it is a row again.
fn payload(
    alloc: Global,
    text: &[u8],
    row: &mut ByteRecord,
    field: &mut Vec<u8>,
) -> Result<Option<Text>, AllocError>
    requires { IsStored text.now }
    ensures { IfOk result (λ outcome. outcome ≡ kept text.now) }
{
    if text.len() > MAX_PAYLOAD {
        return Ok(None);
    }
    let Ok(whole) = simdutf8::basic::from_utf8(text) else {
        return Ok(None);
    };
    let behind = without_mark(text);
    if behind.len() < text.len() && !read_one(behind, row, field)? {
        return Ok(None);
    }
    Ok(Some(Text::copy_of(alloc, whole)?))
}
