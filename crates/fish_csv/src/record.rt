//! A row as an owned value.

ghost use Rattle.std.specs.Prelude.{◌≡◌, ◌≢◌, ◌<◌, ◌≤◌, true, length, Some, None, IfOk, IfErr, OnOk, IsErrOf};
ghost use Rattle.std.specs.List.{list_all};
ghost use Rattle.std.specs.Str.{is_utf8};
ghost use Rattle.csv.specs.Records.{fields_of};
ghost use Rattle.fish_value.specs.Limits.{longest_payload};
ghost use Rattle.fish_value.specs.Seen.{field_seen};
ghost use Rattle.fish_csv.specs.Reading.{csv_field_in, row_of, row_reading};

use crate::column::field_at;
use crate::text::{read_one, text_of};
use csv::ByteRecord;
use fish_value::{Field, FieldView, Path};
use std::alloc::{AllocError, Global};
use thiserror::Error;

/// The fields for which a record takes room at once.
const FIELDS: usize = 16;

/// Why bytes are no record.
#[derive(Clone, Copy, Debug, PartialEq, Eq, Error)]
pub enum CsvRecordRefusal {
    #[error("a record has at most 524288 bytes")]
    TooLong,
    #[error("no single row of CSV in UTF-8")]
    NotRow,
    #[error("out of memory")]
    OutOfMemory,
}

impl From<AllocError> for CsvRecordRefusal {
    ghost use Rattle.std.specs.Prelude.{◌≡◌};
    ghost use Rattle.fish_csv.specs.declared.record.CsvRecordRefusal.TheVariants.{OutOfMemory};

    ghost from_gives = { λ _ refusal. refusal ≡ OutOfMemory };

    fn from(_: AllocError) -> CsvRecordRefusal {
        CsvRecordRefusal::OutOfMemory
    }
}

/// A record that was read. It owns its fields.
#[derive(Debug, Drop)]
pub struct CsvRecord {
    row: ByteRecord,
    ghost texts: { list_all is_utf8 (fields_of row) ≡ true },
}

impl CsvRecord {
    ghost use Rattle.fish_csv.specs.Contents.{fields_in};

    /// Reads the row that bytes are (RFC 4180), with fields as `csv` reads them. A byte order mark
    /// in front and line ends round the row count nowhere.
    pub fn read(alloc: Global, b: &[u8]) -> Result<CsvRecord, CsvRecordRefusal>
        ensures ok { IfOk result (λ found. row_of b.now ≡ Some (fields_in found)) }

        ensures length { OnOk result (length b.now ≤ longest_payload) }
        ensures too_long { IsErrOf result CsvRecordRefusal.TooLong → longest_payload < length b.now }
        ensures not_row { IsErrOf result CsvRecordRefusal.NotRow
            → (length b.now ≤ longest_payload) × (row_reading b.now ≡ None) }
        ensures none { IfErr result (λ e. e ≢ CsvRecordRefusal.OutOfMemory → row_of b.now ≡ None) }
    {
        let text = text_of(b)?;
        let mut row = ByteRecord::with_capacity(alloc, text.len(), FIELDS)?;
        let mut field = Vec::new(alloc);
        if !read_one(text, &mut row, &mut field)? {
            return Err(CsvRecordRefusal::NotRow);
        }
        Ok(CsvRecord { row })
    }

    /// What the record has at a path, its text borrowed: a column by its name, `$1` for the first. A
    /// whole number of 64 bits is [`FieldView::Int`], any other text is [`FieldView::Text`]. It takes
    /// no memory.
    pub fn look(&self, path: &Path) -> FieldView<'_>
        ensures { field_seen result ≡ csv_field_in path.now (fields_in self.now) }
    {
        field_at(&self.row, path)
    }

    /// The same, its text copied.
    pub fn get(&self, alloc: Global, path: &Path) -> Result<Field, AllocError>
        ensures { IfOk result (λ field. field ≡ csv_field_in path.now (fields_in self.now)) }
    {
        self.look(path).to_field(alloc)
    }
}
