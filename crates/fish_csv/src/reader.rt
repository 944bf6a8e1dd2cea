//! Reads records one after another, with memory that is kept.

ghost use Rattle.std.specs.Prelude.{◌≡◌, ◌≢◌, ◌<◌, ◌≤◌, true, length, Some, None, IfOk, IfErr, OnOk, IsErrOf};
ghost use Rattle.std.specs.List.{list_all};
ghost use Rattle.std.specs.Str.{is_utf8};
ghost use Rattle.csv.specs.Records.{fields_of};
ghost use Rattle.fish_value.specs.Limits.{longest_payload};
ghost use Rattle.fish_value.specs.Seen.{field_seen};
ghost use Rattle.fish_csv.specs.Reading.{csv_field_in, row_of, row_reading};

use crate::column::field_at;
use crate::record::CsvRecordRefusal;
use crate::text::{read_one, text_of};
use csv::ByteRecord;
use fish_value::{Field, FieldView, Path};
use std::alloc::{AllocError, Global};

/// Reads records, and keeps its memory from one to the next.
#[derive(Drop)]
pub struct CsvReader {
    row: ByteRecord,
    field: Vec<u8>,
}

impl CsvReader {
    ghost use Rattle.fish_csv.specs.Row.{row_fields};

    /// A reader that has no memory yet.
    pub fn new(alloc: Global) -> CsvReader {
        CsvReader {
            row: ByteRecord::new(alloc),
            field: Vec::new(alloc),
        }
    }

    /// Reads the row that bytes are, as [`CsvRecord::read`] does. The reader reads the next record
    /// once the row is let go.
    ///
    /// [`CsvRecord::read`]: crate::CsvRecord::read
    pub fn read<'r>(&'r mut self, b: &[u8]) -> Result<CsvRow<'r>, CsvRecordRefusal>
        ensures ok { IfOk result (λ found. row_of b.now ≡ Some (row_fields found)) }

        ensures length { OnOk result (length b.now ≤ longest_payload) }
        ensures too_long { IsErrOf result CsvRecordRefusal.TooLong → longest_payload < length b.now }
        ensures not_row { IsErrOf result CsvRecordRefusal.NotRow
            → (length b.now ≤ longest_payload) × (row_reading b.now ≡ None) }
        ensures none { IfErr result (λ e. e ≢ CsvRecordRefusal.OutOfMemory → row_of b.now ≡ None) }
    {
        let text = text_of(b)?;
        if !read_one(text, &mut self.row, &mut self.field)? {
            return Err(CsvRecordRefusal::NotRow);
        }
        Ok(CsvRow { row: &self.row })
    }
}

/// A record that was read. It lends the memory of the reader.
#[derive(Drop)]
pub struct CsvRow<'r> {
    row: &'r ByteRecord,
    ghost texts: { list_all is_utf8 (fields_of row.now) ≡ true },
}

impl<'r> CsvRow<'r> {
    ghost use Rattle.fish_csv.specs.Row.{row_fields};

    /// What the record has at a path, its text borrowed: a column by its name, `$1` for the first. A
    /// whole number of 64 bits is [`FieldView::Int`], any other text is [`FieldView::Text`]. It takes
    /// no memory.
    pub fn look(&self, path: &Path) -> FieldView<'_>
        ensures { field_seen result ≡ csv_field_in path.now (row_fields self.now) }
    {
        field_at(self.row, path)
    }

    /// The same, its text copied.
    pub fn get(&self, alloc: Global, path: &Path) -> Result<Field, AllocError>
        ensures { IfOk result (λ field. field ≡ csv_field_in path.now (row_fields self.now)) }
    {
        self.look(path).to_field(alloc)
    }
}
