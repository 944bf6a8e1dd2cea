//! A record of any form, which owns its values.

ghost use Rattle.std.specs.Prelude.{◌≡◌};

use crate::parsed::Parsed;
use fish_csv::CsvRecord;
use fish_json::JsonRecord;
use fish_value::{FieldView, Path, Sequence};
use std::alloc::{AllocError, Global};

/// A record that was read.
#[derive(Debug, Drop)]
pub enum Record {
    /// A line in JSON.
    Json(JsonRecord),
    /// A row in CSV.
    Csv(CsvRecord),
}

impl Parsed for Record {
    ghost use Rattle.fish_psf.specs.Fields.{fields_of};

    ghost fields = { fields_of };

    fn look(&self, path: &Path) -> FieldView<'_> {
        match self {
            Record::Json(line) => line.look(path),
            Record::Csv(row) => row.look(path),
        }
    }

    fn look_each(&self, alloc: Global, path: &Path) -> Result<Sequence<FieldView<'_>>, AllocError> {
        match self {
            Record::Json(line) => line.look_each(alloc, path),
            Record::Csv(_) => Ok(Sequence::new(alloc)),
        }
    }
}
