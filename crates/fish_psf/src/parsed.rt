//! What evaluation asks of a record, whatever its form and however it was read.

ghost use Rattle.std.specs.Prelude.{◌≡◌, ℕ, List, IfOk, map};
ghost use Rattle.fish_value.specs.Seen.{field_seen};
ghost use Rattle.fish_psf.specs.Eval.{Fields};

use fish_csv::{CsvRecord, CsvRow};
use fish_json::{JsonRecord, JsonRow};
use fish_value::{Field, FieldView, Path, Sequence};
use std::alloc::{AllocError, Global};

/// A record that was read, which tells what it has at each path.
pub trait Parsed {
    /// What it has at each path, and the elements of an array there.
    ghost fields: { Self → Fields };

    /// What it has at a path, its text borrowed. It takes no memory.
    fn look(&self, path: &Path) -> FieldView<'_>
        ensures { field_seen result ≡ (fields self.now).at path.now };

    /// The same, its text copied.
    fn at(&self, alloc: Global, path: &Path) -> Result<Field, AllocError>
        ensures { IfOk result (λ field. field ≡ (fields self.now).at path.now) }
    {
        self.look(path).to_field(alloc)
    }

    /// The elements of the array at a path as fields, their texts borrowed: none where no array is there.
    fn look_each(&self, alloc: Global, path: &Path) -> Result<Sequence<FieldView<'_>>, AllocError>
        ensures { IfOk result (λ found. map field_seen found ≡ (fields self.now).items path.now) };
}

impl Parsed for JsonRecord {
    ghost use Rattle.fish_json.specs.Contents.{contents};
    ghost use Rattle.fish_psf.specs.Records.{object_fields};

    ghost fields = { λ r. object_fields (contents r) };

    fn look(&self, path: &Path) -> FieldView<'_> {
        self.look(path)
    }

    fn look_each(&self, alloc: Global, path: &Path) -> Result<Sequence<FieldView<'_>>, AllocError> {
        self.look_each(alloc, path)
    }
}

impl<'a> Parsed for JsonRow<'a> {
    ghost use Rattle.fish_json.specs.Row.{row_contents};
    ghost use Rattle.fish_psf.specs.Records.{object_fields};

    ghost fields = { λ r. object_fields (row_contents r) };

    fn look(&self, path: &Path) -> FieldView<'_> {
        self.look(path)
    }

    fn look_each(&self, alloc: Global, path: &Path) -> Result<Sequence<FieldView<'_>>, AllocError> {
        self.look_each(alloc, path)
    }
}

impl Parsed for CsvRecord {
    ghost use Rattle.fish_csv.specs.Contents.{fields_in};
    ghost use Rattle.fish_psf.specs.Records.{column_fields};

    ghost fields = { λ r. column_fields (fields_in r) };

    fn look(&self, path: &Path) -> FieldView<'_> {
        self.look(path)
    }

    fn look_each(&self, alloc: Global, path: &Path) -> Result<Sequence<FieldView<'_>>, AllocError> {
        Ok(Sequence::new(alloc))
    }
}

impl<'r> Parsed for CsvRow<'r> {
    ghost use Rattle.fish_csv.specs.Row.{row_fields};
    ghost use Rattle.fish_psf.specs.Records.{column_fields};

    ghost fields = { λ r. column_fields (row_fields r) };

    fn look(&self, path: &Path) -> FieldView<'_> {
        self.look(path)
    }

    fn look_each(&self, alloc: Global, path: &Path) -> Result<Sequence<FieldView<'_>>, AllocError> {
        Ok(Sequence::new(alloc))
    }
}
