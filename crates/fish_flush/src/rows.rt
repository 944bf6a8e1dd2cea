//! A copy of the catalogue.

ghost use Rattle.std.specs.Prelude.{◌≡◌, IfOk};

use fish_catalog::{CatRow, Catalog};
use std::alloc::{AllocError, Global};

/// The same catalogue.
pub(crate) fn again(alloc: Global, catalog: &Catalog) -> Result<Catalog, AllocError>
    ensures { IfOk result (λ copy. copy ≡ catalog.now) }
{
    let rows = copy_rows(alloc, catalog.rows())?;
    let Some(copy) = Catalog::from_rows(alloc, rows)? else {
        unreachable!()
    };
    Ok(copy)
}

/// The same rows.
fn copy_rows(alloc: Global, rows: &[CatRow]) -> Result<Vec<CatRow>, AllocError>
    ensures { IfOk result (λ copy. copy.items ≡ rows.now) }
{
    let mut copy = Vec::new(alloc);
    for row in rows {
        let same = copy_row(alloc, row)?;
        copy.push(same)?;
    }
    Ok(copy)
}

/// The same row.
fn copy_row(alloc: Global, row: &CatRow) -> Result<CatRow, AllocError>
    ensures { IfOk result (λ copy. copy ≡ row.now) }
{
    Ok(CatRow {
        id: row.id,
        name: row.name.again(alloc)?,
        def: row.def.again(alloc)?,
        from: row.from,
        to: row.to,
    })
}
