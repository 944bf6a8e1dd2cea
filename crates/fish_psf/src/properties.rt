//! All values of a record under the active definitions.

ghost use Rattle.std.specs.Prelude.{◌≡◌, ◌++◌, IfOk, OnOk};
ghost use Rattle.fish_psf.specs.Keys.{keys_for, keys_under};

use crate::key::{ActiveDef, KeyValue, Keys};
use crate::parsed::Parsed;
use crate::value::values;
use std::alloc::{AllocError, Global};

/// The values that definitions give for a record, each under its definition's id: an entry for each value.
#[tactic(auto, unfolding(crate::specs::Keys::keys_for))]
pub fn keys<R: Parsed>(alloc: Global, defs: &[ActiveDef], rec: &R) -> Result<Keys, AllocError>
    ensures { IfOk result (λ keys. keys ≡ keys_for (R.fields rec.now) defs.now) }
{
    let mut keys = Keys::new(alloc);
    for active in defs {
        push_keys(alloc, active, rec, &mut keys)?;
    }
    Ok(keys)
}

/// Puts the values of one definition after the others.
fn push_keys<R: Parsed>(
    alloc: Global,
    active: &ActiveDef,
    rec: &R,
    keys: &mut Keys,
) -> Result<(), AllocError>
    ensures { OnOk result (keys.new ≡ keys.old ++ keys_under (R.fields rec.now) active.now) }
{
    for value in values(alloc, &active.def, rec)?.into_vec() {
        keys.push(KeyValue {
            id: active.id,
            value,
        })?;
    }
    Ok(())
}
