//! The store of a sample: how it is made, and closed.

ghost use Rattle.std.specs.Prelude.{◌≡◌, [], IfOk, Some, true};
ghost use Rattle.fish_rule.specs.ClosedLog.{IsClosed};
ghost use Rattle.fish_rule.specs.LoadSteps.{IsAlone};
ghost use Rattle.fish_rule.specs.Passes.{IsPassOf, view};
ghost use Rattle.fish_sample.specs.within.Blocks.{IsAlwaysShown, IsSampleStore, IsOfMade};

use fish_disk::Disk;
use fish_recover::{Asked, Opened, open_store};
use fish_rule::{Remains, close_log};
use fish_store::Store;
use fish_value::Text;
use std::alloc::{AllocError, Global};

/// What is asked for: 8 pages and 12 bits.
const ASKED: Asked = Asked {
    pages: Some(8),
    bucket_bits: Some(12),
};

/// Makes a store on an empty disk.
pub(crate) fn make_store<D: Disk>(alloc: Global, disk: &mut D) -> Result<Store, AllocError>
    requires content { IsAlwaysShown D.content }
    requires empty { D.content disk.old ≡ Some [] }
    ensures { IfOk result (IsSampleStore D.Disk disk.new) }
{
    match open_store(alloc, ASKED, disk) {
        Ok(opened) => of_made(opened),
        Err(_) => Err(AllocError),
    }
}

/// The store that was opened, if it was made.
fn of_made(opened: Opened) -> Result<Store, AllocError>
    ensures { IfOk result (IsOfMade opened) }
{
    if !opened.made {
        drop(opened);
        return Err(AllocError);
    }
    Ok(Store::of_opened(opened))
}

/// A sample that is done.
#[derive(Drop)]
pub(crate) struct Sampled {
    /// What is printed of it.
    pub(crate) text: Text,
    /// Its log.
    pub(crate) remains: Remains,
}

/// Closes the log of a sample.
pub(crate) fn close(alloc: Global, store: Store, text: Text) -> Result<Sampled, AllocError>
    requires pass { IsPassOf store.log store.pass }
    requires alone { IsAlone (view store.pass) }
    ensures text { IfOk result (λ s. s.text ≡ text) }
    ensures opened { IfOk result (λ s. s.remains.opened ≡ true) }
    ensures closed { IfOk result (λ s. IsClosed (view store.pass) s.remains) }
{
    let Store {
        log,
        pass,
        registrar,
        file,
    } = store;
    drop((registrar, file));
    match close_log(alloc, log, pass) {
        Ok(remains) => Ok(Sampled { text, remains }),
        Err(want) => {
            drop((want, text));
            Err(AllocError)
        }
    }
}
