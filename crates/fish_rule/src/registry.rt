//! One atomic step each, on the words of the registry: how a pass enters its version and leaves, how
//! it reads the definitions, and how the control pass changes them.

ghost use Rattle.std.specs.Prelude.{◌≡◌, ◌<◌, ◌≤◌, ℕ, Some, length, slice_get, suc};
ghost use Rattle.fish_catalog.specs.Words.{IsWritable, row_word};
ghost use Rattle.fish_catalog.specs.declared.row.CatRow.{CatRow};
ghost use Rattle.fish_rule.specs.RegistrySteps.{CanAnnounce, CanRaiseVersion, CanDefineWord, CanEnter, CanLoadRegistry};
ghost use Rattle.fish_rule.specs.RegistrySteps.{after_announce, after_raise_version, after_define_word};
ghost use Rattle.fish_rule.specs.RegistrySteps.{after_load_registry, after_retire, after_load_version};
ghost use Rattle.fish_rule.specs.Passes.{IsPassOf, view};
ghost use Rattle.fish_rule.specs.Registry.{KnowsRow, op_at, row_at};

use crate::area::{OPENED, OPERATIONS, ROWS, VERSION, epoch_index};
use crate::step_kinds::{Announce, DefineWord, LoadRegistry, LoadVersion, RaiseVersion, Retire};
use crate::table::{Log, Pass};

/// Loads the version. A version that the pass announced is confirmed where it is that very one.
pub fn load_version(log: &Log, pass: &mut Pass) -> u64
    requires pass { IsPassOf log.now pass.old }
    ensures pass { IsPassOf log.now pass.new }
    ensures view { view pass.new ≡ after_load_version (view pass.old) result }
    ensures rises { (view pass.old).learned.version ≤ result }
    ensures from { log.now.key.version ≤ result }
    ensures few { result ≤ 512 }
    ensures control { (view pass.old).lane ≡ 1 → result ≡ (view pass.old).learned.version }
{
    log.table
        .shared
        .load::<LoadVersion>(&mut pass.seat, VERSION as usize)
}

/// Announces a version in the epoch word of the pass's lane.
pub fn announce(log: &Log, pass: &mut Pass, version: u64)
    requires pass { IsPassOf log.now pass.old }
    requires view { CanAnnounce (view pass.old) version }
    ensures pass { IsPassOf log.now pass.new }
    ensures view { view pass.new ≡ after_announce (view pass.old) version }
{
    let index = epoch_index(pass.lane);
    log.table
        .shared
        .store::<Announce>(&mut pass.seat, index, version + 1);
}

/// Stores in the epoch word of the pass's lane that it is out.
pub fn retire(log: &Log, pass: &mut Pass)
    requires pass { IsPassOf log.now pass.old }
    requires view { CanEnter (view pass.old) }
    ensures pass { IsPassOf log.now pass.new }
    ensures view { view pass.new ≡ after_retire (view pass.old) }
{
    let index = epoch_index(pass.lane);
    log.table.shared.store::<Retire>(&mut pass.seat, index, 0);
}

/// Loads the count of rows at the start.
pub fn load_opened(log: &Log, pass: &mut Pass) -> u64
    requires pass { IsPassOf log.now pass.old }
    ensures pass { IsPassOf log.now pass.new }
    ensures view { view pass.new ≡ after_load_registry (view pass.old) 3 result }
    ensures opened { result ≡ length (view pass.old).about.rows.value }
{
    load_registry(log, pass, OPENED)
}

/// Loads the operation that made a version which the registry has reached.
pub fn load_operation(log: &Log, pass: &mut Pass, version: u64) -> u64
    requires pass { IsPassOf log.now pass.old }
    requires version { (log.now.key.version < version) × (version ≤ (view pass.old).learned.version) }
    ensures pass { IsPassOf log.now pass.new }
    ensures view { view pass.new ≡ after_load_registry (view pass.old) (op_at version) result }
{
    load_registry(log, pass, OPERATIONS + (version - 1))
}

/// Loads a word of a row, after its boundaries.
pub fn load_row(log: &Log, pass: &mut Pass, id: u64, place: u64) -> u64
    requires pass { IsPassOf log.now pass.old }
    requires row { KnowsRow (view pass.old).about (view pass.old).learned id }
    requires place { (2 ≤ place) × (place < 39) }
    ensures pass { IsPassOf log.now pass.new }
    ensures view { view pass.new ≡ after_load_registry (view pass.old) (row_at id place) result }
    ensures row { (row : CatRow) → slice_get (view pass.old).about.rows.value id ≡ Some row
        → IsWritable row × (result ≡ row_word row place) }
{
    load_registry(log, pass, ROWS + (id * 39 + place))
}

/// Loads a word of the registry that lasts.
fn load_registry(log: &Log, pass: &mut Pass, index: u64) -> u64
    requires pass { IsPassOf log.now pass.old }
    requires view { CanLoadRegistry (view pass.old) index }
    ensures pass { IsPassOf log.now pass.new }
    ensures view { view pass.new ≡ after_load_registry (view pass.old) index result }
    ensures opened { index ≡ 3 → result ≡ length (view pass.old).about.rows.value }
    ensures row { (id i : ℕ) (row : CatRow) → slice_get (view pass.old).about.rows.value id ≡ Some row → 2 ≤ i
        → i < 39 → index ≡ row_at id i → IsWritable row × (result ≡ row_word row i) }
{
    log.table
        .shared
        .load::<LoadRegistry>(&mut pass.seat, index as usize)
}

/// Stores a word of the next row.
pub fn define_row_word(log: &Log, pass: &mut Pass, id: u64, place: u64, word: u64)
    requires pass { IsPassOf log.now pass.old }
    requires view { CanDefineWord (view pass.old) (row_at id place) word }
    ensures pass { IsPassOf log.now pass.new }
    ensures view { view pass.new ≡ after_define_word (view pass.old) (row_at id place) word }
{
    define_word(log, pass, ROWS + (id * 39 + place), word);
}

/// Stores the operation that makes the version after this one.
pub fn define_operation(log: &Log, pass: &mut Pass, version: u64, operation: u64)
    requires pass { IsPassOf log.now pass.old }
    requires view { CanDefineWord (view pass.old) (op_at (suc version)) operation }
    ensures pass { IsPassOf log.now pass.new }
    ensures view { view pass.new ≡ after_define_word (view pass.old) (op_at (suc version)) operation }
{
    define_word(log, pass, OPERATIONS + version, operation);
}

/// Stores a word of the next operation or row.
fn define_word(log: &Log, pass: &mut Pass, index: u64, word: u64)
    requires pass { IsPassOf log.now pass.old }
    requires view { CanDefineWord (view pass.old) index word }
    ensures pass { IsPassOf log.now pass.new }
    ensures view { view pass.new ≡ after_define_word (view pass.old) index word }
{
    log.table
        .shared
        .store::<DefineWord>(&mut pass.seat, index as usize, word);
}

/// Stores the next version, which makes the next operation.
pub fn raise_version(log: &Log, pass: &mut Pass, version: u64)
    requires pass { IsPassOf log.now pass.old }
    requires view { CanRaiseVersion (view pass.old) }
    requires version { version ≡ (view pass.old).learned.version }
    ensures pass { IsPassOf log.now pass.new }
    ensures view { view pass.new ≡ after_raise_version (view pass.old) }
{
    log.table
        .shared
        .store::<RaiseVersion>(&mut pass.seat, VERSION as usize, version + 1);
}
