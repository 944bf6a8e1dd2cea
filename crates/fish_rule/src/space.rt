//! One atomic step each. What it does to the words and to what the pass knows is a definition, and
//! the rule of the table allows it wherever the pass's view does.

ghost use Rattle.std.specs.Prelude.{◌≡◌, ◌≢◌, ◌+◌, ◌-◌, ◌*◌, ◌<◌, ◌≤◌, ℕ, [], length, Some};
ghost use Rattle.fish_rule.specs.Flying.{region_in};
ghost use Rattle.fish_rule.specs.Passes.{IsPassOf, view};
ghost use Rattle.fish_rule.specs.Parts.{RestsAt};
ghost use Rattle.fish_rule.specs.Regions.{dir_word, kind_of};
ghost use Rattle.fish_rule.specs.SpaceSteps.{CanClaimLines, CanPublishRegion, CanStoreWord, after_claim_lines};
ghost use Rattle.fish_rule.specs.SpaceSteps.{after_publish_region, after_store_word};
ghost use Rattle.fish_rule.specs.LoadSteps.{CanLookAt, CanRaiseSettled, CanReadWord, IsAlone, after_load_tail};
ghost use Rattle.fish_rule.specs.LoadSteps.{after_look_at, after_raise_settled, after_read_word, after_load_settled};
ghost use Rattle.fish_rule.specs.Table.{Sees};
ghost use Rattle.fish_rule.specs.Views.{Among};
ghost use Rattle.fish_rule.specs.World.{high, low, slots, log_at as first_log_word};
ghost use Rattle.fish_rule.specs.declared.view.Flight.{Flight};
ghost use Rattle.fish_rule.specs.declared.view.Found.{Found};

use crate::area::{dir_at, log_at, word_index};
use crate::step_kinds::{
    ClaimLines, LoadSettled, LoadTail, LookAt, PublishRegion, RaiseSettled, ReadWord, StoreWord,
};
use crate::table::{Log, Pass, Region};
use crate::view::{Kind, Position, Shut};
use crate::word::{ONE, directory_word, position_in};
use fish_layout::page_of;

/// The claim that shut a pass, its own or one that it learned of by a split or a join.
pub fn is_shut(pass: &Pass) -> Option<Shut>
    ensures { result ≡ (view pass.now).shut }
{
    pass.shut
}

/// The lane of a pass.
pub fn lane(pass: &Pass) -> u8
    ensures { result ≡ (view pass.now).lane }
{
    pass.lane
}

/// The region of the record that a pass has in flight.
pub fn in_flight(pass: &Pass) -> Option<Region>
    ensures { result ≡ region_in (view pass.now).flight }
{
    pass.flight
}

/// What a region of a log will hold.
pub fn kind_in(log: &Log, region: &Region) -> Kind
    requires { (0 < region.now.lines) × (region.now.line + region.now.lines < 68719476736) }
    ensures { result ≡ kind_of log.now.key.end region.now.line (region.now.line + region.now.lines) }
{
    region_kind(log.key.end, region.line, region.line + region.lines)
}

/// Claims the next lines, by one fetch-and-add on the tail.
pub fn claim_lines(log: &Log, pass: &mut Pass, lines: u64) -> Region
    requires pass { IsPassOf log.now pass.old }
    requires lines { (0 < lines) × (lines ≤ 18625) }
    requires view { CanClaimLines (view pass.old) }
    ensures pass { IsPassOf log.now pass.new }
    ensures view { view pass.new ≡ after_claim_lines (view pass.old) lines result.number result.line }
    ensures lines { result.lines ≡ lines }
    ensures counted { (view pass.old).learned.count ≤ result.number }
    ensures within { result.number < log.now.key.number + slots log.now.key }
{
    let found = log
        .table
        .shared
        .fetch_add::<ClaimLines>(&mut pass.seat, 0, ONE + lines);
    let Position { number, line } = position_in(found);
    let region = Region {
        number,
        line,
        lines,
    };
    pass.flight = Some(region);
    region
}

/// Stores the next word of the region in flight.
pub fn store_word(log: &Log, pass: &mut Pass, region: &Region, offset: u64, word: u64)
    requires pass { IsPassOf log.now pass.old }
    requires view { (f : Flight) × CanStoreWord (view pass.old) f × (f.line ≡ region.now.line)
        × (length f.words ≡ offset) }
    ensures pass { IsPassOf log.now pass.new }
    ensures view { (f : Flight) → (view pass.old).flight ≡ Some f → view pass.new ≡ after_store_word (view pass.old) f
        word }
{
    let index = word_index(log, region.line * 4 + offset);
    log.table
        .shared
        .store::<StoreWord>(&mut pass.seat, index, word);
}

/// The index of a region's first word among the words of the table.
pub fn region_index(log: &Log, region: &Region) -> u64
    requires { (log.now.key.line ≤ region.now.line) × (region.now.line < 68719476736) }
    ensures { result ≡ first_log_word log.now.key + (region.now.line * 4 - log.now.key.line * 4) }
{
    log_at(&log.key) + (region.line * 4 - log.key.line * 4)
}

/// Stores the next word of the region in flight, whose first word has this index.
pub fn store_at(log: &Log, pass: &mut Pass, first: u64, offset: u64, word: u64)
    requires pass { IsPassOf log.now pass.old }
    requires view { (f : Flight) × CanStoreWord (view pass.old) f
        × (first_log_word log.now.key + (f.line * 4 - log.now.key.line * 4) ≡ first) × (length f.words ≡ offset) }
    ensures pass { IsPassOf log.now pass.new }
    ensures view { (f : Flight) → (view pass.old).flight ≡ Some f → view pass.new ≡ after_store_word (view pass.old) f
        word }
{
    log.table
        .shared
        .store::<StoreWord>(&mut pass.seat, (first + offset) as usize, word);
}

/// Publishes the region in flight, by a store of its directory word. A mark shuts the pass.
pub fn publish_region(log: &Log, pass: &mut Pass, region: &Region)
    requires pass { IsPassOf log.now pass.old }
    requires view { (f : Flight) × CanPublishRegion (view pass.old) f × (f.number ≡ region.now.number)
        × (f.line ≡ region.now.line) × (f.lines ≡ region.now.lines) }
    ensures pass { IsPassOf log.now pass.new }
    ensures view { (f : Flight) → (view pass.old).flight ≡ Some f → view pass.new ≡ after_publish_region (view pass.old)
        f }
{
    let kind = region_kind(log.key.end, region.line, region.line + region.lines);
    let index = dir_at(&log.key) + (region.number - log.key.number);
    log.table.shared.store::<PublishRegion>(
        &mut pass.seat,
        index as usize,
        directory_word(kind, region.line),
    );
    pass.flight = None;
    if let Kind::Mark = kind {
        pass.shut = Some(Shut {
            line: region.line,
            lines: region.lines,
            end: log.key.end,
        });
    }
}

/// Loads the directory word of a number.
pub fn look_at(log: &Log, pass: &mut Pass, number: u64) -> u64
    requires pass { IsPassOf log.now pass.old }
    requires view { CanLookAt (view pass.old) number }
    ensures pass { IsPassOf log.now pass.new }
    ensures view { (lines : ℕ) × (view pass.new ≡ after_look_at (view pass.old) number lines result) }
    ensures alone { IsAlone (view pass.old) → result ≢ 0 }
    ensures known { (f : Found) → Among f (view pass.old).learned.found → f.number ≡ number
        → result ≡ dir_word f.kind f.line }
    ensures sees { Sees (view pass.old) number result }
{
    let index = dir_at(&log.key) + (number - log.key.number);
    log.table
        .shared
        .load::<LookAt>(&mut pass.seat, index as usize)
}

/// Loads a word of a published region.
pub fn read_word(log: &Log, pass: &mut Pass, line: u64, offset: u64) -> u64
    requires pass { IsPassOf log.now pass.old }
    requires view { (f : Found) × CanReadWord (view pass.old) f offset × (f.line ≡ line) }
    ensures pass { IsPassOf log.now pass.new }
    ensures view { view pass.new ≡ after_read_word (view pass.old) (line * 4 + offset) result }
{
    let index = word_index(log, line * 4 + offset);
    log.table.shared.load::<ReadWord>(&mut pass.seat, index)
}

/// Loads the tail.
pub fn load_tail(log: &Log, pass: &mut Pass) -> Position
    requires pass { IsPassOf log.now pass.old }
    ensures pass { IsPassOf log.now pass.new }
    ensures view { (x : ℕ) × (view pass.new ≡ after_load_tail (view pass.old) x) × (result.number ≡ high x)
        × (result.line ≡ low x) }
    ensures from { log.now.key.number ≤ result.number }
    ensures counted { (view pass.old).learned.count ≤ result.number }
    ensures settled { (view pass.old).learned.settled ≤ result.number }
    ensures rests { (view pass.old).lane ≡ 1 → (view pass.old).out ≡ []
        → RestsAt result.number result.line (view pass.old).tail }
{
    let found = log.table.shared.load::<LoadTail>(&mut pass.seat, 0);
    position_in(found)
}

/// Loads the settled number: every number below is published, and no mark.
pub fn load_settled(log: &Log, pass: &mut Pass) -> u64
    requires pass { IsPassOf log.now pass.old }
    ensures pass { IsPassOf log.now pass.new }
    ensures view { view pass.new ≡ after_load_settled (view pass.old) result }
    ensures rises { (view pass.old).learned.settled ≤ result }
    ensures from { log.now.key.number ≤ result }
{
    log.table.shared.load::<LoadSettled>(&mut pass.seat, 1)
}

/// Raises the settled number to at least this one, by a fetch-max, and answers what it was.
pub fn raise_settled(log: &Log, pass: &mut Pass, number: u64) -> u64
    requires pass { IsPassOf log.now pass.old }
    requires view { CanRaiseSettled (view pass.old) number }
    ensures pass { IsPassOf log.now pass.new }
    ensures view { view pass.new ≡ after_raise_settled (view pass.old) number result }
    ensures rises { (view pass.old).learned.settled ≤ result }
{
    log.table
        .shared
        .fetch_max::<RaiseSettled>(&mut pass.seat, 1, number)
}

/// The kind of the region between two lines.
fn region_kind(end: u64, line: u64, next: u64) -> Kind
    requires { line < next }
    ensures { result ≡ kind_of end line next }
{
    if end < next {
        Kind::Mark
    } else if page_of(line) < page_of(next - 1) {
        Kind::Void
    } else {
        Kind::Stored
    }
}
