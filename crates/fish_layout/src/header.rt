//! The header of a region of the log: the first word of a record or of a void.

ghost use Rattle.std.specs.Prelude.{◌≡◌, ◌≤◌, IsTrue, MatchOption, Some, None, ◌↔◌};
ghost use Rattle.fish_layout.specs.Header.{void_word};
ghost use Rattle.fish_layout.specs.Headers.{IsHeader, AreWithinLimits, IsRecordHeader, IsVoidHeader};

use crate::parts::{MAX_KEYS, MAX_VERSION};
use crate::word::{
    form_in, keys_in, lane_in, length_in, lines_in, pack_header, pack_void, version_in,
};
use fish_value::{Form, MAX_LANE, MAX_PAYLOAD};

/// What a header says of its region.
#[derive(Clone, Copy, Debug, PartialEq, Eq)]
pub struct Header {
    /// How many lines the region has.
    pub lines: u64,
    /// The form of the record's payload, or none for a void.
    pub form: Option<Form>,
    /// How many key entries the record has.
    pub keys: u16,
    /// The lane that stored it.
    pub lane: u8,
    /// The version under which it was stored.
    pub version: u16,
    /// How many bytes its payload has.
    pub length: u32,
}

/// The header of a void of so many lines.
pub fn void_header(lines: u64) -> u64
    requires { (1 ≤ lines) × (lines ≤ 65535) }
    ensures { result ≡ void_word lines }
{
    pack_void(lines)
}

/// What a header says, or none where the word is no header.
pub fn header_of(word: u64) -> Option<Header>
    ensures { MatchOption result (¬ ((h : Header) × IsHeader word h)) (IsHeader word) }
{
    match form_in(word) {
        0 => read_record_header(word, Form::Json),
        1 => read_record_header(word, Form::Csv),
        _ => read_void_header(word),
    }
}

/// What the header of a record of this form says, or none where the word is no such header.
fn read_record_header(word: u64, form: Form) -> Option<Header>
    ensures { MatchOption result (¬ ((h : Header) × IsRecordHeader word form h))
        (λ h. (h.form ≡ Some form) × IsRecordHeader word form h) }
{
    let header = Header {
        lines: lines_in(word),
        form: Some(form),
        keys: keys_in(word),
        lane: lane_in(word),
        version: version_in(word),
        length: length_in(word),
    };
    if has_limits(&header) && pack_header(form, &header) == word {
        Some(header)
    } else {
        None
    }
}

/// Whether the fields of a record's header are within their limits.
fn has_limits(header: &Header) -> bool
    ensures { IsTrue result ↔ AreWithinLimits header.now }
{
    1 <= header.lines
        && header.keys <= MAX_KEYS
        && 1 <= header.lane
        && header.lane <= MAX_LANE
        && header.version <= MAX_VERSION
        && header.length as usize <= MAX_PAYLOAD
}

/// What the header of a void says, or none where the word is no such header.
fn read_void_header(word: u64) -> Option<Header>
    ensures { MatchOption result (¬ ((h : Header) × IsVoidHeader word h)) (λ h. (h.form ≡ None) × IsVoidHeader word h) }
{
    let lines = lines_in(word);
    if lines < 1 || void_header(lines) != word {
        return None;
    }
    Some(Header {
        lines,
        form: None,
        keys: 0,
        lane: 0,
        version: 0,
        length: 0,
    })
}
