//! Where the fields of packed words lie: headers, and the second and third words of key entries.
//!
//! Each of these words is made and read here, by division and remainder. Nothing else in the
//! crate knows a bit.

ghost use Rattle.std.specs.Prelude.{◌≡◌, ◌<◌, ◌≤◌, ◌^◌};
ghost use Rattle.fish_layout.specs.Body.{entry_word, packed_value};
ghost use Rattle.fish_layout.specs.Entry.{entry_id, entry_number, entry_place, value_kind, value_offset, value_size};
ghost use Rattle.fish_layout.specs.within.Entry.{renumbered};
ghost use Rattle.fish_layout.specs.Header.{form_code, form_of, header_word, keys_of, lane_of, length_of, lines_of};
ghost use Rattle.fish_layout.specs.Header.{void_word};
ghost use Rattle.fish_layout.specs.within.Header.{header_version};

use crate::header::Header;
use fish_value::Form;

/// The lines of a region, by its header.
#[tactic(auto, unfolding(crate::specs::Header::lines_of, crate::specs::Header::field))]
pub fn lines_in(word: u64) -> u64
    ensures value { result ≡ lines_of word }
    ensures fits { result < 2 ^ 16 }
{
    word % 0x1_0000
}

/// The code of the form, by a header.
#[tactic(auto, unfolding(crate::specs::Header::form_of, crate::specs::Header::field))]
pub(crate) fn form_in(word: u64) -> u64
    ensures { result ≡ form_of word }
{
    word / 0x1_0000 % 4
}

/// The number of key entries, by a header.
#[tactic(auto, unfolding(crate::specs::Header::keys_of, crate::specs::Header::field))]
pub fn keys_in(word: u64) -> u16
    ensures value { result ≡ keys_of word }
    ensures fits { result < 2 ^ 9 }
{
    (word / 0x4_0000 % 0x200) as u16
}

/// The lane, by a header.
#[tactic(auto, unfolding(crate::specs::Header::lane_of, crate::specs::Header::field))]
pub(crate) fn lane_in(word: u64) -> u8
    ensures value { result ≡ lane_of word }
    ensures fits { result < 2 ^ 5 }
{
    (word / 0x800_0000 % 0x20) as u8
}

/// The version, by a header.
#[tactic(auto, unfolding(crate::specs::within::Header::header_version, crate::specs::Header::field))]
pub(crate) fn version_in(word: u64) -> u16
    ensures value { result ≡ header_version word }
    ensures fits { result < 2 ^ 10 }
{
    (word / 0x1_0000_0000 % 0x400) as u16
}

/// The bytes of the payload, by a header.
#[tactic(auto, unfolding(crate::specs::Header::length_of, crate::specs::Header::field))]
pub(crate) fn length_in(word: u64) -> u32
    ensures value { result ≡ length_of word }
    ensures fits { result < 2 ^ 20 }
{
    (word / 0x400_0000_0000 % 0x10_0000) as u32
}

/// The code of a form.
pub(crate) fn code_of(form: Form) -> u64
    ensures value { result ≡ form_code form }
    ensures fits { result < 2 }
{
    match form {
        Form::Json => 0,
        Form::Csv => 1,
    }
}

/// The header with these fields.
pub(crate) fn pack_header(form: Form, header: &Header) -> u64
    requires lines { header.now.lines < 2 ^ 16 }
    requires keys { header.now.keys < 2 ^ 9 }
    requires lane { header.now.lane < 2 ^ 5 }
    requires version { header.now.version < 2 ^ 10 }
    requires length { header.now.length < 2 ^ 20 }
    ensures { let h = header.now in result ≡ header_word h.lines (form_code form) h.keys h.lane h.version h.length }
{
    header.lines
        + code_of(form) * 0x1_0000
        + u64::from(header.keys) * 0x4_0000
        + u64::from(header.lane) * 0x800_0000
        + u64::from(header.version) * 0x1_0000_0000
        + u64::from(header.length) * 0x400_0000_0000
}

/// The header of a void of so many lines.
pub(crate) fn pack_void(lines: u64) -> u64
    requires { (1 ≤ lines) × (lines ≤ 65535) }
    ensures { result ≡ void_word lines }
{
    lines + 0x2_0000
}

/// The second word of a key entry: the record's number, the definition and the entry's position.
pub(crate) fn pack_entry(number: u32, id: u16, position: usize) -> u64
    requires number { number < 2 ^ 28 }
    requires id { id < 2 ^ 8 }
    requires position { position < 2 ^ 9 }
    ensures { result ≡ entry_word number id position }
{
    u64::from(number) + u64::from(id) * 0x1000_0000 + (position as u64) * 0x10_0000_0000
}

/// The third word of a key entry: the value's kind, the length of its bytes and their offset.
pub(crate) fn pack_value(kind: u64, length: usize, offset: usize) -> u64
    requires kind { kind < 2 ^ 2 }
    requires length { length < 2 ^ 9 }
    requires offset { offset < 2 ^ 18 }
    ensures { result ≡ packed_value kind length offset }
{
    kind + (length as u64) * 4 + (offset as u64) * 0x800
}

/// The record's number, by the second word of a key entry.
#[tactic(auto, unfolding(crate::specs::Entry::entry_number, crate::specs::Header::field))]
pub fn number_in(entry: u64) -> u32
    ensures value { result ≡ entry_number entry }
    ensures fits { result < 2 ^ 28 }
{
    (entry % 0x1000_0000) as u32
}

/// The definition's id, by the second word of a key entry.
#[tactic(auto, unfolding(crate::specs::Entry::entry_id, crate::specs::Header::field))]
pub fn id_in(entry: u64) -> u16
    ensures { result ≡ entry_id entry }
{
    (entry / 0x1000_0000 % 0x100) as u16
}

/// The entry's position in its record, by its second word.
#[tactic(auto, unfolding(crate::specs::Entry::entry_place, crate::specs::Header::field))]
pub fn place_in(entry: u64) -> u16
    ensures value { result ≡ entry_place entry }
    ensures fits { result < 2 ^ 9 }
{
    (entry / 0x10_0000_0000 % 0x200) as u16
}

/// The code of the value's kind, by the third word of a key entry.
#[tactic(auto, unfolding(crate::specs::Entry::value_kind, crate::specs::Header::field))]
pub fn kind_in(value: u64) -> u64
    ensures { result ≡ value_kind value }
{
    value % 4
}

/// The length of the value's bytes, by the third word of a key entry.
#[tactic(auto, unfolding(crate::specs::Entry::value_size, crate::specs::Header::field))]
pub fn size_in(value: u64) -> usize
    ensures value { result ≡ value_size value }
    ensures fits { result < 2 ^ 9 }
{
    (value / 4 % 0x200) as usize
}

/// The offset of the value's bytes, by the third word of a key entry.
#[tactic(auto, unfolding(crate::specs::Entry::value_offset, crate::specs::Header::field))]
pub fn offset_in(value: u64) -> usize
    ensures value { result ≡ value_offset value }
    ensures fits { result < 2 ^ 18 }
{
    (value / 0x800 % 0x4_0000) as usize
}

/// The second word of a key entry with another number.
pub(crate) fn renumber(entry: u64, number: u32) -> u64
    requires { number < 2 ^ 28 }
    ensures { result ≡ renumbered entry number }
{
    entry / 0x1000_0000 * 0x1000_0000 + u64::from(number)
}
