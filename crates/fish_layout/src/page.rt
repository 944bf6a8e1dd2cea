//! Pages and lines of the log, and where they lie in a store file.
//!
//! A line is named by its place in the log, and so is a page. A place is that of a word, counted from
//! the log's start.

ghost use Rattle.std.specs.Prelude.{◌≡◌, ◌↔◌, ◌<◌, ◌≤◌, ◌+◌, ◌-◌, ◌^◌, IsTrue};
ghost use Rattle.fish_layout.specs.Cleared.{entry_at};
ghost use Rattle.fish_layout.specs.Pages.{page_of, place_of};

/// The lines of a page.
pub const PAGE_LINES: u64 = 32_768;

/// The words of a line.
pub const LINE_WORDS: u64 = 4;

/// The words of a page.
pub const PAGE_WORDS: u64 = 131_072;

/// The bytes of a line.
pub const LINE_BYTES: u64 = 32;

/// The bytes of a page.
pub const PAGE_BYTES: u64 = 1_048_576;

/// Where the first line is in a store file, in bytes from its start.
pub const LINES_AT: u64 = 180_224;

/// The page of a line.
pub fn page_of(line: u64) -> u64
    ensures { result ≡ page_of line }
{
    line / PAGE_LINES
}

/// Whether a region of so many lines would lie in two pages.
pub fn crosses_page(line: u64, lines: u64) -> bool
    requires some { 1 ≤ lines }
    requires fits { line + lines < 2 ^ 64 }
    ensures { IsTrue result ↔ (page_of line < page_of (line + lines - 1)) }
{
    page_of(line) < page_of(line + lines - 1)
}

/// Which of a record's words key entry `key` begins with.
pub fn entry_at(key: u64) -> u64
    requires { key < 2 ^ 32 }
    ensures { result ≡ entry_at key }
{
    1 + 3 * key
}

/// The place of key entry `key` of the record at a line.
pub fn place_of(line: u64, key: u64) -> u64
    requires line { line < 2 ^ 60 }
    requires key { key < 2 ^ 32 }
    ensures { result ≡ place_of line key }
{
    LINE_WORDS * line + entry_at(key)
}
