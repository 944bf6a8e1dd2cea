//! The word of an operation on the definitions, both ways: its kind in bits 8 and 9, and below them the id of the row.

ghost use Rattle.std.specs.Prelude.{◌≡◌, ◌↔◌, ◌<◌, IsTrue};
ghost use Rattle.fish_layout.specs.Operation.{Registers, end_word, ended_id, register_word};

/// The kind of an operation that registers a row.
const REGISTERS: u64 = 256;

/// The kind of an operation that ends a row.
const ENDS: u64 = 512;

/// The word of the operation that registers the row with an id.
pub fn register_word(id: u64) -> u64
    requires { id < 256 }
    ensures { result ≡ register_word id }
{
    REGISTERS + id
}

/// The word of the operation that ends the row with an id.
pub fn end_word(id: u64) -> u64
    requires { id < 256 }
    ensures { result ≡ end_word id }
{
    ENDS + id
}

/// Whether an operation registers a row, by its word. Every other one ends a row.
pub fn registers(word: u64) -> bool
    ensures { IsTrue result ↔ Registers word }
{
    word < ENDS
}

/// The id of the row that an operation ends, by its word.
pub fn ended_id(word: u64) -> u16
    ensures { result ≡ ended_id word }
{
    (word % 256) as u16
}
