//! Where the gates and bodies of a store file stand, in bytes from its start.

ghost use Rattle.std.specs.Prelude.{◌≡◌, ◌≤◌};
ghost use Rattle.fish_slots.specs.Offsets.{body_at, gate_at};

/// How many bytes the body of a slot has.
pub const SLOT_BYTES: u64 = 86_016;

/// From one gate to the next.
const GATE_STEP: u64 = 4_096;

/// Where the first body begins.
pub const BODIES_AT: u64 = 8_192;

/// Where the gate of a slot is.
pub(crate) fn gate_offset(slot: u8) -> u64
    ensures { result ≡ gate_at slot }
{
    GATE_STEP * slot as u64
}

/// Where the body of a slot begins.
pub(crate) fn body_offset(slot: u8) -> u64
    ensures { result ≡ body_at slot }
{
    BODIES_AT + SLOT_BYTES * slot as u64
}
