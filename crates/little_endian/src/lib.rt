// Numbers of two and four bytes in a slice, least significant byte first. See docs/CHIP.md, "Records", and docs/STATE.md.
// `record`, `sequencer_state` and the saved forms of the register blocks read with these functions. They write with `to_le_bytes`.
#![tactic(auto)]

ghost use Rattle.std.specs.Prelude.{◌≡◌, ◌+◌, ◌≤◌, length};
ghost use Rattle.little_endian.specs.Bytes.{two_at, four_at};

// The number whose bytes start at index `at`, as in the definitions `two_at` and `four_at`.
// Two functions, since std has no trait of the types with `from_le_bytes`.
pub fn two_at(bytes: &[u8], at: usize) -> u16
    requires { at + 2 ≤ length bytes.now }
    ensures { result ≡ two_at bytes.now at }
{
    u16::from_le_bytes([bytes[at], bytes[at + 1]])
}

pub fn four_at(bytes: &[u8], at: usize) -> u32
    requires { at + 4 ≤ length bytes.now }
    ensures { result ≡ four_at bytes.now at }
{
    u32::from_le_bytes([bytes[at], bytes[at + 1], bytes[at + 2], bytes[at + 3]])
}
