// Masks of registers. See docs/CHIP.md, "Accesses". `acpi` and `bays` call the function; the definitions here, with write 1 to clear, are those of
// every register block.
// "Bits outside a register's mask are dropped and read 0."
#![tactic(auto)]

ghost use Rattle.std.specs.Prelude.{◌≡◌};
ghost use Rattle.std.specs.Int.Bits.{bit_and};

// The bits of the value that are in the mask, for a register of two bytes.
pub fn masked(value: u32, mask: u16) -> u16
    ensures { result ≡ bit_and value mask }
{
    (value & u32::from(mask)) as u16
}
