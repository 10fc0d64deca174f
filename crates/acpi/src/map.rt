// The map value of a pin: which status bit the pin sets, and at which edge. setup.rt stores maps and lib.rt uses them for pin
// events. See docs/CHIP.md, "Setup registers".
ghost use Rattle.std.specs.Prelude.{◌≡◌, ◌-◌, ◌^◌, ◌<◌, ◌≤◌};
ghost use Rattle.acpi.specs.Map.{in_direction, legal_map, legal_target};

use crate::Acpi;

#[tactic(auto, unfolding(crate::specs::Map::legal_map))]
pub fn is_legal(value: u32) -> bool
    ensures { result ≡ legal_map value }
{
    (value <= Acpi::MAP_MAX) & (value & Acpi::MAP_RESERVED == 0) & is_legal_target(value % 256)
}

// The low byte of a map value selects no bit, bit 8 or 9 of PM1a_STS, or a bit of GPE0_STS. Not `matches!`, which
// branches: the test of a device looks at eight maps at once (bench/README.md).
fn is_legal_target(low: u32) -> bool
    ensures { result ≡ legal_target low }
{
    (low == 0x00) | (low == 0x08) | (low == 0x09) | ((0x10 <= low) & (low <= 0x1F))
}

// The bit of GPE0_STS that a low byte from 10h to 1Fh selects.
pub fn gpe_bit(low: u16) -> u16
    requires { (0x10 ≤ low) × (low < 0x20) }
    ensures { result ≡ 2 ^ (low - 0x10) }
{
    1 << (low - 0x10)
}

// Did the level change in the direction of the map value? Bit 8 is 0 for a rising edge and 1 for a falling edge.
pub fn in_direction(value: u16, old: bool, new: bool) -> bool
    ensures { result ≡ in_direction value old new }
{
    if value & Acpi::MAP_FALL != 0 {
        return old & !new;
    }
    !old & new
}
