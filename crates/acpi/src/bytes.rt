// The ACPI block as 45 bytes, and back. `state` calls it. See docs/STATE.md.
ghost use Rattle.std.specs.Prelude.{◌≡◌, length, nat_lt};
ghost use Rattle.std.specs.List.{list_all};
ghost use Rattle.acpi.specs.Saved.{acpi_bytes, acpi_from, acpi_saved, acpi_size, map_bytes, level_bytes, maps_from, levels_from};

use crate::Acpi;
use little_endian::{four_at, two_at};
use std::array;

fn map_bytes(maps: [u16; 8]) -> [u8; 16]
    ensures { result ≡ map_bytes 8 0 maps }
{
    array::from_fn(|k| maps[k / 2].to_le_bytes()[k % 2])
}

fn level_bytes(levels: [bool; 8]) -> [u8; 8]
    ensures { result ≡ level_bytes 8 0 levels }
{
    array::from_fn(|pin| u8::from(levels[pin]))
}

// The bytes are a slice, not an array, here and below: `state` cuts them out of a slice, and a cut is a slice.
fn maps_from(bytes: &[u8]) -> [u16; 8]
    requires { length bytes.now ≡ acpi_size }
    ensures { result ≡ maps_from 8 16 bytes.now }
{
    array::from_fn(|pin| two_at(bytes, 16 + 2 * pin))
}

fn levels_from(bytes: &[u8]) -> [bool; 8]
    requires { length bytes.now ≡ acpi_size }
    ensures { result ≡ levels_from 8 37 bytes.now }
{
    array::from_fn(|pin| bytes[37 + pin] == 1)
}

fn are_flags(bytes: &[u8]) -> bool
    ensures { result ≡ list_all (λ b. nat_lt b 2) bytes.now }
{
    bytes.iter().all(|b| *b < 2)
}

impl Acpi {
    pub const SIZE: usize = 45;

    pub fn to_bytes(self) -> [u8; Acpi::SIZE]
        ensures { result ≡ acpi_bytes self }
    {
        let mut bytes = [0; Acpi::SIZE];
        bytes[0] = self.pcnt;
        bytes[1] = self.cpu;
        bytes[2] = u8::from(self.scien);
        bytes[3..5].copy_from_slice(&self.pm1sts.to_le_bytes());
        bytes[5..7].copy_from_slice(&self.pm1en.to_le_bytes());
        bytes[7..9].copy_from_slice(&self.pm1cnt.to_le_bytes());
        bytes[9] = u8::from(self.sleeping);
        bytes[10..12].copy_from_slice(&self.setupidx.to_le_bytes());
        bytes[12..14].copy_from_slice(&self.gpe0sts.to_le_bytes());
        bytes[14..16].copy_from_slice(&self.gpe0en.to_le_bytes());
        bytes[16..32].copy_from_slice(&map_bytes(self.maps));
        bytes[32] = self.irq;
        bytes[33..37].copy_from_slice(&self.timer.to_le_bytes());
        bytes[37..45].copy_from_slice(&level_bytes(self.levels));
        bytes
    }

    #[tactic(auto, unfolding(crate::specs::Saved::acpi_from))]
    pub fn from_bytes(bytes: &[u8]) -> Self
        requires { length bytes.now ≡ acpi_size }
        ensures { result ≡ acpi_from bytes.now }
    {
        let maps = maps_from(bytes);
        let levels = levels_from(bytes);
        Acpi {
            pcnt: bytes[0],
            cpu: bytes[1],
            scien: bytes[2] == 1,
            pm1sts: two_at(bytes, 3),
            pm1en: two_at(bytes, 5),
            pm1cnt: two_at(bytes, 7),
            sleeping: bytes[9] == 1,
            setupidx: two_at(bytes, 10),
            gpe0sts: two_at(bytes, 12),
            gpe0en: two_at(bytes, 14),
            maps,
            irq: bytes[32],
            timer: four_at(bytes, 33),
            levels,
        }
    }

    // Can these bytes be an ACPI block? The flags must be 0 or 1.
    pub fn is_saved(bytes: &[u8]) -> bool
        requires { length bytes.now ≡ acpi_size }
        ensures { result ≡ acpi_saved bytes.now }
    {
        bytes[2] < 2 && bytes[9] < 2 && are_flags(&bytes[37..])
    }
}
