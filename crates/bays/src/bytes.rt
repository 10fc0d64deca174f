// The bays as 41 bytes, and back. A part is read at its offset in the whole bytes, as in the definitions `once_from` and `bay_from`.
ghost use Rattle.std.specs.Prelude.{◌≡◌, ◌+◌, ◌≤◌, length};
ghost use Rattle.bays.specs.Saved.{
  bay_bytes,
  bay_from,
  bay_saved,
  bay_size,
  bays_bytes,
  bays_from,
  bays_saved,
  once_bytes,
  once_from,
  once_saved,
  once_size,
};

use crate::Bays;
use crate::bay::{Bay, Control, Lines};
use crate::once::Once;
use little_endian::two_at;

// Where the parts start.
const SUBSYSTEM_START: usize = Once::SIZE;

const CAPABILITIES_START: usize = SUBSYSTEM_START + Once::SIZE;

const BAY0_START: usize = CAPABILITIES_START + Once::SIZE;

const BAY1_START: usize = BAY0_START + Bay::SIZE;

impl Once {
    pub const SIZE: usize = 3;

    fn to_bytes(self) -> [u8; Once::SIZE]
        ensures { result ≡ once_bytes self }
    {
        let [low, high] = self.value.to_le_bytes();
        [low, high, u8::from(self.written)]
    }

    fn from_bytes(bytes: &[u8], at: usize) -> Self
        requires { at + once_size ≤ length bytes.now }
        ensures { result ≡ once_from bytes.now at }
    {
        Once {
            value: two_at(bytes, at),
            written: bytes[at + 2] == 1,
        }
    }

    // The mark must be 0 or 1.
    fn is_saved(bytes: &[u8], at: usize) -> bool
        requires { at + once_size ≤ length bytes.now }
        ensures { result ≡ once_saved bytes.now at }
    {
        bytes[at + 2] < 2
    }
}

impl Bay {
    pub const SIZE: usize = 16;

    fn to_bytes(self) -> [u8; Bay::SIZE]
        ensures { result ≡ bay_bytes self }
    {
        let [form_low, form_high, form_written] = self.form.to_bytes();
        [
            u8::from(self.control.lock),
            self.control.request,
            u8::from(self.control.remreqen),
            u8::from(self.control.devchgen),
            u8::from(self.control.wakeen),
            u8::from(self.control.power),
            form_low,
            form_high,
            form_written,
            self.state,
            u8::from(self.remreq),
            u8::from(self.devchg),
            u8::from(self.lines.ieee1394),
            u8::from(self.lines.usb),
            u8::from(self.lines.button),
            u8::from(self.lines.security),
        ]
    }

    #[tactic(auto, unfolding(crate::specs::Saved::bay_from))]
    fn from_bytes(bytes: &[u8], at: usize) -> Self
        requires { at + bay_size ≤ length bytes.now }
        ensures { result ≡ bay_from bytes.now at }
    {
        let form = Once::from_bytes(bytes, at + 6);
        Bay {
            control: Control {
                lock: bytes[at] == 1,
                request: bytes[at + 1],
                remreqen: bytes[at + 2] == 1,
                devchgen: bytes[at + 3] == 1,
                wakeen: bytes[at + 4] == 1,
                power: bytes[at + 5] == 1,
            },
            state: bytes[at + 9],
            remreq: bytes[at + 10] == 1,
            devchg: bytes[at + 11] == 1,
            form,
            lines: Lines {
                ieee1394: bytes[at + 12] == 1,
                usb: bytes[at + 13] == 1,
                button: bytes[at + 14] == 1,
                security: bytes[at + 15] == 1,
            },
        }
    }

    // Can these bytes be a bay? The flags must be 0 or 1.
    #[tactic(auto, unfolding(crate::specs::Saved::bay_saved))]
    fn is_saved(bytes: &[u8], at: usize) -> bool
        requires { at + bay_size ≤ length bytes.now }
        ensures { result ≡ bay_saved bytes.now at }
    {
        ((bytes[at] < 2)
            & (bytes[at + 2] < 2)
            & (bytes[at + 3] < 2)
            & (bytes[at + 4] < 2)
            & (bytes[at + 5] < 2))
            & ((bytes[at + 8] < 2) & (bytes[at + 10] < 2) & (bytes[at + 11] < 2))
            & ((bytes[at + 12] < 2)
                & (bytes[at + 13] < 2)
                & (bytes[at + 14] < 2)
                & (bytes[at + 15] < 2))
    }
}

impl Bays {
    pub const SIZE: usize = 41;

    pub fn to_bytes(self) -> [u8; Bays::SIZE]
        ensures { result ≡ bays_bytes self }
    {
        let mut bytes = [0u8; Bays::SIZE];
        bytes[..SUBSYSTEM_START].copy_from_slice(&self.subvendor.to_bytes());
        bytes[SUBSYSTEM_START..CAPABILITIES_START].copy_from_slice(&self.subsystem.to_bytes());
        bytes[CAPABILITIES_START..BAY0_START].copy_from_slice(&self.capabilities.to_bytes());
        bytes[BAY0_START..BAY1_START].copy_from_slice(&self.bay0.to_bytes());
        bytes[BAY1_START..].copy_from_slice(&self.bay1.to_bytes());
        bytes
    }

    #[tactic(auto, unfolding(crate::specs::Saved::bays_from))]
    pub fn from_bytes(bytes: &[u8; Bays::SIZE]) -> Self
        ensures { result ≡ bays_from bytes.now }
    {
        let subvendor = Once::from_bytes(bytes, 0);
        let subsystem = Once::from_bytes(bytes, SUBSYSTEM_START);
        let capabilities = Once::from_bytes(bytes, CAPABILITIES_START);
        let bay0 = Bay::from_bytes(bytes, BAY0_START);
        let bay1 = Bay::from_bytes(bytes, BAY1_START);
        Bays {
            subvendor,
            subsystem,
            capabilities,
            bay0,
            bay1,
        }
    }

    // Can these bytes be the block? The flags must be 0 or 1.
    pub fn is_saved(bytes: &[u8; Bays::SIZE]) -> bool
        ensures { result ≡ bays_saved bytes.now }
    {
        (Once::is_saved(bytes, 0)
            & Once::is_saved(bytes, SUBSYSTEM_START)
            & Once::is_saved(bytes, CAPABILITIES_START))
            & Bay::is_saved(bytes, BAY0_START)
            & Bay::is_saved(bytes, BAY1_START)
    }
}
