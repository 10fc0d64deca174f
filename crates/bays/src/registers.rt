// The registers of the block: which one answers at an offset, what it reads, and what a write does. `Bays::access` calls it. See
// docs/PROMISES.md, "Device bays".
ghost use Rattle.std.specs.Prelude.{◌≡◌};
ghost use Rattle.access.specs.Block.{reply_of};
ghost use Rattle.bays.specs.Registers.{bay_count, capabilities_from, decode, decoded_of, register_at, register_value, register_write};

use crate::Bays;
use access::{Reply, Status};

// `Control` and `Status` are the registers of the bay with this number.
#[derive(Clone, Copy, Debug, PartialEq, Eq, Hash)]
pub enum Register {
    VendorId,
    RevisionId,
    SubsystemVendorId,
    SubsystemId,
    Capabilities,
    Control(u32),
    Status(u32),
}

fn register_at(offset: u32) -> Option<Register>
    ensures { decoded_of result ≡ register_at offset }
{
    match offset {
        Bays::VENDOR_ID => Some(Register::VendorId),
        Bays::REVISION_ID => Some(Register::RevisionId),
        Bays::SUBSYSTEM_VENDOR_ID => Some(Register::SubsystemVendorId),
        Bays::SUBSYSTEM_ID => Some(Register::SubsystemId),
        Bays::DBCCR => Some(Register::Capabilities),
        Bays::BCER0 => Some(Register::Control(0)),
        Bays::BSTR0 => Some(Register::Status(0)),
        Bays::BCER1 => Some(Register::Control(1)),
        Bays::BSTR1 => Some(Register::Status(1)),
        _ => None,
    }
}

// The register that an access leads to. An access that leads to none has status 1. All registers take width 4 only, the two subsystem
// numbers too.
#[tactic(auto, unfolding(crate::specs::Registers::decode))]
pub(crate) fn decode(offset: u32, width: u32) -> Option<Register>
    ensures { decoded_of result ≡ decode offset width }
{
    if width == 4 {
        return register_at(offset);
    }
    None
}

// BAYCNT after a write: more than two bays are stored as two.
fn bay_count(value: u32) -> u32
    ensures { result ≡ bay_count value }
{
    let count = value % 16;
    if count <= Bays::BAY_COUNT_MAX {
        return count;
    }
    Bays::BAY_COUNT_MAX
}

// What the first write to DBCCR stores.
fn capabilities_from(value: u32) -> u16
    ensures { result ≡ capabilities_from value }
{
    mask::masked(value, Bays::SECLOCK) | (bay_count(value) as u16)
}

impl Bays {
    #[tactic(auto, unfolding(crate::specs::Registers::register_value))]
    pub(crate) fn register_value(self, register: Register) -> u32
        ensures { result ≡ register_value self register }
    {
        match register {
            Register::VendorId => Bays::VENDOR,
            Register::RevisionId => Bays::REVISION,
            Register::SubsystemVendorId => u32::from(self.subvendor.value),
            Register::SubsystemId => u32::from(self.subsystem.value),
            Register::Capabilities => u32::from(self.capabilities.value),
            Register::Control(number) => {
                let bay = self.bay(number);
                bay.control.value()
            }
            Register::Status(number) => {
                let seclock = self.capabilities.value & Bays::SECLOCK != 0;
                let bay = self.bay(number);
                bay.status_value(seclock)
            }
        }
    }

    #[tactic(auto, unfolding(crate::specs::Registers::register_write))]
    pub(crate) fn register_write(mut self, register: Register, value: u32) -> Reply<Bays>
        ensures { reply_of result ≡ register_write self register value }
    {
        match register {
            Register::VendorId => Reply::status(Status::Blocked, self),
            Register::RevisionId => Reply::status(Status::Blocked, self),
            Register::SubsystemVendorId => {
                let status = self.subvendor.write_status();
                self.subvendor = self.subvendor.write(mask::masked(value, Bays::ID_MASK));
                Reply::status(status, self)
            }
            Register::SubsystemId => {
                let status = self.subsystem.write_status();
                self.subsystem = self.subsystem.write(mask::masked(value, Bays::ID_MASK));
                Reply::status(status, self)
            }
            Register::Capabilities => {
                let status = self.capabilities.write_status();
                self.capabilities = self.capabilities.write(capabilities_from(value));
                Reply::status(status, self)
            }
            Register::Control(number) => {
                let bay = self.bay(number);
                Reply::status(
                    Status::Done,
                    self.with_bay(number, bay.control_write(value)),
                )
            }
            Register::Status(number) => {
                let bay = self.bay(number);
                Reply::status(Status::Done, self.with_bay(number, bay.status_write(value)))
            }
        }
    }
}
