// The device bays: two bays that take removable devices, after the controller of a data sheet. The block has identification registers, and
// for each bay a control register (BCER) and a status register (BSTR). The block is not part of the device yet. See docs/PROMISES.md, "Device bays".
// bay.rt has one bay, once.rt a field that is written once, registers.rt the registers, bytes.rt the saved form.
#![tactic(auto)]

pub mod bay;
mod bytes;
pub mod once;
mod registers;

ghost use Rattle.std.specs.Prelude.{◌≡◌};
ghost use Rattle.access.specs.Block.{reply_of};
ghost use Rattle.bays.specs.Bays.{
  alert,
  bays_access,
  bays_event,
  bays_in_range,
  bays_reset,
  fresh_bays,
  legal_capabilities,
};
ghost use Rattle.bays.specs.Registers.{bay_of, with_bay};

use crate::bay::Bay;
use crate::once::Once;
use access::{Access, Reply, Status};

#[derive(Clone, Copy)]
pub struct Bays {
    // Subsystem Vendor ID, Subsystem ID, and the capabilities register DBCCR.
    pub subvendor: Once,
    pub subsystem: Once,
    pub capabilities: Once,
    // Two fields, not an array: `bay_of` and `with_bay` take any number, and an index would have to be below 2.
    pub bay0: Bay,
    pub bay1: Bay,
}

impl Bays {
    // Offsets of the registers.
    pub const VENDOR_ID: u32 = 0x00;

    pub const REVISION_ID: u32 = 0x04;

    pub const SUBSYSTEM_VENDOR_ID: u32 = 0x08;

    pub const SUBSYSTEM_ID: u32 = 0x0A;

    pub const DBCCR: u32 = 0x0C;

    pub const BCER0: u32 = 0x10;

    pub const BSTR0: u32 = 0x14;

    pub const BCER1: u32 = 0x18;

    // There is no register at 1Ch.
    pub const BSTR1: u32 = 0x20;
    // What the two read-only registers read.
    pub const VENDOR: u32 = 0x1260;

    pub const REVISION: u32 = 0x00;
    // DBCCR: the mask, SECLOCK, and the largest number of bays.
    pub const CAPABILITIES_MASK: u16 = 0x1F;

    pub const SECLOCK: u16 = 0x10;

    pub const BAY_COUNT_MAX: u32 = 2;
    // All bits of the two subsystem registers.
    pub const ID_MASK: u16 = 0xFFFF;
    // The kind of an event that sets the lines of a bay.
    pub const LINES: u32 = 8;

    pub fn fresh() -> Self
        ensures { result ≡ fresh_bays }
    {
        let once = Once::fresh();
        let bay = Bay::fresh();
        Bays {
            subvendor: once,
            subsystem: once,
            capabilities: once,
            bay0: bay,
            bay1: bay,
        }
    }

    // Resets 0 (PCI) and 1 (VCC) keep the block. Reset 2 (VTR) keeps what is written once, and the lines. The level is a number, since
    // `bays_reset` says what any number does.
    #[tactic(auto, unfolding(crate::specs::Bays::bays_reset))]
    pub fn reset(mut self, level: u32) -> Self
        ensures { result ≡ bays_reset self level }
    {
        match level {
            0 => self,
            1 => self,
            2 => {
                self.bay0 = self.bay0.reset();
                self.bay1 = self.bay1.reset();
                self
            }
            _ => Bays::fresh(),
        }
    }

    #[tactic(auto, unfolding(crate::specs::Bays::bays_in_range))]
    pub fn in_range(self) -> bool
        ensures { result ≡ bays_in_range self }
    {
        legal_capabilities(self.capabilities.value) & (self.bay0.in_range() & self.bay1.in_range())
    }

    // Bay 0, or bay 1 for any other number.
    #[tactic(auto, unfolding(crate::specs::Registers::bay_of))]
    fn bay(self, number: u32) -> Bay
        ensures { result ≡ bay_of self number }
    {
        match number {
            0 => self.bay0,
            _ => self.bay1,
        }
    }

    #[tactic(auto, unfolding(crate::specs::Registers::with_bay))]
    fn with_bay(mut self, number: u32, bay: Bay) -> Self
        ensures { result ≡ with_bay self number bay }
    {
        match number {
            0 => {
                self.bay0 = bay;
                self
            }
            _ => {
                self.bay1 = bay;
                self
            }
        }
    }

    // An access to the register at an offset, without the settling that follows.
    #[tactic(auto, unfolding(crate::specs::Bays::bays_access, crate::specs::Bays::decoded_access))]
    pub fn access(self, offset: u32, access: Access) -> Reply<Bays>
        ensures { reply_of result ≡ bays_access self offset access }
    {
        let Some(register) = registers::decode(offset, access.width) else {
            return Reply::status(Status::Unclaimed, self);
        };
        if access.write {
            return self.register_write(register, access.value);
        }
        Reply::done(self.register_value(register), self)
    }

    // An event that sets the lines of one bay. Other events do not change the block. The kind is a number, since `bays_event` says what any does.
    #[tactic(auto, unfolding(crate::specs::Bays::bays_event))]
    pub fn event(self, kind: u32, operand: u32) -> Self
        ensures { result ≡ bays_event self kind operand }
    {
        if kind == Bays::LINES {
            let number = operand / 16 % 2;
            let bay = self.bay(number);
            return self.with_bay(number, bay.lines_event(operand));
        }
        self
    }

    // Is a sticky bit of a bay set and enabled?
    #[tactic(auto, unfolding(crate::specs::Bays::alert))]
    pub fn alert(self) -> bool
        ensures { result ≡ alert self }
    {
        self.bay0.alert() | self.bay1.alert()
    }
}

fn legal_capabilities(value: u16) -> bool
    ensures { result ≡ legal_capabilities value }
{
    (value & Bays::CAPABILITIES_MASK == value) & (u32::from(value % 16) <= Bays::BAY_COUNT_MAX)
}
