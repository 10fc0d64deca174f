// Reads and writes of the registers, by their offset from AC00h. `Acpi::access` calls it. See docs/CHIP.md, "ACPI".
ghost use Rattle.std.specs.Prelude.{◌≡◌};
ghost use Rattle.access.specs.Block.{reply_of};
ghost use Rattle.acpi.specs.Registers.{
  control_read,
  register_value,
  register_read,
  command_write,
  control_write,
  register_write,
};

use crate::Acpi;
use access::{Reply, Status};

impl Acpi {
    // A read of PM1a_CNT. Bit 0 is SCI_EN, and bits 2 and 13 are 0, since they are not stored.
    fn control_read(self) -> u32
        ensures { result ≡ control_read self }
    {
        if self.scien {
            return u32::from(self.pm1cnt | Acpi::SCI_EN);
        }
        u32::from(self.pm1cnt)
    }

    // The value of the register at an offset. SMI_CMD reads 0.
    #[tactic(auto, unfolding(crate::specs::Registers::register_value))]
    fn register_value(self, offset: u32) -> u32
        ensures { result ≡ register_value self offset }
    {
        match offset {
            Acpi::P_CNT => u32::from(self.pcnt),
            Acpi::PM1A_STS => u32::from(self.pm1sts),
            Acpi::PM1A_EN => u32::from(self.pm1en),
            Acpi::PM1A_CNT => self.control_read(),
            Acpi::SETUP_IDX => u32::from(self.setupidx),
            Acpi::GPE0_STS => u32::from(self.gpe0sts),
            Acpi::GPE0_EN => u32::from(self.gpe0en),
            Acpi::SETUP_DATA => self.setup_value(),
            Acpi::TIMER => self.timer,
            _ => 0,
        }
    }

    // A read of P_LVL2 or P_LVL3 sets the CPU state.
    #[tactic(auto, unfolding(crate::specs::Registers::register_read))]
    pub(crate) fn register_read(mut self, offset: u32) -> Reply<Acpi>
        ensures { reply_of result ≡ register_read self offset }
    {
        match offset {
            Acpi::P_LVL2 => {
                self.cpu = 2;
                Reply::done(0, self)
            }
            Acpi::P_LVL3 => {
                self.cpu = 3;
                Reply::done(0, self)
            }
            _ => Reply::done(self.register_value(offset), self),
        }
    }

    // A write to SMI_CMD.
    #[tactic(auto, unfolding(crate::specs::Registers::command_write))]
    fn command_write(mut self, value: u32) -> Reply<Acpi>
        ensures { reply_of result ≡ command_write self value }
    {
        match value {
            1 => {
                self.scien = true;
                Reply::status(Status::Done, self)
            }
            2 => {
                self.scien = false;
                Reply::status(Status::Done, self)
            }
            _ => Reply::status(Status::Ignored, self),
        }
    }

    // A write to PM1a_CNT.
    #[tactic(auto, unfolding(crate::specs::Registers::control_write))]
    fn control_write(mut self, value: u32) -> Reply<Acpi>
        ensures { reply_of result ≡ control_write self value }
    {
        self.pm1cnt = mask::masked(value, Acpi::PM1CNT_MASK);
        if value & Acpi::SLP_EN != 0 {
            self.sleeping = true;
            return Reply::status(Status::Done, self);
        }
        Reply::status(Status::Done, self)
    }

    // P_LVL2, P_LVL3 and the timer are read-only.
    #[tactic(auto, unfolding(crate::specs::Registers::register_write))]
    pub(crate) fn register_write(mut self, offset: u32, value: u32) -> Reply<Acpi>
        ensures { reply_of result ≡ register_write self offset value }
    {
        match offset {
            Acpi::P_CNT => {
                self.pcnt = (value & u32::from(Acpi::PCNT_MASK)) as u8;
                Reply::status(Status::Done, self)
            }
            Acpi::SMI_CMD => self.command_write(value),
            Acpi::PM1A_STS => {
                self.pm1sts &= !mask::masked(value, Acpi::ALL_BITS);
                Reply::status(Status::Done, self)
            }
            Acpi::PM1A_EN => {
                self.pm1en = mask::masked(value, Acpi::PM1EN_MASK);
                Reply::status(Status::Done, self)
            }
            Acpi::PM1A_CNT => self.control_write(value),
            Acpi::SETUP_IDX => self.setup_index_write(value),
            Acpi::GPE0_STS => {
                self.gpe0sts &= !mask::masked(value, Acpi::ALL_BITS);
                Reply::status(Status::Done, self)
            }
            Acpi::GPE0_EN => {
                self.gpe0en = mask::masked(value, Acpi::ALL_BITS);
                Reply::status(Status::Done, self)
            }
            Acpi::SETUP_DATA => self.setup_write(value),
            _ => Reply::status(Status::Blocked, self),
        }
    }
}
