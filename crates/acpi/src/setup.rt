// SETUP_IDX and SETUP_DATA: the maps of the pins, GBL_STS and the IRQ. registers.rt calls it. See docs/CHIP.md, "Setup
// registers".
ghost use Rattle.std.specs.Prelude.{◌≡◌, ◌<◌};
ghost use Rattle.access.specs.Block.{reply_of};
ghost use Rattle.acpi.specs.Setup.{
  is_setup_index,
  setup_index_write,
  setup_value,
  map_write,
  irq_write,
  setup_write,
};

use crate::{Acpi, map};
use access::{Reply, Status};

pub fn is_setup_index(index: u32) -> bool
    ensures { result ≡ is_setup_index index }
{
    (index == u32::from(Acpi::SETUP_NONE))
        | ((u32::from(Acpi::SETUP_FIRST_MAP) <= index) & (index <= u32::from(Acpi::SETUP_LAST_MAP)))
        | (index == u32::from(Acpi::SETUP_GLOBAL_EVENT))
        | (index == u32::from(Acpi::SETUP_IRQ))
}

impl Acpi {
    #[tactic(auto, unfolding(crate::specs::Setup::setup_index_write))]
    pub(crate) fn setup_index_write(mut self, value: u32) -> Reply<Acpi>
        ensures { reply_of result ≡ setup_index_write self value }
    {
        if is_setup_index(value) {
            self.setupidx = value as u16;
            return Reply::status(Status::Done, self);
        }
        Reply::status(Status::Ignored, self)
    }

    // The value of SETUP_DATA. It is 0 under 00h and 40h; in range, no other index reaches the last case.
    #[tactic(auto, unfolding(crate::specs::Setup::setup_value))]
    pub(crate) fn setup_value(self) -> u32
        ensures { result ≡ setup_value self }
    {
        let index = self.setupidx;
        match index {
            Acpi::SETUP_FIRST_MAP..=Acpi::SETUP_LAST_MAP => {
                let maps = self.maps;
                let pin = (index - Acpi::SETUP_FIRST_MAP) as usize;
                u32::from(maps[pin])
            }
            Acpi::SETUP_IRQ => u32::from(self.irq),
            _ => 0,
        }
    }

    #[tactic(auto, unfolding(crate::specs::Setup::map_write))]
    fn map_write(mut self, pin: usize, value: u32) -> Reply<Acpi>
        requires { pin < 8 }
        ensures { reply_of result ≡ map_write self pin value }
    {
        if map::is_legal(value) {
            self.maps[pin] = value as u16;
            return Reply::status(Status::Done, self);
        }
        Reply::status(Status::Ignored, self)
    }

    #[tactic(auto, unfolding(crate::specs::Setup::irq_write))]
    fn irq_write(mut self, value: u32) -> Reply<Acpi>
        ensures { reply_of result ≡ irq_write self value }
    {
        if value <= u32::from(Acpi::IRQ_MAX) {
            self.irq = value as u8;
            return Reply::status(Status::Done, self);
        }
        Reply::status(Status::Ignored, self)
    }

    // A write to SETUP_DATA. Under 00h every value is ignored; in range, no other index reaches the last case.
    #[tactic(auto, unfolding(crate::specs::Setup::setup_write))]
    pub(crate) fn setup_write(self, value: u32) -> Reply<Acpi>
        ensures { reply_of result ≡ setup_write self value }
    {
        let index = self.setupidx;
        match index {
            Acpi::SETUP_FIRST_MAP..=Acpi::SETUP_LAST_MAP => self.map_write(
                (index - Acpi::SETUP_FIRST_MAP) as usize,
                value,
            ),
            Acpi::SETUP_GLOBAL_EVENT => Reply::status(Status::Done, self.raise(Acpi::GBL_STS)),
            Acpi::SETUP_IRQ => self.irq_write(value),
            _ => Reply::status(Status::Ignored, self),
        }
    }
}
