// The ACPI block: its state, resets, events, settling and outputs. A register is named by its offset from AC00h. See
// docs/CHIP.md, "ACPI". `device` calls it. registers.rt and setup.rt have the registers, map.rt the maps of the pins, and
// bytes.rt the saved form.
#![tactic(auto)]

mod bytes;
mod map;
mod registers;
mod setup;

ghost use Rattle.std.specs.Prelude.{◌≡◌, ◌<◌};
ghost use Rattle.access.specs.Block.{reply_of};
ghost use Rattle.mask.specs.Every.{all_below};
ghost use Rattle.acpi.specs.Acpi.{
  fresh_acpi,
  acpi_reset,
  acpi_in_range,
  acpi_access,
  acpi_event,
  acpi_settle,
  is_cpu_state,
  map_in_range,
};
ghost use Rattle.acpi.specs.Event.{ticked, raise_mapped, pin_level};
ghost use Rattle.acpi.specs.Fields.{raise};
ghost use Rattle.acpi.specs.Registers.{takes};
ghost use Rattle.acpi.specs.Settle.{pending, sci_on, smi_on, wake};

use access::{Access, Reply, Status};

// The order of the fields leaves no padding between them, and was chosen for speed. See bench/README.md.
#[derive(Clone, Copy)]
pub struct Acpi {
    // The map and the level of each pin. Two arrays, since a pair would have a byte of padding.
    pub maps: [u16; 8],
    pub levels: [bool; 8],
    pub timer: u32,
    // The stored bits of PM1a_CNT, and SETUP_IDX.
    pub pm1cnt: u16,
    pub setupidx: u16,
    // The CPU state, sleeping and PM1a_STS: the fields that settling changes. The CPU state is a number, since a saved device that is loaded may
    // hold any byte there (`acpi_from`); `in_range` tests it.
    pub cpu: u8,
    pub sleeping: bool,
    pub pm1sts: u16,
    // PM1a_EN, GPE0_STS, GPE0_EN.
    pub pm1en: u16,
    pub gpe0sts: u16,
    pub gpe0en: u16,
    // P_CNT, the IRQ, SCI_EN.
    pub pcnt: u8,
    pub irq: u8,
    pub scien: bool,
}

impl Acpi {
    // Offsets of the registers.
    pub const P_CNT: u32 = 0;

    pub const P_LVL2: u32 = 4;

    pub const P_LVL3: u32 = 5;

    pub const SMI_CMD: u32 = 6;

    pub const PM1A_STS: u32 = 8;

    pub const PM1A_EN: u32 = 10;

    pub const PM1A_CNT: u32 = 12;

    pub const SETUP_IDX: u32 = 14;

    pub const GPE0_STS: u32 = 16;

    pub const GPE0_EN: u32 = 18;

    pub const SETUP_DATA: u32 = 20;

    pub const TIMER: u32 = 24;
    // Masks of the registers.
    pub const PCNT_MASK: u8 = 0x17;

    pub const PM1STS_MASK: u16 = 0x8F31;

    pub const PM1EN_MASK: u16 = 0x0721;

    pub const PM1CNT_MASK: u16 = 0x1C02;

    pub const ALL_BITS: u16 = 0xFFFF;
    // Bits of PM1a_STS.
    pub const TMR_STS: u16 = 0x0001;

    pub const BM_STS: u16 = 0x0010;

    pub const GBL_STS: u16 = 0x0020;

    pub const PWRBTN_STS: u16 = 0x0100;

    pub const SLPBTN_STS: u16 = 0x0200;

    pub const RTC_STS: u16 = 0x0400;

    pub const PWRBTNOR_STS: u16 = 0x0800;

    pub const WAKE_STS: u16 = 0x8000;
    // Bit 0 of PM1a_CNT reads SCI_EN.
    pub const SCI_EN: u16 = 0x0001;
    // Writing 1 to bit 13 of PM1a_CNT puts the chip to sleep.
    pub const SLP_EN: u32 = 0x2000;
    // The values of SETUP_IDX: no register, the maps of pins 0 to 7, the global event, and the IRQ.
    pub const SETUP_NONE: u16 = 0x00;

    pub const SETUP_FIRST_MAP: u16 = 0x10;

    pub const SETUP_LAST_MAP: u16 = 0x17;

    pub const SETUP_GLOBAL_EVENT: u16 = 0x40;

    pub const SETUP_IRQ: u16 = 0x41;
    // Map values: the largest value, bits 9 to 11 (must be 0), and bit 8 (1 for a falling edge).
    pub const MAP_MAX: u32 = 0x1FFF;

    pub const MAP_RESERVED: u32 = 0x0E00;

    pub const MAP_FALL: u16 = 0x0100;

    pub const IRQ_RESET: u8 = 9;

    pub const IRQ_MAX: u8 = 15;

    pub const TIMER_SIZE: u32 = 0x0100_0000;

    pub const TIMER_BIT_23: u32 = 0x0080_0000;
    // The kinds of events that change this block.
    pub const TICKS: u32 = 1;

    pub const PIN: u32 = 2;

    pub const RTC_ALARM: u32 = 3;

    pub const BUS_MASTER: u32 = 4;

    pub const BUTTON: u32 = 7;
    // The bit of a pin event that is the new level.
    pub const PIN_LEVEL: u32 = 0x08;

    pub fn fresh() -> Self
        ensures { result ≡ fresh_acpi }
    {
        Acpi {
            pcnt: 0,
            cpu: 0,
            scien: false,
            pm1sts: 0,
            pm1en: 0,
            pm1cnt: 0,
            sleeping: false,
            setupidx: 0,
            gpe0sts: 0,
            gpe0en: 0,
            maps: [0; 8],
            irq: Acpi::IRQ_RESET,
            timer: 0,
            levels: [false; 8],
        }
    }

    // Resets 0 (PCI) and 1 (VCC) keep the block. Reset 2 (VTR) resets all of it except the pin levels. The level is a number, since `acpi_reset`
    // says what any number does.
    #[tactic(auto, unfolding(crate::specs::Acpi::acpi_reset))]
    pub fn reset(self, level: u32) -> Self
        ensures { result ≡ acpi_reset self level }
    {
        match level {
            0 => self,
            1 => self,
            2 => {
                let mut next = Acpi::fresh();
                let levels = self.levels;
                next.levels = levels;
                next
            }
            _ => Acpi::fresh(),
        }
    }

    #[tactic(auto, unfolding(crate::specs::Acpi::acpi_in_range))]
    pub fn in_range(self) -> bool
        ensures { result ≡ acpi_in_range self }
    {
        (self.pcnt & Acpi::PCNT_MASK == self.pcnt)
            & is_cpu_state(self.cpu)
            & (self.pm1sts & Acpi::PM1STS_MASK == self.pm1sts)
            & (self.pm1en & Acpi::PM1EN_MASK == self.pm1en)
            & (self.pm1cnt & Acpi::PM1CNT_MASK == self.pm1cnt)
            & setup::is_setup_index(u32::from(self.setupidx))
            & (self.irq <= Acpi::IRQ_MAX)
            & (self.timer < Acpi::TIMER_SIZE)
            & maps_in_range(&self.maps)
    }

    // Is there a status bit that is 1 and enabled?
    #[tactic(auto, unfolding(crate::specs::Settle::pending))]
    pub fn pending(self) -> bool
        ensures { result ≡ pending self }
    {
        (self.pm1sts & self.pm1en != 0) | (self.gpe0sts & self.gpe0en != 0)
    }

    #[tactic(auto, unfolding(crate::specs::Settle::sci_on))]
    pub fn sci(self) -> bool
        ensures { result ≡ sci_on self }
    {
        self.pending() & self.scien
    }

    #[tactic(auto, unfolding(crate::specs::Settle::smi_on))]
    pub fn smi(self) -> bool
        ensures { result ≡ smi_on self }
    {
        self.pending() & !self.scien
    }

    // A sleeping chip wakes up when a status bit is pending.
    #[tactic(auto, unfolding(crate::specs::Settle::wake))]
    fn wake(mut self) -> Self
        ensures { result ≡ wake self }
    {
        if self.sleeping & self.pending() {
            self.sleeping = false;
            return self.raise(Acpi::WAKE_STS);
        }
        self
    }

    // `Device::settle` calls this after every access and every event.
    #[tactic(auto, unfolding(crate::specs::Acpi::acpi_settle))]
    pub fn settle(self) -> Self
        ensures { result ≡ acpi_settle self }
    {
        let mut next = self.wake();
        if next.sci() | next.smi() {
            next.cpu = 0;
            return next;
        }
        next
    }

    // Sets bits of PM1a_STS.
    fn raise(mut self, bits: u16) -> Self
        ensures { result ≡ raise self bits }
    {
        self.pm1sts |= bits;
        self
    }

    // An event has at most 65,535 ticks, so bit 23 has changed exactly if it differs before and after.
    #[tactic(auto, unfolding(crate::specs::Event::ticked))]
    fn tick(mut self, ticks: u32) -> Self
        ensures { result ≡ ticked self ticks }
    {
        let before = self.timer;
        let after = before.wrapping_add(ticks) % Acpi::TIMER_SIZE;
        self.timer = after;
        if before & Acpi::TIMER_BIT_23 == after & Acpi::TIMER_BIT_23 {
            return self;
        }
        self.raise(Acpi::TMR_STS)
    }

    // Sets the status bit that a map value selects, if it selects one.
    #[tactic(auto, unfolding(crate::specs::Event::raise_mapped))]
    fn raise_mapped(mut self, value: u16) -> Self
        ensures { result ≡ raise_mapped self value }
    {
        let target = value % 256;
        match target {
            0x08 => self.raise(Acpi::PWRBTN_STS),
            0x09 => self.raise(Acpi::SLPBTN_STS),
            0x10..=0x1F => {
                self.gpe0sts |= map::gpe_bit(target);
                self
            }
            _ => self,
        }
    }

    // Stores the new level of a pin. A change in the direction of its map sets the mapped status bit.
    #[tactic(auto, unfolding(crate::specs::Event::pin_level))]
    fn pin_level(mut self, pin: usize, level: bool) -> Self
        requires { pin < 8 }
        ensures { result ≡ pin_level self pin level }
    {
        let value = self.maps[pin];
        let old = self.levels[pin];
        self.levels[pin] = level;
        if map::in_direction(value, old, level) {
            return self.raise_mapped(value);
        }
        self
    }

    // An event, without the settling that follows. Kinds of other blocks do not change this block. The kind is a number: `EventKind` is in
    // `device`, which depends on this crate, and `acpi_event` says what any number does.
    #[tactic(auto, unfolding(crate::specs::Acpi::acpi_event))]
    pub fn event(self, kind: u32, operand: u32) -> Self
        ensures { result ≡ acpi_event self kind operand }
    {
        match kind {
            Acpi::TICKS => self.tick(operand),
            Acpi::PIN => self.pin_level((operand % 8) as usize, operand & Acpi::PIN_LEVEL != 0),
            Acpi::RTC_ALARM => self.raise(Acpi::RTC_STS),
            Acpi::BUS_MASTER => self.raise(Acpi::BM_STS),
            Acpi::BUTTON => self.raise(Acpi::PWRBTNOR_STS),
            _ => self,
        }
    }

    // An access to the register at an offset, without the settling that follows.
    #[tactic(auto, unfolding(crate::specs::Acpi::acpi_access))]
    pub fn access(self, offset: u32, access: Access) -> Reply<Acpi>
        ensures { reply_of result ≡ acpi_access self offset access }
    {
        if takes(offset, access.width) {
            if access.write {
                return self.register_write(offset, access.value);
            }
            return self.register_read(offset);
        }
        Reply::status(Status::Unclaimed, self)
    }
}

// Does the block have a register of this width at the offset?
#[tactic(auto, unfolding(crate::specs::Registers::takes))]
fn takes(offset: u32, width: u32) -> bool
    ensures { result ≡ takes offset width }
{
    match offset {
        Acpi::P_CNT => width == 4,
        Acpi::P_LVL2 => width == 1,
        Acpi::P_LVL3 => width == 1,
        Acpi::SMI_CMD => width == 1,
        Acpi::PM1A_STS => width == 2,
        Acpi::PM1A_EN => width == 2,
        Acpi::PM1A_CNT => width == 2,
        Acpi::SETUP_IDX => width == 2,
        Acpi::GPE0_STS => width == 2,
        Acpi::GPE0_EN => width == 2,
        Acpi::SETUP_DATA => width == 4,
        Acpi::TIMER => width == 4,
        _ => false,
    }
}

fn is_cpu_state(value: u8) -> bool
    ensures { result ≡ is_cpu_state value }
{
    (value == 0) | (value == 2) | (value == 3)
}

// No early return: the compiler then tests all maps at once.
fn maps_in_range(maps: &[u16; 8]) -> bool
    ensures { result ≡ all_below 8 (map_in_range maps.now) }
{
    maps.iter()
        .fold(true, |legal, map| legal & map::is_legal(u32::from(*map)))
}
