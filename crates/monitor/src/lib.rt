// The monitor: an index register, and a data register that accesses the register at the index. See docs/CHIP.md, "Monitor".
// `device` calls it and knows its ports. tables.rt has the register table, bytes.rt the saved form.
#![tactic(auto)]

mod bytes;
pub mod tables;

ghost use Rattle.std.specs.Prelude.{◌≡◌, ◌<◌, ◌&&◌, true, fold, zip};
ghost use Rattle.access.specs.Block.{reply_of};
ghost use Rattle.mask.specs.Mask.{within};
ghost use Rattle.monitor.specs.Monitor.{
  fresh_monitor,
  monitor_reset,
  monitor_in_range,
  monitor_access,
  index_access,
  data_access,
  data_read,
  data_write,
  lockable_write,
  lock_set,
  register,
  with_register,
  monitor_event,
  interrupt,
};
ghost use Rattle.monitor.specs.Table.{kind_number, kind_of, mask_of, reset_of, slot_of};

use access::{Access, Reply, Status};
use tables::RegisterKind;

// Only registers that can change are stored: 40h, 7Ch, 7Eh, 80h to 83h, 90h, 91h and B5h to B7h, in this order.
#[derive(Clone, Copy)]
pub struct Monitor {
    pub index: u8,
    pub registers: [u8; 12],
}

impl Monitor {
    // Bits: Lock in 40h, INTEN in 7Ch, the enables in 7Eh, the voltage status in 83h.
    pub const LOCK_BIT: u8 = 0x02;

    pub const INTEN: u8 = 0x04;

    pub const VTR_ENABLE: u8 = 0x10;

    pub const VBAT_ENABLE: u8 = 0x02;

    pub const VOLT_ENABLE: u8 = 0x01;

    pub const VBAT_STATUS: u8 = 0x02;

    pub const VTR_STATUS: u8 = 0x01;

    // The places in `registers` of 40h (Lock), 7Ch (interrupt control), 7Eh (interrupt enables) and 83h (voltage status).
    const LOCK_SLOT: usize = 0;

    const INTERRUPT_CONTROL_SLOT: usize = 1;

    const INTERRUPT_ENABLES_SLOT: usize = 2;

    const VOLTAGE_STATUS_SLOT: usize = 6;

    // The kind of a sensor event.
    pub const SENSOR: u32 = 5;

    // The offset of the index register. Any other offset is the data register.
    pub const INDEX_PORT: u32 = 0;

    pub fn fresh() -> Self
        ensures { result ≡ fresh_monitor }
    {
        Monitor {
            index: 0,
            registers: Monitor::STORED_RESET,
        }
    }

    // Reset 0 (PCI) keeps the monitor. The other resets reset all of it. The level is a number, since `monitor_reset` says what any number does.
    pub fn reset(self, level: u32) -> Self
        ensures { result ≡ monitor_reset self level }
    {
        match level {
            0 => self,
            _ => Monitor::fresh(),
        }
    }

    // Is every stored register within its mask?
    pub fn in_range(self) -> bool
        ensures { result ≡ monitor_in_range self }
    {
        all_within(&self.registers, &Monitor::STORED_MASK)
    }

    #[tactic(auto, unfolding(crate::specs::Monitor::monitor_access))]
    pub fn access(self, offset: u32, access: Access) -> Reply<Monitor>
        ensures { reply_of result ≡ monitor_access self offset access }
    {
        if !access::takes_byte(access.width) {
            return Reply::status(Status::Unclaimed, self);
        }
        match offset {
            Monitor::INDEX_PORT => self.index_access(access),
            _ => self.data_access(access),
        }
    }

    fn index_access(mut self, access: Access) -> Reply<Monitor>
        ensures { reply_of result ≡ index_access self access }
    {
        if access.write {
            self.index = (access.value % 256) as u8;
            return Reply::status(Status::Done, self);
        }
        Reply::done(u32::from(self.index), self)
    }

    fn data_access(self, access: Access) -> Reply<Monitor>
        ensures { reply_of result ≡ data_access self access }
    {
        if access.write {
            return self.data_write((access.value % 256) as u8);
        }
        self.data_read()
    }

    // A read-only register always has its reset value.
    #[tactic(auto, using(crate::proofs::Table::slot_below), unfolding(crate::specs::Monitor::data_read))]
    fn data_read(self) -> Reply<Monitor>
        ensures { reply_of result ≡ data_read self }
    {
        let index = self.index;
        match Monitor::kind_of(index) {
            RegisterKind::Absent => Reply::status(Status::Absent, self),
            RegisterKind::ReadOnly => Reply::done(u32::from(Monitor::reset_of(index)), self),
            _ => Reply::done(u32::from(self.register(index)), self),
        }
    }

    #[tactic(auto, using(crate::proofs::Table::slot_below), unfolding(crate::specs::Monitor::write_as))]
    fn data_write(self, value: u8) -> Reply<Monitor>
        ensures { reply_of result ≡ data_write self value }
    {
        let index = self.index;
        match Monitor::kind_of(index) {
            RegisterKind::Lock => self.lockable_write(
                index,
                self.register(index) | value & Monitor::mask_of(index),
            ),
            RegisterKind::ReadOnly => Reply::status(Status::Blocked, self),
            RegisterKind::Lockable => self.lockable_write(index, value & Monitor::mask_of(index)),
            RegisterKind::Clearable => Reply::status(
                Status::Done,
                self.with_register(index, self.register(index) & !value),
            ),
            RegisterKind::Unlocked => Reply::status(
                Status::Done,
                self.with_register(index, value & Monitor::mask_of(index)),
            ),
            RegisterKind::Absent => Reply::status(Status::Absent, self),
        }
    }

    // Lock is bit 1 of 40h. The index does not matter.
    fn lock_set(self) -> bool
        ensures { result ≡ lock_set self }
    {
        self.registers[Monitor::LOCK_SLOT] & Monitor::LOCK_BIT != 0
    }

    // A write to a register that Lock locks.
    #[tactic(auto, unfolding(crate::specs::Monitor::lockable_write))]
    fn lockable_write(self, index: u8, value: u8) -> Reply<Monitor>
        requires { slot_of index < 12 }
        ensures { reply_of result ≡ lockable_write self index value }
    {
        if self.lock_set() {
            return Reply::status(Status::Blocked, self);
        }
        Reply::status(Status::Done, self.with_register(index, value))
    }

    fn kind_of(index: u8) -> RegisterKind
        ensures { kind_number result ≡ kind_of index }
    {
        Monitor::KIND[index as usize]
    }

    fn reset_of(index: u8) -> u8
        ensures { result ≡ reset_of index }
    {
        Monitor::RESET[index as usize]
    }

    fn mask_of(index: u8) -> u8
        ensures { result ≡ mask_of index }
    {
        Monitor::MASK[index as usize]
    }

    // The place in `registers` of the register at an index; 12 if it is not stored, as in the definition `slot_of`. Not an Option: `register` and
    // `with_register` are called only where the kind says that the register is stored (`slot_below`), so nobody looks for the 12.
    fn slot_of(index: u8) -> usize
        ensures { result ≡ slot_of index }
    {
        match index {
            0x40 => Monitor::LOCK_SLOT,
            0x7C => Monitor::INTERRUPT_CONTROL_SLOT,
            0x7E => Monitor::INTERRUPT_ENABLES_SLOT,
            0x80 => 3,
            0x81 => 4,
            0x82 => 5,
            0x83 => Monitor::VOLTAGE_STATUS_SLOT,
            0x90 => 7,
            0x91 => 8,
            0xB5 => 9,
            0xB6 => 10,
            0xB7 => 11,
            _ => 12,
        }
    }

    // The requires is here, in `with_register` and in `lockable_write`: a type for it would need a view of its own for three short functions.
    fn register(self, index: u8) -> u8
        requires { slot_of index < 12 }
        ensures { result ≡ register self index }
    {
        let slot = Monitor::slot_of(index);
        self.registers[slot]
    }

    fn with_register(mut self, index: u8, value: u8) -> Self
        requires { slot_of index < 12 }
        ensures { result ≡ with_register self index value }
    {
        let slot = Monitor::slot_of(index);
        self.registers[slot] = value;
        self
    }

    // A sensor event sets bits of 83h and clears none. Other events do not change the monitor. The kind is a number: `EventKind` is in `device`,
    // which depends on this crate, and `monitor_event` says what any number does.
    pub fn event(mut self, kind: u32, operand: u32) -> Self
        ensures { result ≡ monitor_event self kind operand }
    {
        if kind == Monitor::SENSOR {
            let bits = (operand % 4) as u8;
            self.registers[Monitor::VOLTAGE_STATUS_SLOT] |= bits;
        }
        self
    }

    // The monitor interrupt: INTEN and VOLT enable, and both VTR bits (enable and status) or both VBAT bits.
    pub fn interrupt(self) -> bool
        ensures { result ≡ interrupt self }
    {
        let control = self.registers[Monitor::INTERRUPT_CONTROL_SLOT];
        let enable = self.registers[Monitor::INTERRUPT_ENABLES_SLOT];
        let status = self.registers[Monitor::VOLTAGE_STATUS_SLOT];
        (control & Monitor::INTEN != 0)
            & (enable & Monitor::VOLT_ENABLE != 0)
            & ((enable & Monitor::VTR_ENABLE != 0) & (status & Monitor::VTR_STATUS != 0)
                | (enable & Monitor::VBAT_ENABLE != 0) & (status & Monitor::VBAT_STATUS != 0))
    }
}

// Is each register within its mask? A fold has no early return: the compiler then tests all registers at once.
fn all_within(registers: &[u8], masks: &[u8]) -> bool
    ensures { result ≡ fold (λ all pair. all && within pair.1 pair.0) true (zip registers.now masks.now) }
{
    registers.iter().zip(masks.iter()).fold(
        true,
        |all, (register, mask)| all & (register & mask == *register),
    )
}
