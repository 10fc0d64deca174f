// Events from outside the chip. An event is a 32-bit number: the kind in bits 31 to 24, the operand in bits 23 to 0. The single calls
// and the sequencer check it with `is_event` and then call `Device::apply_event`. See docs/CHIP.md, "Events".
ghost use Rattle.std.specs.Prelude.{◌≡◌, ◌≤◌};
ghost use Rattle.device.specs.Event.{apply_event, greatest_operand, is_event, most_ticks, tick_event};
ghost use Rattle.device.specs.EventKinds.{NumberedEventKind, event_kind_number};

use crate::Device;
use acpi::Acpi;
use monitor::Monitor;

// The kind is the number divided by this, and the operand is the remainder.
pub const KIND_UNIT: u32 = 0x0100_0000;

// The most ticks of one event.
const MOST_TICKS: u32 = 65535;

// The number of a reset. The other kinds are constants of the block that takes them.
pub const RESET: u32 = 6;

// The kinds of events.
#[derive(Clone, Copy, Debug, PartialEq, Eq, Hash)]
pub enum EventKind {
    Ticks,
    Pin,
    RtcAlarm,
    BusMaster,
    Sensor,
    Reset,
    Button,
}

// A number that no kind has. `record`, which has such a type too, is not below this crate.
#[derive(Clone, Copy, Debug, PartialEq, Eq, Hash)]
pub struct UnknownKind(pub u32);

impl TryFrom<u32> for EventKind {
    type Error = UnknownKind;

    ghost try_from_gives = { NumberedEventKind };

    #[tactic(auto, unfolding(crate::specs::Event::event_block))]
    fn try_from(number: u32) -> Result<Self, UnknownKind> {
        match number {
            Acpi::TICKS => Ok(EventKind::Ticks),
            Acpi::PIN => Ok(EventKind::Pin),
            Acpi::RTC_ALARM => Ok(EventKind::RtcAlarm),
            Acpi::BUS_MASTER => Ok(EventKind::BusMaster),
            Monitor::SENSOR => Ok(EventKind::Sensor),
            RESET => Ok(EventKind::Reset),
            Acpi::BUTTON => Ok(EventKind::Button),
            _ => Err(UnknownKind(number)),
        }
    }
}

impl EventKind {
    #[tactic(auto, unfolding(crate::specs::Event::greatest_operand))]
    fn greatest_operand(self) -> u32
        ensures { result ≡ greatest_operand (event_kind_number self) }
    {
        match self {
            EventKind::Ticks => MOST_TICKS,
            EventKind::Pin => 15,
            EventKind::Sensor => 3,
            EventKind::Reset => 3,
            EventKind::RtcAlarm | EventKind::BusMaster | EventKind::Button => 0,
        }
    }
}

// The event of this many ticks.
pub fn tick_event(ticks: u32) -> u32
    requires { ticks ≤ most_ticks }
    ensures { result ≡ tick_event ticks }
{
    Acpi::TICKS * KIND_UNIT + ticks
}

// False for the events that are refused with 12: the kind is unknown or the operand is too large.
#[tactic(auto, unfolding(crate::specs::Event::is_event))]
pub fn is_event(number: u32) -> bool
    ensures { result ≡ is_event number }
{
    match EventKind::try_from(number / KIND_UNIT) {
        Ok(kind) => number % KIND_UNIT <= kind.greatest_operand(),
        Err(_) => false,
    }
}

impl Device {
    // The device after the event and the settling. A block takes the number of the kind, since its definition says what any number does.
    #[tactic(auto, unfolding(crate::specs::Event::apply_event, crate::specs::Event::event_effect, crate::specs::Event::event_block))]
    pub fn apply_event(mut self, number: u32) -> Self
        ensures { result ≡ apply_event self number }
    {
        let kind = number / KIND_UNIT;
        let operand = number % KIND_UNIT;
        match EventKind::try_from(kind) {
            Ok(
                EventKind::Ticks
                | EventKind::Pin
                | EventKind::RtcAlarm
                | EventKind::BusMaster
                | EventKind::Button,
            ) => {
                self.acpi = self.acpi.event(kind, operand);
                self.settle()
            }
            Ok(EventKind::Sensor) => {
                self.monitor = self.monitor.event(kind, operand);
                self.settle()
            }
            Ok(EventKind::Reset) => self.reset(operand).settle(),
            Err(_) => self.settle(),
        }
    }
}
