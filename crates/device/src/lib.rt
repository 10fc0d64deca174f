// The chip: four register blocks on one bus, with reset, range check, outputs and settling. A call takes the device by value and
// returns the next one. The sequencer, `state` and the programs use it. See docs/CHIP.md.
#![tactic(auto)]

pub mod dispatch;
pub mod event;
pub mod owner;
pub mod single;

ghost use Rattle.std.specs.Prelude.{◌≡◌};
ghost use Rattle.device.specs.Device.{fresh_device, device_in_range, outputs_of, reset_device, settle_device};

use access::Answer;
use acpi::Acpi;
use config::Config;
use key::Key;
use monitor::Monitor;
use owner::Owner;

// The largest block comes first. A device is copied 16 bytes at a time, and in this order the
// two large blocks start at multiples of 16.
#[derive(Clone, Copy)]
pub struct Device {
    pub acpi: Acpi,
    pub key: Key,
    pub monitor: Monitor,
    pub config: Config,
}

// SCI, SMI and the monitor interrupt. They are levels, computed from the state. See docs/CHIP.md, "Outputs".
#[derive(Clone, Copy)]
pub struct Outputs {
    pub sci: bool,
    pub smi: bool,
    pub monitor: bool,
}

// The block that owned the port when the access was made, its answer, and the device after the access.
#[derive(Clone, Copy)]
pub struct AccessResult {
    pub device: Device,
    pub owner: Option<Owner>,
    pub answer: Answer,
}

impl Device {
    // The device after reset 3.
    pub fn fresh() -> Self
        ensures { result ≡ fresh_device }
    {
        Device {
            acpi: Acpi::fresh(),
            key: Key::fresh(),
            monitor: Monitor::fresh(),
            config: Config::fresh(),
        }
    }

    // Each block decides what a reset of this level clears. See docs/CHIP.md, "Resets". The level is a number, since `reset_device` says what any
    // number does.
    #[tactic(auto, unfolding(crate::specs::Device::reset_device))]
    pub fn reset(self, level: u32) -> Self
        ensures { result ≡ reset_device self level }
    {
        Device {
            acpi: self.acpi.reset(level),
            key: self.key.reset(level),
            monitor: self.monitor.reset(level),
            config: self.config.reset(level),
        }
    }

    // Is the device valid? The key has no test, because any byte is a key byte. See docs/CHIP.md, "Valid and saved states".
    #[tactic(auto, unfolding(crate::specs::Device::device_in_range))]
    pub fn in_range(self) -> bool
        ensures { result ≡ device_in_range self }
    {
        self.config.in_range() && self.acpi.in_range() && self.monitor.in_range()
    }

    pub fn outputs(self) -> Outputs
        ensures { result ≡ outputs_of self }
    {
        Outputs {
            sci: self.acpi.sci(),
            smi: self.acpi.smi(),
            monitor: self.monitor.interrupt(),
        }
    }

    // Runs after every access and every event. If no status bit is pending, the device is unchanged.
    #[tactic(auto, using(acpi::proofs::Settle::settle_idle))]
    pub fn settle(mut self) -> Self
        ensures { result ≡ settle_device self }
    {
        if self.acpi.pending() {
            self.acpi = self.acpi.settle();
        }
        self
    }
}
