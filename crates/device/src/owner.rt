// Which block owns a port: the first that claims it. The port and the configuration decide, because the configuration holds the
// activate bit and the bases. `Device::dispatch` calls `Owner::of`. See docs/CHIP.md, "Port map".
ghost use Rattle.std.specs.Prelude.{◌≡◌};
ghost use Rattle.device.specs.Owner.{owner, in_ports, is_active, monitor_claims, key_claims, monitor_port};
ghost use Rattle.device.specs.Owners.{block_number, owner_number};

use crate::Device;
use config::Config;

// A block that owns ports, in the order of the claims.
#[derive(Clone, Copy, Debug, PartialEq, Eq, Hash)]
pub enum Owner {
    Configuration = 1,
    Acpi = 2,
    Monitor = 3,
    Key = 4,
}

// The ports of the blocks.
impl Device {
    pub const INDEX_PORT: u32 = 0x002E;

    pub const DATA_PORT: u32 = 0x002F;

    pub const ACPI_FIRST: u32 = 0xAC00;

    pub const ACPI_LAST: u32 = 0xAC1F;
    // Offsets of the monitor's index and data ports from the runtime base.
    pub const MONITOR_INDEX: u32 = 0x70;

    pub const MONITOR_DATA: u32 = 0x71;

    pub const KEY_BYTES: u32 = 32;
}

// A block at fixed ports claims all ports from `first` to `last`.
fn in_ports(first: u32, last: u32, port: u32) -> bool
    ensures { result ≡ in_ports first last port }
{
    (first..=last).contains(&port)
}

// Without this bit the monitor and the key have no ports.
fn is_active(config: Config) -> bool
    ensures { result ≡ is_active config }
{
    config.activate & Config::ACTIVATE_MASK != 0
}

#[tactic(auto, unfolding(crate::specs::Owner::monitor_claims))]
fn monitor_claims(config: Config, port: u32) -> bool
    ensures { result ≡ monitor_claims config port }
{
    let base = config.runtime_base();
    is_active(config)
        && base != 0
        && (port == base + Device::MONITOR_INDEX || port == base + Device::MONITOR_DATA)
}

// The first port of the monitor, which is its index port.
pub fn monitor_port(config: Config) -> u32
    ensures { result ≡ monitor_port config }
{
    config.runtime_base() + Device::MONITOR_INDEX
}

#[tactic(auto, unfolding(crate::specs::Owner::key_claims))]
fn key_claims(config: Config, port: u32) -> bool
    ensures { result ≡ key_claims config port }
{
    let base = config.key_base();
    is_active(config) && base != 0 && base <= port && port < base + Device::KEY_BYTES
}

// The number of the block that owns a port, as exported answers and log entries name it. 0 is nobody.
pub fn number(owner: Option<Owner>) -> u32
    ensures { result ≡ owner_number owner }
{
    owner.map_or(0, Owner::number)
}

impl Owner {
    pub fn number(self) -> u32
        ensures { result ≡ block_number self }
    {
        self as u32
    }

    // The first block that claims the port.
    #[tactic(auto, unfolding(crate::specs::Owner::owner))]
    pub fn of(config: Config, port: u32) -> Option<Self>
        ensures { owner_number result ≡ owner config port }
    {
        if in_ports(Device::INDEX_PORT, Device::DATA_PORT, port) {
            Some(Owner::Configuration)
        } else if in_ports(Device::ACPI_FIRST, Device::ACPI_LAST, port) {
            Some(Owner::Acpi)
        } else if monitor_claims(config, port) {
            Some(Owner::Monitor)
        } else if key_claims(config, port) {
            Some(Owner::Key)
        } else {
            None
        }
    }
}
