// Saves a device as 106 bytes, block after block, and loads it again. `runnelopal` and `replay` use it. See docs/STATE.md.
// `sequencer_state` has the same functions for the sequencer, and each block has its own `to_bytes`. A trait for them would return an array whose
// length is computed from the type, which this project does not use.
#![tactic(auto)]

pub mod call;

ghost use Rattle.std.specs.Prelude.{◌≡◌, false, true, length, IfOk, OnErr};
ghost use Rattle.state.specs.State.{
  state_bytes,
  state_size,
  is_saved,
  device_from,
  holds_device,
  save_refusal,
  saved,
  loaded,
  load_of,
  device_or,
};
ghost use Rattle.outcome.specs.Refused.{refusal_in};

use acpi::Acpi;
use config::Config;
use device::Device;
use key::Key;
use monitor::Monitor;
use outcome::{RefusalKind, Refused};

// Where the bytes of each block start, and the length of a saved state.
const KEY_START: usize = Config::SIZE;

const MONITOR_START: usize = KEY_START + Key::SIZE;

const ACPI_START: usize = MONITOR_START + Monitor::SIZE;

pub const SIZE: usize = ACPI_START + Acpi::SIZE;

// Bytes that hold no device, and a slice of another length, are refused with 11 at place 0.
const NO_DEVICE: Refused = Refused {
    kind: RefusalKind::BadState,
    place: 0,
};

#[tactic(auto, unfolding(crate::specs::State::state_bytes))]
pub fn bytes_of(device: Device) -> [u8; SIZE]
    ensures { result ≡ state_bytes device }
{
    let mut bytes = [0u8; SIZE];
    bytes[..KEY_START].copy_from_slice(&device.config.to_bytes());
    bytes[KEY_START..MONITOR_START].copy_from_slice(&device.key.to_bytes());
    bytes[MONITOR_START..ACPI_START].copy_from_slice(&device.monitor.to_bytes());
    bytes[ACPI_START..].copy_from_slice(&device.acpi.to_bytes());
    bytes
}

// Whether a device can hold the bytes. It cannot, for example, if a flag is neither 0 nor 1.
fn is_saved(bytes: &[u8]) -> bool
    requires { length bytes.now ≡ state_size }
    ensures { result ≡ is_saved bytes.now }
{
    let config = &bytes[0..KEY_START];
    let monitor = &bytes[MONITOR_START..ACPI_START];
    let acpi = &bytes[ACPI_START..SIZE];
    Config::is_saved(config) & (Monitor::is_saved(monitor) & Acpi::is_saved(acpi))
}

fn read_from(bytes: &[u8]) -> Device
    requires { length bytes.now ≡ state_size }
    ensures { result ≡ device_from bytes.now }
{
    let config = &bytes[0..KEY_START];
    let key = &bytes[KEY_START..MONITOR_START];
    let monitor = &bytes[MONITOR_START..ACPI_START];
    let acpi = &bytes[ACPI_START..SIZE];
    Device {
        config: Config::from_bytes(config),
        acpi: Acpi::from_bytes(acpi),
        monitor: Monitor::from_bytes(monitor),
        key: Key::from_bytes(key),
    }
}

// Do the bytes have the length of a state, and can a device hold them?
pub fn holds_device(bytes: &[u8]) -> bool
    ensures { result ≡ holds_device bytes.now }
{
    if bytes.len() != SIZE {
        return false;
    }
    is_saved(bytes)
}

// Writes the state into a slice of `SIZE` bytes. A slice of any other length is unchanged, and refused.
#[tactic(auto, unfolding(crate::specs::State::saved))]
pub fn save(device: Device, bytes: &mut [u8]) -> Result<(), Refused>
    ensures refusal { refusal_in result ≡ save_refusal bytes.old }
    ensures bytes { bytes.new ≡ saved device bytes.old }
{
    if bytes.len() == SIZE {
        bytes.copy_from_slice(&bytes_of(device));
        return Ok(());
    }
    Err(NO_DEVICE)
}

// Reads the state from a slice. Refuses a slice that is not `SIZE` bytes long, and bytes that no device can hold. A device that is loaded may
// still be out of range; then the call that uses it is refused with 11.
#[tactic(auto, unfolding(crate::specs::State::loaded))]
pub fn load(bytes: &[u8]) -> Result<Device, Refused>
    ensures value { load_of result ≡ loaded bytes.now }
    ensures ok { IfOk result (λ d. (holds_device bytes.now ≡ true) × (d ≡ device_from bytes.now)) }
    ensures err { OnErr result (holds_device bytes.now ≡ false) }
{
    if !holds_device(bytes) {
        return Err(NO_DEVICE);
    }
    Ok(read_from(bytes))
}

// The loaded device, or `otherwise` after a refusal: the caller names the device that stays in use.
#[tactic(auto, using(outcome::proofs::Numbers::refusal_number_above))]
pub fn device_or(loaded: Result<Device, Refused>, otherwise: Device) -> Device
    ensures { result ≡ device_or (load_of loaded) otherwise }
{
    match loaded {
        Ok(device) => device,
        Err(_) => otherwise,
    }
}
