// Saves the state of the sequencer as 40 bytes, and loads it again. `runnelopal` and `replay` use it. See docs/STATE.md, "A saved sequencer".
// `state` has the same functions for the device; its first lines say why there is no common trait.
#![tactic(auto)]

ghost use Rattle.std.specs.Prelude.{◌≡◌, false, true, length, IfOk, OnErr};
ghost use Rattle.sequencer_state.specs.State.{
  sequencer_size,
  sequencer_bytes,
  counter_bytes,
  counters_from,
  sequencer_from,
  holds_sequencer,
  save_refusal,
  saved,
  loaded,
  load_of,
  sequencer_or,
};
ghost use Rattle.outcome.specs.Refused.{refusal_in};

use little_endian::four_at;
use outcome::{RefusalKind, Refused};
use std::array;
use step::{COUNTERS, Sequencer};

// The length of a saved sequencer: the place, the number of counters in use and the counters, four bytes each.
pub const SIZE: usize = 4 * (2 + COUNTERS);

// A slice of another length is refused with 11 at place 0.
const NO_SEQUENCER: Refused = Refused {
    kind: RefusalKind::BadState,
    place: 0,
};

// A loop, since the search does not find the equation for `array::from_fn`, as in `map_bytes` of `acpi`, with four bytes of each number.
fn counter_bytes(counters: [u32; COUNTERS]) -> [u8; 4 * COUNTERS]
    ensures { result ≡ counter_bytes 8 0 counters }
{
    let mut bytes = [0; 4 * COUNTERS];
    for (k, counter) in counters.iter().enumerate() {
        bytes[4 * k..4 * k + 4].copy_from_slice(&counter.to_le_bytes());
    }
    bytes
}

#[tactic(auto, using(little_endian::proofs::Std::four_bytes_of))]
pub fn bytes_of(sequencer: Sequencer) -> [u8; SIZE]
    ensures { result ≡ sequencer_bytes sequencer }
{
    // A sequencer that is out of range can have more counters in use than four bytes can say.
    let used = (sequencer.used % 0x1_0000_0000) as u32;
    let mut bytes = [0; SIZE];
    bytes[..4].copy_from_slice(&sequencer.place.to_le_bytes());
    bytes[4..8].copy_from_slice(&used.to_le_bytes());
    bytes[8..].copy_from_slice(&counter_bytes(sequencer.counters));
    bytes
}

fn counters_from(bytes: &[u8]) -> [u32; COUNTERS]
    requires { length bytes.now ≡ sequencer_size }
    ensures { result ≡ counters_from 8 8 bytes.now }
{
    array::from_fn(|k| four_at(bytes, 8 + 4 * k))
}

#[tactic(auto, unfolding(crate::specs::State::sequencer_from))]
fn read_from(bytes: &[u8]) -> Sequencer
    requires { length bytes.now ≡ sequencer_size }
    ensures { result ≡ sequencer_from bytes.now }
{
    Sequencer {
        place: four_at(bytes, 0),
        counters: counters_from(bytes),
        used: four_at(bytes, 4) as usize,
    }
}

// Do the bytes have the length of a saved sequencer?
pub fn holds_sequencer(bytes: &[u8]) -> bool
    ensures { result ≡ holds_sequencer bytes.now }
{
    bytes.len() == SIZE
}

// Writes the state into a slice of `SIZE` bytes. A slice of any other length is unchanged, and refused.
#[tactic(auto, unfolding(crate::specs::State::saved))]
pub fn save(sequencer: Sequencer, bytes: &mut [u8]) -> Result<(), Refused>
    ensures refusal { refusal_in result ≡ save_refusal bytes.old }
    ensures bytes { bytes.new ≡ saved sequencer bytes.old }
{
    if bytes.len() == SIZE {
        bytes.copy_from_slice(&bytes_of(sequencer));
        return Ok(());
    }
    Err(NO_SEQUENCER)
}

// Reads the state from a slice. Refuses a slice that is not `SIZE` bytes long. A sequencer that is loaded may still be out of range; then
// the run that gets it is refused with 11.
#[tactic(auto, unfolding(crate::specs::State::loaded))]
pub fn load(bytes: &[u8]) -> Result<Sequencer, Refused>
    ensures value { load_of result ≡ loaded bytes.now }
    ensures ok { IfOk result (λ s. (holds_sequencer bytes.now ≡ true) × (s ≡ sequencer_from bytes.now)) }
    ensures err { OnErr result (holds_sequencer bytes.now ≡ false) }
{
    if !holds_sequencer(bytes) {
        return Err(NO_SEQUENCER);
    }
    Ok(read_from(bytes))
}

// The loaded sequencer, or `otherwise` after a refusal: the caller names the sequencer that stays in use.
#[tactic(auto, using(outcome::proofs::Numbers::refusal_number_above))]
pub fn sequencer_or(loaded: Result<Sequencer, Refused>, otherwise: Sequencer) -> Sequencer
    ensures { result ≡ sequencer_or (load_of loaded) otherwise }
{
    match loaded {
        Ok(sequencer) => sequencer,
        Err(_) => otherwise,
    }
}
