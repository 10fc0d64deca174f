// The functions for programs in other languages. They take numbers and slices, and give an answer whatever these contain. C programs call them
// through the exports of `runnelopal_c` and the inline functions of bindings/c/runnelopal.h, which also take null pointers for empty slices; hence
// `raw` in their names.
#![tactic(auto)]

pub mod answer;
mod runs;

ghost use Rattle.std.specs.Prelude.{◌≡◌, false, true, MatchOption};
ghost use Rattle.outcome.specs.Refused.{refusal_in};
ghost use Rattle.assembler.specs.Assemble.{assemble_result, records_after};
ghost use Rattle.compiler.specs.Compile.{compile_result, image_after};
ghost use Rattle.device.specs.Device.{fresh_device};
ghost use Rattle.lister.specs.Listing.{list_result, text_after};
ghost use Rattle.log_entry.specs.Entry.{entry_owner, entry_value};
ghost use Rattle.sequencer_state.specs.State as sequencerState;
ghost use Rattle.state.specs.Call.{saved_access, bytes_after_access, saved_event, bytes_after_event};
ghost use Rattle.state.specs.State as deviceState;
ghost use Rattle.step.specs.Sequencer.{fresh_sequencer};
ghost use Rattle.runnelopal.specs.Answers.{exported_access, exported_assemble, exported_compile, exported_event, exported_list};
ghost use Rattle.runnelopal.specs.Calls.{
  access_of,
  after_interpret,
  after_run,
  saved_interpret,
  saved_outputs,
  saved_run,
  saved_sequencer_answer,
  valid_device,
  valid_sequencer,
};

use access::Access;
use answer::{
    AccessAnswer, AssembleAnswer, CompileAnswer, ListAnswer, OutputsAnswer, RunAnswer,
    SequencerAnswer,
};
use device::Device;
use outcome::{RefusalKind, Refused};
use step::Sequencer;

// Compiles a script into the image buffer.
pub fn runnelopal_raw_compile(script: &[u8], image: &mut [u8]) -> CompileAnswer
    ensures { (result ≡ exported_compile (compile_result script.now image.old)) × (image.new ≡ image_after script.now image.old) }
{
    CompileAnswer::from(compiler::compile(script, image))
}

// Reads a text script into the record buffer.
pub fn runnelopal_raw_assemble(text: &[u8], records: &mut [u8]) -> AssembleAnswer
    ensures { (result ≡ exported_assemble (assemble_result text.now records.old)) × (records.new ≡ records_after text.now records.old) }
{
    AssembleAnswer::from(assembler::assemble(text, records))
}

// Writes the listing of a script to the text buffer.
pub fn runnelopal_raw_list(script: &[u8], text: &mut [u8]) -> ListAnswer
    ensures { (result ≡ exported_list (list_result script.now text.old)) × (text.new ≡ text_after script.now text.old) }
{
    ListAnswer::from(lister::list(script, text))
}

// Runs an image from a saved device and a saved sequencer, and saves both after the run.
pub fn runnelopal_raw_run(
    image: &[u8],
    device: &mut [u8],
    sequencer: &mut [u8],
    events: &[u32],
    budget: u32,
    log: &mut [u64],
) -> RunAnswer
    ensures { after_run result device.new sequencer.new log.new ≡ saved_run image.now device.old sequencer.old events.now budget log.old }
{
    runs::run(image, device, sequencer, events, budget, log)
}

// Interprets a script on a saved device, without an image, and saves the device after it.
pub fn runnelopal_raw_interpret(
    script: &[u8],
    device: &mut [u8],
    events: &[u32],
    budget: u32,
    log: &mut [u64],
) -> RunAnswer
    ensures { after_interpret result device.new log.new ≡ saved_interpret script.now device.old events.now budget log.old }
{
    runs::interpret(script, device, events, budget, log)
}

// The owner of the port in an entry of the log.
pub fn runnelopal_entry_owner(entry: u64) -> u32
    ensures { result ≡ entry_owner entry }
{
    log_entry::owner(entry)
}

// The value read in an entry of the log.
pub fn runnelopal_entry_value(entry: u64) -> u32
    ensures { result ≡ entry_value entry }
{
    log_entry::value(entry)
}

// The number of the refusal, or 0, as C programs get it.
fn number_of(saved: Result<(), Refused>) -> u32
    ensures { result ≡ (refusal_in saved).number }
{
    match saved {
        Ok(()) => 0,
        Err(refused) => refused.kind.number(),
    }
}

// Saves the fresh device. Refuses a slice that does not have the length of a saved device, with 11.
pub fn runnelopal_raw_fresh_device(device: &mut [u8]) -> u32
    ensures { (result ≡ (deviceState.save_refusal device.old).number) × (device.new ≡ deviceState.saved fresh_device device.old) }
{
    number_of(state::save(Device::fresh(), device))
}

// Saves the fresh sequencer. Refuses a slice that does not have the length of a saved sequencer, with 11.
pub fn runnelopal_raw_fresh_sequencer(sequencer: &mut [u8]) -> u32
    ensures { (result ≡ (sequencerState.save_refusal sequencer.old).number) × (sequencer.new ≡ sequencerState.saved fresh_sequencer sequencer.old) }
{
    number_of(sequencer_state::save(Sequencer::fresh(), sequencer))
}

// The device that the bytes hold, if it is not refused with 11.
fn device_in(bytes: &[u8]) -> Option<Device>
    ensures { MatchOption result (valid_device bytes.now ≡ false) (λ d. (valid_device bytes.now ≡ true) × (d ≡ deviceState.device_from bytes.now)) }
{
    match state::load(bytes) {
        Ok(device) if device.in_range() => Some(device),
        _ => None,
    }
}

// The sequencer that the bytes hold, if it is not refused with 11.
fn sequencer_in(bytes: &[u8]) -> Option<Sequencer>
    ensures { MatchOption result (valid_sequencer bytes.now ≡ false) (λ s. (valid_sequencer bytes.now ≡ true) × (s ≡ sequencerState.sequencer_from bytes.now)) }
{
    match sequencer_state::load(bytes) {
        Ok(sequencer) if sequencer.in_range() => Some(sequencer),
        _ => None,
    }
}

// Whether the bytes are a device that is not refused with 11.
pub fn runnelopal_raw_valid_device(device: &[u8]) -> bool
    ensures { result ≡ valid_device device.now }
{
    device_in(device).is_some()
}

// Whether the bytes are a sequencer that is not refused with 11.
pub fn runnelopal_raw_valid_sequencer(sequencer: &[u8]) -> bool
    ensures { result ≡ valid_sequencer sequencer.now }
{
    sequencer_in(sequencer).is_some()
}

// The outputs of a saved device.
pub fn runnelopal_raw_outputs(device: &[u8]) -> OutputsAnswer
    ensures { result ≡ saved_outputs device.now }
{
    match device_in(device) {
        Some(held) => answer::exported_outputs(held),
        None => answer::outputs_refused(RefusalKind::BadState.number()),
    }
}

// The place and the counters of a saved sequencer.
pub fn runnelopal_raw_sequencer(sequencer: &[u8]) -> SequencerAnswer
    ensures { result ≡ saved_sequencer_answer sequencer.now }
{
    match sequencer_in(sequencer) {
        Some(held) => answer::exported_sequencer(held),
        None => answer::sequencer_refused(RefusalKind::BadState.number()),
    }
}

// One access to a saved device.
pub fn runnelopal_raw_access(
    device: &mut [u8],
    write: bool,
    width: u32,
    port: u32,
    value: u32,
) -> AccessAnswer
    ensures { (result ≡ exported_access (saved_access device.old (access_of write width port value))) × (device.new ≡ bytes_after_access device.old (access_of write width port value)) }
{
    let access = Access {
        write,
        width,
        port,
        value,
    };
    AccessAnswer::from(state::call::access(device, access))
}

// One event on a saved device.
pub fn runnelopal_raw_event(device: &mut [u8], number: u32) -> OutputsAnswer
    ensures { (result ≡ exported_event (saved_event device.old number)) × (device.new ≡ bytes_after_event device.old number) }
{
    OutputsAnswer::from(state::call::event(device, number))
}
