// Runs from a saved device and a saved sequencer: the bytes are loaded, the run is made as on any device, and the bytes are saved again. A refusal
// leaves them unchanged. The exported functions call it with their own parameters. See docs/CHIP.md, "Runs", and docs/STATE.md.
ghost use Rattle.std.specs.Prelude.{◌≡◌};
ghost use Rattle.outcome.specs.Refused.{refusal_of};
ghost use Rattle.runnelopal.specs.Calls.{
  after_interpret,
  after_run,
  saved_interpret,
  saved_run,
  unheld_refusal,
  unheld_script_refusal,
};

use crate::answer;
use crate::answer::RunAnswer;
use outcome::{RefusalKind, Refused};

const BAD_STATE: Refused = Refused {
    kind: RefusalKind::BadState,
    place: 0,
};

// Bytes that hold no device, or no sequencer, are refused with 11, but a bad image with 10 first.
fn unheld_refusal(image: &[u8]) -> Refused
    ensures { refusal_of result ≡ unheld_refusal image.now }
{
    if sequencer::bad_image(image) {
        return Refused {
            kind: RefusalKind::BadImage,
            place: 0,
        };
    }
    BAD_STATE
}

pub fn run(
    image: &[u8],
    device: &mut [u8],
    sequencer: &mut [u8],
    events: &[u32],
    budget: u32,
    log: &mut [u64],
) -> RunAnswer
    ensures { after_run result device.new sequencer.new log.new ≡ saved_run image.now device.old sequencer.old events.now budget log.old }
{
    let Ok(start) = state::load(device) else {
        return RunAnswer::from(unheld_refusal(image));
    };
    let Ok(given) = sequencer_state::load(sequencer) else {
        return RunAnswer::from(unheld_refusal(image));
    };
    match sequencer::run(image, start, given, events, budget, log) {
        Ok(r) => {
            // Each was loaded from the bytes, so these have the length that it is saved in.
            let _ = state::save(r.device, device);
            let _ = sequencer_state::save(r.sequencer, sequencer);
            answer::ended(r.ending, r.steps, r.taken, r.logged, r.device)
        }
        Err(refused) => RunAnswer::from(refused), // The image, the device, the sequencer or the events are refused.
    }
}

// Bytes that hold no device are refused with 11, but a script with a fault with the refusal of the script first.
fn unheld_script_refusal(script: &[u8]) -> Refused
    ensures { refusal_of result ≡ unheld_script_refusal script.now }
{
    match script::scan(script) {
        Ok(_) => BAD_STATE,
        Err(refused) => refused,
    }
}

pub fn interpret(
    script: &[u8],
    device: &mut [u8],
    events: &[u32],
    budget: u32,
    log: &mut [u64],
) -> RunAnswer
    ensures { after_interpret result device.new log.new ≡ saved_interpret script.now device.old events.now budget log.old }
{
    let Ok(start) = state::load(device) else {
        return RunAnswer::from(unheld_script_refusal(script));
    };
    match interpreter::interpret(script, start, events, budget, log) {
        Ok(r) => {
            // The device was loaded from the bytes, so these have the length that it is saved in.
            let _ = state::save(r.device, device);
            answer::ended(r.ending, r.steps, r.taken, r.logged, r.device)
        }
        Err(refused) => RunAnswer::from(refused),
    }
}
