// The sequencer: `run` runs an image on a device until it halts, faults or has spent its budget. `trace`, `runnelopal` and
// `replay` call it. What one word does is in `step`. See docs/CHIP.md, "Runs", "Resuming a run" and "Refusals".
#![tactic(auto)]

ghost use Rattle.std.specs.Prelude.{◌≡◌, true, ◌≤◌, IfErr, length};
ghost use Rattle.outcome.specs.Refused.{refusal_in, refusal_of};
ghost use Rattle.record.specs.Record.{most_records};
ghost use Rattle.sequencer.specs.Ends.{Starts, EndsAs, answer};
ghost use Rattle.sequencer.specs.Ran.{ran};
ghost use Rattle.sequencer.specs.Run.{
  bad_image,
  bad_state,
  events_refusal,
  image_run,
  log_after,
  run_answer,
  run_refusal,
};
ghost use Rattle.step.specs.Represents.{run_state};
ghost use Rattle.step.specs.Sequencer.{sequencer_in_range};
ghost use Rattle.step.specs.Word.{image_words};

use access::{Answer, Status};
use device::{AccessResult, Device, owner};
use outcome::{Ending, RefusalKind, Refused};
use record::Record;
use record::word_kind::WordKind;
use step::execute::Position;
use step::{COUNTERS, Sequencer, execute, word};

// The answer of a run that is not refused.
#[derive(Clone, Copy)]
pub struct RunResult {
    pub ending: Ending,
    pub steps: u32,
    pub taken: usize,
    pub logged: usize,
    pub sequencer: Sequencer,
    pub device: Device,
}

const MOST_EVENTS: usize = 4096;

// The place of refusal 12 for a list with more events.
const TOO_MANY_EVENTS_PLACE: u32 = MOST_EVENTS as u32;

// ---- refusals

// Refusal 10. `runnelopal` calls it too.
pub fn bad_image(image: &[u8]) -> bool
    ensures { result ≡ bad_image image.now }
{
    image.is_empty() || image.len() % Record::SIZE != 0 || Record::MOST < image.len() / Record::SIZE
}

fn bad_state(device: Device, sequencer: Sequencer) -> bool
    ensures { result ≡ bad_state device sequencer }
{
    !(device.in_range() && sequencer.in_range())
}

// Refusal 12. `interpreter` calls it too.
#[tactic(auto, unfolding(crate::specs::Run::events_refusal))]
pub fn events_refusal(events: &[u32]) -> Result<(), Refused>
    ensures { refusal_in result ≡ events_refusal events.now }
{
    let kind = RefusalKind::BadEvent;
    if MOST_EVENTS < events.len() {
        return Err(Refused {
            kind,
            place: TOO_MANY_EVENTS_PLACE,
        });
    }
    match events
        .iter()
        .position(|event| !device::event::is_event(*event))
    {
        Some(place) => Err(Refused {
            kind,
            place: place as u32,
        }),
        None => Ok(()),
    }
}

#[tactic(auto, unfolding(crate::specs::Run::run_refusal))]
fn run_refusal(
    image: &[u8],
    device: Device,
    sequencer: Sequencer,
    events: &[u32],
) -> Result<(), Refused>
    ensures { refusal_in result ≡ run_refusal image.now device sequencer events.now }
{
    if bad_image(image) {
        return Err(Refused {
            kind: RefusalKind::BadImage,
            place: 0,
        });
    }
    if bad_state(device, sequencer) {
        return Err(Refused {
            kind: RefusalKind::BadState,
            place: 0,
        });
    }
    events_refusal(events)
}

// ---- the run

// The position at the start of a run.
fn start(sequencer: Sequencer) -> Position
    requires { sequencer_in_range sequencer ≡ true }
    ensures { Starts sequencer result }
{
    Position {
        used: sequencer.used,
        taken: 0,
        logged: 0,
        place: sequencer.place,
    }
}

fn run_result(
    ending: Ending,
    steps: u32,
    device: Device,
    position: Position,
    counters: [u32; COUNTERS],
) -> RunResult
    ensures { result ≡ answer ending steps (run_state device position counters) }
{
    let sequencer = Sequencer {
        place: position.place,
        counters,
        used: position.used,
    };
    RunResult {
        ending,
        steps,
        taken: position.taken,
        logged: position.logged,
        sequencer,
        device,
    }
}

// Runs the words of an image until the run ends. The device and the answer to its last access are one local, `last`, and a delay or an event
// stores the device in one statement, so that each of them copies the device only once. `walk_script` has the same arm for an access: each
// loop stores the device in a local of its own.
fn run_words(
    image: &[u8],
    device: Device,
    sequencer: Sequencer,
    events: &[u32],
    budget: u32,
    log: &mut [u64],
) -> RunResult
    requires { (image_words image.now ≤ most_records) × (sequencer_in_range sequencer ≡ true) }
    ensures { EndsAs events.now log.old log.new result (image_run image.now device sequencer events.now budget (length log.old)) }
{
    let words = (image.len() / Record::SIZE) as u32;
    let mut last = AccessResult {
        device,
        owner: None,
        answer: Answer::status_only(Status::Done.number()),
    };
    let mut position = start(sequencer);
    let mut counters = sequencer.counters;
    for steps in 0..budget {
        if words <= position.place {
            return run_result(
                Ending::BeyondLastWord,
                steps,
                last.device,
                position,
                counters,
            );
        }
        let word = record::read(image, Record::SIZE * position.place as usize);
        let kind = match word::fault(words, log.len(), position.used, position.logged, word) {
            Ok(kind) => kind,
            Err(fault) => return run_result(fault, steps, last.device, position, counters),
        };
        match kind {
            WordKind::Halt => {
                return run_result(Ending::Halted, steps + 1, last.device, position, counters);
            }
            WordKind::Enter | WordKind::LoopEnd | WordKind::Jump => {
                let next = position.execute_control(kind, word, &mut counters);
                position.used = next.used;
                position.place = next.place;
            }
            WordKind::Delay => {
                last.device = last
                    .device
                    .apply_event(device::event::tick_event(word.value));
                position.place += 1;
            }
            WordKind::Write | WordKind::Read | WordKind::Test => {
                // The next event, if there is one, is applied before the access.
                let taken = position.taken;
                if taken < events.len() {
                    last.device = last.device.apply_event(events[taken]);
                }
                last = last.device.access(execute::access_of(word));
                position = position.apply_answer(
                    kind,
                    word.value,
                    word.target,
                    owner::number(last.owner),
                    last.answer.value,
                    events,
                    log,
                );
            }
        }
    }
    run_result(Ending::BudgetSpent, budget, last.device, position, counters)
}

// The parameters stay single: the contracts of `run` and the exported call name each.
// Runs an image, starting at the place and with the counters of `sequencer`. A run with budget 1 is a single step.
pub fn run(
    image: &[u8],
    device: Device,
    sequencer: Sequencer,
    events: &[u32],
    budget: u32,
    log: &mut [u64],
) -> Result<RunResult, Refused>
    ensures value { (ran device sequencer result ≡ run_answer image.now device sequencer events.now budget log.old) × (log.new ≡ log_after image.now device sequencer events.now budget log.old) }
    ensures refused { IfErr result (λ refused. refusal_of refused ≡ run_refusal image.now device sequencer events.now) }
{
    run_refusal(image, device, sequencer, events)?;
    Ok(run_words(image, device, sequencer, events, budget, log))
}
