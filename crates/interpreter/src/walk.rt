// The walk through the nested records of a script, from the first to the last: `walk_script`. Its caller, `walk_accepted` in `lib.rt`,
// has filled the table of partners beforehand. See docs/CHIP.md, "Interpreting a script".
ghost use Rattle.std.specs.Prelude.{◌≡◌, length};
ghost use Rattle.script.specs.Kinds.{kind_number};
ghost use Rattle.script.specs.Refusals.{script_refusal};
ghost use Rattle.interpreter.specs.Partners.{script_partners};
ghost use Rattle.interpreter.specs.Walk.{script_walk};
ghost use Rattle.interpreter.specs.State.{EndsAs, log_full, walk_answer};

use crate::InterpretResult;
use crate::partners::TABLE_SIZE;
use access::{Answer, Status};
use device::{AccessResult, Device, owner};
use outcome::Ending;
use record::Record;
use script::kind::{RecordKind, kind_of};
use step::execute::Position;
use step::{COUNTERS, execute};

fn log_full(room: usize, logged: usize, kind: RecordKind) -> bool
    ensures { result ≡ log_full room logged (kind_number kind) }
{
    kind == RecordKind::Read && room <= logged
}

fn walk_result(ending: Ending, steps: u32, device: Device, position: Position) -> InterpretResult
    ensures { result ≡ walk_answer ending steps device position.taken position.logged }
{
    InterpretResult {
        ending,
        steps,
        taken: position.taken,
        logged: position.logged,
        device,
    }
}

// Walks through an accepted script until the walk ends. The device and the answer to its last access are one local, `last`. An access, an event
// and a delay store the next device there in one statement: another local in between would be copied, which takes time (bench/README.md).
pub fn walk_script(
    script: &[u8],
    partners: &[u32; TABLE_SIZE],
    device: Device,
    events: &[u32],
    budget: u32,
    log: &mut [u64],
) -> InterpretResult
    requires { ((script_refusal script.now).number ≡ 0) × (partners.now ≡ script_partners script.now) }
    ensures { EndsAs events.now log.old log.new result (script_walk script.now device events.now budget (length log.old)) }
{
    let count = script.len() / Record::SIZE;
    let mut last = AccessResult {
        device,
        owner: None,
        answer: Answer::status_only(Status::Done.number()),
    };
    let mut position = Position {
        used: 0,
        taken: 0,
        logged: 0,
        place: 0,
    };
    let mut counters = [0; COUNTERS];
    let mut steps = 0;
    // Not `for`: the end of an if counts no step.
    while steps < budget {
        let place = position.place as usize;
        if count <= place {
            return walk_result(Ending::Halted, steps + 1, last.device, position);
        }
        let r = record::read(script, Record::SIZE * place);
        let partner = partners[place];
        let kind = kind_of(r.kind);
        if log_full(log.len(), position.logged, kind) {
            return walk_result(Ending::LogFull, steps, last.device, position);
        }
        match kind {
            RecordKind::Write | RecordKind::Read | RecordKind::If => {
                // The next event, if there is one, is applied before the access.
                let taken = position.taken;
                if taken < events.len() {
                    last.device = last.device.apply_event(events[taken]);
                }
                last = last.device.access(execute::access_of(r));
                position = position.apply_answer(
                    kind.word_kind(),
                    r.value,
                    partner,
                    owner::number(last.owner),
                    last.answer.value,
                    events,
                    log,
                );
            }
            RecordKind::Delay => {
                last.device = last.device.apply_event(device::event::tick_event(r.value));
                position.place += 1;
            }
            RecordKind::Repeat => {
                let next = position.enter(r.value, partner, &mut counters);
                position.used = next.used;
                position.place = next.place;
            }
            // An else is reached after its then-part: it counts a step and continues after the end of its if.
            RecordKind::Else => position.place = partner,
            // The end of an if counts no step.
            RecordKind::End if partner == 0 => {
                position.place += 1;
                continue;
            }
            RecordKind::End => {
                let next = position.loop_end(partner, &mut counters);
                position.used = next.used;
                position.place = next.place;
            }
        }
        steps += 1;
    }
    walk_result(Ending::BudgetSpent, steps, last.device, position)
}
