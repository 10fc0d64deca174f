// A second engine: `interpret` runs a script by walking through its nested records, without an image. Its answer is that of compiling the
// script and running the image (`correct`, specs/InterpreterCorrect.antt). The programs `interpret` and `replay` and the library `runnelopal`
// call it. `walk` has the walk, `partners` the table of the ends and elses. See docs/CHIP.md, "Interpreting a script" and "Refusals".
#![tactic(auto)]

mod partners;
mod walk;

ghost use Rattle.std.specs.Prelude.{◌≡◌, ◌*◌, IfErr, drop, length, min};
ghost use Rattle.outcome.specs.Refused.{refusal_in, refusal_of};
ghost use Rattle.record.specs.Record.{record_size};
ghost use Rattle.script.specs.Refusals.{script_refusal};
ghost use Rattle.interpreter.specs.Interpret.{interpret_refusal, interpret_result, interpret_log};
ghost use Rattle.interpreter.specs.Interpreted.{interpreted, interpret_of};
ghost use Rattle.interpreter.specs.State.{EndsAs};
ghost use Rattle.interpreter.specs.Walk.{script_walk};

use device::Device;
use outcome::{Ending, RefusalKind, Refused};
use record::Record;

// The answer of a walk that is not refused.
#[derive(Clone, Copy)]
pub struct InterpretResult {
    pub ending: Ending,
    pub steps: u32,
    pub taken: usize,
    pub logged: usize,
    pub device: Device,
}

// A script, and the place in it from which it is read. `interpret` reads from place 0. Document 01 asks for this form: "A small reader holding
// the script slice and place; few thin functions over covered ones taking slice and number." So the other parameters of a call are passed on one by one.
#[derive(Clone, Copy)]
struct Reader<'a> {
    script: &'a [u8],
    place: usize,
}

// Refusals 1 to 8 of the script, then 11 for the device, then 12 for the events.
fn refusal(script: &[u8], device: Device, events: &[u32]) -> Result<(), Refused>
    ensures { refusal_in result ≡ interpret_refusal script.now device events.now }
{
    script::scan(script)?;
    if !device.in_range() {
        return Err(Refused {
            kind: RefusalKind::BadState,
            place: 0,
        });
    }
    sequencer::events_refusal(events)
}

// Walks through a script that is not refused. The three functions that need an accepted script say so themselves: a struct for it would be a
// second `Reader`.
fn walk_accepted(
    script: &[u8],
    device: Device,
    events: &[u32],
    budget: u32,
    log: &mut [u64],
) -> InterpretResult
    requires { (script_refusal script.now).number ≡ 0 }
    ensures { EndsAs events.now log.old log.new result (script_walk script.now device events.now budget (length log.old)) }
{
    let mut table = [0; partners::TABLE_SIZE];
    partners::fill(script, &mut table);
    walk::walk_script(script, &table, device, events, budget, log)
}

// The offset of the record at a place, or the script's length if the script ends before it.
fn offset(length: usize, place: usize) -> usize
    ensures { result ≡ min (record_size * place) length }
{
    Record::SIZE.saturating_mul(place).min(length)
}

// The refusal of the records from a place on, as a script.
fn refusal_at(script: &[u8], place: usize, device: Device, events: &[u32]) -> Result<(), Refused>
    ensures { refusal_in result ≡ interpret_refusal (drop (record_size * place) script.now) device events.now }
{
    refusal(&script[offset(script.len(), place)..], device, events)
}

// Runs the records from a place on, as a script that is not refused.
fn run_at(
    script: &[u8],
    place: usize,
    device: Device,
    events: &[u32],
    budget: u32,
    log: &mut [u64],
) -> InterpretResult
    requires { (interpret_refusal (drop (record_size * place) script.now) device events.now).number ≡ 0 }
    ensures { (interpret_of result ≡ interpret_result (drop (record_size * place) script.now) device events.now budget log.old) × (log.new ≡ interpret_log (drop (record_size * place) script.now) device events.now budget log.old) }
{
    let at = offset(script.len(), place);
    walk_accepted(&script[at..], device, events, budget, log)
}

// The refusal of the records from the reader's place on, as a script.
fn check<'a, 'e>(reader: Reader<'a>, device: Device, events: &'e [u32]) -> Result<(), Refused>
    ensures { refusal_in result ≡ interpret_refusal (drop (record_size * reader.entry.place) reader.entry.script.now) device events.now }
{
    refusal_at(reader.script, reader.place, device, events)
}

// Runs the records from the reader's place on, as a script that is not refused.
fn run<'a, 'e, 'l>(
    reader: Reader<'a>,
    device: Device,
    events: &'e [u32],
    budget: u32,
    log: &'l mut [u64],
) -> InterpretResult
    requires { (interpret_refusal (drop (record_size * reader.place) reader.script.now) device events.now).number ≡ 0 }
    ensures { (interpret_of result ≡ interpret_result (drop (record_size * reader.entry.place) reader.entry.script.now) device events.now budget log.old) × (log.new ≡ interpret_log (drop (record_size * reader.entry.place) reader.entry.script.now) device events.now budget log.old) }
{
    run_at(reader.script, reader.place, device, events, budget, log)
}

// Runs a script without compiling it. A refusal changes nothing.
pub fn interpret(
    script: &[u8],
    device: Device,
    events: &[u32],
    budget: u32,
    log: &mut [u64],
) -> Result<InterpretResult, Refused>
    ensures value { (interpreted device result ≡ interpret_result script.now device events.now budget log.old) × (log.new ≡ interpret_log script.now device events.now budget log.old) }
    ensures refused { IfErr result (λ refused. refusal_of refused ≡ interpret_refusal script.now device events.now) }
{
    let reader = Reader { script, place: 0 };
    check(reader, device, events)?;
    Ok(run(reader, device, events, budget, log))
}
