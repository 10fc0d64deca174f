// The program `trace` compiles the script on standard input and runs its image on the fresh device, from the fresh sequencer. It prints the values
// that are logged, each with the owner of its port, and the ending, or the refusal. See docs/CHIP.md, "Runs". A read or a write that the system
// refuses ends it with that error.
#![tactic(auto)]

ghost use Rattle.std.specs.Prelude.{◌≡◌, ◌*◌, ◌≤◌, length};
ghost use Rattle.record.specs.Record.{most_records, record_size};
ghost use Rattle.trace.specs.Trace.{trace_log, trace_summary};
ghost use Rattle.trace_text.specs.Printed.{printed};
ghost use Rattle.trace_text.specs.Shown.{shown, summary_of};

use device::Device;
use outcome::Refused;
use record::Record;
use std::io;
use step::Sequencer;
use trace_text::RunSummary;

// An image buffer of this size is long enough for every script.
const IMAGE_SIZE: usize = Record::SIZE * Record::MOST;

// Compiles a script into a buffer that is long enough for every image, and runs the image. There are no events.
fn run_script(script: &[u8], image: &mut [u8], log: &mut [u64]) -> Result<RunSummary, Refused>
    requires { record_size * most_records ≤ length image.old }
    ensures summary { summary_of result ≡ trace_summary script.now image.old log.old }
    ensures log { log.new ≡ trace_log script.now image.old log.old }
    ensures printed { shown result log.new ≡ printed (trace_summary script.now image.old log.old) log.new }
{
    let words = match compiler::compile(script, image) {
        Ok(words) => words,
        Err(refused) => return Err(refused),
    };
    let end = Record::SIZE * words as usize;
    let run = sequencer::run(
        &image[..end],
        Device::fresh(),
        Sequencer::fresh(),
        &[],
        trace_text::BUDGET,
        log,
    )?;
    Ok(RunSummary {
        ending: run.ending,
        steps: run.steps,
        logged: run.logged,
    })
}

fn trace(output: &impl Print, script: &[u8]) -> io::Result<()> {
    let mut image = [0; IMAGE_SIZE];
    let mut log = [0; trace_text::LOG_SIZE];
    let summary = run_script(script, &mut image, &mut log);
    trace_text::print(output, summary, &log)
}

// Longer input than the buffer is cut off there, and is still refused with 1.
fn main(rt: HostRuntime) -> io::Result<()> {
    let mut script = [0; trace_text::SCRIPT_SIZE];
    let count = input::read_full(&mut rt.stdin(), &mut script)?;
    trace(&rt, &script[..count])
}
