// The program `interpret` runs the script on standard input on the fresh device, without compiling it. It prints the values that are logged,
// each with the owner of its port, and the ending, or the refusal: what `trace` prints. See docs/CHIP.md, "Runs". A read or a write that the
// system refuses ends it with that error.
#![tactic(auto)]

use device::Device;
use outcome::Refused;
use std::io;
use trace_text::RunSummary;

// There are no events.
fn run_script(script: &[u8], log: &mut [u64]) -> Result<RunSummary, Refused> {
    let run = interpreter::interpret(script, Device::fresh(), &[], trace_text::BUDGET, log)?;
    Ok(RunSummary {
        ending: run.ending,
        steps: run.steps,
        logged: run.logged,
    })
}

// Longer input than the buffer is cut off there, and is still refused with 1.
fn main(rt: HostRuntime) -> io::Result<()> {
    let mut script = [0; trace_text::SCRIPT_SIZE];
    let mut log = [0; trace_text::LOG_SIZE];
    let count = input::read_full(&mut rt.stdin(), &mut script)?;
    let summary = run_script(&script[..count], &mut log);
    trace_text::print(&rt, summary, &log)
}
