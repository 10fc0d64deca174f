// The text that the programs `trace` and `interpret` print: the values that were logged, each with the owner of its port, and the ending, or the
// refusal. `print` puts all of it into a buffer and writes it at once. specs/Printed.antt defines it.
#![tactic(auto)]

#[cfg(test)]
mod tests;

ghost use Rattle.std.specs.Prelude.{◌≡◌, ◌<◌, length, take, Result};
ghost use Rattle.digits.specs.Text.{line_at, puts};
ghost use Rattle.digits.specs.Written.{writes};
ghost use Rattle.outcome.specs.Number as number;
ghost use Rattle.outcome.specs.Refused.{refusal_number};
ghost use Rattle.refusal_text.specs.Refused.{Put, refused_text};
ghost use Rattle.sequencer.specs.Run.{is_refusal};
ghost use Rattle.trace_text.specs.Printed.{read_text, reads_text, end_text, printed};
ghost use Rattle.trace_text.specs.Shown.{shown, summary_of};

use digits::Writer;
use outcome::{Ending, Refused};
use std::io;

// What the text shows of a run.
#[derive(Clone, Copy)]
pub struct RunSummary {
    pub ending: Ending,
    pub steps: u32,
    pub logged: usize,
}

// The numbers of an answer that the text shows. `outcome` is the ending or the number of a refusal, `place` the place of a refusal.
#[derive(Clone, Copy)]
pub struct Summary {
    pub outcome: u32,
    pub place: u32,
    pub steps: u32,
    pub logged: usize,
}

impl From<Result<RunSummary, Refused>> for Summary {
    ghost from_gives = { λ r s. s ≡ summary_of r };

    fn from(summary: Result<RunSummary, Refused>) -> Self {
        match summary {
            Ok(run) => Summary {
                outcome: run.ending.number(),
                place: 0,
                steps: run.steps,
                logged: run.logged,
            },
            Err(refused) => Summary {
                outcome: refused.kind.number(),
                place: refused.place,
                steps: 0,
                logged: 0,
            },
        }
    }
}

// Puts the value and the owner of an entry.
#[tactic(auto, using(digits::proofs::Writes::writes_twice))]
fn put_read(text: &mut Writer, entry: u64)
    ensures { text.new ≡ writes (read_text entry) text.old }
{
    text.put_text(b"READ ");
    text.put_hex(log_entry::value(entry));
    text.put(b' ');
    text.put_decimal(log_entry::owner(entry));
    text.put(b'\n');
}

// Puts a line for each entry.
#[tactic(auto, using(digits::proofs::Writes::writes_none, crate::proofs::Lines::next_line))]
fn put_reads(text: &mut Writer, log: &[u64])
    ensures { text.new ≡ writes (reads_text log.now) text.old }
{
    for entry in log {
        put_read(text, *entry);
    }
}

// The outcome is its number, as in the definition `end_text`.
#[tactic(auto, using(digits::proofs::Writes::writes_twice))]
fn put_end(text: &mut Writer, outcome: u32, steps: u32)
    ensures { text.new ≡ writes (end_text outcome steps) text.old }
{
    text.put_text(b"END ");
    refusal_text::put_numbers(text, outcome, steps);
}

// Whether an outcome is the number of a refusal, and not an ending.
fn is_refusal(outcome: u32) -> bool
    ensures { result ≡ is_refusal outcome }
{
    outcome != Ending::Halted.number() && outcome < Ending::BudgetSpent.number()
}

// Puts the whole text.
#[tactic(auto, using(digits::proofs::Writes::writes_twice, std::proofs::lemmas::List::take_min))]
fn put_result(text: &mut Writer, summary: Summary, log: &[u64])
    ensures { text.new ≡ writes (printed summary log.now) text.old }
{
    if is_refusal(summary.outcome) {
        refusal_text::put_refusal(text, summary.outcome, summary.place);
    } else {
        put_reads(text, &log[..summary.logged.min(log.len())]);
        put_end(text, summary.outcome, summary.steps);
    }
}

// The programs run a script with this budget.
pub const BUDGET: u32 = 100_000;

// The size of their script buffer: one record more than a script may have, so 12 times 1,025 bytes.
pub const SCRIPT_SIZE: usize = 12300;

// Their log has room for this many entries.
pub const LOG_SIZE: usize = 1024;

// Room for 1,024 lines of at most 25 bytes, and for the last line of at most 26. With an owner of one digit a line has 16 bytes; the proof
// allows an owner any 32-bit number.
pub const TEXT_SIZE: usize = 25626;

// Puts the whole text of any numbers, for which the buffer has room, and returns its length: `Put` says where the bytes are. For the numbers of a run
// or of its refusal the text is `shown`. `print` calls it.
#[tactic(auto, using(digits::proofs::Writes::writes_same_line))]
pub fn put_summary(text: &mut [u8; TEXT_SIZE], summary: Summary, log: &[u64; LOG_SIZE]) -> usize
    ensures whole { Put (printed summary log.now) text.new result }
    ensures counted { result ≡ length (printed summary log.now) }
    ensures line { line_at text.new result ≡ puts (printed summary log.now) (line_at text.old 0) }
    ensures shown { (r : Result RunSummary Refused) → summary ≡ summary_of r → summary.outcome < number.line_too_long → shown r log.now ≡ printed summary log.now }
{
    let mut writer = Writer::new(text);
    put_result(&mut writer, summary, log);
    writer.len()
}

// Puts the line of a refusal, for which the buffer has room, and returns its length.
#[tactic(auto, using(digits::proofs::Writes::writes_same_line))]
fn put_refused(text: &mut [u8; TEXT_SIZE], refused: Refused) -> usize
    ensures whole { Put (refused_text (refusal_number refused.kind) refused.place) text.new result }
    ensures counted { result ≡ length (refused_text (refusal_number refused.kind) refused.place) }
    ensures line { line_at text.new result ≡ puts (refused_text (refusal_number refused.kind) refused.place) (line_at text.old 0) }
{
    let mut writer = Writer::new(text);
    refusal_text::put_refusal(&mut writer, refused.kind.number(), refused.place);
    writer.len()
}

// Puts the whole text of the result of a run, with every refusal as `REFUSED`, its number and its place. `put_summary` would put a refusal of a text
// (30 to 34, docs/TEXT.md) as an ending: no run is refused with these numbers, so `printed` has them for endings.
pub fn put_whole(
    text: &mut [u8; TEXT_SIZE],
    summary: Result<RunSummary, Refused>,
    log: &[u64; LOG_SIZE],
) -> usize
    ensures whole { Put (shown summary log.now) text.new result }
    ensures counted { result ≡ length (shown summary log.now) }
    ensures line { line_at text.new result ≡ puts (shown summary log.now) (line_at text.old 0) }
    ensures printed { (summary_of summary).outcome < number.line_too_long → shown summary log.now ≡ printed (summary_of summary) log.now }
{
    match summary {
        Ok(_) => put_summary(text, Summary::from(summary), log),
        Err(refused) => put_refused(text, refused),
    }
}

// Prints the text. It is written at once.
pub fn print(
    output: &impl Print,
    summary: Result<RunSummary, Refused>,
    log: &[u64; LOG_SIZE],
) -> io::Result<()> {
    let mut text = [0; TEXT_SIZE];
    let length = put_summary(&mut text, Summary::from(summary), log);
    output.write_all(&text[..length])
}
