// What one word does when it neither faults nor halts: its access, and its effect on the place, the loop counters and the
// log. The loop of `sequencer` calls these functions and makes the access itself, and so does that of `interpreter`.
// See docs/CHIP.md, "Words" and "Runs".
ghost use Rattle.std.specs.Prelude.{◌≡◌, ◌≤◌, ◌<◌, ◌↔◌, length, drop};
ghost use Rattle.record.specs.Record.{most_records};
ghost use Rattle.record.specs.WordKinds.{word_kind_number};
ghost use Rattle.semantics.specs.World.{events_after};
ghost use Rattle.step.specs.Sequencer.{counter_count};
ghost use Rattle.step.specs.Effects.{
  AnswerEffect,
  AnswerReady,
  control_result,
  enter_counters,
  enter_result,
  loop_end_counters,
  loop_end_result,
};
ghost use Rattle.step.specs.Represents.{ImplementsAccess, ControlReady, KeepsDevice, access_of, is_access};

use crate::COUNTERS;
use access::Access;
use record::Record;
use record::word_kind::WordKind;

// The state of a run, besides its device and its counters: the place of the next word, and the numbers of counters in use, of
// events taken and of values logged. The counters stay outside, so that no word copies
// them; the events and the log are the caller's.
#[derive(Clone, Copy)]
pub struct Position {
    pub used: usize,
    pub taken: usize,
    pub logged: usize,
    pub place: u32,
}

// The number of events taken, after the next one if the list has one. It is a number, because a run returns how many it took.
#[tactic(auto, using(crate::proofs::Events::after_there, crate::proofs::Events::after_none))]
pub fn events_taken(events: &[u32], taken: usize) -> usize
    requires { taken ≤ length events.now }
    ensures { (result ≤ length events.now) × (drop result events.now ≡ events_after (drop taken events.now)) }
{
    if taken < events.len() {
        taken + 1
    } else {
        taken
    }
}

// The access of a write, a read or a test. The kind is compared as a number, because `interpreter` passes records, whose kinds are another enum.
pub fn access_of(word: Record) -> Access
    ensures { result ≡ access_of word }
{
    let write = word.kind == WordKind::Write.number();
    Access {
        write,
        width: word.width,
        port: word.port,
        value: if write { word.value } else { 0 },
    }
}

// ---- control words: enter, loop end and jump

// What a control word changes. The other two fields of `Position` are not passed: copying a field right after it was stored
// causes a store-forwarding stall.
#[derive(Clone, Copy)]
pub struct ControlResult {
    pub used: usize,
    pub place: u32,
}

impl Position {
    // A count of 0 jumps over the loop and pushes no counter.
    pub fn enter(self, times: u32, target: u32, counters: &mut [u32; COUNTERS]) -> ControlResult
        requires { (self.place < most_records) × (counter_count ≤ self.used → times ≡ 0) }
        ensures { (result ≡ enter_result self times target) × (counters.new ≡ enter_counters self times counters.old) }
    {
        let used = self.used;
        if times == 0 {
            return ControlResult {
                used,
                place: target,
            };
        }
        counters[used] = times;
        ControlResult {
            used: used + 1,
            place: self.place + 1,
        }
    }

    // Subtracts 1 from the top counter. A counter that reaches 0 is popped.
    pub fn loop_end(self, target: u32, counters: &mut [u32; COUNTERS]) -> ControlResult
        requires { (self.place < most_records) × (0 < self.used) × (self.used ≤ counter_count) }
        ensures { (result ≡ loop_end_result self target counters.old) × (counters.new ≡ loop_end_counters self counters.old) }
    {
        let top = self.used - 1;
        let left = counters[top].saturating_sub(1);
        counters[top] = left;
        if left == 0 {
            return ControlResult {
                used: top,
                place: self.place + 1,
            };
        }
        ControlResult {
            used: self.used,
            place: target,
        }
    }

    fn jump(self, target: u32) -> ControlResult
        ensures { result ≡ control_result self.used target }
    {
        ControlResult {
            used: self.used,
            place: target,
        }
    }

    pub fn execute_control(
        self,
        kind: WordKind,
        word: Record,
        counters: &mut [u32; COUNTERS],
    ) -> ControlResult
        requires { ControlReady self kind word }
        ensures { KeepsDevice word self counters.old result counters.new }
    {
        match kind {
            WordKind::Enter => self.enter(word.value, word.target, counters),
            WordKind::LoopEnd => self.loop_end(word.target, counters),
            _ => self.jump(word.target),
        }
    }
}

// ---- words that access the device

impl Position {
    // Completes a write, a read or a test whose access returned `owner` and `value`: counts its event, logs both for a read, and moves to
    // the next place. A test whose mask has no common 1 with the value goes on at the target.
    pub fn apply_answer(
        mut self,
        kind: WordKind,
        mask: u32,
        target: u32,
        owner: u32,
        value: u32,
        events: &[u32],
        log: &mut [u64],
    ) -> Self
        requires { AnswerReady kind self events.now log.old }
        ensures { AnswerEffect kind mask target owner value events.now self log.old result log.new }
    {
        self.taken = events_taken(events, self.taken);
        match kind {
            WordKind::Read => {
                log[self.logged] = log_entry::entry(owner, value);
                self.logged += 1;
                self.place += 1;
            }
            WordKind::Test if value & mask == 0 => self.place = target,
            _ => self.place += 1,
        }
        self
    }
}
