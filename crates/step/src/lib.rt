// The state of the sequencer: the place of the next word and the loop counters. `word` has the faults of a word, `execute`
// what a word does. `sequencer` runs the words. See docs/CHIP.md, "Runs" and "Valid and saved states".
#![tactic(auto)]

pub mod execute;
pub mod word;

ghost use Rattle.std.specs.Prelude.{◌≡◌};
ghost use Rattle.step.specs.Sequencer.{fresh_sequencer, counter_in_range, sequencer_in_range};

use record::Record;

// The number of loop counters.
pub const COUNTERS: usize = 8;

// The place of the next word, and the loop counters, outermost loop first. `used` of them are in use; the others are 0. The number stays beside the
// array: a saved state has both, and refusal 11 is about those that do not agree (`sequencer_in_range`).
#[derive(Clone, Copy)]
pub struct Sequencer {
    pub place: u32,
    pub counters: [u32; COUNTERS],
    pub used: usize,
}

fn counter_in_range(used: usize, k: usize, counter: u32) -> bool
    ensures { result ≡ counter_in_range used k counter }
{
    if k < used {
        1 <= counter && counter <= Record::MOST_TURNS
    } else {
        counter == 0
    }
}

impl Sequencer {
    pub fn fresh() -> Self
        ensures { result ≡ fresh_sequencer }
    {
        Sequencer {
            place: 0,
            counters: [0; COUNTERS],
            used: 0,
        }
    }

    #[tactic(auto, unfolding(crate::specs::Sequencer::sequencer_in_range))]
    pub fn in_range(self) -> bool
        ensures { result ≡ sequencer_in_range self }
    {
        self.used <= COUNTERS
            && self
                .counters
                .iter()
                .enumerate()
                .all(|(k, counter)| counter_in_range(self.used, k, *counter))
    }
}
