// `fault` checks a word before it is executed. `sequencer` calls it for every word.
// See docs/CHIP.md, "Words" and "Runs".
ghost use Rattle.std.specs.Prelude.{◌≡◌, ◌||◌, ◌&&◌, eqb, leb};
ghost use Rattle.record.specs.WordKind as word_kind;
ghost use Rattle.record.specs.WordKinds.{word_kind_number};
ghost use Rattle.script.specs.Fields.{kind_fields};
ghost use Rattle.step.specs.Checked.{ChecksKind, ChecksWord, kind_uses_target};

use crate::COUNTERS;
use outcome::Ending;
use record::Record;
use record::word_kind::WordKind;

fn uses_target(kind: WordKind) -> bool
    ensures { result ≡ kind_uses_target kind }
{
    matches!(
        kind,
        WordKind::Enter | WordKind::LoopEnd | WordKind::Test | WordKind::Jump
    )
}

fn good_target(kind: WordKind, r: Record) -> bool
    ensures { result ≡ (kind_uses_target kind || eqb r.target 0) }
{
    uses_target(kind) || r.target == 0
}

// The fields besides the target, by the kind: `script::kind_fields` would look at the number of the kind again, for every word of a run.
fn good_fields(kind: WordKind, r: Record) -> bool
    requires { word_kind_number kind ≡ r.kind }
    ensures { result ≡ kind_fields word_kind.test r }
{
    match kind {
        WordKind::Write | WordKind::Test => script::value_fields(r),
        WordKind::Read => script::read_fields(r),
        WordKind::Delay | WordKind::Enter => script::count_fields(r),
        WordKind::LoopEnd | WordKind::Jump | WordKind::Halt => script::no_fields(r),
    }
}

// Fault 21 for the target, whether or not the word jumps.
fn target_beyond(words: u32, kind: WordKind, r: Record) -> bool
    ensures { result ≡ (kind_uses_target kind && leb words r.target) }
{
    uses_target(kind) && words <= r.target
}

// The kind of a word, or none if the word is bad: fault 20.
#[tactic(auto, unfolding(crate::specs::Word::bad_word))]
fn good_kind(r: Record) -> Option<WordKind>
    ensures { ChecksKind r result }
{
    if r.mark != Record::WORD_MARK {
        return None;
    }
    let kind = WordKind::try_from(r.kind).ok()?;
    (good_target(kind, r) && good_fields(kind, r)).then_some(kind)
}

// The kind of a word, or its first fault, in the order of the checks.
#[tactic(auto, unfolding(crate::specs::Step::word_fault))]
pub fn fault(
    words: u32,
    room: usize,
    used: usize,
    logged: usize,
    r: Record,
) -> Result<WordKind, Ending>
    ensures { ChecksWord words room used logged r result }
{
    let kind = good_kind(r).ok_or(Ending::BadWord)?;
    if target_beyond(words, kind, r) {
        return Err(Ending::BeyondLastWord);
    }
    match kind {
        WordKind::Enter if r.value != 0 && COUNTERS <= used => Err(Ending::NinthCounter),
        WordKind::LoopEnd if used == 0 => Err(Ending::NoCounter),
        WordKind::Read if room <= logged => Err(Ending::LogFull),
        _ => Ok(kind),
    }
}
