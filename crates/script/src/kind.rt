// The kinds of records, and their numbers in a script. See docs/CHIP.md, "Scripts".
ghost use Rattle.std.specs.Prelude.{◌≡◌, ◌≤◌};
ghost use Rattle.record.specs.WordKinds.{word_kind_number};
ghost use Rattle.script.specs.Kind as kind;
ghost use Rattle.script.specs.Kinds.{NumberedKind, kind_number, word_kind_for};

use record::word_kind::WordKind;

#[derive(Clone, Copy, Debug, PartialEq, Eq, Hash)]
pub enum RecordKind {
    Write = 1,
    Read = 2,
    Delay = 3,
    Repeat = 4,
    If = 5,
    Else = 6,
    End = 7,
}

// A number that no kind has. The kinds of words and of events have errors of their own: one type for all would not say which table was read.
#[derive(Clone, Copy, Debug, PartialEq, Eq, Hash)]
pub struct UnknownKind(pub u32);

impl RecordKind {
    pub fn number(self) -> u32
        ensures { result ≡ kind_number self }
    {
        self as u32
    }

    // The kind of the word that does what a record of this kind does. The end of an if has no word.
    pub fn word_kind(self) -> WordKind
        ensures { word_kind_number result ≡ word_kind_for (kind_number self) }
    {
        match self {
            RecordKind::Write => WordKind::Write,
            RecordKind::Read => WordKind::Read,
            RecordKind::Delay => WordKind::Delay,
            RecordKind::Repeat => WordKind::Enter,
            RecordKind::If => WordKind::Test,
            RecordKind::Else => WordKind::Jump,
            RecordKind::End => WordKind::LoopEnd,
        }
    }
}

// The kind with a number that some kind has, as every record of an accepted script has.
pub fn kind_of(number: u32) -> RecordKind
    requires { (kind.write ≤ number) × (number ≤ kind.end) }
    ensures { kind_number result ≡ number }
{
    RecordKind::try_from(number).unwrap()
}

impl TryFrom<u32> for RecordKind {
    type Error = UnknownKind;

    ghost try_from_gives = { NumberedKind };

    fn try_from(number: u32) -> Result<Self, UnknownKind> {
        match number {
            1 => Ok(RecordKind::Write),
            2 => Ok(RecordKind::Read),
            3 => Ok(RecordKind::Delay),
            4 => Ok(RecordKind::Repeat),
            5 => Ok(RecordKind::If),
            6 => Ok(RecordKind::Else),
            7 => Ok(RecordKind::End),
            _ => Err(UnknownKind(number)),
        }
    }
}
