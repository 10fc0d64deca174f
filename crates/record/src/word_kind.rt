// The kinds of words in an image, and their numbers. `compiler` writes them, `step`, `sequencer` and `interpreter` read them.
// See docs/CHIP.md, "Words".
ghost use Rattle.std.specs.Prelude.{◌≡◌};
ghost use Rattle.record.specs.WordKinds.{NumberedWordKind, word_kind_number};

#[derive(Clone, Copy, Debug, PartialEq, Eq, Hash)]
pub enum WordKind {
    Write = 1,
    Read = 2,
    Delay = 3,
    Enter = 4,
    LoopEnd = 5,
    Test = 6,
    Jump = 7,
    Halt = 8,
}

// A number that no kind has. Each crate with kinds has its own such type, as the error of its `try_from`.
#[derive(Clone, Copy, Debug, PartialEq, Eq, Hash)]
pub struct UnknownKind(pub u32);

impl WordKind {
    pub fn number(self) -> u32
        ensures { result ≡ word_kind_number self }
    {
        self as u32
    }
}

impl TryFrom<u32> for WordKind {
    type Error = UnknownKind;

    ghost try_from_gives = { NumberedWordKind };

    fn try_from(number: u32) -> Result<Self, UnknownKind> {
        match number {
            1 => Ok(WordKind::Write),
            2 => Ok(WordKind::Read),
            3 => Ok(WordKind::Delay),
            4 => Ok(WordKind::Enter),
            5 => Ok(WordKind::LoopEnd),
            6 => Ok(WordKind::Test),
            7 => Ok(WordKind::Jump),
            8 => Ok(WordKind::Halt),
            _ => Err(UnknownKind(number)),
        }
    }
}
