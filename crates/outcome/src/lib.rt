// Refusals, and the endings of a run, with their numbers. See docs/CHIP.md, "Refusals" and "Runs".
// The crates that refuse a call or end a run use them.
#![tactic(auto)]

ghost use Rattle.std.specs.Prelude.{◌≡◌};
ghost use Rattle.outcome.specs.Refused.{ending_number, refusal_number};

// Why a call is refused.
#[derive(Clone, Copy, Debug, PartialEq, Eq, Hash)]
pub enum RefusalKind {
    // ---- Refusals by the compiler.
    BadLength = 1,
    WrongMark = 2,
    BadKind = 3,
    // Also a single access with a wrong width, a port above FFFFh, or a written value that does not fit the width.
    BadField = 4,
    Misplaced = 5,
    TooDeep = 6,
    StillOpen = 7,
    TooManyWords = 8,
    BufferTooShort = 9,
    // ---- Refusals by runs and by single calls.
    BadImage = 10,
    BadState = 11,
    BadEvent = 12,
    // ---- Refusals by the assembler, which reads text scripts, and by the lister.
    LineTooLong = 30,
    NotInGrammar = 31,
    NumberTooBig = 32,
    RecordsTooShort = 33,
    TextTooShort = 34,
}

impl RefusalKind {
    pub fn number(self) -> u32
        ensures { result ≡ refusal_number self }
    {
        self as u32
    }
}

// A refused call: why, and the place of the fault. The place is a number also where there is none: document 01 says "place 0" then.
#[derive(Clone, Copy, Debug, PartialEq, Eq, Hash)]
pub struct Refused {
    pub kind: RefusalKind,
    pub place: u32,
}

// How a run ends: halted, with its budget spent, or at a fault.
#[derive(Clone, Copy, Debug, PartialEq, Eq, Hash)]
pub enum Ending {
    Halted = 0,
    BudgetSpent = 19,
    BadWord = 20,
    BeyondLastWord = 21,
    NinthCounter = 22,
    NoCounter = 23,
    LogFull = 24,
}

impl Ending {
    pub fn number(self) -> u32
        ensures { result ≡ ending_number self }
    {
        self as u32
    }
}
