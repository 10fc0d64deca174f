// The commands, and how one is read from a line. See docs/CASES.md, "Commands".
use crate::string::ByteString;
use crate::words::Words;
use access::Access;
use step::Sequencer;

#[derive(Clone, Copy)]
pub enum Command<'a> {
    // R, W
    Access(Access),
    // E
    Event(u32),
    // O
    Outputs,
    // S
    State,
    // L
    Load(ByteString<'a>),
    // F
    Fresh,
    // C
    Compile(Filling<'a>),
    // A
    Assemble(Filling<'a>),
    // D
    List(Filling<'a>),
    // Q
    SetSequencer(Sequencer),
    // P
    Sequencer,
    // G
    LoadSequencer(ByteString<'a>),
    // X
    Run(RunRequest<'a>),
    // T
    CompileAndRun(RunRequest<'a>),
    // N
    Interpret(RunRequest<'a>),
}

// What a command that fills a buffer takes: the length of the buffer, and a script or a text.
#[derive(Clone, Copy)]
pub struct Filling<'a> {
    pub length: usize,
    pub input: ByteString<'a>,
}

// What a run takes: the budget, the length of the log, the events, and an image or a script.
#[derive(Clone, Copy)]
pub struct RunRequest<'a> {
    pub budget: u32,
    pub log: usize,
    pub events: ByteString<'a>,
    pub bytes: ByteString<'a>,
}

impl<'a> Command<'a> {
    pub fn read(line: &'a [u8]) -> Option<Self> {
        let mut words = Words::of(line);
        let command = Command::from_words(&mut words)?;
        words.is_empty().then_some(command)
    }

    fn from_words(words: &mut Words<'a>) -> Option<Self> {
        Some(match words.letter()? {
            b'R' => Command::Access(words.read_access()?),
            b'W' => Command::Access(words.write_access()?),
            b'E' => Command::Event(words.number()?),
            b'O' => Command::Outputs,
            b'S' => Command::State,
            b'L' => Command::Load(words.string()?),
            b'F' => Command::Fresh,
            b'C' => Command::Compile(words.filling()?),
            b'A' => Command::Assemble(words.filling()?),
            b'D' => Command::List(words.filling()?),
            b'Q' => Command::SetSequencer(words.sequencer()?),
            b'P' => Command::Sequencer,
            b'G' => Command::LoadSequencer(words.string()?),
            b'X' => Command::Run(words.run_request()?),
            b'T' => Command::CompileAndRun(words.run_request()?),
            b'N' => Command::Interpret(words.run_request()?),
            _ => return None,
        })
    }
}
