// The answers of the exported functions. Programs in other languages get them by value, with the layout of a C struct. See
// bindings/c/runnelopal.h. C has no Option and no enum with values, so 0 stands for a number that is missing.
ghost use Rattle.std.specs.Prelude.{◌≡◌};
ghost use Rattle.assembler.specs.Assembled.{assembled};
ghost use Rattle.compiler.specs.Compile.{compiled};
ghost use Rattle.lister.specs.Listing.{listed};
ghost use Rattle.outcome.specs.Refused.{refusal_of};
ghost use Rattle.runnelopal.specs.Answers.{
  ended,
  exported_access,
  exported_assemble,
  exported_compile,
  exported_event,
  exported_list,
  exported_outputs,
  exported_sequencer,
  levels,
  outputs_refused,
  refused_answer,
  sequencer_refused,
};
ghost use Rattle.state.specs.Call.{access_reply, event_reply};

use assembler::LineRefused;
use device::{Device, Outputs, owner};
use outcome::{Ending, Refused};
use state::call::AccessReply;
use step::{COUNTERS, Sequencer};

// The outputs of the chip: SCI, SMI and the monitor interrupt.
#[repr(C)]
#[derive(Clone, Copy)]
pub struct OutputLevels {
    pub sci: bool,
    pub smi: bool,
    pub monitor: bool,
}

// `refusal` is 0 if the script was compiled into `words` words.
#[repr(C)]
#[derive(Clone, Copy)]
pub struct CompileAnswer {
    pub refusal: u32,
    pub place: u32,
    pub words: u32,
}

// `refusal` is 0 if the text script was read into `records` records. The place is the number of a line.
#[repr(C)]
#[derive(Clone, Copy)]
pub struct AssembleAnswer {
    pub refusal: u32,
    pub place: usize,
    pub records: usize,
}

// `refusal` is 0 if the listing, of `length` bytes, was written.
#[repr(C)]
#[derive(Clone, Copy)]
pub struct ListAnswer {
    pub refusal: u32,
    pub place: u32,
    pub length: usize,
}

// `outcome` is the ending of a run or the number of a refusal, `place` the place of a refusal, 0 for an ending. After a refusal all other
// numbers are 0, and the outputs false.
#[repr(C)]
#[derive(Clone, Copy)]
pub struct RunAnswer {
    pub outcome: u32,
    pub place: u32,
    pub steps: u32,
    pub taken: usize,
    pub logged: usize,
    pub outputs: OutputLevels,
}

#[repr(C)]
#[derive(Clone, Copy)]
pub struct AccessAnswer {
    pub refusal: u32,
    pub place: u32,
    pub status: u32,
    pub value: u32,
    pub owner: u32,
    pub outputs: OutputLevels,
}

#[repr(C)]
#[derive(Clone, Copy)]
pub struct OutputsAnswer {
    pub refusal: u32,
    pub place: u32,
    pub outputs: OutputLevels,
}

// `place` is the place of the next word; a refusal has place 0.
#[repr(C)]
#[derive(Clone, Copy)]
pub struct SequencerAnswer {
    pub refusal: u32,
    pub place: u32,
    pub used: u32,
    pub counters: [u32; COUNTERS],
}

impl OutputLevels {
    // The outputs of an answer that is a refusal.
    const NONE: OutputLevels = OutputLevels {
        sci: false,
        smi: false,
        monitor: false,
    };
}

impl From<Outputs> for OutputLevels {
    ghost from_gives = { λ o r. r ≡ levels o };

    fn from(outputs: Outputs) -> Self {
        OutputLevels {
            sci: outputs.sci,
            smi: outputs.smi,
            monitor: outputs.monitor,
        }
    }
}

impl From<Result<u32, Refused>> for CompileAnswer {
    ghost from_gives = { λ c r. r ≡ exported_compile (compiled c) };

    fn from(compiled: Result<u32, Refused>) -> Self {
        match compiled {
            Ok(words) => CompileAnswer {
                refusal: 0,
                place: 0,
                words,
            },
            Err(refused) => CompileAnswer {
                refusal: refused.kind.number(),
                place: refused.place,
                words: 0,
            },
        }
    }
}

impl From<Result<usize, LineRefused>> for AssembleAnswer {
    ghost from_gives = { λ a r. r ≡ exported_assemble (assembled a) };

    fn from(assembled: Result<usize, LineRefused>) -> Self {
        match assembled {
            Ok(records) => AssembleAnswer {
                refusal: 0,
                place: 0,
                records,
            },
            Err(refused) => AssembleAnswer {
                refusal: refused.kind.number(),
                place: refused.line,
                records: 0,
            },
        }
    }
}

impl From<Result<usize, Refused>> for ListAnswer {
    ghost from_gives = { λ l r. r ≡ exported_list (listed l) };

    fn from(listed: Result<usize, Refused>) -> Self {
        match listed {
            Ok(length) => ListAnswer {
                refusal: 0,
                place: 0,
                length,
            },
            Err(refused) => ListAnswer {
                refusal: refused.kind.number(),
                place: refused.place,
                length: 0,
            },
        }
    }
}

impl From<Refused> for RunAnswer {
    ghost from_gives = { λ f r. r ≡ refused_answer (refusal_of f) };

    fn from(refused: Refused) -> Self {
        RunAnswer {
            outcome: refused.kind.number(),
            place: refused.place,
            steps: 0,
            taken: 0,
            logged: 0,
            outputs: OutputLevels::NONE,
        }
    }
}

// The answer of a run that ended. Five parameters, since the results of `sequencer::run` and of `interpreter::interpret` are two types.
pub fn ended(ending: Ending, steps: u32, taken: usize, logged: usize, device: Device) -> RunAnswer
    ensures { result ≡ ended ending steps taken logged device }
{
    RunAnswer {
        outcome: ending.number(),
        place: 0,
        steps,
        taken,
        logged,
        outputs: OutputLevels::from(device.outputs()),
    }
}

impl From<Result<AccessReply, Refused>> for AccessAnswer {
    ghost from_gives = { λ s r. r ≡ exported_access (access_reply s) };

    fn from(single: Result<AccessReply, Refused>) -> Self {
        match single {
            Ok(made) => AccessAnswer {
                refusal: 0,
                place: 0,
                status: made.answer.status,
                value: made.answer.value,
                owner: owner::number(made.owner),
                outputs: OutputLevels::from(made.outputs),
            },
            Err(refused) => AccessAnswer {
                refusal: refused.kind.number(),
                place: refused.place,
                status: 0,
                value: 0,
                owner: 0,
                outputs: OutputLevels::NONE,
            },
        }
    }
}

impl From<Result<Outputs, Refused>> for OutputsAnswer {
    ghost from_gives = { λ s r. r ≡ exported_event (event_reply s) };

    fn from(single: Result<Outputs, Refused>) -> Self {
        match single {
            Ok(outputs) => OutputsAnswer {
                refusal: 0,
                place: 0,
                outputs: OutputLevels::from(outputs),
            },
            Err(refused) => OutputsAnswer {
                refusal: refused.kind.number(),
                place: refused.place,
                outputs: OutputLevels::NONE,
            },
        }
    }
}

// Two functions here and two below, not `From`: each has a definition of its own, which takes any number for the refusal.
pub fn exported_outputs(device: Device) -> OutputsAnswer
    ensures { result ≡ exported_outputs device }
{
    OutputsAnswer {
        refusal: 0,
        place: 0,
        outputs: OutputLevels::from(device.outputs()),
    }
}

pub fn outputs_refused(refusal: u32) -> OutputsAnswer
    ensures { result ≡ outputs_refused refusal }
{
    OutputsAnswer {
        refusal,
        place: 0,
        outputs: OutputLevels::NONE,
    }
}

// The number in use is that of a valid sequencer, at most 8.
pub fn exported_sequencer(sequencer: Sequencer) -> SequencerAnswer
    ensures { result ≡ exported_sequencer sequencer }
{
    let counters = sequencer.counters;
    SequencerAnswer {
        refusal: 0,
        place: sequencer.place,
        used: (sequencer.used % 0x1_0000_0000) as u32,
        counters,
    }
}

pub fn sequencer_refused(refusal: u32) -> SequencerAnswer
    ensures { result ≡ sequencer_refused refusal }
{
    SequencerAnswer {
        refusal,
        place: 0,
        used: 0,
        counters: [0; COUNTERS],
    }
}
