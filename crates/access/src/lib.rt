// An access, its answer, and the statuses. See docs/CHIP.md, "Accesses".
// The register blocks take an `Access` and return a `Reply`. `device` passes the access to the block that owns the port.
#![tactic(auto)]

ghost use Rattle.std.specs.Prelude.{◌≡◌};
ghost use Rattle.access.specs.Block.{reply_of, takes_byte, with_block};
ghost use Rattle.access.specs.Status.{answer_of, done, read_value, status_number, status_only};

// `value` is the value to write. A read ignores it. It is not in an enum with `write`: C programs give both (`runnelopal_raw_access`), and the
// definitions take an access in this form (`access_of`, `device_access`).
#[derive(Clone, Copy)]
pub struct Access {
    pub write: bool,
    pub width: u32,
    pub port: u32,
    pub value: u32,
}

// The statuses, in the order of the table in docs/CHIP.md, "Accesses".
#[derive(Clone, Copy, Debug, PartialEq, Eq, Hash)]
pub enum Status {
    Done = 0,
    Unclaimed = 1,
    Blocked = 2,
    Absent = 4,
    Ignored = 5,
}

impl Status {
    // The numbers of the table. 3 is retired and is not used again.
    pub fn number(self) -> u32
        ensures { result ≡ status_number self }
    {
        self as u32
    }
}

// A read has a value at every status (`read_value`), so the value stands beside the status and not in `Done`. The status is a number:
// `status_only` and `read_value` promise what they say of any number, and the law about statuses (`Orderly`) says that no block answers with one
// that is not in the table, which a `Status` here would leave nothing to say.
#[derive(Clone, Copy, Debug, PartialEq, Eq, Hash)]
pub struct Answer {
    pub status: u32,
    pub value: u32,
}

impl Answer {
    pub fn done(value: u32) -> Self
        ensures { answer_of result ≡ done value }
    {
        Answer {
            status: Status::Done.number(),
            value,
        }
    }

    // The answer to a write, or to a read that is not done.
    pub fn status_only(status: u32) -> Self
        ensures { answer_of result ≡ status_only status }
    {
        Answer { status, value: 0 }
    }
}

// What a register block returns for an access: the answer, and the block after the access.
#[derive(Clone, Copy)]
pub struct Reply<B> {
    pub block: B,
    pub answer: Answer,
}

impl<B> Reply<B> {
    pub fn done(value: u32, block: B) -> Self
        ensures { reply_of result ≡ with_block (done value) block }
    {
        Reply {
            block,
            answer: Answer::done(value),
        }
    }

    // The reply to a write, or to a read that is not done.
    pub fn status(status: Status, block: B) -> Self
        ensures { reply_of result ≡ with_block (status_only (status_number status)) block }
    {
        Reply {
            block,
            answer: Answer::status_only(status.number()),
        }
    }
}

// Does a block whose registers are one byte wide accept this width?
pub fn takes_byte(width: u32) -> bool
    ensures { result ≡ takes_byte width }
{
    width == 1
}

// The value that a read returns: `value` if it is done, all ones of the width if it is unclaimed, otherwise 0.
#[tactic(auto, unfolding(crate::specs::Status::read_value))]
pub fn read_value(status: u32, width: u32, value: u32) -> u32
    ensures { result ≡ read_value status width value }
{
    if status == Status::Done.number() {
        return value;
    }
    if status == Status::Unclaimed.number() {
        return width::all_ones(width);
    }
    0
}
