// The blocks that are open at a place of a script, and whether a record may stand there. See docs/CHIP.md, "Scripts" and "Refusals".
ghost use Rattle.std.specs.Prelude.{◌≡◌, IfOk, cond};
ghost use Rattle.outcome.specs.Refused.{error_number};
ghost use Rattle.script.specs.Blocks.{open_numbers};
ghost use Rattle.script.specs.Kinds.{kind_number};
ghost use Rattle.script.specs.Refusals.{emits_word, open_after};
ghost use Rattle.script.specs.Scan.{place_fault};

use crate::kind::RecordKind;
use lists::array_stack::ArrayStack;
use outcome::RefusalKind;

// At most this many blocks may be open at once, and at most this many of them may be repeats.
pub const MOST_BLOCKS: usize = 16;

pub const MOST_REPEATS: u32 = 8;

// An open block: a repeat, an if that has no else yet, an if after its else.
#[derive(Clone, Copy, PartialEq, Eq)]
pub enum Open {
    Repeat,
    If,
    Else,
}

// The innermost block is on top.
pub type OpenBlocks = ArrayStack<Open, MOST_BLOCKS>;

// Opens, changes or closes a block for a record, and returns how many words the record makes: 0 for the end of an if, otherwise 1.
// Or the fault that the record has by its place, after which the blocks mean nothing. It does not count repeats; `scan_records` does.
pub fn enter(blocks: &mut OpenBlocks, kind: RecordKind) -> Result<u32, RefusalKind>
    ensures fault { error_number result ≡ place_fault (open_numbers blocks.old) (kind_number kind) }
    ensures blocks { IfOk result (λ words. open_numbers blocks.new ≡ open_after (open_numbers blocks.old) (kind_number kind)) }
    ensures words { IfOk result (λ words. words ≡ cond (emits_word (open_numbers blocks.old) (kind_number kind)) 1 0) }
{
    match kind {
        RecordKind::Write | RecordKind::Read | RecordKind::Delay => Ok(1),
        RecordKind::Repeat => {
            if blocks.is_full() {
                return Err(RefusalKind::TooDeep);
            }
            blocks.push(Open::Repeat);
            Ok(1)
        }
        RecordKind::If => {
            if blocks.is_full() {
                return Err(RefusalKind::TooDeep);
            }
            blocks.push(Open::If);
            Ok(1)
        }
        RecordKind::Else => match blocks.pop() {
            Some(Open::If) => {
                blocks.push(Open::Else);
                Ok(1)
            }
            _ => Err(RefusalKind::Misplaced),
        },
        RecordKind::End => match blocks.pop() {
            Some(Open::Repeat) => Ok(1),
            Some(_) => Ok(0),
            None => Err(RefusalKind::Misplaced),
        },
    }
}
