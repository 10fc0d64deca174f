// Checks a script: refusals 1 to 8, or the number of words that the compiler makes from it. The compiler calls `scan` first. The
// checks of fields also serve words, in `step`, and text scripts, in `statement` and `lister`. See docs/CHIP.md, "Scripts" and "Refusals".
#![tactic(auto)]

pub mod kind;
mod open_blocks;

ghost use Rattle.std.specs.Prelude.{◌≡◌, ◌≤◌, ◌/◌, IfOk, length};
ghost use Rattle.outcome.specs.Refused.{error_number};
ghost use Rattle.record.specs.Record.{most_records, record_size};
ghost use Rattle.script.specs.Fields.{value_fields, read_fields, count_fields, no_fields, kind_fields};
ghost use Rattle.script.specs.Kind as record_kind;
ghost use Rattle.script.specs.Kinds.{kind_number};
ghost use Rattle.script.specs.Refusals.{bad_length, good_fields};
ghost use Rattle.script.specs.Scan.{records_scan, scanned, script_scan, shape_fault};

use kind::RecordKind;
pub use open_blocks::MOST_BLOCKS;
use open_blocks::{MOST_REPEATS, Open, OpenBlocks};
use outcome::{RefusalKind, Refused};
use record::Record;

// The same number as a `u32`, as `scan` counts words.
const MOST_WORDS: u32 = Record::MOST as u32;

// Width, port, and a value that fits the width: write, if, and the word test. The target is not checked here.
pub fn value_fields(r: Record) -> bool
    ensures { result ≡ value_fields r }
{
    width::is_width(r.width) && width::fits(r.width, r.value)
}

// Width and port: read.
pub fn read_fields(r: Record) -> bool
    ensures { result ≡ read_fields r }
{
    width::is_width(r.width) && r.value == 0
}

// A count of at most 65,535: delay, repeat, and the word enter.
pub fn count_fields(r: Record) -> bool
    ensures { result ≡ count_fields r }
{
    r.width == 0 && r.port == 0 && r.value <= Record::MOST_TURNS
}

// No field: else, end, and the words loop end, jump and halt.
pub fn no_fields(r: Record) -> bool
    ensures { result ≡ no_fields r }
{
    r.width == 0 && r.port == 0 && r.value == 0
}

// Checks the fields of a record or a word by its kind. `tests` is the kind that reads and
// tests: 5 (if) in a script, 6 (test) in an image. The kinds 1 to 4 have the same fields in both. It is a number, as in the
// definition `kind_fields`, because the kinds of records and of words are two enums.
pub fn kind_fields(r: Record, tests: u32) -> bool
    ensures { result ≡ kind_fields tests r }
{
    if r.kind == tests {
        return value_fields(r);
    }
    match RecordKind::try_from(r.kind) {
        Ok(RecordKind::Write) => value_fields(r),
        Ok(RecordKind::Read) => read_fields(r),
        Ok(RecordKind::Delay | RecordKind::Repeat) => count_fields(r),
        _ => no_fields(r),
    }
}

// The same for a record whose kind is known. `shape_fault` then looks at the number of the kind only once, which takes fewer instructions.
fn record_fields(kind: RecordKind, r: Record) -> bool
    requires { kind_number kind ≡ r.kind }
    ensures { result ≡ kind_fields record_kind.if r }
{
    match kind {
        RecordKind::Write | RecordKind::If => value_fields(r),
        RecordKind::Read => read_fields(r),
        RecordKind::Delay | RecordKind::Repeat => count_fields(r),
        RecordKind::Else | RecordKind::End => no_fields(r),
    }
}

// A record of a script uses no target.
pub fn good_fields(r: Record) -> bool
    ensures { result ≡ good_fields r }
{
    r.target == 0 && kind_fields(r, RecordKind::If.number())
}

// The kind of a record, or the fault that the record has by itself: 2, 3 or 4.
#[tactic(auto, unfolding(crate::specs::Scan::shape_fault))]
pub fn shape_fault(r: Record) -> Result<RecordKind, RefusalKind>
    ensures fault { error_number result ≡ shape_fault r }
    ensures kind { IfOk result (λ kind. kind_number kind ≡ r.kind) }
{
    if r.mark != Record::SCRIPT_MARK {
        return Err(RefusalKind::WrongMark);
    }
    let Ok(kind) = RecordKind::try_from(r.kind) else {
        return Err(RefusalKind::BadKind);
    };
    if r.target == 0 && record_fields(kind, r) {
        Ok(kind)
    } else {
        Err(RefusalKind::BadField)
    }
}

// Refusals 2 to 7, or the number of words, the halt included. Document 01 names this form: a scan of the records with an inner walk over
// the open blocks, left by label at the first fault. Records are read by place, as `records_from` reads them, and a refusal names the place.
// `count` is passed on, because `scan` needs it too.
fn scan_records(script: &[u8], count: u32) -> Result<u32, Refused>
    requires few { count ≤ most_records }
    requires whole { count ≡ length script.now / record_size }
    ensures { scanned result ≡ records_scan script.now }
{
    let mut blocks = OpenBlocks::new(Open::Repeat);
    let mut words = 1;
    let fault = 'scan: {
        for place in 0..count {
            let r = record::read(script, Record::SIZE * place as usize);
            let kind = match shape_fault(r) {
                Ok(kind) => kind,
                Err(kind) => break 'scan Refused { kind, place },
            };
            if kind == RecordKind::Repeat {
                let mut repeats = 0;
                for block in blocks.as_slice() {
                    repeats += u32::from(*block == Open::Repeat);
                    if repeats == MOST_REPEATS {
                        break 'scan Refused {
                            kind: RefusalKind::TooDeep,
                            place,
                        };
                    }
                }
            }
            match open_blocks::enter(&mut blocks, kind) {
                Ok(made) => words += made,
                Err(kind) => break 'scan Refused { kind, place },
            }
        }
        if blocks.is_empty() {
            return Ok(words);
        }
        Refused {
            kind: RefusalKind::StillOpen,
            place: count,
        }
    };
    Err(fault)
}

// Refusal 1: the length is not a multiple of 12, or there are more than 1,024 records.
pub fn bad_length(script: &[u8]) -> bool
    ensures { result ≡ bad_length script.now }
{
    script.len() % Record::SIZE != 0 || Record::MOST < script.len() / Record::SIZE
}

// Refusals 1 to 8, or the number of words, the halt included.
pub fn scan(script: &[u8]) -> Result<u32, Refused>
    ensures { scanned result ≡ script_scan script.now }
{
    if bad_length(script) {
        return Err(Refused {
            kind: RefusalKind::BadLength,
            place: 0,
        });
    }
    let count = (script.len() / Record::SIZE) as u32;
    let words = scan_records(script, count)?;
    if MOST_WORDS < words {
        return Err(Refused {
            kind: RefusalKind::TooManyWords,
            place: count,
        });
    }
    Ok(words)
}
