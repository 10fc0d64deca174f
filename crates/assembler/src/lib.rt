// The assembler: reads a text script, writes its records to the front of the record buffer, and returns their number or a refusal.
// `runnelopal`, `replay` and the program `assemble` call `assemble`. It relies on `statement::read` for each line.
// See docs/TEXT.md, "Reading: refusals".
#![tactic(auto)]

ghost use Rattle.std.specs.Prelude.{◌≡◌, ◌==◌, ◌||◌, ◌++◌, suc, ◌+◌, ◌≤◌, length, take, drop, position};
ghost use Rattle.statement.specs.Line.{run};
ghost use Rattle.assembler.specs.Assemble.{LineAt, LinesRead, assemble_result, before_comment, not_line_feed, put_record, records_after};
ghost use Rattle.assembler.specs.Assembled.{assembled};

use outcome::RefusalKind;
use record::Record;

// A refused text: why, and the number of the line, counted from 0. It is 0 where the fault is in no line, as in `assemble_result`. Not `Refused`, whose
// place has 32 bits: a text may have more lines.
#[derive(Clone, Copy, Debug, PartialEq, Eq, Hash)]
pub struct LineRefused {
    pub kind: RefusalKind,
    pub line: usize,
}

// Up to this many records are kept in a buffer of the assembler's own until the last line is known to be good. It is the most that a script may have.
const MOST_KEPT: usize = Record::MOST;

const KEPT_SIZE: usize = Record::SIZE * Record::MOST;

// ---- lines

fn first_comment(text: &[u8]) -> Option<usize>
    ensures { result ≡ position (λ b. (b == 0x0A) || (b == 0x3B)) text.now }
{
    text.iter().position(|b| *b == b'\n' || *b == b';')
}

fn first_line_feed(text: &[u8]) -> Option<usize>
    ensures { result ≡ position (λ b. b == 0x0A) text.now }
{
    text.iter().position(|b| *b == b'\n')
}

// The index of the first line feed or semicolon from `at` on, or the length of the text.
fn comment_start(text: &[u8], at: usize) -> usize
    requires { at ≤ length text.now }
    ensures { result ≡ at + run before_comment (drop at text.now) }
{
    let rest = &text[at..];
    at + first_comment(rest).unwrap_or(rest.len())
}

// The index of the first line feed from `at` on, or the length of the text.
fn line_end(text: &[u8], at: usize) -> usize
    requires { at ≤ length text.now }
    ensures { result ≡ at + run not_line_feed (drop at text.now) }
{
    let rest = &text[at..];
    at + first_line_feed(rest).unwrap_or(rest.len())
}

// The index of the next line, if a line ends at `end`.
fn next_line(text: &[u8], end: usize) -> usize
    requires { end ≤ length text.now }
    ensures { (result ≤ length text.now) × (drop result text.now ≡ drop (suc end) text.now) }
{
    if end < text.len() {
        return end + 1;
    }
    end
}

// Where a line is in the text. The line feed is not part of it. Not the slice: the clauses `starts` and `after_last` of `LineAt` say where it begins.
#[derive(Clone, Copy)]
pub struct LineSpan {
    pub from: usize,
    pub to: usize,
}

// The line with this number, counted from 0. After the last line it is empty. A program can show the line that a refusal names.
pub fn find_line(text: &[u8], place: usize) -> LineSpan
    ensures { LineAt text.now place result }
{
    let mut at: usize = 0;
    for _k in 0..place {
        if text.len() <= at {
            break;
        }
        at = next_line(text, line_end(text, at));
    }
    let to = line_end(text, at);
    LineSpan { from: at, to }
}

// ---- texts

// Writes a record at its place in the buffer, if there is room for it.
fn put(records: &mut [u8], place: usize, r: Record)
    ensures { records.new ≡ put_record place r records.old }
{
    if place < records.len() / Record::SIZE {
        let at = Record::SIZE * place;
        record::write(&mut records[at..], r);
    }
}

// Refusals 30, 31 and 32, or the number of statements. Writes the record of each statement that the buffer has room for.
fn read_lines(text: &[u8], records: &mut [u8]) -> Result<usize, LineRefused>
    ensures { LinesRead text.now records.old records.new (assembled result) }
{
    let mut at: usize = 0;
    let mut line: usize = 0;
    let mut written: usize = 0;
    // Not `split`: after the last line feed it gives one more, empty line, which the grammar does not have.
    while at < text.len() {
        let comment = comment_start(text, at);
        let end = line_end(text, comment);
        let found = statement::read(&text[at..end], comment - at).map_err(|kind| LineRefused {
            kind,
            line,
        })?;
        if let Some(r) = found {
            put(records, written, r);
            written += 1;
        }
        line += 1;
        at = next_line(text, end);
    }
    Ok(written)
}

// Copies the first `end` bytes of the kept records to the front of the buffer.
fn copy(records: &mut [u8], kept: &[u8], end: usize)
    requires { (end ≤ length kept.now) × (end ≤ length records.old) }
    ensures { records.new ≡ take end kept.now ++ drop end records.old }
{
    records[..end].copy_from_slice(&kept[..end]);
}

// Reads a text script. Nothing may be written to the buffer before the last line is known to be good, so the records are kept elsewhere until then. If
// there are more than can be kept, all lines are read again.
pub fn assemble(text: &[u8], records: &mut [u8]) -> Result<usize, LineRefused>
    ensures { (assembled result ≡ assemble_result text.now records.old) × (records.new ≡ records_after text.now records.old) }
{
    let mut kept = [0u8; KEPT_SIZE];
    let count = read_lines(text, &mut kept)?;
    if records.len() / Record::SIZE < count {
        return Err(LineRefused {
            kind: RefusalKind::RecordsTooShort,
            line: 0,
        });
    }
    if count <= MOST_KEPT {
        copy(records, &kept, Record::SIZE * count);
        return Ok(count);
    }
    read_lines(text, records)
}
