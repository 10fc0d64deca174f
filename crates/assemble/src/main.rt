// The program `assemble` reads the text script on standard input and writes its records to standard output. If the text is refused, it writes
// nothing there. Standard error then has the refusal, and after it the bad line, if a line is bad. See docs/TEXT.md, "Reading: refusals". A read or
// a write that the system refuses ends it with that error.
#![tactic(auto)]

ghost use Rattle.assemble.specs.Output.{Answered, answer_of};

use assembler::LineRefused;
use outcome::{RefusalKind, Refused};
use record::Record;
use std::io;

// A longer text is not assembled.
const MOST_TEXT: usize = 262_144;

// One byte more, so that a longer text is noticed.
const TEXT_SIZE: usize = MOST_TEXT + 1;

// Room for 8,192 records.
const RECORDS_SIZE: usize = Record::SIZE * 8192;

// Puts the records of the text into the front of the buffer, and returns the length of the output in bytes.
fn put_records(text: &[u8], records: &mut [u8]) -> Result<usize, LineRefused>
    ensures { Answered text.now records.old records.new (answer_of result) }
{
    Ok(Record::SIZE * assembler::assemble(text, records)?)
}

// Prints the line as it is in the text, and a line feed.
fn print_line(errors: &impl Print, text: &[u8], line: usize) -> io::Result<()> {
    let span = assembler::find_line(text, line);
    errors.write_all(&text[span.from..span.to])?;
    errors.write_all(b"\n")
}

// A text has fewer than 2^32 lines.
fn refuse(errors: &impl Print, text: &[u8], refused: LineRefused) -> io::Result<()> {
    let place = u32::try_from(refused.line).unwrap_or(u32::MAX);
    let kind = refused.kind;
    refusal_text::print(errors, Refused { kind, place })?;
    if kind != RefusalKind::RecordsTooShort {
        print_line(errors, text, refused.line)?;
    }
    Ok(())
}

fn assemble(output: &impl Print, errors: &impl Print, text: &[u8]) -> io::Result<()> {
    let mut records = [0; RECORDS_SIZE];
    match put_records(text, &mut records) {
        Ok(length) => output.write_all(&records[..length]),
        Err(refused) => refuse(errors, text, refused),
    }
}

fn main(rt: HostRuntime) -> io::Result<()> {
    let errors = rt.stderr();
    let mut text = [0; TEXT_SIZE];
    let count = input::read_full(&mut rt.stdin(), &mut text)?;
    if MOST_TEXT < count {
        return errors.write_all(b"assemble: the text has more than 262144 bytes\n");
    }
    assemble(&rt, &errors, &text[..count])
}
