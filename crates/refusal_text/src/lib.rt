// The line that a program prints if a call is refused: `REFUSED`, the number and the place. `trace_text` puts it for `trace` and `interpret`;
// `assemble` and `list` print it by itself. specs/Refused.antt defines it.
#![tactic(auto)]

ghost use Rattle.std.specs.Prelude.{◌≡◌};
ghost use Rattle.digits.specs.Written.{writes};
ghost use Rattle.refusal_text.specs.Refused.{Put, numbers_text, refused_text};

use digits::Writer;
use outcome::Refused;
use std::io;

// Room for the longest line: 8 bytes of the word and its space, two numbers of at most 10 digits, a space between them and the line feed.
pub const LINE_SIZE: usize = 30;

// Puts two decimal numbers and a line feed.
#[tactic(auto, using(digits::proofs::Writes::writes_twice))]
pub fn put_numbers(line: &mut Writer, first: u32, second: u32)
    ensures { line.new ≡ writes (numbers_text first second) line.old }
{
    line.put_decimal(first);
    line.put(b' ');
    line.put_decimal(second);
    line.put(b'\n');
}

// Puts the line. The refusal is two numbers, not a `Refused`: `put_whole` promises the line for any two (docs/PROMISES.md).
#[tactic(auto, using(digits::proofs::Writes::writes_twice))]
pub fn put_refusal(line: &mut Writer, number: u32, place: u32)
    ensures { line.new ≡ writes (refused_text number place) line.old }
{
    line.put_text(b"REFUSED ");
    put_numbers(line, number, place);
}

// Puts the whole line, for which the buffer has room, and returns its length: `Put` says where the bytes are.
#[tactic(auto, using(digits::proofs::Writes::writes_same_line))]
pub fn put_whole(line: &mut [u8; LINE_SIZE], number: u32, place: u32) -> usize
    ensures { Put (refused_text number place) line.new result }
{
    let mut writer = Writer::new(line);
    put_refusal(&mut writer, number, place);
    writer.len()
}

// Prints the line. It is written at once.
pub fn print(output: &impl Print, refused: Refused) -> io::Result<()> {
    let mut line = [0; LINE_SIZE];
    let length = put_whole(&mut line, refused.kind.number(), refused.place);
    output.write_all(&line[..length])
}
