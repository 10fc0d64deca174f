// The program `list` reads the script on standard input and writes its listing, a text script, to standard output. If the script is refused, it
// writes nothing there, and the refusal to standard error. See docs/TEXT.md, "Listing". A read or a write that the system refuses ends it with that
// error.
#![tactic(auto)]

ghost use Rattle.list.specs.Output.{Answered};
ghost use Rattle.lister.specs.Listing.{listed};

use outcome::Refused;
use record::Record;
use std::io;

// One record more than a script may have. `trace_text` has the same size; `list` prints no run, so it does not depend on it.
const SCRIPT_SIZE: usize = Record::SIZE * 1025;

// A line has at most 64 spaces, the 23 bytes of a write at width 4, and the line feed.
const TEXT_SIZE: usize = 88 * Record::MOST;

// Puts the listing of the script into the front of the buffer, which is long enough for every listing, and returns its length.
fn put_listing(script: &[u8], text: &mut [u8; TEXT_SIZE]) -> Result<usize, Refused>
    ensures { Answered script.now text.new (listed result) }
{
    lister::list(script, text)
}

fn list(output: &impl Print, errors: &impl Print, script: &[u8]) -> io::Result<()> {
    let mut text = [0; TEXT_SIZE];
    match put_listing(script, &mut text) {
        Ok(length) => output.write_all(&text[..length]),
        Err(refused) => refusal_text::print(errors, refused),
    }
}

// Longer input than the buffer is cut off there, and is still refused with 1.
fn main(rt: HostRuntime) -> io::Result<()> {
    let mut script = [0; SCRIPT_SIZE];
    let count = input::read_full(&mut rt.stdin(), &mut script)?;
    list(&rt, &rt.stderr(), &script[..count])
}
