// The buffers that commands are given, and the calls that fill them.
use crate::answer;
use crate::command::{Filling, RunRequest};
use crate::session::Session;
use digits::Writer;
use outcome::Refused;
use std::array;

// The most bytes of a script, a text, an image or a buffer that is filled, the most events of a run, and the most entries of its log.
const MOST_BYTES: usize = 16384;

const MOST_EVENTS: usize = 4352;

const MOST_ENTRIES: usize = 2048;

// What a run is given. The log is apart: the borrow checker does not cover a call with a struct that holds a `&mut` slice.
#[derive(Clone, Copy)]
pub struct RunInput<'a> {
    pub bytes: &'a [u8],
    pub events: &'a [u32],
    pub budget: u32,
}

// Calls a function that fills a buffer, and answers with how much it wrote, or the refusal, and the buffer. The buffer has a pattern, so that the
// answer shows which bytes the call leaves unchanged.
pub fn fill<F: FnOnce(&[u8], &mut [u8]) -> Result<u32, Refused>>(
    filling: Filling,
    name: &[u8],
    call: F,
    answer: &mut Writer,
) -> Option<()>
    requires { F.IsAlwaysCallable call }
{
    let mut bytes = [0; MOST_BYTES];
    let mut buffer: [u8; MOST_BYTES] = array::from_fn(|k| (k % 251) as u8);
    let input = filling.input.copy_to(&mut bytes)?;
    let buffer = buffer.get_mut(..filling.length)?;
    match call(input, buffer) {
        Ok(count) => {
            answer.put_text(name);
            answer.put_decimal(count);
        }
        Err(refused) => answer::put_refused(answer, refused),
    }
    if !buffer.is_empty() {
        answer.put(b' ');
        answer::put_bytes(answer, buffer);
    }
    Some(())
}

// Calls a function that runs the bytes on a session, and answers with what it answers, the device after the run and the log. The log has a pattern
// before the run, so that the answer shows which entries the run leaves unchanged.
pub fn run<F: FnOnce(&mut Session, RunInput, &mut [u64], &mut Writer)>(
    request: RunRequest,
    session: &mut Session,
    call: F,
    answer: &mut Writer,
) -> Option<()>
    requires { F.IsAlwaysCallable call }
{
    let mut bytes = [0; MOST_BYTES];
    let mut events = [0; MOST_EVENTS];
    let mut log: [u64; MOST_ENTRIES] = array::from_fn(|k| 0xA000_0000_0000_0000 | k as u64);
    let run = RunInput {
        bytes: request.bytes.copy_to(&mut bytes)?,
        events: request.events.copy_numbers_to(&mut events)?,
        budget: request.budget,
    };
    let log = log.get_mut(..request.log)?;
    call(session, run, log, answer);
    answer::put_device(answer, session.device, log);
    Some(())
}
