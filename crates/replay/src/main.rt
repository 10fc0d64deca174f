// The program `replay` drives one device and one sequencer with commands from standard input, one on each line. This file reads the
// lines, command.rt the command of a line, session.rt performs it, answer.rt writes the answer. A read or a write that the system refuses ends it
// with that error. See docs/CASES.md.
#![tactic(auto)]

mod answer;
mod buffers;
mod command;
mod line;
mod session;
mod string;
mod words;

use crate::command::Command;
use crate::line::Line;
use crate::session::Session;
use digits::Writer;
use std::io;

// Room for the longest answer: that of a run, with two digits for each byte of a saved device and sixteen for each of 2,048 entries of a log. A
// buffer of 16,384 bytes has as many digits.
const ANSWER_SIZE: usize = 34000;

// Performs the command of a line and writes the answer. There is none if the line is too long, is not a command, or has a command that is too large.
// Then nothing has changed.
fn perform(session: &mut Session, line: &Line, answer: &mut Writer) -> Option<()> {
    session.perform(Command::read(line.text()?)?, answer)
}

// The answer is written at once. The caller has the buffer, so that it is cleared once and not for each line.
fn reply(
    rt: &impl Print,
    session: &mut Session,
    line: &Line,
    buffer: &mut [u8; ANSWER_SIZE],
) -> io::Result<()> {
    let mut answer = Writer::new(buffer);
    if perform(session, line, &mut answer).is_none() {
        answer.put_text(b"UNREAD");
    }
    answer.put(b'\n');
    rt.write_all(answer.text())
}

// Reads the input to its end. A proved loop has to end, so it counts up to a number that no input uses up.
fn main(rt: HostRuntime) -> io::Result<()> {
    let mut stdin = rt.stdin();
    let mut chunk = [0; Line::MOST];
    let mut line = Line::new();
    let mut session = Session::fresh();
    let mut buffer = [0; ANSWER_SIZE];
    for _ in 0..u64::MAX {
        let count = input::read_full(&mut stdin, &mut chunk)?;
        if count == 0 {
            break;
        }
        for b in &chunk[..count] {
            if *b == b'\n' {
                reply(&rt, &mut session, &line, &mut buffer)?;
                line.clear();
            } else {
                line.push(*b);
            }
        }
    }
    if line.is_empty() {
        return Ok(());
    }
    reply(&rt, &mut session, &line, &mut buffer)
}
