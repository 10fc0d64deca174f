// The words of a line, and what they stand for. See docs/CASES.md, "Lines".
use crate::command::{Filling, RunRequest};
use crate::string::ByteString;
use access::Access;
use step::{COUNTERS, Sequencer};

// What is left of a line: words, each with exactly one space before it. With `split` of a slice, all commands would be read in one function, as
// its closure has no name, and that proof is too large.
#[derive(Clone, Copy)]
pub struct Words<'a> {
    rest: &'a [u8],
}

impl<'a> Words<'a> {
    // The first word has no space before it: it is the letter.
    pub fn of(line: &'a [u8]) -> Self {
        Words { rest: line }
    }

    pub fn is_empty(self) -> bool {
        self.rest.is_empty()
    }

    pub fn word(&mut self) -> Option<&'a [u8]> {
        if !digits::is_space(self.rest, 0) {
            return None;
        }
        let words = &self.rest[1..];
        let end = words.iter().position(|b| *b == b' ').unwrap_or(words.len());
        self.rest = &words[end..];
        Some(&words[..end])
    }

    // The letter of the command. What follows it is read as words, so it has a space before it.
    pub fn letter(&mut self) -> Option<u8> {
        let letter = *self.rest.first()?;
        self.rest = &self.rest[1..];
        Some(letter)
    }

    // The space and the number. What follows is another word, or the end.
    pub fn number(&mut self) -> Option<u32> {
        let number = digits::next_number(self.rest, 0)?;
        self.rest = self.rest.get(number.next..)?;
        Some(number.value)
    }

    pub fn size(&mut self) -> Option<usize> {
        Some(self.number()? as usize)
    }

    // A byte string of at least one byte.
    pub fn string(&mut self) -> Option<ByteString<'a>> {
        ByteString::read(self.word()?)
    }

    // The same, but `-` stands for an empty byte string.
    pub fn string_or_dash(&mut self) -> Option<ByteString<'a>> {
        let word = self.word()?;
        if word == b"-".as_slice() {
            return Some(ByteString::empty());
        }
        ByteString::read(word)
    }

    // width port
    pub fn read_access(&mut self) -> Option<Access> {
        let width = self.number()?;
        let port = self.number()?;
        Some(Access {
            write: false,
            width,
            port,
            value: 0,
        })
    }

    // width port value
    pub fn write_access(&mut self) -> Option<Access> {
        let width = self.number()?;
        let port = self.number()?;
        let value = self.number()?;
        Some(Access {
            write: true,
            width,
            port,
            value,
        })
    }

    // length, length input
    pub fn filling(&mut self) -> Option<Filling<'a>> {
        let length = self.size()?;
        let input = if self.is_empty() {
            ByteString::empty()
        } else {
            self.string()?
        };
        Some(Filling { length, input })
    }

    // nothing, or place used c0 c1 c2 c3 c4 c5 c6 c7
    pub fn sequencer(&mut self) -> Option<Sequencer> {
        if self.is_empty() {
            return Some(Sequencer::fresh());
        }
        let place = self.number()?;
        let used = self.size()?;
        let mut counters = [0; COUNTERS];
        for counter in &mut counters {
            *counter = self.number()?;
        }
        Some(Sequencer {
            place,
            counters,
            used,
        })
    }

    // budget size events image, budget size events script
    pub fn run_request(&mut self) -> Option<RunRequest<'a>> {
        let budget = self.number()?;
        let log = self.size()?;
        let events = self.string_or_dash()?;
        let bytes = self.string_or_dash()?;
        (events.len() % 4 == 0).then_some(RunRequest {
            budget,
            log,
            events,
            bytes,
        })
    }
}
