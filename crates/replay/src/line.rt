// The line that is read, byte by byte.

// The bytes of the line, and how many it has. If it is too long, the rest of its bytes are only counted.
// The length is beside the bytes, because the memory is fixed.
#[derive(Drop)]
pub struct Line {
    bytes: [u8; Line::MOST],
    length: usize,
}

impl Line {
    // The greatest length of a line.
    pub const MOST: usize = 65536;

    pub fn new() -> Self {
        Line {
            bytes: [0; Line::MOST],
            length: 0,
        }
    }

    pub fn push(&mut self, b: u8) {
        if let Some(next) = self.bytes.get_mut(self.length) {
            *next = b;
        }
        self.length = self.length.saturating_add(1);
    }

    pub fn clear(&mut self) {
        self.length = 0;
    }

    pub fn is_empty(&self) -> bool {
        self.length == 0
    }

    // The bytes, if the line is not too long.
    pub fn text(&self) -> Option<&[u8]> {
        self.bytes.get(..self.length)
    }
}
