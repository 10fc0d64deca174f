// The words of a line that stand for numbers and byte strings. See docs/CASES.md, "Lines".

// A byte string: two hex digits for each byte. They are read when the bytes are copied.
#[derive(Clone, Copy)]
pub struct ByteString<'a> {
    digits: &'a [u8],
}

impl<'a> ByteString<'a> {
    pub fn empty() -> Self {
        ByteString { digits: &[] }
    }

    // A word has at least one byte.
    pub fn read(word: &'a [u8]) -> Option<Self> {
        (!word.is_empty() && word.len() % 2 == 0).then_some(ByteString { digits: word })
    }

    pub fn len(self) -> usize {
        self.digits.len() / 2
    }

    // Copies the bytes into the front of a buffer, and returns that part of it. There is none if the buffer is too short, or if a character is not a
    // hex digit.
    pub fn copy_to<'b>(self, buffer: &'b mut [u8]) -> Option<&'b [u8]> {
        let bytes = buffer.get_mut(..self.len())?;
        for (byte, digits) in bytes.iter_mut().zip(self.digits.chunks_exact(2)) {
            *byte = digits::byte(digits, 0)?;
        }
        Some(bytes)
    }

    // The same for numbers of four bytes each, least significant byte first.
    pub fn copy_numbers_to<'b>(self, buffer: &'b mut [u32]) -> Option<&'b [u32]> {
        let numbers = buffer.get_mut(..self.len() / 4)?;
        for (number, digits) in numbers.iter_mut().zip(self.digits.chunks_exact(8)) {
            *number = u32::from_le_bytes(ByteString { digits }.to_array()?);
        }
        Some(numbers)
    }

    // The bytes, if there are `N` of them.
    pub fn to_array<const N: usize>(self) -> Option<[u8; N]> {
        let mut bytes = [0; N];
        (self.copy_to(&mut bytes)?.len() == N).then_some(bytes)
    }
}
