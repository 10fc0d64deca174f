// Numbers and text in lines. `statement` and `replay` read them; `lister`, `replay`, `trace_text` and `refusal_text` write them. Printing is proved to
// write the text that specs/Text.antt defines, and reading to return what specs/Read.antt defines. What is printed is read back: see proofs/ReadBack.antt.
#![tactic(auto)]

ghost use Rattle.std.specs.Prelude.{◌≡◌, [], ◌∷◌, ◌+◌, ◌%◌, ◌^◌, ◌<◌, length, take, IfSome};
ghost use Rattle.digits.specs.Read.{digit_of, digit_at, is_space, number_at, next_number, byte_at};
ghost use Rattle.digits.specs.Found.{byte_found, digit_found, number_found};
ghost use Rattle.digits.specs.Text.{line_at, hex_digit, byte_text, hex_text, decimal_text};
ghost use Rattle.digits.specs.Written.{writes, written};

// ---- reading; the index stays beside the line, as in the definitions `number_at`, `next_number` and `byte_at` (docs/PROMISES.md)

// A hex number that was read, and the index after its last digit.
#[derive(Clone, Copy)]
pub struct HexNumber {
    pub value: u32,
    pub next: usize,
}

// The value of a hex digit: a line is bytes, and `to_digit` is for a `char`.
pub fn digit(b: u8) -> Option<u8>
    ensures value { result ≡ digit_found (digit_of b) }
    ensures small { IfSome result (λ d. d < 16) }
{
    match b {
        b'0'..=b'9' => Some(b - b'0'),
        b'A'..=b'F' => Some(b - b'A' + 10),
        b'a'..=b'f' => Some(b - b'a' + 10),
        _ => None,
    }
}

// The value of the hex digit at index `at`. After the end of the line there is none.
pub fn digit_at(line: &[u8], at: usize) -> Option<u8>
    ensures value { result ≡ digit_found (digit_at line.now at) }
    ensures small { IfSome result (λ d. d < 16) }
{
    digit(*line.get(at)?)
}

// Is there a space at index `at`?
pub fn is_space(line: &[u8], at: usize) -> bool
    ensures { result ≡ is_space line.now at }
{
    at < line.len() && line[at] == b' '
}

// Reads the number of one to eight digits at index `at`. It reads up to nine digits, so that a number with more than eight is rejected.
// It counts them, because `next` is an index in the whole line.
pub fn number(line: &[u8], at: usize) -> Option<HexNumber>
    ensures { result ≡ number_found (number_at line.now at) }
{
    let mut value: u32 = 0;
    for count in 0..9 {
        let next = after(at, count);
        let Some(d) = digit_at(line, next) else {
            if count == 0 {
                return None;
            }
            return Some(HexNumber { value, next });
        };
        value = value % 0x1000_0000 * 16 + u32::from(d);
    }
    None
}

// Reads the number that follows one space at index `at`.
pub fn next_number(line: &[u8], at: usize) -> Option<HexNumber>
    ensures { result ≡ number_found (next_number line.now at) }
{
    if !is_space(line, at) {
        return None;
    }
    number(line, after(at, 1))
}

// The index `count` bytes after `at`. It wraps at 2^64, and no line is that long.
pub fn after(at: usize, count: usize) -> usize
    ensures { result ≡ (at + count) % 2 ^ 64 }
{
    at.wrapping_add(count)
}

// The byte of two hex digits at index `at`.
pub fn byte(line: &[u8], at: usize) -> Option<u8>
    ensures { result ≡ byte_found (byte_at line.now at) }
{
    let high = digit_at(line, at)?;
    let low = digit_at(line, after(at, 1))?;
    Some(high * 16 + low)
}

// ---- writing

// The powers of ten that a 32-bit number may reach, from the largest to ten.
const POWERS: [u32; 9] = [
    1_000_000_000,
    100_000_000,
    10_000_000,
    1_000_000,
    100_000,
    10_000,
    1000,
    100,
    10,
];

// Writes text into a line: the bytes of the line, and the index after the text written so far. A full line takes no more.
// The index stays beside the bytes, which are the caller's. Not `write!`: it returns a result at each call, and a full line is no error.
#[derive(Drop)]
pub struct Writer<'a> {
    line: &'a mut [u8],
    at: usize,
}

fn hex_digit(n: u8) -> u8
    ensures { result ≡ hex_digit n }
{
    let d = n % 16;
    if d < 10 { b'0' + d } else { b'A' + (d - 10) }
}

impl<'a> Writer<'a> {
    pub fn new(line: &'a mut [u8]) -> Writer<'a>
        ensures same_line { result.line.ghost_name ≡ line.entry.ghost_name }
        ensures empty { written result ≡ line_at line.old 0 }
    {
        Writer { line, at: 0 }
    }

    // Goes on at an index of the line: after text that is there already, or past its end, where nothing more is written.
    pub fn starting_at(line: &'a mut [u8], at: usize) -> Writer<'a>
        ensures same_line { result.line.ghost_name ≡ line.entry.ghost_name }
        ensures placed { written result ≡ line_at line.old at }
    {
        Writer { line, at }
    }

    // The number of bytes written so far.
    pub fn len(&self) -> usize
        ensures { result ≡ self.now.at }
    {
        self.at
    }

    // The text written so far.
    pub fn text(&self) -> &[u8]
        ensures { result.now ≡ take self.now.at self.now.line.now }
    {
        let end = self.at.min(self.line.len());
        &self.line[..end]
    }

    // Writes one byte.
    #[tactic(auto, using(crate::proofs::Writes::writes_inside, crate::proofs::Writes::writes_full))]
    pub fn put(&mut self, b: u8)
        ensures { self.new ≡ writes (b ∷ []) self.old }
    {
        if self.at < self.line.len() {
            self.line[self.at] = b;
            self.at += 1;
        }
    }

    // Writes two upper-case hex digits. `put_hex` writes eight.
    #[tactic(auto, using(crate::proofs::Writes::writes_twice))]
    pub fn put_byte(&mut self, b: u8)
        ensures { self.new ≡ writes (byte_text b) self.old }
    {
        self.put(hex_digit(b / 16));
        self.put(hex_digit(b));
    }

    #[tactic(auto, using(crate::proofs::Writes::writes_none, crate::proofs::Writes::byte_next, crate::proofs::Writes::hex_pieces))]
    pub fn put_hex(&mut self, n: u32)
        ensures { self.new ≡ writes (hex_text n) self.old }
    {
        for b in n.to_be_bytes() {
            self.put_byte(b);
        }
    }

    // Writes `n` in decimal, without leading zeros.
    #[tactic(auto, using(crate::proofs::Writes::writes_none, crate::proofs::Writes::zero_next, crate::proofs::Writes::decimal_end))]
    pub fn put_decimal(&mut self, n: u32)
        ensures { self.new ≡ writes (decimal_text n) self.old }
    {
        for power in POWERS {
            if n < power {
                continue; // A leading zero.
            }
            self.put(b'0' + (n / power % 10) as u8);
        }
        self.put(b'0' + (n % 10) as u8);
    }

    #[tactic(auto, using(crate::proofs::Writes::writes_none, crate::proofs::Writes::writes_next))]
    pub fn put_text(&mut self, text: &[u8])
        ensures { self.new ≡ writes text.now self.old }
    {
        for b in text {
            self.put(*b);
        }
    }
}
