// The record of 12 bytes that scripts and images share. See docs/CHIP.md, "Records".
// `script`, `compiler`, `interpreter` and `lister` read the records of a script, `assembler` writes them. `compiler` writes words, `sequencer` reads them.
// `word_kind` has the kinds of words; the kinds of records are in `script`.
#![tactic(auto)]

pub mod word_kind;

ghost use Rattle.std.specs.Prelude.{◌≡◌, ◌+◌, ◌≤◌, length, drop, ◌++◌};
ghost use Rattle.record.specs.Record.{record_at, record_size, bytes_of};

use little_endian::{four_at, two_at};

// `mark` and `kind` are numbers, since a script or an image may hold any bytes there: `record_at` reads all of them, and later checks refuse.
#[derive(Clone, Copy)]
pub struct Record {
    pub mark: u32,
    pub kind: u32,
    pub width: u32,
    pub port: u32,
    pub target: u32,
    pub value: u32,
}

impl Record {
    pub const SIZE: usize = 12;

    // The largest number of records in a script and of words in an image.
    pub const MOST: usize = 1024;

    // The largest count: the ticks of a delay, or how many times a repeat runs. So it is the largest loop counter too.
    pub const MOST_TURNS: u32 = 65535;
    // The marks as numbers. In the bytes they are 5Ah A5h and C3h 3Ch.
    pub const SCRIPT_MARK: u32 = 0xA55A;

    pub const WORD_MARK: u32 = 0x3CC3;
}

// The kind of the record that starts at offset `at`. An offset, not a slice that starts there: `record_at` and its laws take the whole bytes.
#[tactic(auto, unfolding(crate::specs::Record::record_at))]
pub fn kind_at(bytes: &[u8], at: usize) -> u32
    requires { at + record_size ≤ length bytes.now }
    ensures { result ≡ (record_at bytes.now at).kind }
{
    u32::from(bytes[at + 2])
}

// The record that starts at offset `at`.
#[tactic(auto, unfolding(crate::specs::Record::record_at))]
pub fn read(bytes: &[u8], at: usize) -> Record
    requires { at + record_size ≤ length bytes.now }
    ensures { result ≡ record_at bytes.now at }
{
    Record {
        mark: u32::from(two_at(bytes, at)),
        kind: kind_at(bytes, at),
        width: u32::from(bytes[at + 3]),
        port: u32::from(two_at(bytes, at + 4)),
        target: u32::from(two_at(bytes, at + 6)),
        value: four_at(bytes, at + 8),
    }
}

// Writes the record to the first 12 bytes of `part`. The other bytes are unchanged.
#[tactic(auto, unfolding(crate::specs::Record::bytes_of))]
pub fn write(part: &mut [u8], word: Record)
    requires { record_size ≤ length part.old }
    ensures { part.new ≡ bytes_of word ++ drop record_size part.old }
{
    let [mark0, mark1, _, _] = word.mark.to_le_bytes();
    let [kind, _, _, _] = word.kind.to_le_bytes();
    let [width, _, _, _] = word.width.to_le_bytes();
    let [port0, port1, _, _] = word.port.to_le_bytes();
    let [target0, target1, _, _] = word.target.to_le_bytes();
    let [value0, value1, value2, value3] = word.value.to_le_bytes();
    part[..Record::SIZE].copy_from_slice(&[
        mark0, mark1, kind, width, port0, port1, target0, target1, value0, value1, value2, value3,
    ]);
}
