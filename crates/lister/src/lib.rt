// The lister: writes the listing of a script, a text script with one line for each record, to the front of the text buffer, and returns its
// length or a refusal. `list` is the only public call; `runnelopal`, `replay` and the program `list` use it. See docs/TEXT.md, "Listing".
#![tactic(auto)]

mod shaped_record;

ghost use Rattle.std.specs.Prelude.{◌≡◌, [], ◌∷◌, ◌++◌, ◌+◌, ◌≤◌, length, replicate};
ghost use Rattle.digits.specs.Text.{decimal_text};
ghost use Rattle.digits.specs.Written.{writes};
ghost use Rattle.record.specs.Record.{most_records};
ghost use Rattle.script.specs.Kinds.{kind_number};
ghost use Rattle.lister.specs.Listing.{
  access_text,
  access_value_text,
  bytes_length,
  bytes_text,
  count_text,
  depth_after,
  line_depth,
  line_text,
  list_result,
  listed,
  listing,
  margin_length,
  measured,
  pair_text,
  script_fault,
  statement_text,
  text_after,
};

use digits::Writer;
use outcome::{RefusalKind, Refused};
use record::Record;
use script::kind::RecordKind;
use shaped_record::ShapedRecord;

// The spaces for a block.
const INDENT: usize = 4;

// Blocks further in are not indented any further, so that no line is too long. No script that the compiler accepts has more than 16 open blocks.
const MOST_INDENTED: usize = 16;

// ---- the margin of a line; `depth` is the number of blocks that are open before its record

// The number of blocks that the line stands in.
fn line_depth(depth: usize, kind: RecordKind) -> usize
    ensures { result ≡ line_depth depth (kind_number kind) }
{
    match kind {
        RecordKind::Else | RecordKind::End => depth.saturating_sub(1),
        RecordKind::Write
        | RecordKind::Read
        | RecordKind::Delay
        | RecordKind::Repeat
        | RecordKind::If => depth,
    }
}

// The number of spaces at the start of the line.
#[tactic(auto, unfolding(crate::specs::Listing::margin_length))]
fn margin_length(depth: usize, kind: RecordKind) -> usize
    ensures { result ≡ margin_length depth (kind_number kind) }
{
    INDENT * line_depth(depth, kind).min(MOST_INDENTED)
}

// The number of blocks that are open after the record.
#[tactic(auto, unfolding(crate::specs::Listing::depth_after))]
fn depth_after(depth: usize, kind: RecordKind) -> usize
    requires { depth ≤ most_records }
    ensures { result ≡ depth_after depth (kind_number kind) }
{
    match kind {
        RecordKind::Repeat | RecordKind::If => depth + 1,
        RecordKind::End => depth.saturating_sub(1),
        RecordKind::Write | RecordKind::Read | RecordKind::Delay | RecordKind::Else => depth,
    }
}

#[tactic(auto, using(digits::proofs::Writes::writes_none, crate::proofs::Pieces::next_space))]
fn put_spaces(text: &mut Writer, count: usize)
    ensures { text.new ≡ writes (replicate count 0x20) text.old }
{
    for _ in 0..count {
        text.put(b' ');
    }
}

// ---- the statement of a record

// Puts two bytes in hex.
#[tactic(auto, using(digits::proofs::Writes::writes_twice))]
fn put_pair(text: &mut Writer, n: u32)
    ensures { text.new ≡ writes (pair_text n) text.old }
{
    let [_, _, high, low] = n.to_be_bytes();
    text.put_byte(high);
    text.put_byte(low);
}

// Puts two digits for each byte of the width.
fn put_bytes(text: &mut Writer, width: u32, value: u32)
    ensures { text.new ≡ writes (bytes_text width value) text.old }
{
    match width {
        1 => text.put_byte((value % 256) as u8),
        2 => put_pair(text, value),
        _ => text.put_hex(value),
    }
}

// Puts width and port, each after a space.
#[tactic(auto, using(digits::proofs::Writes::writes_twice))]
fn put_access(text: &mut Writer, r: Record)
    requires { r.width ≤ 4 }
    ensures { text.new ≡ writes (access_text r) text.old }
{
    text.put(b' ');
    text.put(b'0' + r.width as u8);
    text.put(b' ');
    put_pair(text, r.port);
    text.put(b'h');
}

// Puts width, port and value, each after a space.
#[tactic(auto, using(digits::proofs::Writes::writes_twice))]
fn put_access_value(text: &mut Writer, r: Record)
    requires { r.width ≤ 4 }
    ensures { text.new ≡ writes (access_value_text r) text.old }
{
    put_access(text, r);
    text.put(b' ');
    put_bytes(text, r.width, r.value);
    text.put(b'h');
}

// Puts the count after a space.
#[tactic(auto, using(digits::proofs::Writes::writes_twice))]
fn put_count(text: &mut Writer, r: Record)
    ensures { text.new ≡ writes (count_text r) text.old }
{
    text.put(b' ');
    text.put_decimal(r.value);
}

#[tactic(auto, unfolding(crate::specs::Listing::statement_text), using(digits::proofs::Writes::writes_twice, crate::proofs::Records::write_width, crate::proofs::Records::read_width, crate::proofs::Records::if_width))]
fn put_statement(text: &mut Writer, s: ShapedRecord)
    ensures { text.new ≡ writes (statement_text s.fields) text.old }
{
    let r = s.fields;
    match s.kind {
        RecordKind::Write => {
            text.put_text(b"write");
            put_access_value(text, r);
        }
        RecordKind::Read => {
            text.put_text(b"read");
            put_access(text, r);
        }
        RecordKind::Delay => {
            text.put_text(b"delay");
            put_count(text, r);
        }
        RecordKind::Repeat => {
            text.put_text(b"repeat");
            put_count(text, r);
        }
        RecordKind::If => {
            text.put_text(b"if");
            put_access_value(text, r);
        }
        RecordKind::Else => text.put_text(b"else"),
        RecordKind::End => text.put_text(b"end"),
    }
}

// ---- the length of a line

// The number of decimal digits of a count.
fn decimal_length(n: u32) -> usize
    requires { n ≤ 65535 }
    ensures { result ≡ length (decimal_text n) }
{
    match n {
        0..=9 => 1,
        10..=99 => 2,
        100..=999 => 3,
        1000..=9999 => 4,
        _ => 5,
    }
}

// Two digits for each byte of the width.
fn bytes_length(width: u32) -> usize
    ensures { result ≡ bytes_length width }
{
    match width {
        1 => 2,
        2 => 4,
        _ => 8,
    }
}

#[tactic(auto, unfolding(crate::specs::Listing::statement_text), using(crate::proofs::Lengths::value_long, crate::proofs::Records::delay_count, crate::proofs::Records::repeat_count))]
fn statement_length(s: ShapedRecord) -> usize
    ensures { result ≡ length (statement_text s.fields) }
{
    let r = s.fields;
    match s.kind {
        RecordKind::Write => 15 + bytes_length(r.width),
        RecordKind::Read => 12,
        RecordKind::Delay => 6 + decimal_length(r.value),
        RecordKind::Repeat => 7 + decimal_length(r.value),
        RecordKind::If => 12 + bytes_length(r.width),
        RecordKind::Else => 4,
        RecordKind::End => 3,
    }
}

// The length of the line of a record, with its line feed.
#[tactic(auto, using(crate::proofs::Lengths::line_long, crate::proofs::Lengths::margin_most, crate::proofs::Lengths::statement_most))]
fn line_length(depth: usize, s: ShapedRecord) -> usize
    ensures { result ≡ length (line_text depth s.fields) + 1 }
{
    margin_length(depth, s.kind) + statement_length(s) + 1
}

// ---- the listing

// Refusals 1 to 4, or the length of the listing.
fn measure(script: &[u8]) -> Result<usize, Refused>
    ensures { listed result ≡ measured script.now }
{
    if script::bad_length(script) {
        return Err(Refused {
            kind: RefusalKind::BadLength,
            place: 0,
        });
    }
    let mut depth = 0;
    let mut length = 0;
    // By place, as `records_from` reads the records, and a refusal names the place.
    for k in 0..script.len() / Record::SIZE {
        let r = record::read(script, Record::SIZE * k);
        let place = k as u32;
        let s = ShapedRecord::new(r).map_err(|kind| Refused { kind, place })?;
        length += line_length(depth, s);
        depth = depth_after(depth, s.kind);
    }
    Ok(length)
}

// Puts the line of a record, with its line feed.
#[tactic(auto, unfolding(crate::specs::Listing::line_text), using(digits::proofs::Writes::writes_twice))]
fn put_line(text: &mut Writer, depth: usize, s: ShapedRecord)
    ensures { text.new ≡ writes (line_text depth s.fields ++ (0x0A ∷ [])) text.old }
{
    put_spaces(text, margin_length(depth, s.kind));
    put_statement(text, s);
    text.put(b'\n');
}

// Puts the listing of a script that has none of the refusals 1 to 4.
#[tactic(auto, using(crate::proofs::Lines::right_record, crate::proofs::Lines::put_all))]
fn put_listing(script: &[u8], text: &mut Writer)
    requires { (script_fault script.now).number ≡ 0 }
    ensures { text.new ≡ writes (listing script.now) text.old }
{
    let mut depth = 0;
    // By place, as in `measure`.
    for k in 0..script.len() / Record::SIZE {
        let r = record::read(script, Record::SIZE * k);
        let s = ShapedRecord::of(r);
        put_line(text, depth, s);
        depth = depth_after(depth, s.kind);
    }
}

// Lists a script and returns the length of the listing. The length is found first: nothing may be written unless the whole listing fits.
pub fn list(script: &[u8], text: &mut [u8]) -> Result<usize, Refused>
    ensures { (listed result ≡ list_result script.now text.old) × (text.new ≡ text_after script.now text.old) }
{
    let length = measure(script)?;
    if text.len() < length {
        return Err(Refused {
            kind: RefusalKind::TextTooShort,
            place: 0,
        });
    }
    let mut writer = Writer::new(text);
    put_listing(script, &mut writer);
    Ok(length)
}
