// Reads one line of a text script: the record that it means, or refusal 30, 31 or 32. `assembler` calls `read` for every line. See docs/TEXT.md.
// specs/Grammar.antt has the grammar, specs/Line.antt what these functions return.
#![tactic(auto)]

ghost use Rattle.std.specs.Prelude.{◌≡◌, ◌≤◌, ◌<◌, length, not, position};
ghost use Rattle.script.specs.Nested.{script_record};
ghost use Rattle.statement.specs.Line.{
  after_word,
  before_return,
  capped,
  content_length,
  has_count,
  is_blank,
  is_hex,
  kind_of,
  line_result,
  not_semicolon,
  number_in,
  number_of,
  operand_count,
  result_of,
  run,
  statement_result,
  word,
};
ghost use Rattle.statement.specs.Found.{kind_found, line_read, number_found, operands_found, record_read};
ghost use Rattle.script.specs.Kinds.{kind_number};

use outcome::RefusalKind;
use record::Record;
use script::kind::RecordKind;

// The most bytes of a line.
const MOST_BYTES: usize = 120;

// The most numbers of a statement.
const MOST_OPERANDS: usize = 3;

const MOST_PORT: u64 = 0xFFFF;

// This number is too big for every field. It is no error yet: refusal 31, for a word that is not in the grammar, comes first (`capped` in specs/Line.antt).
const TOO_BIG: u64 = 0x1_0000_0000;

const DECIMAL: u64 = 10;

const HEX: u64 = 16;

// ---- words

fn is_blank(b: u8) -> bool
    ensures { result ≡ is_blank b }
{
    b == b' ' || b == b'\t'
}

// The index of the first byte that is not a blank. This search and the next are functions of their own, because a proof knows what a chain finds only
// at its end.
fn first_not_blank(s: &[u8]) -> Option<usize>
    ensures { result ≡ position (λ b. not (is_blank b)) s.now }
{
    s.iter().position(|b| !is_blank(*b))
}

// The index of the first blank.
fn first_blank(s: &[u8]) -> Option<usize>
    ensures { result ≡ position (λ b. is_blank b) s.now }
{
    s.iter().position(|b| is_blank(*b))
}

// The first word of a text, and the text after it. The word is empty if there are only blanks.
fn split_word(s: &[u8]) -> (&[u8], &[u8])
    ensures word { result.0.now ≡ word s.now }
    ensures rest { result.1.now ≡ after_word s.now }
{
    let from = first_not_blank(s).unwrap_or(s.len());
    let s = &s[from..];
    let to = first_blank(s).unwrap_or(s.len());
    s.split_at(to)
}

// ---- numbers

fn is_hex(word: &[u8]) -> bool
    ensures { result ≡ is_hex word.now }
{
    matches!(word.last(), Some(b'h' | b'H'))
}

// A number stops at the first value that is too big for every field.
#[tactic(auto, unfolding(crate::specs::Line::capped))]
fn capped(n: u64) -> u64
    ensures { result ≡ capped n }
{
    n.min(TOO_BIG)
}

// The number that the digits stand for. There is none if one of them is not a digit of this base, or if there are no digits.
fn number_of(digits: &[u8], base: u64) -> Option<u64>
    requires { (0 < base) × (base ≤ 16) }
    ensures { result ≡ number_found (number_of base digits.now) }
{
    let mut value: u64 = 0;
    for b in digits {
        let d = u64::from(digits::digit(*b)?);
        if base <= d {
            return None;
        }
        value = capped(value * base + d);
    }
    if digits.is_empty() {
        return None;
    }
    Some(value)
}

fn read_number(word: &[u8]) -> Option<u64>
    ensures { result ≡ number_found (number_in word.now) }
{
    if is_hex(word) {
        return number_of(&word[..word.len() - 1], HEX);
    }
    number_of(word, DECIMAL)
}

// ---- statements

// The kind of a keyword. Not a `match` on byte strings: the proof did not close, with a goal for each byte that may differ.
#[tactic(auto, unfolding(crate::specs::Line::kind_of))]
fn keyword(word: &[u8]) -> Option<RecordKind>
    ensures { kind_found result ≡ kind_of word.now }
{
    if word == b"write".as_slice() {
        return Some(RecordKind::Write);
    }
    if word == b"read".as_slice() {
        return Some(RecordKind::Read);
    }
    if word == b"delay".as_slice() {
        return Some(RecordKind::Delay);
    }
    if word == b"repeat".as_slice() {
        return Some(RecordKind::Repeat);
    }
    if word == b"if".as_slice() {
        return Some(RecordKind::If);
    }
    if word == b"else".as_slice() {
        return Some(RecordKind::Else);
    }
    if word == b"end".as_slice() {
        return Some(RecordKind::End);
    }
    None
}

// How many numbers follow a keyword.
#[tactic(auto, unfolding(crate::specs::Line::operand_count))]
fn operand_count(kind: RecordKind) -> usize
    ensures { result ≡ operand_count (kind_number kind) }
{
    match kind {
        RecordKind::Write | RecordKind::If => 3,
        RecordKind::Read => 2,
        RecordKind::Delay | RecordKind::Repeat => 1,
        RecordKind::Else | RecordKind::End => 0,
    }
}

// The text is this many numbers, and nothing else. The numbers that a statement does not have are 0, as are the unused fields of its record.
fn read_operands(s: &[u8], count: usize) -> Option<[u64; MOST_OPERANDS]>
    requires { count ≤ 3 }
    ensures { result ≡ operands_found count s.now }
{
    let mut values = [0; MOST_OPERANDS];
    let mut rest = s;
    for k in 0..count {
        let (word, after) = split_word(rest);
        values[k] = read_number(word)?;
        rest = after;
    }
    if first_not_blank(rest).is_some() {
        return None; // A word too many.
    }
    Some(values)
}

// The record of a statement, if each number fits its field and the record has none of refusal 4.
fn make_record(kind: RecordKind, width: u64, port: u64, value: u64) -> Result<Record, RefusalKind>
    ensures { record_read result ≡ result_of (script_record (kind_number kind) width port value) }
{
    if TOO_BIG <= width || MOST_PORT < port || TOO_BIG <= value {
        return Err(RefusalKind::NumberTooBig);
    }
    let r = Record {
        mark: Record::SCRIPT_MARK,
        kind: kind.number(),
        width: width as u32,
        port: port as u32,
        target: 0,
        value: value as u32,
    };
    if !script::good_fields(r) {
        return Err(RefusalKind::NumberTooBig);
    }
    Ok(r)
}

// Does a statement of this kind have a count?
fn has_count(kind: RecordKind) -> bool
    ensures { result ≡ has_count (kind_number kind) }
{
    matches!(kind, RecordKind::Delay | RecordKind::Repeat)
}

// The statement in a line without its comment, if there is one.
fn read_statement(s: &[u8]) -> Result<Option<Record>, RefusalKind>
    ensures { line_read result ≡ statement_result s.now }
{
    let (word, rest) = split_word(s);
    if word.is_empty() {
        return Ok(None);
    }
    let kind = keyword(word).ok_or(RefusalKind::NotInGrammar)?;
    let operands = read_operands(rest, operand_count(kind)).ok_or(RefusalKind::NotInGrammar)?;
    let [first, second, third] = operands;
    if has_count(kind) {
        return Ok(Some(make_record(kind, 0, 0, first)?)); // A count is the value.
    }
    Ok(Some(make_record(kind, first, second, third)?))
}

// ---- lines

// The length of a line without a carriage return as its last byte.
fn before_return(line: &[u8]) -> usize
    ensures { result ≡ before_return line.now }
{
    if matches!(line.last(), Some(b'\r')) {
        return line.len() - 1;
    }
    line.len()
}

// The length of what is before the comment, or before a carriage return as the last byte.
fn content_length(line: &[u8], comment: usize) -> usize
    requires { comment ≡ run not_semicolon line.now }
    ensures { result ≡ content_length line.now }
{
    if comment < line.len() {
        return comment;
    }
    before_return(line)
}

// Reads a line, without its line feed. `comment` is the index of its first semicolon, or its length: the caller finds it while it looks for
// the end of the line.
pub fn read(line: &[u8], comment: usize) -> Result<Option<Record>, RefusalKind>
    requires { comment ≡ run not_semicolon line.now }
    ensures { line_read result ≡ line_result line.now }
{
    if MOST_BYTES < line.len() {
        return Err(RefusalKind::LineTooLong);
    }
    let end = content_length(line, comment);
    read_statement(&line[..end])
}
