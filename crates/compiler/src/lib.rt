// The compiler: checks a script, writes its words to the front of the image buffer, and returns their number or a refusal.
// `compile` is the only public call; `trace`, `runnelopal` and `replay` use it. It relies on `script::scan` for refusals 1
// to 8. See docs/CHIP.md, "Words" and "Refusals".
#![tactic(auto)]

ghost use Rattle.std.specs.Prelude.{◌≡◌, [], ◌++◌, ◌+◌, ◌*◌, ◌≤◌, ltb, length, take, drop, replicate};
ghost use Rattle.record.specs.Record.{bytes_of, most_records, record_size};
ghost use Rattle.record.specs.WordKinds.{word_kind_number};
ghost use Rattle.script.specs.Kinds.{kind_number};
ghost use Rattle.script.specs.Records.{records_of};
ghost use Rattle.script.specs.Refusals.{script_refusal};
ghost use Rattle.compiler.specs.Compile.{compile_result, compiled, image_after};
ghost use Rattle.compiler.specs.Emit.{TargetsFrom, emits_word};
ghost use Rattle.compiler.specs.Words.{word, image_bytes, words_of};

use lists::array_stack::ArrayStack;
use outcome::{RefusalKind, Refused};
use record::Record;
use record::word_kind::WordKind;
use script::kind::{RecordKind, kind_of};

// ---- targets

// An open block: the record whose target is still missing and, for a repeat, the place of its body.
#[derive(Clone, Copy)]
struct OpenBlock {
    waiting: usize,
    body: Option<u32>,
}

// Fills in the target of each record's word, in one pass. A loop end jumps back to its body. An enter, a test and the jump of an
// else jump forward, so their targets are filled in later: at the end of the block or, for a test, at its else.
// The end of an if becomes no word, and has 0, like a word that uses no target. The targets are a table beside the script, because
// the records are bytes of the caller.
fn fill_targets(script: &[u8], targets: &mut [u32; Record::MOST])
    requires accepted { (script_refusal script.now).number ≡ 0 }
    requires empty { targets.old ≡ replicate most_records 0 }
    ensures { TargetsFrom targets.new 0 [] 0 (records_of script.now) }
{
    let mut open: ArrayStack<OpenBlock, { script::MOST_BLOCKS }> = ArrayStack::new(OpenBlock {
        waiting: 0,
        body: None,
    });
    let mut place: u32 = 0;
    // By place, as `records_from` reads the records: `waiting` names one too.
    for k in 0..script.len() / Record::SIZE {
        // The targets depend only on the kinds of the records.
        match kind_of(record::kind_at(script, Record::SIZE * k)) {
            RecordKind::Write | RecordKind::Read | RecordKind::Delay => place += 1,
            RecordKind::Repeat => {
                place += 1;
                open.push(OpenBlock {
                    waiting: k,
                    body: Some(place),
                });
            }
            RecordKind::If => {
                place += 1;
                open.push(OpenBlock {
                    waiting: k,
                    body: None,
                });
            }
            RecordKind::Else => {
                // The target of the test is known. Now the target of the jump is missing.
                place += 1;
                let test = open.pop().unwrap();
                targets[test.waiting] = place;
                open.push(OpenBlock {
                    waiting: k,
                    body: None,
                });
            }
            RecordKind::End => {
                let opened = open.pop().unwrap();
                targets[k] = opened.body.unwrap_or(0);
                if opened.body.is_some() {
                    place += 1;
                }
                targets[opened.waiting] = place;
            }
        }
    }
}

// ---- words

fn word(kind: WordKind, width: u32, port: u32, target: u32, value: u32) -> Record
    ensures { result ≡ word (word_kind_number kind) width port target value }
{
    Record {
        mark: Record::WORD_MARK,
        kind: kind.number(),
        width,
        port,
        target,
        value,
    }
}

// Every record becomes a word, except the end of an if. The target of a loop end is never 0, so 0 marks the end of an if.
fn emits_word(target: u32, kind: RecordKind) -> bool
    ensures { result ≡ emits_word target (kind_number kind) }
{
    kind != RecordKind::End || target != 0
}

// ---- image

// Writes a word at its place in the image.
fn put(image: &mut [u8], place: u32, w: Record)
    requires { (record_size * place + record_size ≤ length image.old) × (place ≤ most_records) }
    ensures { image.new ≡ take (record_size * place) image.old ++ (bytes_of w ++ drop record_size (drop (record_size * place) image.old)) }
{
    let at = offset(place);
    record::write(&mut image[at..], w);
}

// The byte offset of the word at `place`.
fn offset(place: u32) -> usize
    ensures { result ≡ record_size * place }
{
    Record::SIZE * place as usize
}

// Writes the words of an accepted script to an image buffer that is long enough for them.
fn emit(script: &[u8], image: &mut [u8])
    requires accepted { (script_refusal script.now).number ≡ 0 }
    requires room { record_size * length (words_of script.now) ≤ length image.old }
    ensures { image.new ≡ image_bytes (words_of script.now) ++ drop (record_size * length (words_of script.now)) image.old }
{
    // The targets are numbers, with 0 for none, because each call clears the table: with options, a compile of one record took
    // 2.1 times the instructions (counted with callgrind).
    let mut targets = [0; Record::MOST];
    fill_targets(script, &mut targets);
    let mut place: u32 = 0;
    // By place, as `records_from` reads the records.
    for k in 0..script.len() / Record::SIZE {
        let r = record::read(script, Record::SIZE * k);
        let target = targets[k];
        let kind = kind_of(r.kind);
        if emits_word(target, kind) {
            // Fields that the record does not use are 0, so the word can copy them.
            put(
                image,
                place,
                word(kind.word_kind(), r.width, r.port, target, r.value),
            );
            place += 1;
        }
    }
    put(image, place, word(WordKind::Halt, 0, 0, 0, 0));
}

// Refusal 9: a buffer of `length` bytes is too short for this many words.
fn too_short(length: usize, words: u32) -> bool
    ensures { result ≡ ltb length (record_size * words) }
{
    length < offset(words)
}

// Compiles a script and returns the number of words. Writes nothing to the image unless the script is accepted and its words fit.
pub fn compile(script: &[u8], image: &mut [u8]) -> Result<u32, Refused>
    ensures { (compiled result ≡ compile_result script.now image.old) × (image.new ≡ image_after script.now image.old) }
{
    let words = script::scan(script)?;
    if too_short(image.len(), words) {
        return Err(Refused {
            kind: RefusalKind::BufferTooShort,
            place: (script.len() / Record::SIZE) as u32,
        });
    }
    emit(script, image);
    Ok(words)
}
