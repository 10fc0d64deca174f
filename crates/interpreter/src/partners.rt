// The table of partners: for each record that opens, parts or closes a block, the place where the walk continues if it does not go on with
// the next record. One pass from the last record to the first fills it, so a failed test costs the same over a block of any length.
//
//   repeat            the place after its end
//   if                the place after its else or, without one, after its end
//   else              the place after its end
//   end of a repeat   the place of its body
//   end of an if      0: the walk goes on with the next record
//
// 0 is the partner of no other record. An `Option` in its place would make the table, which each call clears, twice as long.
ghost use Rattle.std.specs.Prelude.{◌≡◌, ◌<◌, replicate};
ghost use Rattle.record.specs.Record.{most_records};
ghost use Rattle.script.specs.Kinds.{kind_number};
ghost use Rattle.script.specs.Refusals.{script_refusal};
ghost use Rattle.interpreter.specs.Partners.{ArePlaces, RoomFor, added, partners, script_partners};

use lists::array_stack::ArrayStack;
use record::Record;
use script::MOST_BLOCKS;
use script::kind::{RecordKind, kind_of};

// A place for every record of the longest script.
pub const TABLE_SIZE: usize = Record::MOST;

// The places of the ends and elses that wait for the record which opens their block: one for each open block.
type Closers = ArrayStack<u32, MOST_BLOCKS>;

// Adds the record at a place.
fn add_record(table: &mut [u32; TABLE_SIZE], closers: &mut Closers, kind: RecordKind, place: u32)
    requires { (place < most_records) × RoomFor (kind_number kind) closers.old }
    ensures added { partners table.new closers.new ≡ added (kind_number kind) place (partners table.old closers.old) }
    ensures places { ArePlaces closers.new }
{
    match kind {
        RecordKind::Write | RecordKind::Read | RecordKind::Delay => {}
        RecordKind::Repeat => {
            let end = closers.pop().unwrap();
            table[place as usize] = end + 1;
            table[end as usize] = place + 1;
        }
        RecordKind::If => table[place as usize] = closers.pop().unwrap() + 1,
        RecordKind::Else => {
            table[place as usize] = closers.pop().unwrap() + 1;
            closers.push(place);
        }
        RecordKind::End => closers.push(place),
    }
}

// Fills the table of an accepted script, which is 0 before.
pub fn fill(script: &[u8], table: &mut [u32; TABLE_SIZE])
    requires { ((script_refusal script.now).number ≡ 0) × (table.old ≡ replicate most_records 0) }
    ensures { table.new ≡ script_partners script.now }
{
    let count = (script.len() / Record::SIZE) as u32;
    let mut closers: Closers = ArrayStack::new(0);
    // By place, as `records_from` reads the records: the table has places.
    for place in (0..count).rev() {
        let kind = kind_of(record::kind_at(script, Record::SIZE * place as usize));
        add_record(table, &mut closers, kind, place);
    }
}
