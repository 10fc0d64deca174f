// An entry of the log: the value of a read, and the block that owned its port, in one 64-bit number. So the log has one length, and a read
// stores one number. `step` makes the entries; the programs and `runnelopal` take them apart. See docs/CHIP.md, "Runs".
#![tactic(auto)]

ghost use Rattle.std.specs.Prelude.{◌≡◌};
ghost use Rattle.log_entry.specs.Entry.{log_entry, entry_owner, entry_value};

// 2^32: the value is below it, and the owner is counted in units of it.
const VALUE_COUNT: u64 = 0x1_0000_0000;

// The owner is its number, 0 for nobody, since an entry is one number for C programs too (`runnelopal_entry_owner`).
// A `u32` value is below 2^32, so `owner` and `value` return what the entry was made of.
pub fn entry(owner: u32, value: u32) -> u64
    ensures value { result ≡ log_entry owner value }
    ensures result_value { (entry_owner result ≡ owner) × (entry_value result ≡ value) }
{
    u64::from(owner) * VALUE_COUNT + u64::from(value)
}

pub fn owner(entry: u64) -> u32
    ensures { result ≡ entry_owner entry }
{
    (entry / VALUE_COUNT) as u32
}

pub fn value(entry: u64) -> u32
    ensures { result ≡ entry_value entry }
{
    (entry % VALUE_COUNT) as u32
}
