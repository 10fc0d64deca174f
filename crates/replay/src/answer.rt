// The parts of the answers. See docs/CASES.md, "Commands".
use device::single::SingleAccess;
use device::{Device, Outputs, owner};
use digits::Writer;
use outcome::{Ending, Refused};
use step::Sequencer;

// Not `put_refusal` of `refusal_text`: its line ends there, and here a sequencer or a device may follow.
pub fn put_refused(answer: &mut Writer, refused: Refused) {
    answer.put_text(b"REFUSED ");
    answer.put_decimal(refused.kind.number());
    put_number(answer, refused.place);
}

// One space and a decimal number.
pub fn put_number(answer: &mut Writer, number: u32) {
    answer.put(b' ');
    answer.put_decimal(number);
}

// A count as a number of 32 bits, into which all counts here fit.
pub fn short(count: usize) -> u32 {
    u32::try_from(count).unwrap_or(u32::MAX)
}

pub fn put_outputs(answer: &mut Writer, outputs: Outputs) {
    for on in [outputs.sci, outputs.smi, outputs.monitor] {
        answer.put(if on { b'1' } else { b'0' });
    }
}

// An access that is made: the status, the value, the outputs and the owner.
pub fn put_access(answer: &mut Writer, made: SingleAccess) {
    answer.put_text(b"DONE ");
    answer.put_decimal(made.answer.status);
    answer.put(b' ');
    answer.put_hex(made.answer.value);
    answer.put(b' ');
    put_outputs(answer, made.outputs);
    put_number(answer, owner::number(made.owner));
}

pub fn put_bytes(answer: &mut Writer, bytes: &[u8]) {
    for b in bytes {
        answer.put_byte(*b);
    }
}

pub fn put_state(answer: &mut Writer, device: Device) {
    put_bytes(answer, &state::bytes_of(device));
}

pub fn put_sequencer(answer: &mut Writer, sequencer: Sequencer) {
    put_number(answer, sequencer.place);
    put_number(answer, short(sequencer.used));
    for counter in sequencer.counters {
        put_number(answer, counter);
    }
}

pub fn put_ended(answer: &mut Writer, ending: Ending, steps: u32, taken: usize, logged: usize) {
    answer.put_text(b"ENDED");
    for number in [ending.number(), steps, short(taken), short(logged)] {
        put_number(answer, number);
    }
}

// The device after a run, and the log: the owner and the value of each entry, eight digits each.
pub fn put_device(answer: &mut Writer, device: Device, log: &[u64]) {
    answer.put(b' ');
    put_state(answer, device);
    if !log.is_empty() {
        answer.put(b' ');
    }
    for entry in log {
        answer.put_hex(log_entry::owner(*entry));
        answer.put_hex(log_entry::value(*entry));
    }
}
