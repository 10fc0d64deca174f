// The lines of document 01, those of the refusals of a text, and that of a number that is neither, as `put_whole` and `put_summary` put them.
use super::*;
use outcome::RefusalKind;

#[test]
fn a_run_has_a_line_for_each_read_and_its_end(rt: HostRuntime) {
    let mut log = [0; LOG_SIZE];
    log[0] = log_entry::entry(1, 0x04);
    log[1] = log_entry::entry(1, 0xFF);
    let run = RunSummary {
        ending: Ending::Halted,
        steps: 8,
        logged: 2,
    };
    let mut text = [0; TEXT_SIZE];
    let length = put_whole(&mut text, Ok(run), &log);
    let lines = b"READ 00000004 1\nREAD 000000FF 1\nEND 0 8\n".as_slice();
    assert_eq!(rt; &text[..length], lines);
}

#[test]
fn every_refusal_has_the_line_of_a_refusal(rt: HostRuntime) {
    let log = [0; LOG_SIZE];
    for (kind, line) in [
        (RefusalKind::BadKind, b"REFUSED 3 7\n".as_slice()),
        (RefusalKind::LineTooLong, b"REFUSED 30 7\n".as_slice()),
        (RefusalKind::TextTooShort, b"REFUSED 34 7\n".as_slice()),
    ] {
        let mut text = [0; TEXT_SIZE];
        let length = put_whole(&mut text, Err(Refused { kind, place: 7 }), &log);
        assert_eq!(rt; &text[..length], line);
    }
}

#[test]
fn any_other_number_is_put_as_an_ending(rt: HostRuntime) {
    let log = [0; LOG_SIZE];
    let summary = Summary {
        outcome: 30,
        place: 7,
        steps: 5,
        logged: 0,
    };
    let mut text = [0; TEXT_SIZE];
    let length = put_summary(&mut text, summary, &log);
    assert_eq!(rt; &text[..length], b"END 30 5\n".as_slice());
}
