// Files and output in memory and other calls that no command makes, and a script with its rows.
use des_base::{CountSink, Line, Lines, MemShelf, MemSink, Name, Shelf, Sink};
use log_csv::read_script;
use log_order::AlarmLog;
use std::alloc::Global;

// Whether a file is put there and loaded, and the second load fails.
fn loads(shelf: &mut MemShelf, into: &mut Vec<u8>) -> bool {
    shelf.add_file("net", b"newer!").is_ok()
        && shelf.fail_call(2).is_ok()
        && shelf.load("net", 4, into).is_ok()
        && into.as_slice() == b"newer".as_slice()
        && shelf.load("net", 4, into).is_err()
        && shelf.failures() == 1
}

#[test]
fn loads_files(rt: HostRuntime) {
    assert!(rt; loads(&mut MemShelf::new(rt.alloc()), &mut Vec::new(rt.alloc())));
}

// Whether a piece is taken for which there is room, and the second put fails.
fn takes(sink: &mut MemSink) -> bool {
    sink.reserve(6).is_ok()
        && sink.fail_call(2).is_ok()
        && sink.put(b"abc").is_ok()
        && sink.put(b"d").is_err()
        && sink.taken() == b"abc".as_slice()
        && sink.puts() == 2
        && sink.failures() == 1
}

#[test]
fn takes_pieces(rt: HostRuntime) {
    assert!(rt; takes(&mut MemSink::new(rt.alloc())));
}

// Whether the bytes of pieces are counted.
fn counts(sink: &mut CountSink) -> bool {
    sink.put(b"abc").is_ok() && sink.put(b"").is_ok() && sink.put(b"d").is_ok() && sink.bytes() == 4
}

#[test]
fn counts_bytes(rt: HostRuntime) {
    assert!(rt; counts(&mut CountSink::new()));
}

// Whether the first token of a line from place 2 on is this one.
fn has_token(line: &Line<'_>) -> bool {
    match line.token(2) {
        Some(token) => token.start == 4 && token.text == b"c".as_slice(),
        None => false,
    }
}

#[test]
fn finds_a_token(rt: HostRuntime) {
    let line = Lines::new(b"# x\r\n ab\tc  d \r\n", b'#').next_line();
    assert!(rt; line.is_some_and(|line| has_token(&line)));
}

// Whether an alarm that is perhaps false can be added, and is doubtful then.
fn keeps_doubtful(log: &mut AlarmLog, id: Name, labels: &[Name]) -> bool {
    log.add_maybe(id, labels).is_ok() && log.alarms() == 1 && log.is_maybe(0)
}

// Whether it is, where the alarm is named like its label.
fn is_doubtful(alloc: Global) -> bool {
    match (Name::new(alloc, b"T"), Name::new(alloc, b"T")) {
        (Ok(id), Ok(label)) => keeps_doubtful(&mut AlarmLog::new(alloc), id, &[label]),
        _ => false,
    }
}

#[test]
fn adds_a_doubtful_alarm(rt: HostRuntime) {
    assert!(rt; is_doubtful(rt.alloc()));
}

// The rows of a script.
fn has_seven_rows(alloc: Global) -> bool {
    match read_script(
        alloc,
        b"alarm,a,A\nask\nalarm,b,B\nbefore,b,a\nask\nbefore,a,b\nask\n",
    ) {
        Ok(script) => {
            let seven = script.rows().len() == 7;
            drop(script);
            seven
        }
        Err(_) => false,
    }
}

#[test]
fn reads_a_script(rt: HostRuntime) {
    assert!(rt; has_seven_rows(rt.alloc()));
}
