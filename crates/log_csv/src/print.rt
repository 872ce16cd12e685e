// A log as a text.
ghost use Rattle.std.specs.Prelude.{◌≡◌, ◌<◌, ◌++◌, None, OnErr, OnOk};
ghost use Rattle.std.specs.List.{flat_map, join_with_byte};
ghost use Rattle.log_csv.specs.LogText.{first_log_fault, log_of};
ghost use Rattle.log_csv.specs.PrintedLog.{alarm_line, alarm_with, alarm_word, line_of_ids, log_text, pair_line};

use des_base::{Memory, Name};
use log_order::AlarmLog;

/// Appends the text of the log: all alarms, and then all pairs, each on a line of its own.
///
/// A refused call changes nothing.
pub fn print_log(log: &AlarmLog, out: &mut Vec<u8>) -> Result<(), Memory>
    ensures text { OnOk result (out.new.items ≡ out.old.items ++ log_text log.now) }
    ensures well { OnOk result (first_log_fault (log_text log.now) ≡ None) }
    ensures read_back { OnOk result (log_of (log_text log.now) ≡ log.now) }
    ensures err { OnErr result (out.new.items ≡ out.old.items) }
{
    log.is_whole();
    let mut text = Vec::new(*out.allocator());
    print_alarms(log, &mut text)?;
    print_pairs(log, &mut text)?;
    out.extend_from_slice(text.as_slice())?;
    Ok(())
}

fn print_alarms(log: &AlarmLog, text: &mut Vec<u8>) -> Result<(), Memory>
    ensures { OnOk result (text.new.items ≡ text.old.items ++ flat_map alarm_line log.now.alarms) }
{
    for alarm in 0..log.alarms() {
        print_alarm(log.is_maybe(alarm), log.id(alarm), log.labels(alarm), text)?;
    }
    Ok(())
}

fn print_alarm(maybe: bool, id: &Name, labels: &[Name], text: &mut Vec<u8>) -> Result<(), Memory>
    ensures { OnOk result (text.new.items ≡ text.old.items ++ alarm_line (alarm_with maybe id.now labels.now)) }
{
    text.extend_from_slice(alarm_word(maybe))?;
    text.extend_from_slice(b",")?;
    print_name(id, text)?;
    text.extend_from_slice(b",")?;
    print_labels(labels, text)?;
    text.extend_from_slice(b"\n")?;
    Ok(())
}

// The keyword of an alarm, certain or doubtful.
fn alarm_word(maybe: bool) -> &'static [u8]
    ensures { result.now ≡ alarm_word maybe }
{
    if maybe { b"maybe" } else { b"alarm" }
}

// The labels, with bars between them.
fn print_labels(labels: &[Name], text: &mut Vec<u8>) -> Result<(), Memory>
    ensures { OnOk result (text.new.items ≡ text.old.items ++ join_with_byte 124 labels.now) }
{
    let [first, others @ ..] = labels else {
        return Ok(());
    };
    print_name(first, text)?;
    for label in others {
        text.extend_from_slice(b"|")?;
        print_name(label, text)?;
    }
    Ok(())
}

fn print_pairs(log: &AlarmLog, text: &mut Vec<u8>) -> Result<(), Memory>
    ensures { OnOk result (text.new.items ≡ text.old.items ++ flat_map (pair_line log.now.alarms) log.now.pairs) }
{
    log.is_whole();
    for pair in log.pairs() {
        print_pair(log.id(pair.0), log.id(pair.1), text)?;
    }
    Ok(())
}

fn print_pair(first: &Name, second: &Name, text: &mut Vec<u8>) -> Result<(), Memory>
    ensures { OnOk result (text.new.items ≡ text.old.items ++ line_of_ids first.now second.now) }
{
    text.extend_from_slice(b"before,")?;
    print_name(first, text)?;
    text.extend_from_slice(b",")?;
    print_name(second, text)?;
    text.extend_from_slice(b"\n")?;
    Ok(())
}

fn print_name(name: &Name, text: &mut Vec<u8>) -> Result<(), Memory>
    ensures { OnOk result (text.new.items ≡ text.old.items ++ name.now) }
{
    text.extend_from_slice(name.as_str().as_bytes())?;
    Ok(())
}
