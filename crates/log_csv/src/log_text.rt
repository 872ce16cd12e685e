// A log is read record by record.
ghost use Rattle.std.specs.Prelude.{◌≡◌, ◌^◌, ◌<◌, List, None, Some, length, IfErr, IfOk, OnOk};
ghost use Rattle.csv.specs.Records.{fields_of};
ghost use Rattle.log_order.specs.Log.{no_log};
ghost use Rattle.log_order.specs.Certainty.{leaves_doubt};
ghost use Rattle.log_csv.specs.Records.{Record, alarm, before, record_of};
ghost use Rattle.log_csv.specs.Faults.{IsLogDue};
ghost use Rattle.log_csv.specs.ScriptText.{row_code, row_of};
ghost use Rattle.log_csv.specs.LogText.{first_log_fault, log_of};
ghost use Rattle.log_csv.specs.Reading.{Adds, IsLogOf, log_refusal_at};

use crate::fault::{LogFault, LogReadRefusal};
use crate::records::{next_record, records_of};
use crate::row::Row;
use crate::row_reader::read_record;
use csv::ByteRecord;
use des_base::Name;
use log_order::{AlarmLog, Certainty, LogRefusal};
use std::alloc::Global;

/// The log that the text says.
///
/// A record is `alarm,ID,LABEL`, with bars between several labels, `maybe,ID,LABEL` for a doubtful alarm, or `before,ID,ID`,
/// "the first before the second". Fields behind the third are empty, and a record all of whose fields are empty is skipped. A
/// label that is repeated counts once, and a pair that is there already changes nothing.
pub fn read_log(alloc: Global, bytes: &[u8]) -> Result<AlarmLog, LogReadRefusal>
    requires { length bytes.now < 2 ^ 32 }
    ensures log { IfOk result (λ log. log ≡ log_of bytes.now) }
    ensures well { OnOk result (first_log_fault bytes.now ≡ None) }
    ensures refused { IfErr result (IsLogDue (first_log_fault bytes.now)) }
{
    let mut fields = ByteRecord::new(alloc);
    let mut log = AlarmLog::new(alloc);
    let read = add_records(alloc, bytes, &mut fields, &mut log);
    drop(fields);
    read?;
    Ok(log)
}

// Adds what the records of the text say to a log with nothing in it. The fields are those of one record after another.
#[tactic(auto, using(crate::proofs::LogLemmas::log_steps))]
fn add_records(
    alloc: Global,
    bytes: &[u8],
    fields: &mut ByteRecord,
    log: &mut AlarmLog,
) -> Result<(), LogReadRefusal>
    requires few { length bytes.now < 2 ^ 32 }
    requires empty { log.old ≡ no_log }
    ensures log { OnOk result (log.new ≡ log_of bytes.now) }
    ensures well { OnOk result (first_log_fault bytes.now ≡ None) }
    ensures refused { IfErr result (IsLogDue (first_log_fault bytes.now)) }
{
    let mut records = records_of(alloc, bytes);
    let mut row: u32 = 0;
    'records: while next_record(&mut records, fields)? {
        row += 1;
        add_record(alloc, log, row, fields)?;
    }
    Ok(())
}

// Adds what a record says.
fn add_record(
    alloc: Global,
    log: &mut AlarmLog,
    row: u32,
    fields: &ByteRecord,
) -> Result<(), LogReadRefusal>
    ensures { (earlier : List Record) → IsLogOf earlier log.old → Adds earlier (record_of (fields_of fields.now)) row log.new result }
{
    match read_record(alloc, fields) {
        Ok(Some(said)) => add_row(log, row, said),
        Ok(None) => Ok(()),
        Err(refusal) => Err(refusal.at(row)),
    }
}

// Adds what a row says, which is no question.
fn add_row(log: &mut AlarmLog, row: u32, said: Row) -> Result<(), LogReadRefusal>
    ensures { (earlier : List Record) (of : Record) → IsLogOf earlier log.old → row_code of ≡ None → row_of of ≡ Some said → Adds earlier of row log.new result }
{
    match said {
        Row::Alarm { id, labels } => add_alarm(log, row, Certainty::Certain, id, labels.as_slice()),
        Row::Maybe { id, labels } => add_alarm(
            log,
            row,
            Certainty::Doubtful,
            id,
            labels.as_slice(),
        ),
        Row::Before { first, second } => add_pair(log, row, &first, &second),
        Row::Ask => Err(LogReadRefusal::Fault(LogFault { row, code: 6 })),
    }
}

fn add_alarm(
    log: &mut AlarmLog,
    row: u32,
    certainty: Certainty,
    id: Name,
    labels: &[Name],
) -> Result<(), LogReadRefusal>
    ensures { (earlier : List Record) → IsLogOf earlier log.old → row_code (alarm (leaves_doubt certainty) id labels.now) ≡ None → Adds earlier (alarm (leaves_doubt certainty) id labels.now) row log.new result }
{
    match log.add(id, labels, certainty) {
        Ok(_number) => Ok(()),
        Err(refusal) => Err(refusal_at(row, refusal)),
    }
}

fn add_pair(log: &mut AlarmLog, row: u32, first: &Name, second: &Name) -> Result<(), LogReadRefusal>
    ensures { (earlier : List Record) → IsLogOf earlier log.old → row_code (before first.now second.now) ≡ None → Adds earlier (before first.now second.now) row log.new result }
{
    let Some(first) = log.find(first.as_str().as_bytes()) else {
        return Err(refusal_at(row, LogRefusal::Unknown));
    };
    let Some(second) = log.find(second.as_str().as_bytes()) else {
        return Err(refusal_at(row, LogRefusal::Unknown));
    };
    match log.add_before(first, second) {
        Ok(_fresh) => Ok(()),
        Err(refusal) => Err(refusal_at(row, refusal)),
    }
}

// The refusal of a text, if the log refuses the record of this row.
fn refusal_at(row: u32, refusal: LogRefusal) -> LogReadRefusal
    ensures { result ≡ log_refusal_at row refusal }
{
    let code = match refusal {
        LogRefusal::Double => 1,
        LogRefusal::Unknown => 2,
        LogRefusal::Cycle => 3,
        LogRefusal::NoLabels => 4,
        LogRefusal::Limit => 5,
        LogRefusal::Memory => return LogReadRefusal::Memory,
    };
    LogReadRefusal::Fault(LogFault { row, code })
}
