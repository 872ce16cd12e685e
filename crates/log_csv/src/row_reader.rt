// The row that a record says.
ghost use Rattle.std.specs.Prelude.{◌≡◌, drop};
ghost use Rattle.csv.specs.Records.{fields_of};
ghost use Rattle.log_order.specs.Certainty.{leaves_doubt};
ghost use Rattle.log_csv.specs.Records.{alarm_record, before_record, ask_record, record_by_word, record_of};
ghost use Rattle.log_csv.specs.Reading.{Reads, ReadsRecord};
ghost use Rattle.log_csv.specs.ScriptText.{alarm_row};

use crate::fields::{are_empty_from, keyword, two_fields};
use crate::keyword::RecordKeyword;
use crate::labels::{name_of, read_labels};
use crate::refusal::RowRefusal;
use crate::row::Row;
use csv::ByteRecord;
use des_base::{ListOf, Name};
use log_order::Certainty;
use std::alloc::Global;

// The row that a record says, if one of its fields isn't empty.
#[tactic(auto, using(crate::proofs::RowLemmas::read_records))]
pub fn read_record(alloc: Global, fields: &ByteRecord) -> Result<Option<Row>, RowRefusal>
    ensures { ReadsRecord (record_of (fields_of fields.now)) result }
{
    if are_empty_from(fields, 0) {
        return Ok(None);
    }
    let row = read_row(alloc, fields)?;
    Ok(Some(row))
}

// The row that the keyword and the fields behind it say.
#[tactic(auto, using(crate::proofs::RowLemmas::row_records))]
fn read_row(alloc: Global, fields: &ByteRecord) -> Result<Row, RowRefusal>
    ensures { Reads (record_by_word (fields_of fields.now)) result }
{
    match keyword(fields) {
        Some(RecordKeyword::Alarm(certainty)) => read_alarm(alloc, fields, certainty),
        Some(RecordKeyword::Before) => read_before(alloc, fields),
        Some(RecordKeyword::Ask) => read_ask(fields),
        None => Err(RowRefusal::Shape),
    }
}

#[tactic(auto, using(crate::proofs::RowLemmas::alarm_records))]
fn read_alarm(alloc: Global, fields: &ByteRecord, certainty: Certainty) -> Result<Row, RowRefusal>
    ensures { Reads (alarm_record (leaves_doubt certainty) (drop 1 (fields_of fields.now))) result }
{
    let Some((id, labels)) = two_fields(fields) else {
        return Err(RowRefusal::Shape);
    };
    let id = name_of(alloc, id)?;
    let labels = read_labels(alloc, labels)?;
    Ok(alarm_row(certainty, id, labels))
}

// The row of an alarm, certain or doubtful.
fn alarm_row(certainty: Certainty, id: Name, labels: ListOf<Name>) -> Row
    ensures { result ≡ alarm_row (leaves_doubt certainty) id labels }
{
    match certainty {
        Certainty::Certain => Row::Alarm { id, labels },
        Certainty::Doubtful => Row::Maybe { id, labels },
    }
}

#[tactic(auto, using(crate::proofs::RowLemmas::before_records))]
fn read_before(alloc: Global, fields: &ByteRecord) -> Result<Row, RowRefusal>
    ensures { Reads (before_record (drop 1 (fields_of fields.now))) result }
{
    let Some((first, second)) = two_fields(fields) else {
        return Err(RowRefusal::Shape);
    };
    let first = name_of(alloc, first)?;
    let second = name_of(alloc, second)?;
    Ok(Row::Before { first, second })
}

#[tactic(auto, using(crate::proofs::RowLemmas::ask_records))]
fn read_ask(fields: &ByteRecord) -> Result<Row, RowRefusal>
    ensures { Reads (ask_record (drop 1 (fields_of fields.now))) result }
{
    if are_empty_from(fields, 1) {
        Ok(Row::Ask)
    } else {
        Err(RowRefusal::Shape)
    }
}
