// Reading the rows of a script.
ghost use Rattle.std.specs.Prelude.{◌≡◌, ◌^◌, ◌<◌, ◌++◌, None, length, IfErr, IfOk, OnOk};
ghost use Rattle.std.specs.Option.{option_to_list};
ghost use Rattle.csv.specs.Records.{fields_of};
ghost use Rattle.log_csv.specs.Records.{record_of};
ghost use Rattle.log_csv.specs.Faults.{IsLogDue, log_fault_at};
ghost use Rattle.log_csv.specs.ScriptText.{first_script_fault, row_code, row_of, script_of};

use crate::fault::LogReadRefusal;
use crate::records::{next_record, records_of};
use crate::row::Row;
use crate::row_reader::read_record;
use csv::ByteRecord;
use std::alloc::Global;
use std::marker::Model;

/// The rows of a script, in order.
#[derive(Drop)]
pub struct Script {
    rows: Vec<Row>,
}

impl Model for Script {
    ghost use Rattle.std.specs.Prelude.{List};
    ghost use Rattle.log_csv.specs.declared.row.Row.{Row};

    ghost Value = { List Row };

    ghost view = { λ a. a.rows.items };
}

impl Script {
    /// The rows, in order.
    pub fn rows(&self) -> &[Row]
        ensures { result.now ≡ self.now }
    {
        self.rows.as_slice()
    }
}

/// The script that the text says.
///
/// A record is `alarm,ID,LABEL`, with bars between several labels, the same with `maybe`, `before,ID,ID` or `ask`. Fields
/// behind these are empty, and a record all of whose fields are empty is skipped. Only the shape of a record and its names are looked at here: a
/// fault has code 6 or 7.
#[tactic(auto, using(crate::proofs::ScriptLemmas::script_rows))]
pub fn read_script(alloc: Global, bytes: &[u8]) -> Result<Script, LogReadRefusal>
    requires { length bytes.now < 2 ^ 32 }
    ensures script { IfOk result (λ script. script ≡ script_of bytes.now) }
    ensures well { OnOk result (first_script_fault bytes.now ≡ None) }
    ensures refused { IfErr result (IsLogDue (first_script_fault bytes.now)) }
{
    let mut records = records_of(alloc, bytes);
    let mut fields = ByteRecord::new(alloc);
    let mut rows = Vec::new(alloc);
    let mut row: u32 = 0;
    'records: while next_record(&mut records, &mut fields)? {
        row += 1;
        push_row(alloc, &mut rows, row, &fields)?;
    }
    Ok(Script { rows })
}

// Appends the row that a record says, if it says one.
#[tactic(auto, using(crate::proofs::ScriptLemmas::pushed_rows))]
fn push_row(
    alloc: Global,
    rows: &mut Vec<Row>,
    row: u32,
    fields: &ByteRecord,
) -> Result<(), LogReadRefusal>
    ensures rows { OnOk result (rows.new.items ≡ rows.old.items ++ option_to_list (row_of (record_of (fields_of fields.now)))) }
    ensures well { OnOk result (row_code (record_of (fields_of fields.now)) ≡ None) }
    ensures refused { IfErr result (IsLogDue (log_fault_at row (row_code (record_of (fields_of fields.now))))) }
{
    match read_record(alloc, fields) {
        Ok(Some(said)) => {
            rows.push(said)?;
            Ok(())
        }
        Ok(None) => Ok(()),
        Err(refusal) => Err(refusal.at(row)),
    }
}
