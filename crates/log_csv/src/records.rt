// The records of a text, one after another.
ghost use Rattle.std.specs.Prelude.{◌≡◌, ◌≤◌, length, IfOk, OnOk};
ghost use Rattle.csv.specs.Reading.{default_config, records, strip_bom};
ghost use Rattle.csv.specs.Records.{fields_of};
ghost use Rattle.log_csv.specs.RecordsLeft.{IsPlain, IsNextRecord, records_left};

use csv::{ByteRecord, Reader, ReaderBuilder};
use des_base::Memory;
use std::alloc::Global;

// A reader of comma-separated fields with double quotes, without a header, of records that may differ in length.
#[tactic(auto, using(crate::proofs::NextLemmas::records_few))]
pub fn records_of(alloc: Global, bytes: &[u8]) -> Reader<&[u8]>
    ensures plain { IsPlain result }
    ensures records { records_left result ≡ records default_config (strip_bom bytes.now) }
    ensures few { length (records_left result) ≤ length bytes.now }
{
    ReaderBuilder::new()
        .has_headers(false)
        .flexible(true)
        .from_reader(alloc, bytes)
}

// Reads the fields of the next record, if there is one.
pub fn next_record(reader: &mut Reader<&[u8]>, fields: &mut ByteRecord) -> Result<bool, Memory>
    requires { IsPlain reader.old }
    ensures plain { OnOk result (IsPlain reader.new) }
    ensures next { IfOk result (λ found. IsNextRecord (records_left reader.old) found (fields_of fields.new) (records_left reader.new)) }
{
    let Ok(found) = reader.read_byte_record(fields) else {
        return Err(Memory);
    };
    Ok(found)
}
