// The fields of a record.
ghost use Rattle.std.specs.Prelude.{◌≡◌, ◌+◌, ◌&&◌, drop, option_map};
ghost use Rattle.csv.specs.Records.{fields_of};
ghost use Rattle.log_csv.specs.Records.{are_empty, record_keyword, two_fields, record_by_word, record_with};

use crate::keyword::{RecordKeyword, record_keyword};
use csv::ByteRecord;

// Whether the fields from a place on are empty.
pub fn are_empty_from(fields: &ByteRecord, from: usize) -> bool
    ensures { result ≡ are_empty (drop from (fields_of fields.now)) }
{
    for place in from..fields.len() {
        if !is_empty_at(fields, place) {
            return false;
        }
    }
    true
}

// Whether the field at a place is empty, if there is one.
fn is_empty_at(fields: &ByteRecord, place: usize) -> bool
    ensures { are_empty (drop place (fields_of fields.now)) ≡ (result && are_empty (drop (place + 1) (fields_of fields.now))) }
{
    match fields.get(place) {
        Some(field) => field.is_empty(),
        None => true,
    }
}

// The keyword in the first field.
pub fn keyword(fields: &ByteRecord) -> Option<RecordKeyword>
    ensures { record_by_word (fields_of fields.now) ≡ record_with result (drop 1 (fields_of fields.now)) }
{
    match fields.get(0) {
        Some(text) => record_keyword(text),
        None => None,
    }
}

// The second and the third field, if every further field is empty.
pub fn two_fields(fields: &ByteRecord) -> Option<(&[u8], &[u8])>
    ensures { two_fields (drop 1 (fields_of fields.now)) ≡ option_map (λ pair. (pair.0.now, pair.1.now)) result }
{
    let Some(first) = fields.get(1) else {
        return None;
    };
    let Some(second) = fields.get(2) else {
        return None;
    };
    if !are_empty_from(fields, 3) {
        return None;
    }
    Some((first, second))
}
