// The first field of a record.
ghost use Rattle.std.specs.Prelude.{◌≡◌, bytes_eq};
ghost use Rattle.log_csv.specs.Records.{record_keyword};

use log_order::Certainty;

// The first field of a record.
#[derive(Clone, Copy)]
pub enum RecordKeyword {
    Alarm(Certainty),
    Before,
    Ask,
}

// The keyword that the text is, if it is one.
pub fn record_keyword(text: &[u8]) -> Option<RecordKeyword>
    ensures { result ≡ record_keyword text.now }
{
    if is_word(text, "alarm") {
        Some(RecordKeyword::Alarm(Certainty::Certain))
    } else if is_word(text, "maybe") {
        Some(RecordKeyword::Alarm(Certainty::Doubtful))
    } else if is_word(text, "before") {
        Some(RecordKeyword::Before)
    } else if is_word(text, "ask") {
        Some(RecordKeyword::Ask)
    } else {
        None
    }
}

fn is_word(text: &[u8], word: &str) -> bool
    ensures { result ≡ bytes_eq text.now word.now }
{
    text == word.as_bytes()
}
