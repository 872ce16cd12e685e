// The words that begin the lines of a model text.
ghost use Rattle.std.specs.Prelude.{◌≡◌, bytes_eq};
ghost use Rattle.model_text.specs.ModelLines.{line_keyword};

/// The first word of a line after the header.
#[derive(Clone, Copy)]
pub enum LineKeyword {
    Component,
    State,
    Trans,
    Event,
}

// Whether the text is this word.
pub(crate) fn is_word(text: &[u8], word: &str) -> bool
    ensures { result ≡ bytes_eq text.now word.now }
{
    text == word.as_bytes()
}

// The keyword that the text is, if it is one.
pub(crate) fn line_keyword(text: &[u8]) -> Option<LineKeyword>
    ensures { result ≡ line_keyword text.now }
{
    if is_word(text, "component") {
        Some(LineKeyword::Component)
    } else if is_word(text, "state") {
        Some(LineKeyword::State)
    } else if is_word(text, "trans") {
        Some(LineKeyword::Trans)
    } else if is_word(text, "event") {
        Some(LineKeyword::Event)
    } else {
        None
    }
}
