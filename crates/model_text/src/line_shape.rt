// How the lines of each keyword are cut into their words.
ghost use Rattle.std.specs.Prelude.{◌≡◌, ◌<◌, length, None, option_map, option_and_then, IfSome};
ghost use Rattle.model_text.specs.ModelLines.{component, component_line, state_line, transition_line, event_line, after_label, after_flags};
ghost use Rattle.des_base.specs.CountedLines.{texts_of};
ghost use Rattle.model_text.specs.Shapes.{state_said, transition_said, event_said};

use crate::keyword::is_word;
use des_base::Tokens;

// The shapes of lines. Their words are pieces of the text, and need not be names.

#[derive(Clone, Copy)]
pub(crate) struct StateLine<'a> {
    pub name: &'a [u8],
    pub initial: bool,
}

#[derive(Clone, Copy)]
pub(crate) struct TransitionLine<'a> {
    pub from: &'a [u8],
    pub action: &'a [u8],
    pub to: &'a [u8],
}

// The parts are the tokens that are left.
#[derive(Drop)]
pub(crate) struct EventLine<'a> {
    pub name: &'a [u8],
    pub label: Option<&'a [u8]>,
    pub fault: bool,
    pub parts: Tokens<'a>,
}

// The name that is the only token.
pub(crate) fn component_line<'a>(mut tokens: Tokens<'a>) -> Option<&'a [u8]>
    ensures { component_line (texts_of tokens.entry) ≡ option_map (λ name. component name.now) result }
{
    let name = tokens.next_token()?;
    if tokens.next_token().is_some() {
        return None;
    }
    Some(name.text)
}

// The name, and the word `init` if that follows.
pub(crate) fn state_line<'a>(mut tokens: Tokens<'a>) -> Option<StateLine<'a>>
    ensures { state_line (texts_of tokens.entry) ≡ option_map state_said result }
{
    let name = tokens.next_token()?.text;
    let Some(word) = tokens.next_token() else {
        return Some(StateLine {
            name,
            initial: false,
        });
    };
    if tokens.next_token().is_some() || !is_word(word.text, "init") {
        return None;
    }
    Some(StateLine {
        name,
        initial: true,
    })
}

// Exactly three words.
pub(crate) fn transition_line<'a>(mut tokens: Tokens<'a>) -> Option<TransitionLine<'a>>
    ensures { transition_line (texts_of tokens.entry) ≡ option_map transition_said result }
{
    let from = tokens.next_token()?.text;
    let action = tokens.next_token()?.text;
    let to = tokens.next_token()?.text;
    if tokens.next_token().is_some() {
        return None;
    }
    Some(TransitionLine { from, action, to })
}

// The name, a label after `alarm`, the word `fault`, a colon and the parts.
pub(crate) fn event_line<'a>(mut tokens: Tokens<'a>) -> Option<EventLine<'a>>
    ensures line { event_line (texts_of tokens.entry) ≡ option_and_then event_said result }
    ensures parts { IfSome result (λ line. 0 < length line.parts) }
{
    let name = tokens.next_token()?.text;
    let mut ahead = tokens.again();
    let word = ahead.next_token()?.text;
    let next = ahead.next_token()?.text;
    if is_word(word, "alarm") {
        after_label(name, Some(next), ahead)
    } else {
        after_label(name, None, tokens)
    }
}

// An event line from the word `fault` on.
fn after_label<'a>(
    name: &'a [u8],
    label: Option<&'a [u8]>,
    tokens: Tokens<'a>,
) -> Option<EventLine<'a>>
    ensures line { after_label name.now (option_map (λ text. text.now) label.entry) (texts_of tokens.entry) ≡ option_and_then event_said result }
    ensures parts { IfSome result (λ line. 0 < length line.parts) }
{
    let mut ahead = tokens.again();
    if is_word(ahead.next_token()?.text, "fault") {
        after_flags(name, label, true, ahead)
    } else {
        after_flags(name, label, false, tokens)
    }
}

// An event line from the colon on.
fn after_flags<'a>(
    name: &'a [u8],
    label: Option<&'a [u8]>,
    fault: bool,
    mut tokens: Tokens<'a>,
) -> Option<EventLine<'a>>
    ensures line { after_flags name.now (option_map (λ text. text.now) label.entry) fault (texts_of tokens.entry) ≡ option_and_then event_said result }
    ensures parts { IfSome result (λ line. 0 < length line.parts) }
{
    let colon = tokens.next_token()?.text;
    let parts = tokens.again();
    tokens.next_token()?;
    if !is_word(colon, ":") {
        return None;
    }
    Some(EventLine {
        name,
        label,
        fault,
        parts,
    })
}
