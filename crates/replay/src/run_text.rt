// Reading the text of a run.
ghost use Rattle.std.specs.Prelude.{◌≡◌, ◌<◌, ◌≤◌, ◌^◌, ℕ, [], ◌∷◌, length, All, IfOk, IfErr, IfSome, OnOk, MatchOption, ⊤, is_none, Some, None, true, if◌then◌else◌};
ghost use Rattle.std.specs.Option.{option_copied, option_to_list};
ghost use Rattle.std.specs.List.{list_all};
ghost use Rattle.des_base.specs.Names.{is_name_text};
ghost use Rattle.des_base.specs.CountedLines.{numbered, tokens_of, last_line};
ghost use Rattle.replay.specs.Traced.{event_of, word_of};
ghost use Rattle.replay.specs.RunText.{is_reply_word, is_reply_line, is_false_alarm_mark, after_reply_line, stated_length, step_code, step_words, step_of, steps_of, run_fault_at, fault_of_steps, first_run_fault, run_of, TellsFault};
ghost use Rattle.replay.specs.declared.run_text.RunRefusal.TheVariants.{Memory as NoMemory};
ghost use Rattle.replay.specs.declared.TheConstants.{MOST_RUN_STEPS};

use crate::MOST_RUN_STEPS;
use crate::run::{Run, RunStep};
use des_base::{EventId, Line, Lines, Memory, Name, NameFault, is_name, last_line, read_number};
use des_net::Network;
use std::alloc::Global;

/// The line of the first fault of a run text, counted from 1, and its code.
///
/// 1: the first counted line (but for that of a printed reply) isn't `run T`, or is missing. 2: a line has more than two
/// words, or the mark `!` alone. 3: a word isn't a name. 4: there are fewer lines than T, which is a fault of the text's end, or more. 5: the
/// network has no such event.
#[derive(Clone, Copy)]
pub struct RunFault {
    pub line: u32,
    pub code: u8,
}

/// Why a text became no run.
#[derive(Clone, Copy)]
pub enum RunRefusal {
    /// The text has a fault.
    Fault(RunFault),
    /// Memory ran out.
    Memory,
}

impl From<Memory> for RunRefusal {
    ghost from_gives = { λ _ e. e ≡ NoMemory };

    fn from(_: Memory) -> RunRefusal {
        RunRefusal::Memory
    }
}

const NO_HEADER: u8 = 1;

const TOO_MANY_WORDS: u8 = 2;

const NO_NAME: u8 = 3;

const OTHER_LENGTH: u8 = 4;

const UNKNOWN_EVENT: u8 = 5;

// The words of a step's line: its event or the mark of a false alarm, and an alarm, which stands after a mark.
#[derive(Clone, Copy)]
struct StepWords<'a> {
    event: &'a [u8],
    alarm: Option<&'a [u8]>,
}

/// The run that the text says: a line `run T`, and then T lines `EVENT`, `EVENT ALARM` or `! ALARM`, at most [`MOST_RUN_STEPS`].
///
/// Words stand between spaces and tabs. Blank lines and lines that begin with `#` are skipped. A printed reply that has a
/// run is a run text as it stands: its first line is skipped. Alarm names are kept as they are, whether or not there is
/// such an alarm.
pub fn read_run(alloc: Global, bytes: &[u8], net: &Network) -> Result<Run, RunRefusal>
    requires { length bytes.now < 2 ^ 32 }
    ensures run { IfOk result (λ run. run ≡ run_of net.now bytes.now) }
    ensures known { IfOk result (λ run. All (λ e. e < length net.now.events) (word_of run)) }
    ensures well { OnOk result (first_run_fault net.now bytes.now ≡ None) }
    ensures refused { IfErr result (TellsFault (first_run_fault net.now bytes.now)) }
{
    let mut lines = Lines::new(bytes, b'#');
    let Some(header) = next_header(&mut lines) else {
        return Err(fault(last_line(bytes), NO_HEADER));
    };
    let Some(stated) = stated_length(header) else {
        return Err(fault(header.number, NO_HEADER));
    };
    read_steps(alloc, bytes, net, stated, &mut lines)
}

fn fault(line: u32, code: u8) -> RunRefusal
    ensures { result ≡ RunRefusal.Fault (record { line = line; code = code }) }
{
    RunRefusal::Fault(RunFault { line, code })
}

// The first line that isn't that of a printed reply.
fn next_header<'a>(lines: &mut Lines<'a>) -> Option<Line<'a>>
    ensures { MatchOption result (after_reply_line lines.old ≡ []) (λ line. after_reply_line lines.old ≡ numbered line.number line.text.now ∷ lines.new) }
{
    let first = lines.next_line()?;
    if is_reply_line(first) {
        return lines.next_line();
    }
    Some(first)
}

fn is_reply_line(line: Line<'_>) -> bool
    ensures { result ≡ is_reply_line (tokens_of line.entry.text.now) }
{
    match line.tokens().next_token() {
        Some(word) => is_reply_word(word.text),
        None => false,
    }
}

fn is_reply_word(word: &[u8]) -> bool
    ensures { result ≡ is_reply_word word.now }
{
    word == b"EXPLAINED".as_slice() || word == b"MANY".as_slice() || word == b"UNDECIDED".as_slice()
}

// How many steps the header says that there are.
fn stated_length(header: Line<'_>) -> Option<u64>
    ensures length { result ≡ stated_length (tokens_of header.entry.text.now) }
    ensures few { IfSome result (λ stated. stated ≤ MOST_RUN_STEPS) }
{
    let mut tokens = header.tokens();
    let word = tokens.next_token()?;
    let count = tokens.next_token()?;
    if tokens.next_token().is_some() || word.text != b"run".as_slice() {
        return None;
    }
    read_number(count.text, u64::from(MOST_RUN_STEPS))
}

// The steps of the lines to come of the text, where there are as many as the header says.
fn read_steps(
    alloc: Global,
    bytes: &[u8],
    net: &Network,
    stated: u64,
    lines: &mut Lines<'_>,
) -> Result<Run, RunRefusal>
    requires short { length bytes.now < 2 ^ 32 }
    requires few { stated ≤ MOST_RUN_STEPS }
    ensures run { IfOk result (λ run. run ≡ steps_of net.now lines.old) }
    ensures known { IfOk result (λ run. All (λ e. e < length net.now.events) (word_of run)) }
    ensures well { (number : ℕ) → OnOk result (fault_of_steps net.now (last_line bytes.now) number (Some stated) lines.old ≡ None) }
    ensures refused { (number : ℕ) → IfErr result (TellsFault (fault_of_steps net.now (last_line bytes.now) number (Some stated) lines.old)) }
{
    let mut run = Run::new(alloc);
    let mut left = stated;
    while let Some(line) = lines.next_line() {
        let step = read_step(alloc, net, left, line)?;
        run.push(step)?;
        left -= 1;
    }
    if left > 0 {
        return Err(fault(last_line(bytes), OTHER_LENGTH));
    }
    Ok(run)
}

// The step of a line, where `left` steps may still come.
fn read_step(alloc: Global, net: &Network, left: u64, line: Line<'_>) -> Result<RunStep, RunRefusal>
    ensures step { IfOk result (λ step. step_of net.now (tokens_of line.entry.text.now) ≡ Some step) }
    ensures known { IfOk result (λ step. IfSome (event_of step) (λ e. e < length net.now.events)) }
    ensures well { OnOk result (step_code net.now left (tokens_of line.entry.text.now) ≡ None) }
    ensures refused { IfErr result (TellsFault (run_fault_at line.entry.number (step_code net.now left (tokens_of line.entry.text.now)))) }
{
    if left == 0 {
        return Err(fault(line.number, OTHER_LENGTH));
    }
    let Some(words) = step_words(line) else {
        return Err(fault(line.number, TOO_MANY_WORDS));
    };
    if is_false_alarm_mark(words.event) {
        return read_dropped(alloc, line.number, words.alarm);
    }
    if !is_name(words.event) {
        return Err(fault(line.number, NO_NAME));
    }
    let alarm = read_alarm(alloc, line.number, words.alarm)?;
    match net.find_event(words.event) {
        Some(event) => Ok(RunStep::Happens { event, alarm }),
        None => Err(fault(line.number, UNKNOWN_EVENT)),
    }
}

// Whether a false alarm's line begins with this word.
fn is_false_alarm_mark(word: &[u8]) -> bool
    ensures { result ≡ is_false_alarm_mark word.now }
{
    word == b"!".as_slice()
}

// The false alarm of this name.
fn read_dropped(alloc: Global, line: u32, text: Option<&[u8]>) -> Result<RunStep, RunRefusal>
    ensures step { IfOk result (λ step. MatchOption (option_copied text.entry) ⊤ (λ name. step ≡ RunStep.Dropped name)) }
    ensures name { OnOk result (list_all is_name_text (option_to_list (option_copied text.entry)) ≡ true) }
    ensures refused { IfErr result (TellsFault (run_fault_at line (if is_none (option_copied text.entry) then Some 2 else if list_all is_name_text (option_to_list (option_copied text.entry)) then None else Some 3))) }
{
    match read_alarm(alloc, line, text)? {
        Some(alarm) => Ok(RunStep::Dropped { alarm }),
        None => Err(fault(line, TOO_MANY_WORDS)),
    }
}

// The words of a step's line, one or two. The mark doesn't stand alone.
fn step_words<'a>(line: Line<'a>) -> Option<StepWords<'a>>
    ensures { MatchOption result (step_words (tokens_of line.entry.text.now) ≡ None) (λ words. step_words (tokens_of line.entry.text.now) ≡ Some (words.event.now, option_copied words.alarm)) }
{
    let mut tokens = line.tokens();
    let event = tokens.next_token()?.text;
    let Some(alarm) = tokens.next_token() else {
        return lone_event(event);
    };
    match tokens.next_token() {
        Some(_) => None,
        None => Some(StepWords {
            event,
            alarm: Some(alarm.text),
        }),
    }
}

// The one word of a line, where it is no mark.
fn lone_event<'a>(event: &'a [u8]) -> Option<StepWords<'a>>
    ensures { MatchOption result (step_words (event.now ∷ []) ≡ None) (λ words. step_words (event.now ∷ []) ≡ Some (words.event.now, option_copied words.alarm)) }
{
    if is_false_alarm_mark(event) {
        return None;
    }
    Some(StepWords { event, alarm: None })
}

// The name of an alarm, if there is one, on the line of this number.
fn read_alarm(alloc: Global, line: u32, text: Option<&[u8]>) -> Result<Option<Name>, RunRefusal>
    ensures alarm { IfOk result (λ alarm. alarm ≡ option_copied text.entry) }
    ensures name { OnOk result (list_all is_name_text (option_to_list (option_copied text.entry)) ≡ true) }
    ensures refused { IfErr result (TellsFault (run_fault_at line (if list_all is_name_text (option_to_list (option_copied text.entry)) then None else Some 3))) }
{
    let Some(text) = text else {
        return Ok(None);
    };
    match Name::new(alloc, text) {
        Ok(name) => Ok(Some(name)),
        Err(NameFault::Shape) => Err(fault(line, NO_NAME)),
        Err(NameFault::Memory) => Err(RunRefusal::Memory),
    }
}
