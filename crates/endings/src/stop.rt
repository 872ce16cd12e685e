// Why a command has no reply, with its status and its text.
ghost use Rattle.std.specs.Prelude.{◌≡◌, ◌∷◌, ◌++◌, [], IfOk, string_bytes};
ghost use Rattle.endings.specs.declared.stop.Stop.TheVariants.{Memory as NoMemory};
ghost use Rattle.endings.specs.Endings.{status_of_faulty, status_of_stop, text_of_faulty, text_of_stop};
ghost use Rattle.telling.specs.Lines.{line_with_two_numbers};
ghost use Rattle.endings.specs.Refusals.{stop_of_model, stop_of_log, stop_of_run, stop_of_cnf, stop_of_lrat, stop_of_cost};

use des_base::Memory;
use event_costs::{CostFault, CostRefusal};
use log_csv::{LogFault, LogReadRefusal};
use model_text::{ModelFault, ModelRefusal};
use proof_text::{TextFault, TextRefusal};
use replay::{RunFault, RunRefusal};
use std::alloc::{AllocError, Global};

/// A text that has a fault, and its first fault.
#[derive(Clone, Copy)]
pub enum FaultyText {
    Model(ModelFault),
    Log(LogFault),
    Run(RunFault),
    Cnf(TextFault),
    Lrat(TextFault),
    Cost(CostFault),
}

/// Why a command has no reply.
#[derive(Clone, Copy)]
pub enum Stop {
    /// The words are no command.
    Usage,
    /// The load of the file of this number failed.
    Load(u32),
    /// The text of a file has a fault.
    Faulty(FaultyText),
    /// The file of this number is longer than its limit.
    Long(u32),
    /// The word of a twin question names no fault event of the model.
    NoFault,
    /// The question has this size, which is above the limit.
    Large(u64),
    /// Memory ran out.
    Memory,
}

impl From<Memory> for Stop {
    ghost from_gives = { λ _ e. e ≡ NoMemory };

    fn from(_: Memory) -> Stop {
        Stop::Memory
    }
}

impl From<ModelRefusal> for Stop {
    ghost from_gives = { λ refusal e. e ≡ stop_of_model refusal };

    fn from(refusal: ModelRefusal) -> Stop {
        match refusal {
            ModelRefusal::Fault(fault) => Stop::Faulty(FaultyText::Model(fault)),
            ModelRefusal::Memory => Stop::Memory,
        }
    }
}

impl From<LogReadRefusal> for Stop {
    ghost from_gives = { λ refusal e. e ≡ stop_of_log refusal };

    fn from(refusal: LogReadRefusal) -> Stop {
        match refusal {
            LogReadRefusal::Fault(fault) => Stop::Faulty(FaultyText::Log(fault)),
            LogReadRefusal::Memory => Stop::Memory,
        }
    }
}

impl From<RunRefusal> for Stop {
    ghost from_gives = { λ refusal e. e ≡ stop_of_run refusal };

    fn from(refusal: RunRefusal) -> Stop {
        match refusal {
            RunRefusal::Fault(fault) => Stop::Faulty(FaultyText::Run(fault)),
            RunRefusal::Memory => Stop::Memory,
        }
    }
}

impl From<CostRefusal> for Stop {
    ghost from_gives = { λ refusal e. e ≡ stop_of_cost refusal };

    fn from(refusal: CostRefusal) -> Stop {
        match refusal {
            CostRefusal::Fault(fault) => Stop::Faulty(FaultyText::Cost(fault)),
            CostRefusal::Memory => Stop::Memory,
        }
    }
}

/// Why a command stops if the text of a formula is refused.
pub fn stop_of_cnf(refusal: TextRefusal) -> Stop
    ensures { result ≡ stop_of_cnf refusal }
{
    match refusal {
        TextRefusal::Fault(fault) => Stop::Faulty(FaultyText::Cnf(fault)),
        TextRefusal::Memory => Stop::Memory,
    }
}

/// Why a command stops if the text of a proof is refused.
pub fn stop_of_lrat(refusal: TextRefusal) -> Stop
    ensures { result ≡ stop_of_lrat refusal }
{
    match refusal {
        TextRefusal::Fault(fault) => Stop::Faulty(FaultyText::Lrat(fault)),
        TextRefusal::Memory => Stop::Memory,
    }
}

impl From<AllocError> for Stop {
    ghost from_gives = { λ _ e. e ≡ NoMemory };

    fn from(_: AllocError) -> Stop {
        Stop::Memory
    }
}

/// The exit status of a stop.
pub fn status_of_stop(stop: Stop) -> u8
    ensures { result ≡ status_of_stop stop }
{
    match stop {
        Stop::Usage => 2,
        Stop::Load(_) => 3,
        Stop::Faulty(text) => status_of_faulty(text),
        Stop::Long(_) | Stop::Large(_) => 8,
        Stop::NoFault => 16,
        Stop::Memory => 9,
    }
}

fn status_of_faulty(text: FaultyText) -> u8
    ensures { result ≡ status_of_faulty text }
{
    match text {
        FaultyText::Model(_) => 5,
        FaultyText::Log(_) => 6,
        FaultyText::Run(_) | FaultyText::Cnf(_) | FaultyText::Lrat(_) => 7,
        FaultyText::Cost(_) => 15,
    }
}

/// What is printed for a stop: nothing if memory runs out.
pub fn text_of_stop(alloc: Global, stop: Stop) -> Result<Vec<u8>, Memory>
    ensures { IfOk result (λ text. text.items ≡ text_of_stop stop) }
{
    let text = match stop {
        Stop::Usage => format!(in alloc; "USAGE\n")?,
        Stop::Load(file) => format!(in alloc; "LOAD {file}\n")?,
        Stop::Faulty(text) => text_of_faulty(alloc, text)?,
        Stop::Long(file) => format!(in alloc; "LONG {file}\n")?,
        Stop::NoFault => format!(in alloc; "NOFAULT\n")?,
        Stop::Large(size) => format!(in alloc; "LARGE {size}\n")?,
        Stop::Memory => String::new(alloc),
    };
    Ok(text.into_bytes())
}

fn text_of_faulty(alloc: Global, text: FaultyText) -> Result<String, Memory>
    ensures { IfOk result (λ told. string_bytes told ≡ text_of_faulty text) }
{
    match text {
        FaultyText::Model(fault) => line_with_two_numbers(alloc, "MODEL", fault.line, fault.code),
        FaultyText::Log(fault) => line_with_two_numbers(alloc, "LOG", fault.row, fault.code),
        FaultyText::Run(fault) => line_with_two_numbers(alloc, "RUN", fault.line, fault.code),
        FaultyText::Cnf(fault) => line_with_two_numbers(alloc, "CNF", fault.line, fault.code),
        FaultyText::Lrat(fault) => line_with_two_numbers(alloc, "LRAT", fault.line, fault.code),
        FaultyText::Cost(fault) => line_with_two_numbers(alloc, "COST", fault.line, fault.code),
    }
}

// A word, and the line and the code of a fault.
fn line_with_two_numbers(alloc: Global, word: &str, line: u32, code: u8) -> Result<String, Memory>
    ensures { IfOk result (λ text. string_bytes text ≡ line_with_two_numbers (word.now ++ 32 ∷ []) line code) }
{
    Ok(format!(in alloc; "{word} {line} {code}\n")?)
}
