// The files of a command: each is loaded, held against its limit and read.
ghost use Rattle.std.specs.Prelude.{◌≡◌, ◌≢◌, ℕ, ◌^◌, ◌<◌, ◌≤◌, List, length, All, IfOk, IfErr};
ghost use Rattle.des_base.specs.CommandWords.{word_at};
ghost use Rattle.event_costs.specs.CostText.{IsTableOf};
ghost use Rattle.model_text.specs.ModelFaults.{network_of};
ghost use Rattle.log_csv.specs.LogText.{log_of};
ghost use Rattle.log_csv.specs.ScriptText.{script_of};
ghost use Rattle.proof_ledger.specs.Checking.{check_proof};
ghost use Rattle.proof_text.specs.CnfText.{formula, formula_of};
ghost use Rattle.proof_text.specs.LratText.{proof_of};
ghost use Rattle.replay.specs.RunText.{run_of};
ghost use Rattle.replay.specs.Traced.{word_of};
ghost use Rattle.endings.specs.Texts.{fault_of_model, fault_of_log, fault_of_script, fault_of_run, fault_of_cnf, fault_of_lrat, fault_of_costs};
ghost use Rattle.endings.specs.Files.{loads, Fetches, IsReadAs, StopsIn};

use crate::stop::{Stop, stop_of_cnf, stop_of_lrat};
use des_base::{LoadFault, Shelf, WordList};
use des_net::Network;
use event_costs::{CostTable, read_costs};
use log_csv::{Script, read_log, read_script};
use log_order::AlarmLog;
use model_text::read_model;
use proof_ledger::Checked;
use proof_text::{Cnf, check_lrat, read_cnf};
use replay::{Run, read_run};
use std::alloc::Global;

const MODEL_LIMIT: u64 = 16_777_216;

const LOG_LIMIT: u64 = 16_777_216;

const RUN_LIMIT: u64 = 536_870_912;

const COST_LIMIT: u64 = 16_777_216;

const FORMULA_LIMIT: u64 = 536_870_912;

const PROOF_LIMIT: u64 = 536_870_912;

/// The network of the model in this place among the command's files.
#[tactic(auto, using(crate::proofs::Reading::model_stops, crate::proofs::Reading::model_read))]
pub fn fetch_model<F: Shelf>(
    alloc: Global,
    words: &WordList,
    shelf: &mut F,
    place: u32,
) -> Result<Network, Stop>
    requires { place < length words.now }
    ensures net { IfOk result (λ net. IsReadAs (F.held shelf.old) (word_at words.now place) MODEL_LIMIT fault_of_model (λ text. net ≡ network_of text)) }
    ensures stop { IfErr result (λ stop. stop ≢ Stop.Memory → StopsIn (loads F.held F.faults shelf.old shelf.new) place (word_at words.now place) MODEL_LIMIT fault_of_model stop) }
    ensures kept { F.held shelf.new ≡ F.held shelf.old }
    ensures never_falls { (n : List ℕ) → F.faults shelf.old n ≤ F.faults shelf.new n }
{
    let text = fetch(alloc, shelf, place, words.word(place as usize), MODEL_LIMIT)?;
    Ok(read_model(alloc, text.as_slice())?)
}

/// The run in this place among the command's files, over the network.
#[tactic(auto, using(crate::proofs::Reading::run_stops, crate::proofs::Reading::run_read))]
pub fn fetch_run<F: Shelf>(
    alloc: Global,
    words: &WordList,
    shelf: &mut F,
    place: u32,
    net: &Network,
) -> Result<Run, Stop>
    requires { place < length words.now }
    ensures run { IfOk result (λ run. IsReadAs (F.held shelf.old) (word_at words.now place) RUN_LIMIT (fault_of_run net.now) (λ text. run ≡ run_of net.now text)) }
    ensures known { IfOk result (λ run. All (λ e. e < length net.now.events) (word_of run)) }
    ensures stop { IfErr result (λ stop. stop ≢ Stop.Memory → StopsIn (loads F.held F.faults shelf.old shelf.new) place (word_at words.now place) RUN_LIMIT (fault_of_run net.now) stop) }
    ensures kept { F.held shelf.new ≡ F.held shelf.old }
    ensures never_falls { (n : List ℕ) → F.faults shelf.old n ≤ F.faults shelf.new n }
{
    let text = fetch(alloc, shelf, place, words.word(place as usize), RUN_LIMIT)?;
    Ok(read_run(alloc, text.as_slice(), net)?)
}

/// The log in this place among the command's files.
#[tactic(auto, using(crate::proofs::Reading::log_stops))]
pub fn fetch_log<F: Shelf>(
    alloc: Global,
    words: &WordList,
    shelf: &mut F,
    place: u32,
) -> Result<AlarmLog, Stop>
    requires { place < length words.now }
    ensures log { IfOk result (λ log. IsReadAs (F.held shelf.old) (word_at words.now place) LOG_LIMIT fault_of_log (λ text. log ≡ log_of text)) }
    ensures stop { IfErr result (λ stop. stop ≢ Stop.Memory → StopsIn (loads F.held F.faults shelf.old shelf.new) place (word_at words.now place) LOG_LIMIT fault_of_log stop) }
    ensures kept { F.held shelf.new ≡ F.held shelf.old }
    ensures never_falls { (n : List ℕ) → F.faults shelf.old n ≤ F.faults shelf.new n }
{
    let text = fetch(alloc, shelf, place, words.word(place as usize), LOG_LIMIT)?;
    Ok(read_log(alloc, text.as_slice())?)
}

/// The script in this place among the command's files.
#[tactic(auto, using(crate::proofs::Reading::script_stops, crate::proofs::Reading::script_read))]
pub fn fetch_script<F: Shelf>(
    alloc: Global,
    words: &WordList,
    shelf: &mut F,
    place: u32,
) -> Result<Script, Stop>
    requires { place < length words.now }
    ensures script { IfOk result (λ script. IsReadAs (F.held shelf.old) (word_at words.now place) LOG_LIMIT fault_of_script (λ text. script ≡ script_of text)) }
    ensures stop { IfErr result (λ stop. stop ≢ Stop.Memory → StopsIn (loads F.held F.faults shelf.old shelf.new) place (word_at words.now place) LOG_LIMIT fault_of_script stop) }
    ensures kept { F.held shelf.new ≡ F.held shelf.old }
    ensures never_falls { (n : List ℕ) → F.faults shelf.old n ≤ F.faults shelf.new n }
{
    let text = fetch(alloc, shelf, place, words.word(place as usize), LOG_LIMIT)?;
    Ok(read_script(alloc, text.as_slice())?)
}

/// The costs in this place among the command's files, of the network's fault events.
#[tactic(auto, using(crate::proofs::Reading::costs_stop, crate::proofs::Reading::costs_read))]
pub fn fetch_costs<F: Shelf>(
    alloc: Global,
    words: &WordList,
    shelf: &mut F,
    place: u32,
    net: &Network,
) -> Result<CostTable, Stop>
    requires { place < length words.now }
    ensures table { IfOk result (λ table. IsReadAs (F.held shelf.old) (word_at words.now place) COST_LIMIT (fault_of_costs net.now) (λ text. IsTableOf net.now text table)) }
    ensures stop { IfErr result (λ stop. stop ≢ Stop.Memory → StopsIn (loads F.held F.faults shelf.old shelf.new) place (word_at words.now place) COST_LIMIT (fault_of_costs net.now) stop) }
    ensures kept { F.held shelf.new ≡ F.held shelf.old }
    ensures never_falls { (n : List ℕ) → F.faults shelf.old n ≤ F.faults shelf.new n }
{
    let text = fetch(alloc, shelf, place, words.word(place as usize), COST_LIMIT)?;
    Ok(read_costs(alloc, text.as_slice(), net)?)
}

/// The formula in this place among the command's files.
#[tactic(auto, using(crate::proofs::Reading::cnf_stops, crate::proofs::Reading::cnf_read))]
pub fn fetch_cnf<F: Shelf>(
    alloc: Global,
    words: &WordList,
    shelf: &mut F,
    place: u32,
) -> Result<Cnf, Stop>
    requires { place < length words.now }
    ensures formula { IfOk result (λ cnf. IsReadAs (F.held shelf.old) (word_at words.now place) FORMULA_LIMIT fault_of_cnf (λ text. formula cnf.vars cnf.clauses.clauses ≡ formula_of text)) }
    ensures few { IfOk result (λ cnf. cnf.vars ≤ 100000000) }
    ensures stop { IfErr result (λ stop. stop ≢ Stop.Memory → StopsIn (loads F.held F.faults shelf.old shelf.new) place (word_at words.now place) FORMULA_LIMIT fault_of_cnf stop) }
    ensures kept { F.held shelf.new ≡ F.held shelf.old }
    ensures never_falls { (n : List ℕ) → F.faults shelf.old n ≤ F.faults shelf.new n }
{
    let text = fetch(
        alloc,
        shelf,
        place,
        words.word(place as usize),
        FORMULA_LIMIT,
    )?;
    match read_cnf(alloc, text.as_slice()) {
        Ok(cnf) => Ok(cnf),
        Err(refusal) => Err(stop_of_cnf(refusal)),
    }
}

/// The outcome of the proof in this place among the command's files, over the formula.
#[tactic(auto, using(crate::proofs::Reading::lrat_stops, crate::proofs::Reading::lrat_checked))]
pub fn fetch_checked<F: Shelf>(
    alloc: Global,
    words: &WordList,
    shelf: &mut F,
    place: u32,
    cnf: &Cnf,
) -> Result<Checked, Stop>
    requires place { place < length words.now }
    requires few { cnf.now.vars ≤ 100000000 }
    ensures checked { IfOk result (λ checked. IsReadAs (F.held shelf.old) (word_at words.now place) PROOF_LIMIT (fault_of_lrat (formula cnf.now.vars cnf.now.clauses.clauses)) (λ text. checked ≡ check_proof cnf.now.clauses.clauses (proof_of text))) }
    ensures stop { IfErr result (λ stop. stop ≢ Stop.Memory → StopsIn (loads F.held F.faults shelf.old shelf.new) place (word_at words.now place) PROOF_LIMIT (fault_of_lrat (formula cnf.now.vars cnf.now.clauses.clauses)) stop) }
    ensures kept { F.held shelf.new ≡ F.held shelf.old }
    ensures never_falls { (n : List ℕ) → F.faults shelf.old n ≤ F.faults shelf.new n }
{
    let text = fetch(alloc, shelf, place, words.word(place as usize), PROOF_LIMIT)?;
    match check_lrat(alloc, text.as_slice(), cnf) {
        Ok(checked) => Ok(checked),
        Err(refusal) => Err(stop_of_lrat(refusal)),
    }
}

// The bytes of the file in this place among the command's files.
fn fetch<F: Shelf>(
    alloc: Global,
    shelf: &mut F,
    place: u32,
    name: &str,
    limit: u64,
) -> Result<Vec<u8>, Stop>
    requires { limit < 2 ^ 63 }
    ensures fetches { Fetches (loads F.held F.faults shelf.old shelf.new) place name.now limit result }
    ensures kept { F.held shelf.new ≡ F.held shelf.old }
    ensures never_falls { (n : List ℕ) → F.faults shelf.old n ≤ F.faults shelf.new n }
{
    let mut bytes = Vec::new(alloc);
    match shelf.load(name, limit, &mut bytes) {
        Ok(()) => {
            if bytes.len() as u64 <= limit {
                Ok(bytes)
            } else {
                Err(Stop::Long(place))
            }
        }
        Err(LoadFault::Failed) => Err(Stop::Load(place)),
        Err(LoadFault::Memory) => Err(Stop::Memory),
    }
}
