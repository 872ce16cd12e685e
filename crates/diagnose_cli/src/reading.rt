// The files of a command, which are read in the order of the words. A later file may be read by what stands in the earlier ones.
ghost use Rattle.std.specs.Prelude.{◌≡◌, ◌≢◌, ℕ, ◌+◌, ◌<◌, ◌≤◌, ⊤, List, [], ◌∷◌, ◌++◌, length, IfErr, IfOk, Option, refl};
ghost use Rattle.std.proofs.Common.{ap, subst, sym};
ghost use Rattle.des_base.specs.CommandWords.{word_at};
ghost use Rattle.diagnose_cli.specs.FilesRead.{AreReadAs, AreReadThen, EventsAreOf, IsCaseRead, IsFormulaRead, IsLogRead, IsModelRead, IsProofChecked, StopsAmong};
ghost use Rattle.endings.specs.Files.{IsReadAs, StopsIn, loads};
ghost use Rattle.endings.specs.Texts.{FileKind, cnf, costs, fault_of_costs, fault_of_log, fault_of_lrat, fault_of_run, fault_of_script, fault_of_text, limit_of, log, lrat, model, run, script};
ghost use Rattle.endings.specs.declared.stop.FaultyText.{FaultyText};
ghost use Rattle.event_costs.specs.CostText.{IsTableOf};
ghost use Rattle.log_csv.specs.ScriptText.{script_of};
ghost use Rattle.proof_ledger.specs.Checking.{check_proof};
ghost use Rattle.proof_text.specs.CnfText.{formula};
ghost use Rattle.proof_text.specs.LratText.{proof_of};
ghost use Rattle.inquiries.specs.declared.question.Case.{Case as InquiryCase};
ghost use Rattle.replay.specs.RunText.{run_of};

use des_base::{Shelf, WordList};
use des_net::Network;
use endings::{
    Stop, fetch_checked, fetch_cnf, fetch_costs, fetch_log, fetch_model, fetch_run, fetch_script,
};
use event_costs::CostTable;
use inquiries::Case;
use log_csv::Script;
use log_order::AlarmLog;
use proof_ledger::Checked;
use proof_text::Cnf;
use replay::Run;
use std::alloc::Global;

/// The files that a command has, as one value.
pub trait Reading {
    /// Their kinds, in the order of the words.
    ghost kinds: { List FileKind };

    /// Their value, by their bytes.
    ghost reads: { List (List ℕ) → Self → Type 0 };

    /// What is known of it.
    ghost sound: { Self → Type 0 } = { λ _. ⊤ };

    /// Reads them, from the first word behind the name on.
    fn fetch<F: Shelf>(alloc: Global, words: &WordList, shelf: &mut F) -> Result<Self, Stop>
        requires { length kinds < length words.now }
        ensures read { IfOk result (λ files. AreReadAs (F.held shelf.old) words.now kinds (λ texts. reads texts files)) }
        ensures sound { IfOk result sound }
        ensures stop { IfErr result (λ stop. stop ≢ Stop.Memory → StopsAmong (loads F.held F.faults shelf.old shelf.new) words.now 1 kinds [] stop) }
        ensures kept { F.held shelf.new ≡ F.held shelf.old }
        ensures never_falls { (n : List ℕ) → F.faults shelf.old n ≤ F.faults shelf.new n }
        ensures unread { kinds ≡ [] → shelf.new ≡ shelf.old };
}

/// What is read of one file behind others.
pub trait Behind<R: Reading> {
    /// Its kind.
    ghost kind: { FileKind };

    /// The first fault of its text.
    ghost fault: { R → List ℕ → Option FaultyText };

    /// Its value, by its bytes.
    ghost tells: { R → List ℕ → Self → Type 0 };

    /// What is known of it.
    ghost fits: { R → Self → Type 0 } = { λ _ _. ⊤ };

    /// Reads it after the others.
    fn fetch_behind<F: Shelf>(
        alloc: Global,
        words: &WordList,
        shelf: &mut F,
        before: &R,
    ) -> Result<Self, Stop>
        requires words { length R.kinds + 1 < length words.now }
        requires sound { R.sound before.now }
        ensures read { IfOk result (λ last. IsReadAs (F.held shelf.old) (word_at words.now (length R.kinds + 1)) (limit_of kind) (fault before.now) (λ text. tells before.now text last)) }
        ensures fits { IfOk result (fits before.now) }
        ensures stop { IfErr result (λ stop. stop ≢ Stop.Memory → StopsIn (loads F.held F.faults shelf.old shelf.new) (length R.kinds + 1) (word_at words.now (length R.kinds + 1)) (limit_of kind) (fault before.now) stop) }
        ensures kept { F.held shelf.new ≡ F.held shelf.old }
        ensures never_falls { (n : List ℕ) → F.faults shelf.old n ≤ F.faults shelf.new n };

    ghost faulty: { (before : R) (texts : List (List ℕ)) → R.reads texts before → fault before ≡ fault_of_text kind texts };
}

/// What is read of some files, and of one behind them.
#[derive(Drop)]
pub struct Then<A, B> {
    pub before: A,
    pub last: B,
}

impl<A: Reading + Drop, B: Behind<A>> Reading for Then<A, B> {
    ghost kinds = { A.kinds ++ B.kind ∷ [] };

    ghost reads = { λ texts files. AreReadThen A.reads B.tells texts files.before files.last };

    ghost sound = { λ files. A.sound files.before × B.fits files.before files.last };

    fn fetch<F: Shelf>(alloc: Global, words: &WordList, shelf: &mut F) -> Result<Then<A, B>, Stop> {
        let before = A::fetch(alloc, words, shelf)?;
        let last = B::fetch_behind(alloc, words, shelf, &before)?;
        Ok(Then { before, last })
    }
}

// ---- files that stand alone

impl Reading for () {
    ghost kinds = { [] };

    ghost reads = { λ texts files. texts ≡ [] };

    fn fetch<F: Shelf>(_alloc: Global, _words: &WordList, _shelf: &mut F) -> Result<(), Stop> {
        Ok(())
    }
}

impl Reading for Network {
    ghost kinds = { model ∷ [] };

    ghost reads = { λ texts net. IsModelRead texts net };

    fn fetch<F: Shelf>(alloc: Global, words: &WordList, shelf: &mut F) -> Result<Network, Stop> {
        fetch_model(alloc, words, shelf, 1)
    }
}

impl Reading for Cnf {
    ghost kinds = { cnf ∷ [] };

    ghost reads = { λ texts cnf. IsFormulaRead texts (formula cnf.vars cnf.clauses.clauses) };

    ghost sound = { λ cnf. cnf.vars ≤ 100000000 };

    fn fetch<F: Shelf>(alloc: Global, words: &WordList, shelf: &mut F) -> Result<Cnf, Stop> {
        fetch_cnf(alloc, words, shelf, 1)
    }
}

// ---- files behind a model

impl Behind<Network> for AlarmLog {
    ghost kind = { log };

    ghost fault = { λ net. fault_of_log };

    ghost tells = { IsLogRead };

    fn fetch_behind<F: Shelf>(
        alloc: Global,
        words: &WordList,
        shelf: &mut F,
        _net: &Network,
    ) -> Result<AlarmLog, Stop> {
        fetch_log(alloc, words, shelf, 2)
    }

    ghost faulty = { λ net texts read. refl };
}

impl Behind<Network> for Script {
    ghost kind = { script };

    ghost fault = { λ net. fault_of_script };

    ghost tells = { λ net lines rows. rows ≡ script_of lines };

    fn fetch_behind<F: Shelf>(
        alloc: Global,
        words: &WordList,
        shelf: &mut F,
        _net: &Network,
    ) -> Result<Script, Stop> {
        fetch_script(alloc, words, shelf, 2)
    }

    ghost faulty = { λ net texts read. refl };
}

impl Behind<Network> for Run {
    ghost kind = { run };

    ghost fault = { fault_of_run };

    ghost tells = { λ net text steps. steps ≡ run_of net text };

    ghost fits = { EventsAreOf };

    fn fetch_behind<F: Shelf>(
        alloc: Global,
        words: &WordList,
        shelf: &mut F,
        net: &Network,
    ) -> Result<Run, Stop> {
        fetch_run(alloc, words, shelf, 2, net)
    }

    ghost faulty = { λ net texts read. subst (λ (ts : List (List ℕ)). fault_of_run net ≡ fault_of_text run ts) (sym read.texts_are) (ap fault_of_run read.is) };
}

impl Reading for Case {
    ghost kinds = { model ∷ log ∷ [] };

    ghost reads = { λ texts case. IsCaseRead texts case.net case.log };

    fn fetch<F: Shelf>(alloc: Global, words: &WordList, shelf: &mut F) -> Result<Case, Stop> {
        let Then { before, last } = Then::<Network, AlarmLog>::fetch(alloc, words, shelf)?;
        Ok(Case {
            net: before,
            log: last,
        })
    }
}

// ---- files behind a model and a log

impl Behind<Case> for Run {
    ghost kind = { run };

    ghost fault = { λ case. fault_of_run case.net };

    ghost tells = { λ case text steps. steps ≡ run_of case.net text };

    ghost fits = { λ case steps. EventsAreOf case.net steps };

    fn fetch_behind<F: Shelf>(
        alloc: Global,
        words: &WordList,
        shelf: &mut F,
        case: &Case,
    ) -> Result<Run, Stop> {
        fetch_run(alloc, words, shelf, 3, &case.net)
    }

    ghost faulty = { λ case texts read. subst (λ (ts : List (List ℕ)). fault_of_run case.net ≡ fault_of_text run ts) (sym read.texts_are) (subst (λ (ts : List (List ℕ)). fault_of_run case.net ≡ fault_of_text run (ts ++ read.text ∷ [])) (sym read.first.texts_are) (ap fault_of_run read.first.is)) };
}

impl Behind<Case> for CostTable {
    ghost kind = { costs };

    ghost fault = { λ case. fault_of_costs case.net };

    ghost tells = { λ case prices table. IsTableOf case.net prices table };

    ghost fits = { λ case table. length table ≡ length case.net.events };

    fn fetch_behind<F: Shelf>(
        alloc: Global,
        words: &WordList,
        shelf: &mut F,
        case: &Case,
    ) -> Result<CostTable, Stop> {
        fetch_costs(alloc, words, shelf, 3, &case.net)
    }

    ghost faulty = { λ case texts read. subst (λ (ts : List (List ℕ)). fault_of_costs case.net ≡ fault_of_text costs ts) (sym read.texts_are) (subst (λ (ts : List (List ℕ)). fault_of_costs case.net ≡ fault_of_text costs (ts ++ read.text ∷ [])) (sym read.first.texts_are) (ap fault_of_costs read.first.is)) };
}

// ---- a proof behind a formula

impl Behind<Cnf> for Checked {
    ghost kind = { lrat };

    ghost fault = { λ cnf. fault_of_lrat (formula cnf.vars cnf.clauses.clauses) };

    ghost tells = { λ cnf text checked. checked ≡ check_proof cnf.clauses.clauses (proof_of text) };

    fn fetch_behind<F: Shelf>(
        alloc: Global,
        words: &WordList,
        shelf: &mut F,
        cnf: &Cnf,
    ) -> Result<Checked, Stop> {
        fetch_checked(alloc, words, shelf, 2, cnf)
    }

    ghost faulty = { λ cnf texts read. subst (λ (ts : List (List ℕ)). fault_of_lrat (formula cnf.vars cnf.clauses.clauses) ≡ fault_of_text lrat ts) (sym read.texts_are) (ap fault_of_lrat read.is) };
}

impl Reading for Checked {
    ghost kinds = { cnf ∷ lrat ∷ [] };

    ghost reads = { IsProofChecked };

    fn fetch<F: Shelf>(alloc: Global, words: &WordList, shelf: &mut F) -> Result<Checked, Stop> {
        let Then { last, .. } = Then::<Cnf, Checked>::fetch(alloc, words, shelf)?;
        Ok(last)
    }
}

// ---- two files or three as a value with a name for each

/// A network, and a run over it.
#[derive(Drop)]
pub struct RunOver {
    pub net: Network,
    pub run: Run,
}

impl Reading for RunOver {
    ghost kinds = { model ∷ run ∷ [] };

    ghost reads = { λ texts files. AreReadThen IsModelRead (λ net steps r. r ≡ run_of net steps) texts files.net files.run };

    ghost sound = { λ files. EventsAreOf files.net files.run };

    fn fetch<F: Shelf>(alloc: Global, words: &WordList, shelf: &mut F) -> Result<RunOver, Stop> {
        let Then { before, last } = Then::<Network, Run>::fetch(alloc, words, shelf)?;
        Ok(RunOver {
            net: before,
            run: last,
        })
    }
}

/// A network, and a script over it.
#[derive(Drop)]
pub struct ScriptOver {
    pub net: Network,
    pub script: Script,
}

impl Reading for ScriptOver {
    ghost kinds = { model ∷ script ∷ [] };

    ghost reads = { λ texts files. AreReadThen IsModelRead (λ net lines rows. rows ≡ script_of lines) texts files.net files.script };

    fn fetch<F: Shelf>(alloc: Global, words: &WordList, shelf: &mut F) -> Result<ScriptOver, Stop> {
        let Then { before, last } = Then::<Network, Script>::fetch(alloc, words, shelf)?;
        Ok(ScriptOver {
            net: before,
            script: last,
        })
    }
}

/// A network, a log of what was seen of it, and a run over it.
#[derive(Drop)]
pub struct CaseRun {
    pub case: Case,
    pub run: Run,
}

impl Reading for CaseRun {
    ghost kinds = { model ∷ log ∷ run ∷ [] };

    ghost reads = { λ texts files. AreReadThen (λ ts (c : InquiryCase). IsCaseRead ts c.net c.log) (λ (c : InquiryCase) steps r. r ≡ run_of c.net steps) texts files.case files.run };

    ghost sound = { λ files. EventsAreOf files.case.net files.run };

    fn fetch<F: Shelf>(alloc: Global, words: &WordList, shelf: &mut F) -> Result<CaseRun, Stop> {
        let Then { before, last } = Then::<Case, Run>::fetch(alloc, words, shelf)?;
        Ok(CaseRun {
            case: before,
            run: last,
        })
    }
}

/// A network, a log of what was seen of it, and what its fault events cost.
#[derive(Drop)]
pub struct CostedCase {
    pub case: Case,
    pub table: CostTable,
}

impl Reading for CostedCase {
    ghost kinds = { model ∷ log ∷ costs ∷ [] };

    ghost reads = { λ texts files. AreReadThen (λ ts (c : InquiryCase). IsCaseRead ts c.net c.log) (λ (c : InquiryCase) prices t. IsTableOf c.net prices t) texts files.case files.table };

    ghost sound = { λ files. length files.table ≡ length files.case.net.events };

    fn fetch<F: Shelf>(alloc: Global, words: &WordList, shelf: &mut F) -> Result<CostedCase, Stop> {
        let Then { before, last } = Then::<Case, CostTable>::fetch(alloc, words, shelf)?;
        Ok(CostedCase {
            case: before,
            table: last,
        })
    }
}
