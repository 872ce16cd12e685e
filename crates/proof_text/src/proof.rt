// A proof as a list of steps.
ghost use Rattle.std.specs.Prelude.{◌≡◌, [], ◌∷◌, ◌++◌, OnOk, OnErr};

use des_base::Memory;
use proof_ledger::ProofStep;
use std::alloc::Global;
use std::marker::Model;

/// The steps of a proof, in their order.
#[derive(Drop)]
pub struct Proof {
    steps: Vec<ProofStep>,
}

impl Model for Proof {
    ghost use Rattle.std.specs.Prelude.{List};
    ghost use Rattle.proof_ledger.specs.declared.checker.ProofStep.{ProofStep};

    ghost Value = { List ProofStep };

    ghost view = { λ a. a.steps.items };
}

impl Proof {
    /// A proof without steps.
    pub fn new(alloc: Global) -> Proof
        ensures { result ≡ [] }
    {
        Proof {
            steps: Vec::new(alloc),
        }
    }

    /// Appends a step.
    pub fn push(&mut self, step: ProofStep) -> Result<(), Memory>
        ensures ok { OnOk result (self.new ≡ self.old ++ step ∷ []) }
        ensures err { OnErr result (self.new ≡ self.old) }
    {
        self.steps.push(step)?;
        Ok(())
    }

    /// The steps.
    pub fn steps(&self) -> &[ProofStep]
        ensures { result.now ≡ self.now }
    {
        self.steps.as_slice()
    }
}
