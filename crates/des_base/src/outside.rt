// A shelf of files and a sink of bytes, whatever stands behind them.
ghost use Rattle.std.specs.Prelude.{◌≡◌, ℕ, ◌+◌, ◌^◌, ◌<◌, ◌≤◌, List, [], ◌∷◌, length, take, Option, None, OnOk, OnErr, IfSome, IsErrOf, option_map};
ghost use Rattle.des_base.specs.Outside.{Output, Rose, Took, TookFront, raised};

/// Why a load gave no bytes: the shelf failed, which it counts, or memory ran out.
#[derive(Clone, Copy)]
pub enum LoadFault {
    Failed,
    Memory,
}

/// Files by name, on a disk or in memory. It counts loads that fail, so that a fault has its cause.
pub trait Shelf {
    /// What it holds under a name, if it says so.
    ghost held: { Self → List ℕ → Option (List ℕ) };

    /// A count for each name: a load of it that fails raises it, and no call lowers it.
    ghost faults: { Self → List ℕ → ℕ };

    /// Loads at most `limit + 1` bytes, so that a longer file is seen by its length.
    fn load(&mut self, name: &str, limit: u64, into: &mut Vec<u8>) -> Result<(), LoadFault>
        requires { limit < 2 ^ 63 }
        ensures at_most { length into.new.items ≤ limit + 1 }
        ensures bytes { OnOk result (IfSome (held self.old name.now) (λ bytes. into.new.items ≡ take (limit + 1) bytes)) }
        ensures empty { OnErr result (into.new.items ≡ []) }
        ensures kept { held self.new ≡ held self.old }
        ensures never_falls { (n : List ℕ) → faults self.old n ≤ faults self.new n }
        ensures failed { IsErrOf result LoadFault.Failed → Rose (faults self.old name.now) (faults self.new name.now) };
}

/// A put that failed.
#[derive(Clone, Copy)]
pub struct PutFault;

/// Takes bytes, piece after piece. It counts puts that fail, so that a fault has its cause.
pub trait Sink {
    /// The bytes that it has taken and how many puts there were, as far as it tells them.
    ghost taken: { Self → Output };

    /// A count that a put that fails raises, and that no call lowers.
    ghost faults: { Self → ℕ };

    /// How many puts have failed, if it says so. The count of faults may rise beside a put that succeeds, this one not.
    ghost failures: { Self → Option ℕ } = { λ _. None };

    /// Takes the piece. If that fails, a front of it may have been taken.
    fn put(&mut self, piece: &[u8]) -> Result<(), PutFault>
        ensures ok { OnOk result (Took (taken self.old) (taken self.new) (piece.now ∷ [])) }
        ensures front { OnErr result (TookFront (taken self.old) (taken self.new) piece.now) }
        ensures never_falls { faults self.old ≤ faults self.new }
        ensures failed { OnErr result (Rose (faults self.old) (faults self.new)) }
        ensures none { OnOk result (failures self.new ≡ failures self.old) }
        ensures one { OnErr result (failures self.new ≡ option_map raised (failures self.old)) };
}
