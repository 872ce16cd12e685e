// Which clauses are attached, as contracts see it.
ghost use Rattle.std.specs.Prelude.{◌≡◌, ◌++◌, ◌∷◌, []};

use crate::ids::Ids;
use prop_core::ClauseId;
use std::marker::Model;
use std::mem;
use std::snapshot::Snapshot;

// The numbers of the clauses that are attached, in the order in which they were. Contracts alone speak of them, so they take no memory.
#[derive(Drop)]
pub struct Attached {
    ids: Snapshot<Ids>,
}

impl Model for Attached {
    ghost use Rattle.std.specs.Prelude.{ℕ, List};
    ghost use Rattle.sat_prop.specs.Ids.{ids_of};

    ghost Value = { List ℕ };

    ghost view = { λ a. ids_of a.ids.value };
}

impl Attached {
    pub fn none() -> Attached
        ensures { result ≡ [] }
    {
        Attached {
            ids: Snapshot::of(&Ids::Empty),
        }
    }

    pub fn push(&mut self, id: ClauseId)
        ensures { self.new ≡ self.old ++ id ∷ [] }
    {
        let before = mem::replace(&mut self.ids, Snapshot::of(&Ids::Empty));
        self.ids = Snapshot::of(&Ids::More(before, id));
    }
}
