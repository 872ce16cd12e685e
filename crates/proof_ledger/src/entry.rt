// An entry of a book.
ghost use Rattle.std.specs.Prelude.{◌≡◌};
ghost use Rattle.proof_ledger.specs.Kept.{visible_entry};

use des_base::Memory;
use prop_core::ClauseId;

/// An entry of a book. Clauses are numbered from 1, without the marks.
#[derive(Clone, Copy)]
pub enum Entry {
    /// A clause that was given.
    Axiom(ClauseId),
    /// A clause that was derived.
    Learnt(ClauseId),
    /// A clause that was derived, and ends a search.
    Final(ClauseId),
    /// Where a question opens (0) or closes (1).
    Mark(u32),
}

// An entry as it is kept, in eight bytes.
#[derive(Clone, Copy)]
pub enum KeptEntry {
    Axiom(u32),
    Learnt(u32),
    Final(u32),
    Mark(u32),
}

// The entry that is kept so.
pub fn shown_entry(kept: KeptEntry) -> Entry
    ensures { result ≡ visible_entry kept }
{
    match kept {
        KeptEntry::Axiom(number) => Entry::Axiom(ClauseId(number as u64)),
        KeptEntry::Learnt(number) => Entry::Learnt(ClauseId(number as u64)),
        KeptEntry::Final(number) => Entry::Final(ClauseId(number as u64)),
        KeptEntry::Mark(number) => Entry::Mark(number),
    }
}

/// Why a clause was not derived.
#[derive(Clone, Copy)]
pub enum DeriveFault {
    /// The hint at this place, from 0, names no clause (kind 1) or has two or more open literals (kind 2); or the hints
    /// ended, and the place is their number (kind 3).
    Hint { hint_at: u32, kind: u8 },
    Memory,
}

impl From<Memory> for DeriveFault {
    ghost use Rattle.std.specs.Prelude.{◌≡◌};
    ghost use Rattle.proof_ledger.specs.declared.entry.DeriveFault.TheVariants as faults;

    ghost from_gives = { λ _ fault. fault ≡ faults.Memory };

    fn from(_: Memory) -> DeriveFault {
        DeriveFault::Memory
    }
}
