// A name, and why a text is none.
ghost use Rattle.std.specs.Prelude.{◌≡◌, false, IfOk, OnOk, Some, refl, bytes_eq};
ghost use Rattle.std.proofs.Common.{rules};
ghost use Rattle.std.specs.Ordering.{nat_cmp};
ghost use Rattle.std.specs.Hash as fed;
ghost use Rattle.std.specs.Cmp.{partial_equiv_from_equiv};
ghost use Rattle.std.specs.Cmp.Lexicographic.{slice_cmp, nat_list_eq_equiv, nat_list_cmp_total, texts_ties, texts_po};
ghost use Rattle.std.specs.List.{list_all};
ghost use Rattle.std.specs.Cmp.Rules.{hashing};
ghost use Rattle.des_base.specs.Names.{is_name_byte, is_name_text, IsName};

use crate::memory::Memory;
use std::alloc::Global;
use std::cmp::Ordering;
use std::hash::{Hash, Hasher};
use std::marker::Model;

/// Why a text became no name.
#[derive(Clone, Copy)]
pub enum NameFault {
    /// It isn't 1 to 64 letters, digits, `_` or `-`.
    Shape,
    /// Memory ran out.
    Memory,
}

#[tactic(auto, unfolding(crate::specs::Names::is_name_byte))]
fn is_name_byte_of(c: u8) -> bool
    ensures { result ≡ is_name_byte c }
{
    (97 <= c && c <= 122) || (65 <= c && c <= 90) || (48 <= c && c <= 57) || c == 95 || c == 45
}

fn all_name_bytes(text: &[u8]) -> bool
    ensures { result ≡ list_all is_name_byte text.now }
{
    text.iter().all(|c| is_name_byte_of(*c))
}

/// Whether the text is 1 to 64 letters, digits, `_` or `-`.
#[tactic(auto, unfolding(crate::specs::Names::is_name_text))]
pub fn is_name(text: &[u8]) -> bool
    ensures { result ≡ is_name_text text.now }
{
    1 <= text.len() && text.len() <= 64 && all_name_bytes(text)
}

/// A name: 1 to 64 letters, digits, `_` or `-`.
#[derive(Drop)]
pub struct Name {
    text: String,
}

impl Model for Name {
    ghost use Rattle.std.specs.Prelude.{List, ℕ};
    ghost use Rattle.std.specs.String.{string_bytes};
    ghost use Rattle.des_base.specs.Names.{IsName};

    ghost Value = { List ℕ };

    ghost view = { λ a. string_bytes a.text };

    ghost invariant = { λ a. IsName (string_bytes a.text) };
}

impl Name {
    /// The text as a name.
    #[tactic(auto, using(crate::proofs::NameLemmas::name_is_utf8))]
    pub fn new(alloc: Global, text: &[u8]) -> Result<Self, NameFault>
        ensures ok { IfOk result (λ name. name ≡ text.now) }
        ensures name { OnOk result (IsName text.now) }
        ensures shape { result ≡ Err NameFault.Shape → is_name_text text.now ≡ false }
        ensures refused { is_name_text text.now ≡ false → result ≡ Err NameFault.Shape }
    {
        if !is_name(text) {
            return Err(NameFault::Shape);
        }
        let Ok(text) = str::from_utf8(text) else {
            return Err(NameFault::Shape);
        };
        match String::from_str(alloc, text) {
            Ok(text) => Ok(Name { text }),
            Err(_) => Err(NameFault::Memory),
        }
    }

    /// The text.
    pub fn as_str(&self) -> &str
        ensures text { result.now ≡ self.now }
        ensures name { IsName self.now }
    {
        self.text.as_str()
    }

    /// An equal name.
    pub fn copy(&self) -> Result<Self, Memory>
        ensures { IfOk result (λ name. name ≡ self.now) }
    {
        Ok(Name {
            text: self.text.clone()?,
        })
    }
}

impl PartialEq for Name {
    ghost eq = { bytes_eq };

    ghost laws = { partial_equiv_from_equiv nat_list_eq_equiv };

    fn eq(&self, other: &Name) -> bool {
        self.as_str() == other.as_str()
    }
}

impl Eq for Name {
    ghost laws = { nat_list_eq_equiv };
}

impl PartialOrd for Name {
    ghost partial_cmp = { λ a b. Some (slice_cmp nat_cmp a b) };

    ghost laws = { texts_po };

    fn partial_cmp(&self, other: &Name) -> Option<Ordering> {
        Some(self.cmp(other))
    }
}

impl Ord for Name {
    ghost cmp = { slice_cmp nat_cmp };

    ghost total = { nat_list_cmp_total };

    ghost matches_partial_cmp = { λ a b. refl };

    ghost matches_eq = { texts_ties };

    fn cmp(&self, other: &Name) -> Ordering {
        self.as_str().cmp(other.as_str())
    }
}

impl Hash for Name {
    ghost hash_input = { fed.str };

    ghost respects_eq = { Prim.search (hashing, rules) };

    fn hash<H: Hasher>(&self, state: &mut H) {
        self.as_str().hash(state);
    }
}
