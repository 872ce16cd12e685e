// A shelf in memory.
ghost use Rattle.std.specs.Prelude.{◌≡◌, ℕ, ◌+◌, ◌^◌, ◌<◌, ◌≤◌, ◌↔◌, List, [], ◌∷◌, ◌++◌, length, take, None, Some, OnOk, OnErr, IfSome, IsTrue, IsErrOf, MatchOption};
ghost use Rattle.std.specs.Str.{bytes_eq};
ghost use Rattle.des_base.specs.Held.{file_of, load_fails, after_load};

use crate::mem_calls::is_listed;
use crate::memory::Memory;
use crate::outside::{LoadFault, Shelf};
use std::alloc::Global;
use std::marker::Model;

#[derive(Drop)]
struct File {
    name: String,
    bytes: Vec<u8>,
}

impl Model for File {
    ghost use Rattle.std.specs.Prelude.{List, ℕ, string_bytes};

    ghost Value = { List ℕ × List ℕ };

    ghost view = { λ a. (string_bytes a.name, a.bytes.items) };
}

impl File {
    fn has_name(&self, name: &str) -> bool
        ensures { result ≡ bytes_eq self.now.0 name.now }
    {
        self.name.as_str() == name
    }

    fn bytes(&self) -> &[u8]
        ensures { result.now ≡ self.now.1 }
    {
        self.bytes.as_slice()
    }
}

// The newest file of a name.
fn newest<'a>(files: &'a [File], name: &str) -> Option<&'a File>
    ensures { MatchOption result (file_of files.now name.now ≡ None) (λ f. file_of files.now name.now ≡ Some f.now.1) }
{
    for file in files {
        if file.has_name(name) {
            return Some(file);
        }
    }
    None
}

/// A shelf in memory. A load fails if it is set to, and if there is no such file.
#[derive(Drop)]
pub struct MemShelf {
    files: Vec<File>,
    failing: Vec<u32>,
    calls: u64,
    faults: u64,
    alloc: Global,
}

impl Model for MemShelf {
    ghost use Rattle.des_base.specs.Held.{Files};

    ghost Value = { Files };

    ghost view = { λ a. record { files = a.files.items; failing = a.failing.items; calls = a.calls; faults = a.faults } };
}

impl MemShelf {
    /// A shelf without files, no load of which is set to fail.
    pub fn new(alloc: Global) -> MemShelf
        ensures { result ≡ record { files = []; failing = []; calls = 0; faults = 0 } }
    {
        MemShelf {
            files: Vec::new(alloc),
            failing: Vec::new(alloc),
            calls: 0,
            faults: 0,
            alloc,
        }
    }

    /// Puts a file in front, so that it stands in place of an older one of its name.
    pub fn add_file(&mut self, name: &str, bytes: &[u8]) -> Result<(), Memory>
        ensures ok { OnOk result (self.new ≡ record self.old { files = (name.now, bytes.now) ∷ self.old.files }) }
        ensures err { OnErr result (self.new ≡ self.old) }
    {
        let file = File {
            name: String::from_str(self.alloc, name)?,
            bytes: bytes.to_vec(self.alloc)?,
        };
        self.files.insert(0, file)?;
        Ok(())
    }

    /// The load with this number, counted from 1, fails.
    pub fn fail_call(&mut self, call: u32) -> Result<(), Memory>
        ensures ok { OnOk result (self.new ≡ record self.old { failing = self.old.failing ++ call ∷ [] }) }
        ensures err { OnErr result (self.new ≡ self.old) }
    {
        self.failing.push(call)?;
        Ok(())
    }

    /// How many loads have failed.
    pub fn failures(&self) -> u64
        ensures { result ≡ self.now.faults }
    {
        self.faults
    }
}

impl Shelf for MemShelf {
    ghost held = { λ s. file_of s.files };

    ghost faults = { λ s _. s.faults };

    fn load(&mut self, name: &str, limit: u64, into: &mut Vec<u8>) -> Result<(), LoadFault>
        requires { limit < 2 ^ 63 }
        ensures at_most { length into.new.items ≤ limit + 1 }
        ensures bytes { OnOk result (IfSome (file_of self.old.files name.now) (λ bytes. into.new.items ≡ take (limit + 1) bytes)) }
        ensures empty { OnErr result (into.new.items ≡ []) }
        ensures state { self.new ≡ after_load self.old name.now }
        ensures failed { IsErrOf result LoadFault.Failed ↔ IsTrue (load_fails self.old name.now) }
    {
        into.clear();
        self.calls = self.calls.saturating_add(1);
        let listed = is_listed(self.failing.as_slice(), self.calls);
        match newest(self.files.as_slice(), name) {
            Some(file) if !listed => copy_front(file.bytes(), limit, into),
            _ => {
                self.faults = self.faults.saturating_add(1);
                Err(LoadFault::Failed)
            }
        }
    }
}

// Copies at most `limit + 1` bytes, or none if memory runs out.
fn copy_front(bytes: &[u8], limit: u64, into: &mut Vec<u8>) -> Result<(), LoadFault>
    requires small { limit < 2 ^ 63 }
    requires empty { into.old.items ≡ [] }
    ensures ok { OnOk result (into.new.items ≡ take (limit + 1) bytes.now) }
    ensures err { OnErr result (into.new.items ≡ []) }
    ensures memory { IsErrOf result LoadFault.Failed → ⊥ }
{
    let count = bytes.len().min(limit as usize + 1);
    match into.extend_from_slice(&bytes[..count]) {
        Ok(()) => Ok(()),
        Err(_) => Err(LoadFault::Memory),
    }
}
