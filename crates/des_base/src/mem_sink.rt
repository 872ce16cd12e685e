// A sink in memory.
ghost use Rattle.std.specs.Prelude.{◌≡◌, ◌+◌, ◌≤◌, ◌↔◌, max, [], ◌∷◌, ◌++◌, Some, OnOk, OnErr, IsTrue, IsErr};
ghost use Rattle.des_base.specs.Held.{put_fails, after_put};

use crate::mem_calls::is_listed;
use crate::memory::Memory;
use crate::outside::{PutFault, Sink};
use std::alloc::Global;
use std::marker::Model;

/// A sink in memory. A put fails if it is set to, and if the piece is longer than what is reserved.
#[derive(Drop)]
pub struct MemSink {
    taken: Vec<u8>,
    room: usize,
    failing: Vec<u32>,
    calls: u64,
    faults: u64,
}

impl Model for MemSink {
    ghost use Rattle.std.specs.Prelude.{◌+◌, ◌≤◌, vec_len, vec_capacity};
    ghost use Rattle.des_base.specs.Held.{Taken};

    ghost Value = { Taken };

    ghost view = { λ a. record { taken = a.taken.items; room = a.room; failing = a.failing.items; calls = a.calls; faults = a.faults } };

    ghost invariant = { λ a. vec_len a.taken + a.room ≤ vec_capacity a.taken };
}

impl MemSink {
    /// A sink that has taken nothing and reserved nothing.
    pub fn new(alloc: Global) -> MemSink
        ensures { result ≡ record { taken = []; room = 0; failing = []; calls = 0; faults = 0 } }
    {
        MemSink {
            taken: Vec::new(alloc),
            room: 0,
            failing: Vec::new(alloc),
            calls: 0,
            faults: 0,
        }
    }

    /// Takes memory for `bytes` bytes more than were taken.
    pub fn reserve(&mut self, bytes: usize) -> Result<(), Memory>
        ensures ok { OnOk result (self.new ≡ record self.old { room = max self.old.room bytes }) }
        ensures err { OnErr result (self.new ≡ self.old) }
    {
        self.taken.reserve(bytes)?;
        self.room = self.room.max(bytes);
        Ok(())
    }

    /// The put with this number, counted from 1, fails.
    pub fn fail_call(&mut self, call: u32) -> Result<(), Memory>
        ensures ok { OnOk result (self.new ≡ record self.old { failing = self.old.failing ++ call ∷ [] }) }
        ensures err { OnErr result (self.new ≡ self.old) }
    {
        self.failing.push(call)?;
        Ok(())
    }

    /// What was taken, piece after piece.
    pub fn taken(&self) -> &[u8]
        ensures { result.now ≡ self.now.taken }
    {
        self.taken.as_slice()
    }

    /// How many puts there were, whether they failed or not.
    pub fn puts(&self) -> u64
        ensures { result ≡ self.now.calls }
    {
        self.calls
    }

    /// How many puts have failed.
    pub fn failures(&self) -> u64
        ensures { result ≡ self.now.faults }
    {
        self.faults
    }
}

impl Sink for MemSink {
    ghost taken = { λ s. record { bytes = Some s.taken; puts = Some s.calls } };

    ghost faults = { λ s. s.faults };

    ghost failures = { λ s. Some s.faults };

    fn put(&mut self, piece: &[u8]) -> Result<(), PutFault>
        ensures state { self.new ≡ after_put self.old piece.now }
        ensures failed { IsErr result ↔ IsTrue (put_fails self.old piece.now) }
    {
        self.calls = self.calls.saturating_add(1);
        if is_listed(self.failing.as_slice(), self.calls) || self.room < piece.len() {
            self.faults = self.faults.saturating_add(1);
            return Err(PutFault);
        }
        self.taken.extend_from_slice(piece).unwrap();
        self.room -= piece.len();
        Ok(())
    }
}
