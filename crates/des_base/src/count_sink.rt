// A sink that counts what it takes.
ghost use Rattle.std.specs.Prelude.{◌≡◌, ◌+◌, ◌-◌, ◌^◌, ◌≤◌, min, length, None, IsOk};

use crate::outside::{PutFault, Sink};
use std::marker::Model;

/// A sink that counts the bytes it takes, and keeps nothing else of them. It never fails.
///
/// The count stands still at 2^64 - 1.
#[derive(Drop)]
pub struct CountSink {
    bytes: u64,
}

impl Model for CountSink {
    ghost use Rattle.std.specs.Prelude.{ℕ, ◌+◌, ◌^◌, ◌≤◌};

    ghost Value = { ℕ };

    ghost view = { λ a. a.bytes };

    ghost invariant = { λ a. a.bytes + 1 ≤ 2 ^ 64 };
}

impl CountSink {
    /// A sink that has taken nothing.
    pub fn new() -> CountSink
        ensures { result ≡ 0 }
    {
        CountSink { bytes: 0 }
    }

    /// How many bytes it has taken.
    pub fn bytes(&self) -> u64
        ensures { result ≡ self.now }
    {
        self.bytes
    }
}

impl Sink for CountSink {
    ghost taken = { λ s. record { bytes = None; puts = None } };

    ghost faults = { λ s. 0 };

    fn put(&mut self, piece: &[u8]) -> Result<(), PutFault>
        ensures never { IsOk result }
        ensures counted { self.new ≡ min (self.old + length piece.now) (2 ^ 64 - 1) }
    {
        self.bytes = self.bytes.saturating_add(piece.len() as u64);
        Ok(())
    }
}
