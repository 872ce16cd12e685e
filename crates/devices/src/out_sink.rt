// A writer, such as the standard output, as a sink.
ghost use Rattle.std.specs.Prelude.{◌≡◌, None, Some};

use des_base::{PutFault, Sink};
use std::io::Write;

/// A writer as a sink. It has taken what the writer holds, as far as that is known. How many puts there were it doesn't say.
#[derive(Drop)]
pub struct OutSink<W> {
    to: W,
    faults: u64,
}

impl<W: Write + Drop> OutSink<W> {
    /// A sink that hands what it is given to this writer.
    pub fn new(to: W) -> OutSink<W>
        ensures { result.faults ≡ 0 }
    {
        OutSink { to, faults: 0 }
    }
}

impl<W: Write + Drop> Sink for OutSink<W> {
    ghost taken = { λ s. record { bytes = W.contents s.to; puts = None } };

    ghost faults = { λ s. s.faults };

    ghost failures = { λ s. Some s.faults };

    fn put(&mut self, piece: &[u8]) -> Result<(), PutFault> {
        let mut done = 0;
        while done < piece.len() {
            match self.to.write(&piece[done..]) {
                Ok(0) | Err(_) => {
                    self.faults = self.faults.saturating_add(1);
                    return Err(PutFault);
                }
                Ok(count) => done += count,
            }
        }
        Ok(())
    }
}

#[cfg(test)]
mod tests {
    use super::*;
    use std::io;

    // Standard output takes a whole piece, and an empty one. Neither is a fault.
    #[test]
    fn standard_output(rt: HostRuntime) {
        let mut out = OutSink::new(io::writer(&rt));
        assert!(rt; out.put(b"a piece\n").is_ok());
        assert!(rt; out.put(b"").is_ok());
        assert!(rt; out.faults == 0);
    }

    // A writer that takes three bytes at a time, and in all no more than its room.
    #[derive(Drop)]
    struct Narrow {
        taken: Vec<u8>,
        room: usize,
    }

    impl Write for Narrow {
        fn write(&mut self, piece: &[u8]) -> io::Result<usize> {
            let count = piece.len().min(3).min(self.room);
            match self.taken.extend_from_slice(&piece[..count]) {
                Ok(()) => {
                    self.room -= count;
                    Ok(count)
                }
                Err(_) => Err(io::ErrorKind::OutOfMemory.into()),
            }
        }

        fn flush(&mut self) -> io::Result<()> {
            Ok(())
        }
    }

    // A piece goes out in as many writes as it needs, and a write that takes nothing is a fault that is counted.
    #[test]
    fn short_writes(rt: HostRuntime) {
        let mut out = OutSink::new(Narrow {
            taken: Vec::new(rt.alloc()),
            room: 10,
        });
        assert!(rt; out.put(b"seven b").is_ok());
        assert!(rt; out.put(b"more").is_err());
        assert!(rt; out.to.taken.as_slice() == b"seven bmor".as_slice());
        assert!(rt; out.faults == 1);
    }
}
