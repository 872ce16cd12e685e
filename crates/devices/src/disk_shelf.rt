// The files of the disk as a shelf.
ghost use Rattle.std.specs.Prelude.{◌≡◌, ◌+◌, ◌^◌, ◌<◌, ◌≤◌, [], length, take, None, OnOk, IfSome};

use des_base::{LoadFault, Shelf};
use std::fs;
use std::io::Read;
use std::rt::Files;

/// Files by their paths. Its contracts say nothing of what they contain.
#[derive(Drop)]
pub struct DiskShelf<'a, R> {
    files: &'a R,
    faults: u64,
}

impl<'a, R: Files> DiskShelf<'a, R> {
    /// The files of this runtime.
    pub fn new(files: &'a R) -> DiskShelf<'a, R>
        ensures { result.faults ≡ 0 }
    {
        DiskShelf { files, faults: 0 }
    }
}

impl<R: Files> Shelf for DiskShelf<'_, R> {
    ghost held = { λ _ _. None };

    ghost faults = { λ s _. s.faults };

    fn load(&mut self, name: &str, limit: u64, into: &mut Vec<u8>) -> Result<(), LoadFault> {
        into.clear();
        let read = match fs::open(self.files, name) {
            Ok(mut file) => read_front(&mut file, limit, into),
            Err(_) => Err(LoadFault::Failed),
        };
        match read {
            Ok(()) => Ok(()),
            Err(LoadFault::Failed) => {
                into.clear();
                self.faults = self.faults.saturating_add(1);
                Err(LoadFault::Failed)
            }
            Err(LoadFault::Memory) => {
                into.clear();
                Err(LoadFault::Memory)
            }
        }
    }
}

// Appends the bytes up to the end of the file, or until there are `limit + 1`. They are what the reader has, as far as that is known.
fn read_front<R: Read>(file: &mut R, limit: u64, into: &mut Vec<u8>) -> Result<(), LoadFault>
    requires small { limit < 2 ^ 63 }
    requires empty { into.old.items ≡ [] }
    ensures few { length into.new.items ≤ limit + 1 }
    ensures bytes { OnOk result (IfSome (R.remaining file.old) (λ rest. into.new.items ≡ take (limit + 1) rest)) }
{
    let mut buf = [0u8; 4096];
    let most = limit as usize + 1;
    while into.len() < most {
        let room = (most - into.len()).min(4096);
        let count = match file.read(&mut buf[..room]) {
            Ok(count) => count,
            Err(_) => return Err(LoadFault::Failed),
        };
        if count == 0 {
            return Ok(());
        }
        if into.extend_from_slice(&buf[..count]).is_err() {
            return Err(LoadFault::Memory);
        }
    }
    Ok(())
}

#[cfg(test)]
mod tests {
    use super::*;

    const NAME: &str = "disk_shelf_test.txt";

    // Limits, and what is held of the file.
    const FRONTS: [(u64, &str); 5] = [
        (100, "seven b"),
        (7, "seven b"),
        (6, "seven b"),
        (3, "seve"),
        (0, "s"),
    ];

    // A real file is read to its end or to the limit and one byte more, and an absent one is a fault that is counted.
    #[test]
    fn real_files(rt: HostRuntime) {
        assert!(rt; fs::write(&rt, NAME, "seven b").is_ok());
        let mut shelf = DiskShelf::new(&rt);
        let mut bytes = Vec::new(rt.alloc());
        for (limit, wanted) in FRONTS {
            let loaded = shelf.load(NAME, limit, &mut bytes);
            assert!(rt; loaded.is_ok() && bytes.as_slice() == wanted.as_bytes());
        }
        assert!(rt; shelf.faults == 0 && fs::remove_file(&rt, NAME).is_ok());
        let loaded = shelf.load(NAME, 100, &mut bytes);
        assert!(rt; matches!(loaded, Err(LoadFault::Failed)) && bytes.is_empty());
        assert!(rt; shelf.faults == 1);
    }
}
