//! A shelf over files: the trusted edge, which tells no content.

ghost use Rattle.std.specs.Prelude.{◌≡◌, ◌≢◌, ◌≤◌, length, OnOk, OnErr};
ghost use Rattle.tm_io.specs.Counts.{counted};

use crate::whole_file::put_whole;
use crate::{GetFault, PutFault, Shelf};
use std::fs::{self, File};
use std::io::{ErrorKind, Read};
use std::marker::Model;
use std::rt::Files;

/// The files of the system, each under its path. A directory can be neither got nor put.
#[derive(Drop)]
pub struct FileShelf<R> {
    rt: R,
    gets: u64,
    puts: u64,
}

impl<R> Model for FileShelf<R> {
    ghost use Rattle.tm_io.specs.Faults.{Faults};

    ghost Value = { Faults };

    ghost view = { λ s. record { gets = s.gets; puts = s.puts } };
}

impl<R: Files> FileShelf<R> {
    ghost use Rattle.tm_io.specs.Faults.{Faults};

    /// The files that this runtime reaches, with no fault counted.
    pub fn new(rt: R) -> FileShelf<R>
        ensures { result ≡ record { gets = 0; puts = 0 } }
    {
        FileShelf {
            rt,
            gets: 0,
            puts: 0,
        }
    }

    /// Reads no further than one byte past the limit, so a file that is longer is not read whole.
    fn read(&self, name: &str, limit: u64, into: &mut Vec<u8>) -> Result<(), GetFault>
        ensures within { OnOk result (length into.new.items ≤ limit) }
        ensures into_stays { OnErr result (into.new.items ≡ into.old.items) }
    {
        let mut bytes = Vec::new(*into.allocator());
        fs::open(&self.rt, name)
            .and_then(|file| file.take(limit.saturating_add(1)).read_to_end(&mut bytes))
            .map_err(|error| match error.kind() {
                ErrorKind::OutOfMemory => GetFault::Memory,
                _ => GetFault::Failed,
            })?;
        if bytes.len() as u64 > limit {
            return Err(GetFault::TooLong);
        }
        *into = bytes;
        Ok(())
    }
}

impl<R: Files<File = File> + Alloc> Shelf for FileShelf<R> {
    ghost use Rattle.std.specs.Prelude.{if◌then◌else◌, is_ok};
    ghost use Rattle.tm_io.specs.Faults.{Faults, untold_shelf};

    ghost seen = { untold_shelf };

    fn get(&mut self, name: &str, limit: u64, into: &mut Vec<u8>) -> Result<(), GetFault>
        ensures within { OnOk result (length into.new.items ≤ limit) }
        ensures into_stays { OnErr result (into.new.items ≡ into.old.items) }
        ensures stays { result ≢ Err GetFault.Failed → self.new ≡ self.old }
        ensures failed { result ≡ Err GetFault.Failed → self.new ≡ record self.old { gets = counted self.old.gets } }
    {
        let read = self.read(name, limit, into);
        if read == Err(GetFault::Failed) {
            self.gets = self.gets.saturating_add(1);
        }
        read
    }

    fn put(&mut self, name: &str, bytes: &[u8]) -> Result<(), PutFault>
        ensures counts { self.new ≡ record self.old { puts = if is_ok result then self.old.puts else counted self.old.puts } }
    {
        if put_whole(&self.rt, name, bytes).is_err() {
            self.puts = self.puts.saturating_add(1);
            return Err(PutFault::Failed);
        }
        Ok(())
    }
}

#[cfg(test)]
mod tests {
    use super::*;
    use std::{env, io, process};

    #[test]
    fn puts_and_gets_a_file(rt: HostRuntime) -> io::Result<()> {
        let folder = env::temp_dir(&rt)?;
        let folder = folder.as_str();
        let id = process::id(rt.process());
        let name = format!(in rt.alloc(); "{folder}/tm_io_{id}")?;
        let mut shelf = FileShelf::new(&rt);
        let mut into = Vec::from_slice(rt.alloc(), b"before")?;
        assert_eq!(rt; shelf.get(&name, 9, &mut into), Err(GetFault::Failed));
        assert_eq!(rt; shelf.put(&name, b"a longer text"), Ok(()));
        assert_eq!(rt; shelf.put(&name, b"wxyz"), Ok(()));
        assert_eq!(rt; shelf.get(&name, 3, &mut into), Err(GetFault::TooLong));
        assert_eq!(rt; shelf.get(folder, 9, &mut into), Err(GetFault::Failed));
        assert_eq!(rt; shelf.put(folder, b"wxyz"), Err(PutFault::Failed));
        assert_eq!(rt; into.as_slice(), b"before".as_slice());
        assert_eq!(rt; shelf.get(&name, 4, &mut into), Ok(()));
        assert_eq!(rt; into.as_slice(), b"wxyz".as_slice());
        assert_eq!(rt; shelf.put(&name, b""), Ok(()));
        assert_eq!(rt; shelf.get(&name, 0, &mut into), Ok(()));
        assert_eq!(rt; into.as_slice(), b"".as_slice());
        fs::remove_file(&rt, &name)
    }
}
