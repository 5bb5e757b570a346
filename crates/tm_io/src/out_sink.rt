//! A sink over standard output: the trusted edge, which tells no bytes.

ghost use Rattle.std.specs.Prelude.{◌≡◌, ◌<◌, ◌≤◌, length, IfOk};
ghost use Rattle.tm_io.specs.Counts.{counted};

use crate::{Failed, Sink};
use std::io::{self, ErrorKind};
use std::marker::Model;

/// Standard output.
#[derive(Drop)]
pub struct OutSink<R> {
    rt: R,
    faults: u64,
}

impl<R> Model for OutSink<R> {
    ghost use Rattle.std.specs.Prelude.{ℕ};

    // The faults.
    ghost Value = { ℕ };

    ghost view = { λ s. s.faults };
}

impl<R: Print> OutSink<R> {
    /// What this runtime prints on, with no fault counted.
    pub fn new(rt: R) -> OutSink<R>
        ensures { result ≡ 0 }
    {
        OutSink { rt, faults: 0 }
    }

    /// A write that a signal interrupted has written nothing, and is tried again.
    fn write_uninterrupted(&self, piece: &[u8]) -> io::Result<usize>
        ensures within { IfOk result (λ n. n ≤ length piece.now) }
    {
        for _ in 0..u64::MAX {
            match self.rt.write_some(piece) {
                Err(error) if error.kind() == ErrorKind::Interrupted => {}
                written => return written,
            }
        }
        Err(io::Error::from(ErrorKind::Interrupted))
    }
}

impl<R: Print> Sink for OutSink<R> {
    ghost use Rattle.std.specs.Prelude.{if◌then◌else◌, is_ok};
    ghost use Rattle.tm_io.specs.Faults.{untold_sink};

    ghost seen = { untold_sink };

    fn write(&mut self, piece: &[u8]) -> Result<usize, Failed>
        ensures within { IfOk result (λ n. n ≤ length piece.now) }
        ensures goes_on { IfOk result (λ n. 0 < length piece.now → 0 < n) }
        ensures counts { self.new ≡ (if is_ok result then self.old else counted self.old) }
    {
        match self.write_uninterrupted(piece) {
            Ok(n) if n > 0 || piece.is_empty() => Ok(n),
            _ => {
                self.faults = self.faults.saturating_add(1);
                Err(Failed)
            }
        }
    }
}

#[cfg(test)]
mod tests {
    use super::*;
    use std::cell::Cell;
    use std::fmt::Display;

    // An output that is interrupted so often, and then takes at most so many bytes of each write.
    #[derive(Drop)]
    struct Device {
        interruptions: Cell<u8>,
        most: usize,
    }

    impl Device {
        fn new(interruptions: u8, most: usize) -> Device {
            Device {
                interruptions: Cell::new(interruptions),
                most,
            }
        }
    }

    impl Print for Device {
        fn print<D: Display + Drop>(&self, _value: D) -> io::Result<()> {
            Ok(())
        }

        fn println<D: Display + Drop>(&self, _value: D) -> io::Result<()> {
            Ok(())
        }

        fn write_all(&self, _bytes: &[u8]) -> io::Result<()> {
            Ok(())
        }

        fn write_some(&self, bytes: &[u8]) -> io::Result<usize> {
            let Some(left) = self.interruptions.get().checked_sub(1) else {
                return Ok(bytes.len().min(self.most));
            };
            self.interruptions.set(left);
            Err(io::Error::from(ErrorKind::Interrupted))
        }
    }

    #[test]
    fn writes_a_part_and_tells_how_much(rt: HostRuntime) {
        let mut out = OutSink::new(&rt);
        assert_eq!(rt; out.write(b""), Ok(0));
        assert_eq!(rt; out.write(b"."), Ok(1));
        let half = Device::new(0, 2);
        assert_eq!(rt; OutSink::new(&half).write(b"half"), Ok(2));
    }

    #[test]
    fn fails_on_a_full_device_and_not_on_an_interruption(rt: HostRuntime) {
        let full = Device::new(0, 0);
        let mut out = OutSink::new(&full);
        assert_eq!(rt; out.write(b""), Ok(0));
        assert_eq!(rt; out.write(b"."), Err(Failed));
        let interrupted = Device::new(3, 9);
        assert_eq!(rt; OutSink::new(&interrupted).write(b"whole"), Ok(5));
    }
}
