//! A sink in memory.

ghost use Rattle.std.specs.Prelude.{◌≡◌, ◌+◌, ◌-◌, ◌<◌, ◌≤◌, ◌==◌, ◌++◌, ◌↔◌, [], Some, length, take, min, max, IsTrue, IsErr, IfOk, OnOk, OnErr};
ghost use Rattle.tm_io.specs.Counts.{counted};

use crate::counts::is_listed;
use crate::{Failed, Memory, Sink};
use std::alloc::Global;
use std::marker::Model;

/// A sink that holds what was written, and fails the writes that it is told to fail.
#[derive(Drop)]
pub struct MemSink {
    bytes: Vec<u8>,
    room: usize,
    most: usize,
    fail: Vec<u64>,
    calls: u64,
    faults: u64,
}

impl Model for MemSink {
    ghost use Rattle.std.specs.Prelude.{ℕ, ◌+◌, ◌<◌, ◌≤◌, vec_len, vec_capacity};
    ghost use Rattle.tm_io.specs.SinkState.{SinkState};

    ghost Value = { SinkState };

    ghost view = { λ s. record { calls = s.calls; fail = s.fail.items; faults = s.faults; most = s.most; bytes = s.bytes.items; room = s.room } };

    ghost invariant = { λ s. (0 < s.most) × (vec_len s.bytes + s.room ≤ vec_capacity s.bytes) };
}

impl MemSink {
    ghost use Rattle.tm_io.specs.SinkState.{SinkState};

    /// An empty sink without room, that takes at most `most` bytes a write, at least 1. The writes
    /// whose numbers, counted from 1, stand in `fail` will fail.
    pub fn new(alloc: Global, most: usize, fail: &[u64]) -> Result<MemSink, Memory>
        requires { 0 < most }
        ensures { IfOk result (λ sink. sink ≡ record { calls = 0; fail = fail.now; faults = 0; most = most; bytes = []; room = 0 }) }
    {
        Ok(MemSink {
            bytes: Vec::new(alloc),
            room: 0,
            most,
            fail: Vec::from_slice(alloc, fail)?,
            calls: 0,
            faults: 0,
        })
    }

    /// Makes room for so many more bytes, or keeps the room where that is more.
    pub fn room(&mut self, bytes: usize) -> Result<(), Memory>
        ensures ok { OnOk result (self.new ≡ record self.old { room = max self.old.room bytes }) }
        ensures err { OnErr result (self.new ≡ self.old) }
    {
        if bytes > self.room {
            self.bytes.reserve(bytes)?;
            self.room = bytes;
        }
        Ok(())
    }

    /// The bytes written so far.
    pub fn bytes(&self) -> &[u8]
        ensures { result.now ≡ self.now.bytes }
    {
        self.bytes.as_slice()
    }
}

impl Sink for MemSink {
    ghost use Rattle.std.specs.Prelude.{length};
    ghost use Rattle.tm_io.specs.SinkState.{SinkState, sink_seen, refuses_write};

    ghost seen = { sink_seen };

    fn write(&mut self, piece: &[u8]) -> Result<usize, Failed>
        // The piece is refused exactly where the write is made to fail or the room is short.
        ensures refused { IsErr result ↔ IsTrue (refuses_write self.old piece.now) }
        ensures taken { IfOk result (λ n. n ≡ min (length piece.now) self.old.most) }
        ensures ok { IfOk result (λ n. self.new ≡ record self.old {
          calls = counted self.old.calls;
          bytes = self.old.bytes ++ take n piece.now;
          room = self.old.room - n;
        }) }
        ensures err { OnErr result (self.new ≡ record self.old {
          calls = counted self.old.calls;
          faults = counted self.old.faults;
        }) }

        ensures goes_on { IfOk result (λ n. 0 < length piece.now → 0 < n) }
    {
        self.calls = self.calls.saturating_add(1);
        if is_listed(&self.fail, self.calls) || piece.len() > self.room {
            self.faults = self.faults.saturating_add(1);
            return Err(Failed);
        }
        let n = piece.len().min(self.most);
        // The room is reserved, so this can't fail.
        let _ = self.bytes.extend_from_slice(&piece[..n]);
        self.room -= n;
        Ok(n)
    }
}

#[cfg(test)]
mod tests {
    use super::*;

    #[test]
    fn takes_the_first_bytes_and_no_more_than_its_room(rt: HostRuntime) -> Result<(), Memory> {
        let mut sink = MemSink::new(rt.alloc(), 2, &[])?;
        assert_eq!(rt; sink.write(b"a"), Err(Failed));
        sink.room(4)?;
        sink.room(3)?;
        assert_eq!(rt; sink.write(b"abcd"), Ok(2));
        assert_eq!(rt; sink.write(b"cde"), Err(Failed));
        assert_eq!(rt; sink.write(b""), Ok(0));
        assert_eq!(rt; sink.write(b"cd"), Ok(2));
        assert_eq!(rt; sink.write(b"e"), Err(Failed));
        assert_eq!(rt; sink.bytes(), b"abcd".as_slice());
        sink.room(1)?;
        assert_eq!(rt; sink.write(b"e"), Ok(1));
        assert_eq!(rt; sink.bytes(), b"abcde".as_slice());
        Ok(())
    }

    #[test]
    fn fails_the_writes_of_the_listed_numbers(rt: HostRuntime) -> Result<(), Memory> {
        let mut sink = MemSink::new(rt.alloc(), 9, &[2, 4])?;
        sink.room(9)?;
        let mut taken = [false; 5];
        for take in taken.iter_mut() {
            *take = sink.write(b"x").is_ok();
        }
        assert_eq!(rt; taken, [true, false, true, false, true]);
        assert_eq!(rt; sink.bytes(), b"xxx".as_slice());
        Ok(())
    }
}
