//! A shelf in memory.

ghost use Rattle.std.specs.Prelude.{◌≡◌, ◌≢◌, ℕ, ◌<◌, ◌≤◌, ◌↔◌, List, [], Some, None, false, length, IsTrue, IsErr, IsSomeAnd, IfOk, OnOk, OnErr, if◌then◌else◌, vec_capacity};
ghost use Rattle.std.specs.Option.{option_copied};
ghost use Rattle.tm_io.specs.Counts.{counted, is_listed};
ghost use Rattle.tm_io.specs.NamedRooms.{ChangesOnly, content_in, room_in, made_room};

use crate::counts::is_listed;
use crate::named_rooms::NamedRooms;
use crate::refill::refill;
use crate::{GetFault, Memory, PutFault, Shelf};
use std::alloc::Global;
use std::marker::Model;

/// A shelf that holds its contents, and fails the calls that it is told to fail.
#[derive(Drop)]
pub struct MemShelf {
    rooms: NamedRooms,
    fail: Vec<u64>,
    calls: u64,
    gets: u64,
    puts: u64,
}

impl Model for MemShelf {
    ghost use Rattle.tm_io.specs.ShelfState.{ShelfState};

    ghost Value = { ShelfState };

    ghost view = { λ s. record { calls = s.calls; fail = s.fail.items; gets = s.gets; puts = s.puts; rooms = s.rooms.list.items } };
}

impl MemShelf {
    ghost use Rattle.tm_io.specs.ShelfState.{ShelfState};

    /// An empty shelf without room. The gets and puts whose numbers, counted from 1 over both, stand
    /// in `fail` will fail.
    pub fn new(alloc: Global, fail: &[u64]) -> Result<MemShelf, Memory>
        ensures { IfOk result (λ shelf. shelf ≡ record { calls = 0; fail = fail.now; gets = 0; puts = 0; rooms = [] }) }
    {
        Ok(MemShelf {
            rooms: NamedRooms::new(alloc),
            fail: Vec::from_slice(alloc, fail)?,
            calls: 0,
            gets: 0,
            puts: 0,
        })
    }

    /// Gives the name these bytes, and room for as many, or keeps the room where that is more. This
    /// is no call that can be made to fail.
    pub fn add(&mut self, name: &str, bytes: &[u8]) -> Result<(), Memory>
        ensures ok { OnOk result (ChangesOnly self.old.rooms self.new.rooms name.now
            (Some bytes.now) (Some (made_room (room_in self.old.rooms name.now) (length bytes.now)))) }
        ensures counts_stay { self.new ≡ record self.old { rooms = self.new.rooms } }
        ensures err { OnErr result (self.new ≡ self.old) }
    {
        self.rooms.make_room(name, bytes.len())?;
        // There is room now, so this can't be refused.
        let _ = self.rooms.put(name, bytes);
        Ok(())
    }

    /// Makes room for a content of so many bytes under the name, which need not be there yet, or
    /// keeps the room where that is more.
    pub fn room(&mut self, name: &str, bytes: usize) -> Result<(), Memory>
        ensures ok { OnOk result (ChangesOnly self.old.rooms self.new.rooms name.now
            (content_in self.old.rooms name.now) (Some (made_room (room_in self.old.rooms name.now) bytes))) }
        ensures counts_stay { self.new ≡ record self.old { rooms = self.new.rooms } }
        ensures err { OnErr result (self.new ≡ self.old) }
    {
        self.rooms.make_room(name, bytes)
    }

    /// The content under the name, `None` exactly where it isn't there.
    pub fn content(&self, name: &str) -> Option<&[u8]>
        ensures { option_copied result ≡ content_in self.now.rooms name.now }
    {
        self.rooms.content(name)
    }

    /// Counts a call, and says whether it is made to fail.
    fn next_call_fails(&mut self) -> bool
        ensures fails { result ≡ is_listed self.old.fail (counted self.old.calls) }
        ensures calls { self.new ≡ record self.old { calls = counted self.old.calls } }
    {
        self.calls = self.calls.saturating_add(1);
        is_listed(&self.fail, self.calls)
    }

    /// Counts a fault of a get.
    fn get_fault(&mut self) -> GetFault
        ensures fault { result ≡ GetFault.Failed }
        ensures gets { self.new ≡ record self.old { gets = counted self.old.gets } }
    {
        self.gets = self.gets.saturating_add(1);
        GetFault::Failed
    }
}

impl Shelf for MemShelf {
    ghost use Rattle.std.specs.Prelude.{ℕ, ◌<◌, ◌≤◌, List, length, IsTrue};
    ghost use Rattle.tm_io.specs.NamedRooms.{content_in, room_in};
    ghost use Rattle.tm_io.specs.Shelf.{held};
    ghost use Rattle.tm_io.specs.ShelfState.{ShelfState, shelf_seen, refuses_get, refuses_put};

    ghost seen = { shelf_seen };

    fn get(&mut self, name: &str, limit: u64, into: &mut Vec<u8>) -> Result<(), GetFault>
        // The call fails exactly where it is made to fail or the name isn't there.
        ensures failed { (result ≡ Err GetFault.Failed) ↔ IsTrue (refuses_get self.old name.now) }
        ensures too_long { (result ≡ Err GetFault.TooLong) ↔
            ((refuses_get self.old name.now ≡ false) × IsSomeAnd (content_in self.old.rooms name.now) (λ bytes. limit < length bytes)) }
        ensures found { OnOk result (content_in self.old.rooms name.now ≡ Some into.new.items) }
        ensures within { OnOk result (length into.new.items ≤ limit) }
        ensures into_stays { OnErr result (into.new.items ≡ into.old.items) }
        // There is never want of memory where `into` has room enough.
        ensures memory { result ≡ Err GetFault.Memory →
            IsSomeAnd (content_in self.old.rooms name.now) (λ bytes. vec_capacity into.old < length bytes) }
        ensures counts { self.new ≡ record self.old {
          calls = counted self.old.calls;
          gets = if refuses_get self.old name.now then counted self.old.gets else self.old.gets;
        } }
    {
        if self.next_call_fails() {
            return Err(self.get_fault());
        }
        let Some(bytes) = self.rooms.content(name) else {
            return Err(self.get_fault());
        };
        if bytes.len() as u64 > limit {
            return Err(GetFault::TooLong);
        }
        refill(into, bytes)?;
        Ok(())
    }

    fn put(&mut self, name: &str, bytes: &[u8]) -> Result<(), PutFault>
        // The call fails exactly where it is made to fail or the room is short.
        ensures failed { IsErr result ↔ IsTrue (refuses_put self.old name.now bytes.now) }
        ensures ok { OnOk result (content_in self.new.rooms ≡ held (content_in self.old.rooms) name.now bytes.now) }
        ensures err { OnErr result (self.new.rooms ≡ self.old.rooms) }
        ensures counts { self.new ≡ record self.old {
          calls = counted self.old.calls;
          puts = if refuses_put self.old name.now bytes.now then counted self.old.puts else self.old.puts;
          rooms = self.new.rooms;
        } }
        ensures rooms_stay { room_in self.new.rooms ≡ room_in self.old.rooms }
    {
        if self.next_call_fails() || !self.rooms.put(name, bytes) {
            self.puts = self.puts.saturating_add(1);
            return Err(PutFault::Failed);
        }
        Ok(())
    }
}

#[cfg(test)]
mod tests {
    use super::*;

    fn holds(shelf: &MemShelf, name: &str, bytes: &[u8]) -> bool {
        shelf.content(name) == Some(bytes)
    }

    #[test]
    fn gets_within_the_limit(rt: HostRuntime) -> Result<(), Memory> {
        let mut shelf = MemShelf::new(rt.alloc(), &[])?;
        shelf.add("a", b"xyz")?;
        let mut into = Vec::from_slice(rt.alloc(), b"before")?;
        assert_eq!(rt; shelf.get("a", 2, &mut into), Err(GetFault::TooLong));
        assert_eq!(rt; shelf.get("b", 9, &mut into), Err(GetFault::Failed));
        assert_eq!(rt; into.as_slice(), b"before".as_slice());
        assert_eq!(rt; shelf.get("a", 3, &mut into), Ok(()));
        assert_eq!(rt; into.as_slice(), b"xyz".as_slice());
        Ok(())
    }

    #[test]
    fn puts_within_the_room(rt: HostRuntime) -> Result<(), Memory> {
        let mut shelf = MemShelf::new(rt.alloc(), &[])?;
        assert_eq!(rt; shelf.put("a", b""), Err(PutFault::Failed));
        shelf.room("a", 2)?;
        assert_eq!(rt; shelf.put("a", b"123"), Err(PutFault::Failed));
        assert!(rt; shelf.content("a").is_none());
        assert_eq!(rt; shelf.put("a", b"12"), Ok(()));
        assert_eq!(rt; shelf.put("a", b""), Ok(()));
        assert!(rt; holds(&shelf, "a", b""));
        Ok(())
    }

    #[test]
    fn keeps_the_greater_room(rt: HostRuntime) -> Result<(), Memory> {
        let mut shelf = MemShelf::new(rt.alloc(), &[])?;
        shelf.add("a", b"xyz")?;
        shelf.add("b", b"1")?;
        shelf.add("a", b"u")?;
        shelf.room("a", 2)?;
        assert_eq!(rt; shelf.put("a", b"uvwx"), Err(PutFault::Failed));
        assert_eq!(rt; shelf.put("a", b"uvw"), Ok(()));
        assert!(rt; holds(&shelf, "a", b"uvw"));
        assert!(rt; holds(&shelf, "b", b"1"));
        Ok(())
    }

    #[test]
    fn fails_the_calls_of_the_listed_numbers(rt: HostRuntime) -> Result<(), Memory> {
        let mut shelf = MemShelf::new(rt.alloc(), &[1, 4])?;
        shelf.add("a", b"x")?;
        let mut into = Vec::new(rt.alloc());
        assert_eq!(rt; shelf.get("a", 9, &mut into), Err(GetFault::Failed));
        assert_eq!(rt; shelf.get("a", 9, &mut into), Ok(()));
        assert_eq!(rt; shelf.put("a", b"y"), Ok(()));
        assert_eq!(rt; shelf.put("a", b"z"), Err(PutFault::Failed));
        assert_eq!(rt; shelf.put("a", b"z"), Ok(()));
        assert!(rt; holds(&shelf, "a", b"z"));
        Ok(())
    }

    // Run with each allocation failing in turn.
    #[test]
    fn want_of_memory_leaves_all(rt: HostRuntime) -> Result<(), Memory> {
        let mut shelf = MemShelf::new(rt.alloc(), &[])?;
        shelf.add("a", b"x")?;
        let mut into = Vec::new(rt.alloc());
        match shelf.add("a", b"longer") {
            Ok(()) => assert!(rt; holds(&shelf, "a", b"longer")),
            Err(_) => assert!(rt; holds(&shelf, "a", b"x")),
        }
        match shelf.add("b", b"y") {
            Ok(()) => assert!(rt; holds(&shelf, "b", b"y")),
            Err(_) => assert!(rt; shelf.content("b").is_none()),
        }
        if shelf.room("c", 5).is_err() {
            assert_eq!(rt; shelf.put("c", b"z"), Err(PutFault::Failed));
        }
        match shelf.get("a", 9, &mut into) {
            Ok(()) => assert!(rt; holds(&shelf, "a", &into)),
            Err(fault) => assert_eq!(rt; fault, GetFault::Memory),
        }
        Ok(())
    }
}
