//! The names of a shelf in memory, looked up one after another.

ghost use Rattle.std.specs.Prelude.{◌≡◌, ℕ, [], Some, List, length, position, MatchBool, OnOk, OnErr};
ghost use Rattle.std.specs.Option.{option_copied};
ghost use Rattle.tm_io.specs.NamedRooms.{ChangesOnly, has_name, content_in, room_in, is_enough, made_room};

use crate::Memory;
use crate::named_room::NamedRoom;
use std::alloc::Global;

/// The names for which room was made.
#[derive(Drop)]
pub(crate) struct NamedRooms {
    list: Vec<NamedRoom>,
}

impl NamedRooms {
    pub(crate) fn new(alloc: Global) -> NamedRooms
        ensures { result.list.items ≡ [] }
    {
        NamedRooms {
            list: Vec::new(alloc),
        }
    }

    fn position(&self, name: &str) -> Option<usize>
        ensures { result ≡ position (has_name name.now) self.now.list.items }
    {
        self.list.iter().position(|room| room.has_name(name))
    }

    /// The content under the name, where it is there.
    pub(crate) fn content(&self, name: &str) -> Option<&[u8]>
        ensures { option_copied result ≡ content_in self.now.list.items name.now }
    {
        self.list[self.position(name)?].content()
    }

    /// Makes room for a content of so many bytes under the name, or keeps the room where that is
    /// more.
    pub(crate) fn make_room(&mut self, name: &str, bytes: usize) -> Result<(), Memory>
        ensures ok { OnOk result (ChangesOnly self.old.list.items self.new.list.items name.now
            (content_in self.old.list.items name.now) (Some (made_room (room_in self.old.list.items name.now) bytes))) }
        ensures err { OnErr result (self.new.list.items ≡ self.old.list.items) }
    {
        match self.position(name) {
            Some(i) => {
                let room = &mut self.list[i];
                room.make_room(bytes)
            }
            None => {
                let alloc = *self.list.allocator();
                self.list.push(NamedRoom::new(alloc, name, bytes)?)?;
                Ok(())
            }
        }
    }

    /// Makes these bytes the content under the name, where it has room for them, and says so.
    pub(crate) fn put(&mut self, name: &str, bytes: &[u8]) -> bool
        ensures room { result ≡ is_enough (room_in self.old.list.items name.now) (length bytes.now) }
        ensures change { MatchBool result
            (ChangesOnly self.old.list.items self.new.list.items name.now (Some bytes.now) (room_in self.old.list.items name.now))
            (self.new.list.items ≡ self.old.list.items) }
    {
        let Some(i) = self.position(name) else {
            return false;
        };
        let room = &mut self.list[i];
        if bytes.len() > room.room() {
            return false;
        }
        room.put(bytes);
        true
    }
}
