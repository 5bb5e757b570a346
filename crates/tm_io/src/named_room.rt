//! A name with the room reserved for its content.

ghost use Rattle.std.specs.Prelude.{◌≡◌, ◌≤◌, Some, None, length, max, IfOk, OnOk, OnErr};
ghost use Rattle.std.specs.Option.{option_copied};
ghost use Rattle.tm_io.specs.NamedRooms.{has_name};

use crate::Memory;
use std::alloc::Global;
use std::marker::Model;

/// A name, and its content where it is there, in a buffer with room for `room` bytes.
#[derive(Drop)]
pub(crate) struct NamedRoom {
    name: String,
    is_there: bool,
    bytes: Vec<u8>,
    room: usize,
}

impl Model for NamedRoom {
    ghost use Rattle.std.specs.Prelude.{◌≤◌, Some, None, if◌then◌else◌, string_bytes, vec_capacity};
    ghost use Rattle.tm_io.specs.NamedRooms.{NamedRoom};

    ghost Value = { NamedRoom };

    ghost view = { λ n. record { name = string_bytes n.name; content = if n.is_there then Some n.bytes.items else None; room = n.room } };

    ghost invariant = { λ n. n.room ≤ vec_capacity n.bytes };
}

impl NamedRoom {
    /// A name that isn't there yet, with room for so many bytes.
    pub(crate) fn new(alloc: Global, name: &str, room: usize) -> Result<NamedRoom, Memory>
        ensures { IfOk result (λ made. made ≡ record { name = name.now; content = None; room = room }) }
    {
        Ok(NamedRoom {
            name: String::from_str(alloc, name)?,
            is_there: false,
            bytes: Vec::with_capacity(alloc, room)?,
            room,
        })
    }

    pub(crate) fn has_name(&self, name: &str) -> bool
        ensures { result ≡ has_name name.now self.now }
    {
        self.name.as_str() == name
    }

    pub(crate) fn room(&self) -> usize
        ensures { result ≡ self.now.room }
    {
        self.room
    }

    pub(crate) fn content(&self) -> Option<&[u8]>
        ensures { option_copied result ≡ self.now.content }
    {
        self.is_there.then_some(self.bytes.as_slice())
    }

    /// Makes room for so many bytes, or keeps the room where that is more.
    pub(crate) fn make_room(&mut self, bytes: usize) -> Result<(), Memory>
        ensures ok { OnOk result (self.new ≡ record self.old { room = max self.old.room bytes }) }
        ensures err { OnErr result (self.new ≡ self.old) }
    {
        if bytes > self.room {
            self.bytes.reserve(bytes.saturating_sub(self.bytes.len()))?;
            self.room = bytes;
        }
        Ok(())
    }

    /// Makes these bytes the content.
    pub(crate) fn put(&mut self, bytes: &[u8])
        requires { length bytes.now ≤ self.old.room }
        ensures { self.new ≡ record self.old { content = Some bytes.now } }
    {
        self.bytes.clear();
        // The room is reserved, so this can't fail.
        let _ = self.bytes.extend_from_slice(bytes);
        self.is_there = true;
    }
}
