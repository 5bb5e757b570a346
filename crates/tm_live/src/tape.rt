//! The tape: the slices that a recorder was given, in room that was taken before.

ghost use Rattle.std.specs.Prelude.{◌≡◌, ◌<◌, [], All, IfOk};
ghost use Rattle.tm_image.specs.Plan.{IsSlice};
ghost use Rattle.tm_live.specs.Tape.{taped};

use std::alloc::{AllocError, Global};
use std::marker::Model;
use tm_marker::Slice;

/// A list of slices and room for more of them. Contracts see the slices and the room.
#[derive(Drop)]
pub struct Tape {
    slices: Vec<Slice>,
    room: u32,
}

impl Model for Tape {
    ghost use Rattle.std.specs.Prelude.{◌+◌, ◌≤◌, All, vec_len, vec_capacity};
    ghost use Rattle.tm_image.specs.Plan.{IsSlice};
    ghost use Rattle.tm_live.specs.Tape.{TapeView};

    ghost Value = { TapeView };

    ghost view = { λ t. record { slices = t.slices.items; room = t.room } };

    ghost invariant = { λ t. All IsSlice t.slices.items × (vec_len t.slices + t.room ≤ vec_capacity t.slices) };
}

impl Tape {
    /// An empty tape with room for so many slices, all of whose memory is taken here.
    ///
    /// # Errors
    ///
    /// There is too little memory for the room.
    pub fn new(alloc: Global, room: u32) -> Result<Self, AllocError>
        ensures { IfOk result (λ tape. tape ≡ record { slices = []; room = room }) }
    {
        Ok(Tape {
            slices: Vec::with_capacity(alloc, room as usize)?,
            room,
        })
    }

    /// The slices, in order.
    pub fn slices(&self) -> &[Slice]
        ensures slices { result.now ≡ self.now.slices }
        ensures sound { All IsSlice self.now.slices }
    {
        self.slices.as_slice()
    }

    /// For how many more slices there is room.
    pub fn room(&self) -> u32
        ensures { result ≡ self.now.room }
    {
        self.room
    }

    /// Adds a slice at the end, where there is room. It takes no memory.
    pub fn push(&mut self, slice: Slice)
        requires room { 0 < self.old.room }
        requires sound { IsSlice slice }
        ensures { self.new ≡ taped self.old slice }
    {
        // The room is reserved, so this can't fail.
        let _ = self.slices.push(slice);
        self.room -= 1;
    }
}
